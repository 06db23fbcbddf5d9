//! Why a step was refused, by its line and the answer.
use crate::finding::{BAD_NAME, Finding, StageFault};
use crate::findings::Findings;
use crate::items::item_at;
use crate::known::KnownStages;
use crate::quoted::Quoted;
use crate::site::Site;
use crate::step::{name_of_new, stage_of};
use json_names::items_of;
use json_trees::{Items, Tree};
use std::alloc::AllocError;
use std::fmt;

/// The words of an answer `refused NUMBER NAME DETAIL in INDEX`.
#[derive(Clone, Copy)]
pub struct Refusal<'a> {
    pub number: u32,
    /// What follows the name, where something does.
    pub detail: Option<&'a str>,
    /// The index of the refused edit in its list.
    pub index: Option<usize>,
}

/// Why a step was refused.
#[derive(Clone, Copy)]
pub enum RefusedStep<'a> {
    /// What the step's line alone shows.
    Shown(&'a Finding<'a>),
    /// What the version shows.
    Stage {
        site: Site<'a>,
        fault: StageFault<'a>,
    },
    /// The number tells it, with the step's own numbers.
    Told {
        number: u32,
        detail: Option<&'a str>,
        session: Option<u64>,
        version: Option<u64>,
        stage: Option<&'a str>,
    },
}

/// What stands before the index of a refused edit, and the index, where one is told.
fn split_index(words: &str) -> (&str, Option<usize>) {
    match words.split_once(" in ") {
        Some((front, index)) => (front, index.parse::<usize>().ok()),
        None => (words, None),
    }
}

impl<'a> Refusal<'a> {
    /// The refusal that an answer's first line tells, if it tells one.
    pub fn of_answer(answer: &'a str) -> Option<Refusal<'a>> {
        let words = answer.strip_prefix("refused ")?;
        let (number, rest) = words.split_once(' ')?;
        let number = number.parse::<u32>().ok()?;
        let (name, index) = split_index(rest);
        let detail = match name.split_once(' ') {
            Some((_, detail)) => Some(detail),
            None => None,
        };
        Some(Refusal {
            number,
            detail,
            index,
        })
    }

    /// Whether it is explained by the names of stages.
    pub fn is_of_names(self) -> bool {
        matches!(self.number, 10 | 14)
    }
}

/// The edit of a step's list that was refused, if it was one of these.
fn refused_edit<'t, 'a>(step: &Tree<'t, 'a>, refusal: Refusal<'_>) -> Option<Tree<'t, 'a>> {
    item_at(step, "edits", refusal.index?)
}

fn site_of<'a>(edit: &Tree<'_, 'a>, index: Option<usize>) -> Site<'a> {
    let stage = stage_of(edit);
    match index {
        Some(index) => Site::Edit { index, stage },
        None => Site::Step { stage },
    }
}

/// The first of the names that is not known.
fn unknown_in<'a>(known: &KnownStages, names: &mut Items<'_, 'a>) -> Option<&'a str> {
    for _ in 0..u64::MAX {
        let name = names.next()?;
        match name.as_str() {
            Some(name) if !known.contains(name) => return Some(name),
            _ => {}
        }
    }
    None
}

/// The first source or inner stage of an edit that is not known, with its kind.
fn unknown_feed_in<'a>(
    known: &KnownStages,
    object: &Tree<'_, 'a>,
) -> Option<(&'static str, &'a str)> {
    if let Some(name) = unknown_in(known, &mut items_of(object, "sources")) {
        return Some(("source", name));
    }
    let name = unknown_in(known, &mut items_of(object, "inner"))?;
    Some(("inner stage", name))
}

/// The same of the stage that an edit adds, or of the edit itself.
fn unknown_feed<'a>(known: &KnownStages, edit: &Tree<'_, 'a>) -> Option<(&'static str, &'a str)> {
    match edit.get("new") {
        Some(new) => unknown_feed_in(known, &new),
        None => unknown_feed_in(known, edit),
    }
}

/// The name of a stage in a refused edit that no stage has.
#[derive(Clone, Copy)]
enum Mistaken<'a> {
    /// That of the stage that it names.
    Stage(&'a str),
    /// That of a source or of an inner stage, and which of these it is.
    Feed(&'static str, &'a str),
}

/// The name in an edit that no stage has, by the number of its refusal.
fn mistaken_in<'a>(known: &KnownStages, edit: &Tree<'_, 'a>, number: u32) -> Option<Mistaken<'a>> {
    match number {
        10 => Some(Mistaken::Stage(stage_of(edit)?)),
        14 => {
            let (member, name) = unknown_feed(known, edit)?;
            Some(Mistaken::Feed(member, name))
        }
        _ => None,
    }
}

/// That no stage has a name, and which one is like it.
fn stage_fault<'a>(
    known: &'a mut KnownStages,
    mistaken: Mistaken<'a>,
) -> Result<StageFault<'a>, AllocError> {
    match mistaken {
        Mistaken::Stage(name) => {
            let near = known.near(name)?;
            Ok(StageFault::NoStage { name, near })
        }
        Mistaken::Feed(member, name) => {
            let near = known.near(name)?;
            Ok(StageFault::NoSource { member, name, near })
        }
    }
}

/// The version that a step names.
fn version_of(step: &Tree<'_, '_>) -> Option<u64> {
    for member in ["version", "base", "against"] {
        if let Some(version) = number_in(step, member) {
            return Some(version);
        }
    }
    None
}

/// The whole number that a member of a step is.
fn number_in(step: &Tree<'_, '_>, member: &str) -> Option<u64> {
    step.get(member)?.as_u64()
}

/// What a refused step asks for, as far as it is told.
#[derive(Clone, Copy)]
pub struct AskedStep<'a> {
    site: Site<'a>,
    mistaken: Option<Mistaken<'a>>,
    session: Option<u64>,
    version: Option<u64>,
    stage: Option<&'a str>,
}

/// What a step asks for whose edit was refused, which is the step itself or one of its list.
fn asked_by<'t, 'a>(
    step: &Tree<'t, 'a>,
    edit: &Tree<'t, 'a>,
    index: Option<usize>,
    number: u32,
    known: &KnownStages,
) -> AskedStep<'a> {
    AskedStep {
        site: site_of(edit, index),
        mistaken: mistaken_in(known, edit, number),
        session: number_in(step, "session"),
        version: version_of(step),
        stage: stage_of(edit).or(name_of_new(edit)),
    }
}

/// What a refused step asks for.
pub fn asked_step<'a>(
    step: &Tree<'_, 'a>,
    refusal: Refusal<'_>,
    known: &KnownStages,
) -> AskedStep<'a> {
    match refused_edit(step, refusal) {
        Some(edit) => asked_by(step, &edit, refusal.index, refusal.number, known),
        None => asked_by(step, step, None, refusal.number, known),
    }
}

/// Why a step was refused: `findings` are those of its line.
pub fn explain_step<'a>(
    findings: &'a Findings<'a>,
    asked: AskedStep<'a>,
    refusal: Refusal<'a>,
    known: &'a mut KnownStages,
) -> Result<RefusedStep<'a>, AllocError> {
    if let Some(finding) = findings.explanation(refusal.number, None, refusal.detail) {
        return Ok(RefusedStep::Shown(finding));
    }
    if let Some(mistaken) = asked.mistaken {
        return Ok(RefusedStep::Stage {
            site: asked.site,
            fault: stage_fault(known, mistaken)?,
        });
    }
    Ok(RefusedStep::Told {
        number: refusal.number,
        detail: refusal.detail,
        session: asked.session,
        version: asked.version,
        stage: asked.stage,
    })
}

/// What a number tells that needs nothing of the step.
fn plain_text(number: u32) -> &'static str {
    match number {
        10 => "no stage of the version has the name",
        11 => "a stage of the version has the name already",
        12 => BAD_NAME,
        13 =>
            "the operation takes another number of sources, picks no inner stage, or has no action",
        14 => "a source or an inner stage is no stage of the version",
        15 => "a number is above its limit",
        16 => "an end is set before the stage is created",
        17 => "the operation has no action that could take time or be set",
        19 => "with these edits stages would wait for each other in a circle",
        20 => "the action has more than 256 nodes, or is deeper than 32",
        54 => "the session stands where it was opened, so nothing can be undone",
        55 => "65536 versions are there, and there may be no more",
        57 => "a session's number is from 1 to 65535",
        58 => "1024 sessions are open: close one first",
        _ => "the step was refused",
    }
}

fn write_number<W: fmt::Write>(
    what: &str,
    number: Option<u64>,
    f: &mut fmt::Formatter<W>,
) -> fmt::Result {
    match number {
        Some(number) => write!(f, "{what} {number}"),
        None => f.write_str(what),
    }
}

/// Writes that a session stands at another version than the base of a step, or than its script has seen where the step names none.
fn write_base<W: fmt::Write>(
    head: Option<&str>,
    base: Option<u64>,
    f: &mut fmt::Formatter<W>,
) -> fmt::Result {
    let head = head.unwrap_or("another");
    write!(f, " stands at version {head} by now")?;
    match base {
        Some(base) => write!(f, ", and the base is version {base}"),
        None => f.write_str(", as another script has moved it"),
    }
}

/// Writes what is told of a session.
fn write_session<W: fmt::Write>(
    number: u32,
    session: Option<u64>,
    version: Option<u64>,
    detail: Option<&str>,
    f: &mut fmt::Formatter<W>,
) -> fmt::Result {
    if number == 52 {
        f.write_str("there is no ")?;
        return write_number("version", version, f);
    }
    write_number("session", session, f)?;
    match number {
        50 => f.write_str(" is open already: close it first, or take another number"),
        51 => f.write_str(" is not open: open it first"),
        _ => write_base(detail, version, f),
    }
}

/// Writes the stage that a step or an edit names, before what is told of it.
fn write_stage<W: fmt::Write>(stage: Option<&str>, f: &mut fmt::Formatter<W>) -> fmt::Result {
    match stage {
        Some(stage) => {
            let stage = Quoted(stage);
            write!(f, "stage {stage}: ")
        }
        None => Ok(()),
    }
}

/// Writes what a number tells, with the stage that a stage feeds where it may not be removed.
fn write_reason<W: fmt::Write>(
    number: u32,
    detail: Option<&str>,
    f: &mut fmt::Formatter<W>,
) -> fmt::Result {
    match (number, detail) {
        (18, Some(fed)) => {
            let fed = Quoted(fed);
            write!(
                f,
                "it feeds stage {fed}: take it out of the sources and inner stages there first"
            )
        }
        _ => f.write_str(plain_text(number)),
    }
}

impl fmt::Display for RefusedStep<'_> {
    fn fmt<W: fmt::Write>(&self, f: &mut fmt::Formatter<W>) -> fmt::Result {
        match *self {
            RefusedStep::Shown(finding) => write!(f, "{finding}"),
            RefusedStep::Stage { site, fault } => write!(f, "{site}: {fault}"),
            RefusedStep::Told {
                number: number @ 50..=53,
                detail,
                session,
                version,
                ..
            } => write_session(number, session, version, detail, f),
            RefusedStep::Told {
                number,
                detail,
                stage,
                ..
            } => {
                write_stage(stage, f)?;
                write_reason(number, detail, f)
            }
        }
    }
}
