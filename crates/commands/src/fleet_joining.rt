//! The summaries of files, joined.
use crate::fleet_counts::Counts;
use crate::fleet_files::{push_part, whole};
use crate::fleet_recording::lines_of;
use command_line::{Input, Manner};
use console::{Fault, TraceAt, Voice};
use fleet_summary::Name;
use fleet_text::{Basis, JoinFault, PartSummary, ReadFault, join_parts, read_summary};
use std::alloc::{AllocError, Global};
use std::fmt::Display;
use std::str;

/// That something of a file is no summary, or can't be counted beside what was counted before it.
pub(crate) fn bad_summary<D: Display + Drop>(
    alloc: Global,
    voice: Voice<'_>,
    at: TraceAt<'_>,
    why: D,
) -> Result<Fault, AllocError> {
    let name = voice.file();
    let file: String = format!(in alloc; "{name}")?;
    Ok(Fault::BadSummary(file, voice.text(format_args!("{at}: {why}"))))
}

/// Where a summary stands.
#[derive(Clone, Copy)]
struct PartAt<'a> {
    path: &'a str,
    line: usize,
}

/// Summaries that were read, of traces as they are, or of one change that was tried in them.
#[derive(Drop)]
struct Parts<'a> {
    /// Those in which replies are counted.
    counted: Vec<PartSummary>,
    /// Where each of these stands.
    places: Vec<PartAt<'a>>,
    /// The first one in which none is. It counts nothing, so that it may be of other ticks.
    empty: Option<PartSummary>,
}

impl<'a> Parts<'a> {
    /// None.
    fn new(alloc: Global) -> Parts<'a> {
        Parts {
            counted: Vec::new(alloc),
            places: Vec::new(alloc),
            empty: None,
        }
    }

    /// One more.
    fn push(&mut self, part: PartSummary, at: PartAt<'a>) -> Result<(), AllocError> {
        if part.summary.replies.count > 0 {
            self.counted.push(part)?;
            self.places.push(at)?;
        } else if self.empty.is_none() {
            self.empty = Some(part);
        }
        Ok(())
    }

    /// Whether they are of this change, or where there is none of traces as they are.
    fn are_of(&self, tried: Option<&Name>) -> bool {
        let own = match self.counted.first() {
            Some(part) => Some(part),
            None => self.empty.as_ref(),
        };
        match own {
            Some(part) => part.basis.tried.as_ref() == tried,
            None => false,
        }
    }
}

/// The summaries of some files: those of traces as they are, and those of each change that was tried, in the order of their first ones.
#[derive(Drop)]
struct Kinds<'a> {
    kinds: Vec<Parts<'a>>,
    alloc: Global,
}

impl<'a> Kinds<'a> {
    /// One summary more.
    fn push(&mut self, part: PartSummary, at: PartAt<'a>) -> Result<(), AllocError> {
        for number in 0..self.kinds.len() {
            if let Some(parts) = self.kinds.get_mut(number) {
                if parts.are_of(part.basis.tried.as_ref()) {
                    return parts.push(part, at);
                }
            }
        }
        let mut parts = Parts::new(self.alloc);
        parts.push(part, at)?;
        self.kinds.push(parts)?;
        Ok(())
    }
}

/// The line of this number.
fn line(number: usize) -> TraceAt<'static> {
    TraceAt { number, id: None }
}

/// The summary that a line holds.
fn summary_of(
    alloc: Global,
    voice: Voice<'_>,
    number: usize,
    text: &[u8],
) -> Result<PartSummary, Fault> {
    let read = match str::from_utf8(text) {
        Ok(text) => read_summary(alloc, text),
        Err(_) => Err(ReadFault::NotJson),
    };
    match read {
        Ok(part) => Ok(part),
        Err(ReadFault::Memory) => Err(Fault::Memory),
        Err(fault) => Err(bad_summary(alloc, voice, line(number), fault)?),
    }
}

/// Reads the summaries of a file, each on one line.
fn read_file<'a>(
    alloc: Global,
    voice: Voice<'_>,
    path: &'a str,
    bytes: &[u8],
    kinds: &mut Kinds<'a>,
) -> Result<(), Fault> {
    let lines = lines_of(alloc, bytes)?;
    for (line, text) in &lines {
        let part = summary_of(alloc, voice, *line, text)?;
        kinds.push(part, PartAt { path, line: *line })?;
    }
    Ok(())
}

/// In what the numbers of a summary are of something else than those of the first one.
fn difference(first: &Basis, other: &Basis) -> &'static str {
    if first.by != other.by {
        "its groups are by service and those of the first summary by span, or the other way round"
    } else if first.unit != other.unit {
        "its ticks are of another unit than those of the first summary"
    } else {
        "its replies are of other spans than those of the first summary"
    }
}

/// That the numbers of a summary are of something else than those of the first one.
fn of_other(
    rt: &HostRuntime,
    manner: Manner,
    at: PartAt<'_>,
    why: &'static str,
) -> Result<Fault, AllocError> {
    let voice = Voice::new(rt, manner, Input::of(Some(at.path)));
    bad_summary(rt.alloc(), voice, line(at.line), why)
}

/// Summaries of one kind, joined, if there are some; where each is empty, that is one of them.
fn join_kind(
    rt: &HostRuntime,
    manner: Manner,
    parts: Parts<'_>,
) -> Result<Option<PartSummary>, Fault> {
    let Parts {
        counted,
        places,
        empty,
    } = parts;
    let Some((first, others)) = counted.as_slice().split_first() else {
        return Ok(empty);
    };
    match join_parts(rt.alloc(), first, others) {
        Ok(joined) => Ok(Some(joined)),
        Err(JoinFault::Memory) => Err(Fault::Memory),
        Err(JoinFault::OtherBasis(index)) => {
            let at = places.as_slice().get(index.saturating_add(1));
            match (others.get(index), at) {
                (Some(other), Some(at)) => {
                    let why = difference(&first.basis, &other.basis);
                    Err(of_other(rt, manner, *at, why)?)
                }
                // (each summary stands somewhere)
                _ => Err(Fault::BadSummary(String::new(rt.alloc()), None)),
            }
        }
    }
}

/// Where the first of some summaries stands in which replies are counted.
fn first_of<'a>(parts: &Parts<'a>, files: &[&'a str]) -> PartAt<'a> {
    match (parts.places.first(), files.first()) {
        (Some(at), _) => *at,
        (None, Some(path)) => PartAt { path, line: 1 },
        (None, None) => PartAt { path: "-", line: 1 },
    }
}

/// What is wrong with the summary of a change beside that of the traces as they are, if something is.
fn mismatch(whole: &PartSummary, tried: &PartSummary) -> Option<&'static str> {
    if whole.summary.replies.count != tried.summary.replies.count {
        return Some("a change was tried in other traces than the summaries count");
    }
    let counts = whole.summary.replies.count > 0;
    let is_same = whole.basis.by == tried.basis.by
        && whole.basis.unit == tried.basis.unit
        && whole.basis.reply == tried.basis.reply;
    if counts && !is_same {
        return Some(difference(&whole.basis, &tried.basis));
    }
    None
}

/// The joined summaries of each kind.
#[derive(Drop)]
struct Joined<'a> {
    whole: Option<PartSummary>,
    tries: Vec<PartSummary>,
    /// Where the first summary of each change stands.
    places: Vec<PartAt<'a>>,
}

impl<'a> Joined<'a> {
    /// None.
    fn new(alloc: Global) -> Joined<'a> {
        Joined {
            whole: None,
            tries: Vec::new(alloc),
            places: Vec::new(alloc),
        }
    }

    /// One more.
    fn push(&mut self, part: PartSummary, at: PartAt<'a>) -> Result<(), AllocError> {
        if part.basis.tried.is_none() {
            self.whole = Some(part);
            return Ok(());
        }
        self.tries.push(part)?;
        self.places.push(at)?;
        Ok(())
    }

    /// What was counted, if something was: in each change as in the traces as they are.
    fn counts(self, rt: &HostRuntime, manner: Manner) -> Result<Option<Counts>, Fault> {
        let Joined {
            whole,
            tries,
            places,
        } = self;
        let Some(whole) = whole else {
            return match places.first() {
                Some(at) => Err(of_other(rt, manner, *at, UNFOUNDED)?),
                None => Ok(None),
            };
        };
        let mut counted = Vec::new(rt.alloc());
        for (tried, at) in tries.into_iter().zip(places) {
            if tried.summary.replies.count == 0 && whole.summary.replies.count > 0 {
                continue;
            }
            if let Some(why) = mismatch(&whole, &tried) {
                return Err(of_other(rt, manner, at, why)?);
            }
            push_part(&mut counted, tried)?;
        }
        Ok(Some(Counts {
            whole,
            tries: counted,
        }))
    }
}

/// Why a change alone is not answered of.
const UNFOUNDED: &str = "a change was tried, and no summary is of the traces as they are";

/// The summaries of files, joined, if there are some: those of the traces as they are, and those of each change that was tried.
pub(crate) fn join_files<'a>(
    rt: &'a HostRuntime,
    manner: Manner,
    files: &[&'a str],
) -> Result<Option<Counts>, Fault> {
    let alloc = rt.alloc();
    let mut kinds = Kinds {
        kinds: Vec::new(alloc),
        alloc,
    };
    for path in files {
        let input = Input::of(Some(*path));
        let voice = Voice::new(rt, manner, input);
        let bytes = whole(rt, voice, input)?;
        read_file(alloc, voice, *path, &bytes, &mut kinds)?;
    }
    let Kinds { kinds, .. } = kinds;
    let mut joined = Joined::new(alloc);
    for parts in kinds {
        let at = first_of(&parts, files);
        if let Some(part) = join_kind(rt, manner, parts)? {
            joined.push(part, at)?;
        }
    }
    joined.counts(rt, manner)
}
