//! One stage of a recording, read by itself.
use crate::finding::Finding;
use crate::findings::Findings;
use crate::lines::ObjectLines;
use crate::names::Names;
use crate::outline::{Outline, StageText};
use crate::reading::read_again;
use crate::recording::{MOST_STAGES, form_said, look_at_shape, look_at_stage};
use crate::site::Site;
use crate::stage::TimeForm;
use crate::written_names::names_in_texts;
use json::Scratch;
use json_names::name_of;
use json_trees::Tree;
use std::alloc::{AllocError, Global};

/// The number by which a wrong form is refused.
const WRONG_FORM: u32 = 71;

/// A stage of a recording.
#[derive(Clone, Copy)]
pub struct StageAt<'a> {
    outline: Outline<'a>,
    place: usize,
    stage: StageText<'a>,
    /// The text of the stage before, and nothing where there is none.
    before: &'a [u8],
}

/// The stage of a place, where it is found without reading the others: by the names of the recording's members as they are
/// written.
pub fn stage_at<'a>(recording: &'a [u8], place: usize) -> Option<StageAt<'a>> {
    let outline = Outline::of(recording);
    if !outline.is_plain() || place >= MOST_STAGES {
        return None;
    }
    let mut stages = outline.stages();
    let mut before: &[u8] = b"";
    for _ in 0..place {
        before = stages.next()?.text;
    }
    Some(StageAt {
        outline,
        place,
        stage: stages.next()?,
        before,
    })
}

/// Whether a member of this name is one of the recording as a whole.
fn is_of_recording(member: &str) -> bool {
    matches!(member, "recording" | "form" | "wrap")
}

/// The first stage of which the member has a wrong form, where it is found so too. Each stage before it is read, by itself.
pub fn first_wrong_stage<'a>(
    alloc: Global,
    recording: &'a [u8],
    member: &str,
) -> Result<Option<StageAt<'a>>, AllocError> {
    let outline = Outline::of(recording);
    if is_of_recording(member) || !outline.is_plain() || !outline.has_array_of_stages() {
        return Ok(None);
    }
    let form = form_in(alloc, outline)?;
    let mut stages = outline.stages();
    let mut before: &[u8] = b"";
    for place in 0..MOST_STAGES {
        let Some(stage) = stages.next() else {
            break;
        };
        let found = StageAt {
            outline,
            place,
            stage,
            before,
        };
        if found.is_wrong(alloc, form, member)? {
            return Ok(Some(found));
        }
        before = stage.text;
    }
    Ok(None)
}

/// The form of the times of a recording.
fn form_in(alloc: Global, outline: Outline<'_>) -> Result<TimeForm, AllocError> {
    let Some(text) = outline.form() else {
        return Ok(TimeForm::One);
    };
    let mut room = Scratch::new(alloc);
    match read_again(alloc, text, &mut room)? {
        Some(form) => Ok(form_said(&form.root())),
        None => Ok(TimeForm::One),
    }
}

/// Where the stage of a place stands.
fn site_at<'a>(place: usize, name: Option<&'a str>, before: Option<&'a str>) -> Site<'a> {
    Site::Stage {
        place,
        name,
        before,
    }
}

/// Whether the member of the stage of a place has a wrong form, or the stage has one itself.
fn is_wrong_at<'a>(
    alloc: Global,
    place: usize,
    form: TimeForm,
    member: &str,
    stage: &Tree<'_, 'a>,
) -> Result<bool, AllocError> {
    let site = site_at(place, name_of(stage), None);
    let mut findings = Findings::new(alloc);
    look_at_shape(&mut findings, form, site, stage)?;
    let wrong = findings.explanation(WRONG_FORM, None, Some(member));
    Ok(wrong.is_some())
}

impl<'a> StageAt<'a> {
    /// Whether its member has a wrong form, or it has one itself.
    fn is_wrong(self, alloc: Global, form: TimeForm, member: &str) -> Result<bool, AllocError> {
        let mut room = Scratch::new(alloc);
        match read_again(alloc, self.stage.text, &mut room)? {
            Some(document) => is_wrong_at(alloc, self.place, form, member, &document.root()),
            None => Ok(false),
        }
    }

    /// The names of the recording's stages, where a fault of the number is about these; nothing where they can't be told without
    /// reading the stages.
    fn names(self, alloc: Global, number: u32) -> Result<Option<Names<'a>>, AllocError> {
        match number {
            11 | 14 => names_in_texts(alloc, self.outline),
            _ => Ok(Some(Names::none(alloc))),
        }
    }

    /// What is found in the stage, where it is found without reading the others: each fault of the number at least.
    pub fn examine(
        self,
        alloc: Global,
        number: u32,
        room: &'a mut Scratch,
        room_before: &'a mut Scratch,
    ) -> Result<Option<Findings<'a>>, AllocError> {
        let Some(mut names) = self.names(alloc, number)? else {
            return Ok(None);
        };
        let form = form_in(alloc, self.outline)?;
        let Some(document) = read_again(alloc, self.stage.text, room)? else {
            return Ok(None);
        };
        let stage = document.root();
        let before = name_in(alloc, self.before, room_before)?;
        let site = site_at(self.place, name_of(&stage), before);
        let mut findings = Findings::new(alloc);
        look_at_stage(&mut findings, &mut names, form, site, &stage)?;
        Ok(Some(findings))
    }

    /// The line, from 1, on which a fault of it stands, where that is known.
    pub fn line_of(
        self,
        alloc: Global,
        finding: &Finding<'_>,
    ) -> Result<Option<usize>, AllocError> {
        if !self.outline.has_stages_once() {
            return Ok(None);
        }
        let mut stages = self.outline.stages();
        let line = stages.line_of(self.stage);
        let lines = ObjectLines::of(alloc, self.stage.text, line)?;
        Ok(Some(lines.line_at(finding.path())))
    }
}

/// The name of the stage that a text is, where it is one with a name.
fn name_in<'a>(
    alloc: Global,
    text: &'a [u8],
    room: &'a mut Scratch,
) -> Result<Option<&'a str>, AllocError> {
    match read_again(alloc, text, room)? {
        Some(document) => Ok(name_of(&document.root())),
        None => Ok(None),
    }
}
