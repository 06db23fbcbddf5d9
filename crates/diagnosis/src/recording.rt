//! What is found in a recording.
use crate::findings::Findings;
use crate::items::item_count;
use crate::members::{Member, look_at_all, look_at_member};
use crate::names::Names;
use crate::repeated::{Holder, Repeated, add_repeated_of_stage, repeated_in_recording};
use crate::site::{Path, Site};
use crate::stage::{TimeForm, form_warning, look_at_members, time_of_form_two};
use crate::stage_checks::look_at_checks;
use crate::stages::Stages;
use crate::wanted::Wanted;
use json_names::items_of;
use json_trees::{Items, Tree};
use std::alloc::{AllocError, Global};

/// A recording has at most so many stages.
pub(crate) const MOST_STAGES: usize = 65_536;

/// The names of the members of a recording.
pub(crate) const RECORDING_MEMBERS: &[&str] = &["form", "wrap", "stages"];

/// The members of a recording before its stages.
const FIRST_MEMBERS: &[Member] = &[
    Member::Optional("form", Wanted::Form),
    Member::Optional("wrap", Wanted::Wrap),
];

const STAGES: Member = Member::Needed("stages", Wanted::Stages);

/// Looks at whether stages have the names that a list of feeds has.
fn look_at_feeds<'a>(
    findings: &mut Findings<'a>,
    names: &mut Names<'a>,
    site: Site<'a>,
    told: &'static str,
    feeds: &mut Items<'_, 'a>,
) -> Result<(), AllocError> {
    for _ in 0..u64::MAX {
        let Some(feed) = feeds.next() else {
            break;
        };
        if let Some(name) = feed.as_str() {
            findings.stage_fault(site, names.feed_fault(told, name)?)?;
        }
    }
    Ok(())
}

/// The form of the times that a member says, as far as it can be read.
pub(crate) fn form_said(form: &Tree<'_, '_>) -> TimeForm {
    match form.as_i64() {
        Some(1) => TimeForm::One,
        _ => TimeForm::Two,
    }
}

/// The form of the times of a recording.
pub(crate) fn form_of(recording: &Tree<'_, '_>) -> TimeForm {
    match recording.get("form") {
        Some(form) => form_said(&form),
        None => TimeForm::One,
    }
}

/// Looks at a stage of the recording by itself, and not at the names of others.
pub(crate) fn look_at_shape<'a>(
    findings: &mut Findings<'a>,
    form: TimeForm,
    site: Site<'a>,
    stage: &Tree<'_, 'a>,
) -> Result<(), AllocError> {
    if stage.is_object() {
        look_at_members(findings, site, form, stage)
    } else {
        findings.wrong(Path::of(site), stage, Wanted::Stage)
    }
}

/// Looks at a stage of the recording.
pub(crate) fn look_at_stage<'a>(
    findings: &mut Findings<'a>,
    names: &mut Names<'a>,
    form: TimeForm,
    site: Site<'a>,
    stage: &Tree<'_, 'a>,
) -> Result<(), AllocError> {
    look_at_shape(findings, form, site, stage)?;
    if !stage.is_object() {
        return Ok(());
    }
    findings.stage_fault(site, names.taken_fault(site))?;
    look_at_checks(findings, site, form, stage)?;
    look_at_feeds(
        findings,
        names,
        site,
        "source",
        &mut items_of(stage, "sources"),
    )?;
    look_at_feeds(
        findings,
        names,
        site,
        "inner stage",
        &mut items_of(stage, "inner"),
    )
}

/// Looks at each stage, as far as there may be so many, and at how many there are.
fn look_at_each<'a>(
    findings: &mut Findings<'a>,
    form: TimeForm,
    recording: &Tree<'_, 'a>,
) -> Result<(), AllocError> {
    let mut names = Names::of(findings.alloc(), &mut items_of(recording, "stages"))?;
    let mut stages = Stages::of(recording);
    for _ in 0..MOST_STAGES {
        let Some((site, stage)) = stages.next() else {
            break;
        };
        look_at_stage(findings, &mut names, form, site, &stage)?;
    }
    match stages.next() {
        Some((site, _)) => {
            let (number, most) = (item_count(recording, "stages") as u64, MOST_STAGES as u64);
            findings.limit(site, "the number of stages", number, most)
        }
        None => Ok(()),
    }
}

/// Looks at times that form 1 does not read.
fn look_at_unread_times<'a>(
    findings: &mut Findings<'a>,
    recording: &Tree<'_, 'a>,
) -> Result<(), AllocError> {
    let mut first = None;
    let mut more = 0usize;
    let mut stages = Stages::of(recording);
    for _ in 0..u64::MAX {
        let Some((site, stage)) = stages.next() else {
            break;
        };
        if let Some(member) = time_of_form_two(&stage) {
            match first {
                None => first = Some((site, member)),
                Some(_) => more = more.saturating_add(1),
            }
        }
    }
    match first {
        Some((site, member)) => findings.warning(form_warning(site, member, more)),
        None => Ok(()),
    }
}

/// Keeps the warnings of members that stand more than once, which come in the order of the stages.
fn warn_of_repeated<'a>(
    findings: &mut Findings<'a>,
    recording: &Tree<'_, 'a>,
    repeated: &[Repeated],
) -> Result<(), AllocError> {
    let mut stages = Stages::of(recording);
    let mut site = Site::Recording;
    for found in repeated {
        match found.spot.holder {
            Holder::Stage(place) => {
                site = stages.go_to(place, site);
                findings.warning(found.warning(site))?;
            }
            _ => findings.warning(found.warning(Site::Recording))?,
        }
    }
    Ok(())
}

/// Looks at a recording.
fn look_at_recording<'a>(
    findings: &mut Findings<'a>,
    recording: &Tree<'_, 'a>,
) -> Result<(), AllocError> {
    let path = Path::of(Site::Recording);
    if !recording.is_object() {
        return findings.wrong(path, recording, Wanted::Recording);
    }
    look_at_all(findings, path, recording, FIRST_MEMBERS)?;
    findings.unread(path, recording, RECORDING_MEMBERS)?;
    look_at_member(findings, path, recording, STAGES)?;
    let form = form_of(recording);
    look_at_each(findings, form, recording)?;
    match form {
        TimeForm::One => look_at_unread_times(findings, recording),
        TimeForm::Two => Ok(()),
    }
}

/// Every fault of a recording, but for stages that wait for each other, every member that nothing reads, and every one that
/// stands more than once. It takes time by the number of bytes, and by that of the names for the first mistaken ones of
/// these.
pub fn examine_recording<'a>(
    alloc: Global,
    recording: &Tree<'_, 'a>,
) -> Result<Findings<'a>, AllocError> {
    let mut findings = Findings::new(alloc);
    look_at_recording(&mut findings, recording)?;
    let repeated = repeated_in_recording(alloc, recording)?;
    warn_of_repeated(&mut findings, recording, repeated.as_slice())?;
    Ok(findings)
}

/// What is found at some stages of a recording by themselves: at those that are objects or arrays and have one of these numbers among
/// these, from 0, in order.
pub(crate) fn examine_stages<'a>(
    alloc: Global,
    recording: &Tree<'_, 'a>,
    numbers: &[usize],
) -> Result<Findings<'a>, AllocError> {
    let mut findings = Findings::new(alloc);
    let mut repeated = Vec::new(alloc);
    let form = form_of(recording);
    let mut numbers = numbers.iter();
    let mut wanted = numbers.next();
    let mut number = 0usize;
    let mut stages = Stages::of(recording);
    for place in 0..usize::MAX {
        let Some((site, stage)) = stages.next() else {
            break;
        };
        if !stage.is_object() && !stage.is_array() {
            continue;
        }
        if wanted == Some(&number) {
            if place < MOST_STAGES {
                look_at_shape(&mut findings, form, site, &stage)?;
            }
            add_repeated_of_stage(alloc, place, &stage, &mut repeated)?;
            wanted = numbers.next();
        }
        number = number.saturating_add(1);
    }
    warn_of_repeated(&mut findings, recording, repeated.as_slice())?;
    Ok(findings)
}

/// The name of a stage of a recording that is most like one that no stage has.
pub fn nearest_stage<'a>(
    alloc: Global,
    recording: &Tree<'_, 'a>,
    name: &str,
) -> Result<Option<&'a str>, AllocError> {
    let mut names = Names::of(alloc, &mut items_of(recording, "stages"))?;
    names.near(name)
}
