//! The checks that a stage has to pass in its graph.
use crate::finding::StageFault;
use crate::findings::Findings;
use crate::items::item_count;
use crate::operation::{Operation, operation_of};
use crate::site::Site;
use crate::stage::TimeForm;
use json_names::items_of;
use json_trees::Tree;
use std::alloc::AllocError;

/// The members of a stage that are lists, what is told of the length of each, and the most that it may be.
const LISTS: &[(&str, &str, u64)] = &[
    ("sources", "the number of sources", 1024),
    ("inner", "the number of inner stages", 1024),
    ("ends", "the number of ends", 16),
];

fn is_name_byte(byte: u8) -> bool {
    byte.is_ascii_alphanumeric() || matches!(byte, b'_' | b'-' | b'.')
}

/// Whether a text is a name of a stage.
pub(crate) fn is_name(text: &str) -> bool {
    let bytes = text.as_bytes();
    match bytes {
        [] | [b'-' | b'.', ..] => false,
        _ => bytes.len() <= 64 && bytes.iter().all(|byte| is_name_byte(*byte)),
    }
}

/// How large a member is, and 0 where it is not there.
fn count_of(object: &Tree<'_, '_>, member: &str) -> u64 {
    match object.get(member) {
        Some(count) => count.as_u64().unwrap_or(0),
        None => 0,
    }
}

/// That a text is no name of a stage.
fn name_fault<'a>(name: Option<&str>) -> Option<StageFault<'a>> {
    match name {
        Some(name) if !is_name(name) => Some(StageFault::BadName),
        _ => None,
    }
}

/// That an operation takes other sources, inner stages or actions than a stage has.
fn arity_fault<'a>(
    stage: &Tree<'_, '_>,
    operation: &'a str,
    taken: Operation,
) -> Option<StageFault<'a>> {
    let given = item_count(stage, "sources");
    let inner = item_count(stage, "inner");
    let acts = stage.get("action").is_some();
    match taken.sources {
        Some(wanted) if wanted != given => Some(StageFault::Sources {
            operation,
            wanted,
            given,
        }),
        _ if inner > 0 && !taken.picks => Some(StageFault::Inner {
            operation,
            given: inner,
        }),
        _ if taken.acts && !acts => Some(StageFault::ActionMissing { operation }),
        _ if acts && !taken.acts => Some(StageFault::ActionGiven { operation }),
        _ => None,
    }
}

/// Looks at how many sources, inner stages and ends there are.
pub(crate) fn look_at_numbers<'a>(
    findings: &mut Findings<'a>,
    site: Site<'a>,
    object: &Tree<'_, '_>,
) -> Result<(), AllocError> {
    for (member, what, most) in LISTS {
        let number = item_count(object, member) as u64;
        if number > *most {
            findings.limit(site, what, number, *most)?;
        }
    }
    Ok(())
}

/// That an end is set before the creation.
fn creation_fault<'a>(stage: &Tree<'_, '_>) -> Option<StageFault<'a>> {
    let created = count_of(stage, "created");
    let mut ends = items_of(stage, "ends");
    for index in 0..usize::MAX {
        let end = ends.next()?;
        match moment_of(&end) {
            Some(at) if at < created => {
                return Some(StageFault::EndBeforeCreated { index, at, created });
            }
            _ => {}
        }
    }
    None
}

/// When an end is set, where that is told.
fn moment_of(end: &Tree<'_, '_>) -> Option<u64> {
    end.get("at")?.as_u64()
}

/// The operation of a stage, where it is told.
fn operation_in<'a>(stage: &Tree<'_, 'a>) -> Option<&'a str> {
    stage.get("op")?.as_str()
}

/// Whether the stage takes time.
fn takes_time(form: TimeForm, stage: &Tree<'_, '_>) -> bool {
    match form {
        TimeForm::One => count_of(stage, "takes") > 0,
        TimeForm::Two => count_of(stage, "queued") > 0 || count_of(stage, "runs") > 0,
    }
}

/// That a stage whose operation has no action takes time.
fn time_fault<'a>(
    form: TimeForm,
    stage: &Tree<'_, '_>,
    operation: &'a str,
    taken: Operation,
) -> Option<StageFault<'a>> {
    if !taken.acts && takes_time(form, stage) {
        Some(StageFault::NoAction { operation })
    } else {
        None
    }
}

/// Looks at the checks of a stage by itself: its name, its numbers, its ends, its times.
pub(crate) fn look_at_checks<'a>(
    findings: &mut Findings<'a>,
    site: Site<'a>,
    form: TimeForm,
    stage: &Tree<'_, 'a>,
) -> Result<(), AllocError> {
    findings.stage_fault(site, name_fault(site.name()))?;
    look_at_numbers(findings, site, stage)?;
    findings.stage_fault(site, creation_fault(stage))?;
    let Some(name) = operation_in(stage) else {
        return Ok(());
    };
    match operation_of(name) {
        Some(taken) => {
            findings.stage_fault(site, arity_fault(stage, name, taken))?;
            findings.stage_fault(site, time_fault(form, stage, name, taken))
        }
        None => Ok(()),
    }
}
