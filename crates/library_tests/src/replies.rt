//! What a reply came to, and each group's what-if against the edits that make it.
use crate::versions::{edited, held_edits, opened};
use fleet_facts::facts_of;
use fleet_summary::{Name, TraceFacts};
use level_pool::OneThread;
use span_groups::{Grouping, StageOf, counts_to, grouping_of};
use std::alloc::{AllocError, Global};
use std::process::Abort;
use std::test::Fail;
use std::thread::Threads;
use version_store::{StateRepresentation, Version};

/// Two calls side by side, of which one fails and is handled, and what is made of both.
const TWO_CALLS: &str = r#"{"form":2,"stages":[{"name":"start","op":"async","action":0},
    {"name":"stock","op":"thenRun","sources":["start"],"runs":10,"action":0},
    {"name":"price","op":"thenRun","sources":["start"],"queued":2,"runs":30,"action":0},
    {"name":"both","op":"allOf","sources":["stock","price"]},
    {"name":"page","op":"thenRun","sources":["both"],"runs":5,"action":["throw","X"]},
    {"name":"reply","op":"whenComplete","sources":["page"],"runs":1,"action":0}]}"#;

/// Names, one for each span.
fn names(alloc: Global, texts: &[&str]) -> Result<Vec<Name>, AllocError> {
    let mut names = Vec::new(alloc);
    for text in texts {
        names.push(Name::new(alloc, text.as_bytes())?)?;
    }
    Ok(names)
}

/// Each stage is work of the span at its place.
fn own_stages(alloc: Global, count: usize) -> Result<Vec<Option<StageOf>>, AllocError> {
    let mut stages = Vec::new(alloc);
    for span in 0..count {
        stages.push(Some(StageOf {
            span,
            is_work: true,
            is_end: true,
        }))?;
    }
    Ok(stages)
}

/// The groups of spans of these names, of which each has one stage.
fn grouping(alloc: Global, texts: &[&str]) -> Result<Grouping, AllocError> {
    let names = names(alloc, texts)?;
    let stages = own_stages(alloc, texts.len())?;
    grouping_of(alloc, names.as_slice(), stages.as_slice())
}

/// Whether a group of these facts has a name and these numbers: its spans, whether it is on the path, how long it ran and was
/// queued there, and when the reply comes without it.
fn has_group(
    facts: &TraceFacts,
    name: &str,
    spans: u64,
    is_on_path: bool,
    ran: u64,
    queued: u64,
    time_then: u64,
) -> bool {
    facts.groups.iter().any(|group| {
        group.name.bytes() == name.as_bytes()
            && group.spans == spans
            && group.is_on_path == is_on_path
            && group.ran == ran
            && group.queued == queued
            && group.time_then == time_then
    })
}

/// Whether the failure of a reply is this one.
fn failed_by(facts: &TraceFacts, exception: &str, group: &str) -> bool {
    match &facts.failure {
        Some(failure) => {
            failure.exception.bytes() == exception.as_bytes()
                && failure.group.bytes() == group.as_bytes()
        }
        None => false,
    }
}

/// Two calls of one group gain together what neither gains alone.
fn two_calls<R: StateRepresentation>(rt: &impl Abort, alloc: Global) -> Result<(), Fail> {
    let version: Version<R> = opened(alloc, TWO_CALLS)?;
    let texts = ["front", "calls", "calls", "front", "view", "front"];
    let grouping = grouping(alloc, &texts)?;
    assert!(rt; grouping.groups.len() == 3);
    let found = facts_of(alloc, &version, 5, &grouping)?;
    let Some(facts) = found else {
        return Err(Fail::new("the reply is pending"));
    };
    assert!(rt; facts.time == 38);
    assert!(rt; failed_by(&facts, "X", "view"));
    assert!(rt; has_group(&facts, "calls", 2, true, 30, 2, 6));
    assert!(rt; has_group(&facts, "view", 1, true, 5, 0, 33));
    assert!(rt; has_group(&facts, "front", 3, true, 1, 0, 37));
    Ok(())
}

/// The name of the stage at a place, if it has an action that takes time.
fn slow_stage<R: StateRepresentation>(version: &Version<R>, place: u32) -> Option<&str> {
    let stage = version.graph().stage(place)?;
    let takes_time = stage.action.is_some() && (stage.queued > 0 || stage.runs > 0);
    if takes_time {
        Some(stage.name.as_str())
    } else {
        None
    }
}

/// The step that gives the actions of a group no time; none where none of them takes any.
fn no_time<R: StateRepresentation>(
    alloc: Global,
    version: &Version<R>,
    grouping: &Grouping,
    number: usize,
) -> Result<Option<String>, AllocError> {
    let mut edits = String::new(alloc);
    for place in 0..version.graph().len() as u32 {
        if !counts_to(grouping.stages.as_slice(), number, place) {
            continue;
        }
        if let Some(name) = slow_stage(version, place) {
            let before = if edits.is_empty() { "" } else { "," };
            let edit = format!(in alloc;
                "{before}{{\"do\":\"setTimes\",\"stage\":\"{name}\",\"queued\":0,\"runs\":0}}"
            )?;
            edits.push_str(edit.as_str())?;
        }
    }
    if edits.is_empty() {
        return Ok(None);
    }
    Ok(Some(format!(in alloc; "{{\"do\":\"edits\",\"session\":1,\"edits\":[{edits}]}}")?))
}

/// The tick at which a reply comes by a draft in which the actions of a group take no time.
fn time_by_draft<R: StateRepresentation, H: Abort + Threads + Sync>(
    rt: &H,
    alloc: Global,
    version: &Version<R>,
    grouping: &Grouping,
    number: usize,
    reply: u32,
    time: u64,
) -> Result<u64, Fail> {
    let Some(step) = no_time(alloc, version, grouping, number)? else {
        return Ok(time);
    };
    let edits = held_edits(alloc, step.as_str())?;
    let drafted = edited(alloc, &OneThread::new(rt), version, &edits)?;
    let moment = drafted.moment(reply)?;
    Ok(moment.unwrap_or(time))
}

/// Each group's what-if is the draft of its edits, for the reply at a place.
fn agree_at<R: StateRepresentation, H: Abort + Threads + Sync>(
    rt: &H,
    alloc: Global,
    version: &Version<R>,
    grouping: &Grouping,
    reply: u32,
) -> Result<(), Fail> {
    if version.graph().stage(reply).is_none() {
        return Ok(());
    }
    let Some(facts) = facts_of(alloc, version, reply, grouping)? else {
        return Ok(());
    };
    for (number, group) in facts.groups.iter().enumerate() {
        let then = time_by_draft(rt, alloc, version, grouping, number, reply, facts.time)?;
        assert!(rt; group.time_then == then);
    }
    Ok(())
}

/// The same for each place of a version, whose stages are of three groups in turn.
pub(crate) fn agree<R: StateRepresentation, H: Abort + Threads + Sync>(
    rt: &H,
    alloc: Global,
    version: &Version<R>,
) -> Result<(), Fail> {
    let words = ["a", "b", "c"];
    let count = version.graph().len();
    let mut texts = Vec::new(alloc);
    for place in 0..count {
        texts.push(words[place % 3])?;
    }
    let grouping = grouping(alloc, texts.as_slice())?;
    for reply in 0..count as u32 {
        agree_at(rt, alloc, version, &grouping, reply)?;
    }
    Ok(())
}

pub(crate) fn hold<R: StateRepresentation, H: Abort>(rt: &H, alloc: Global) -> Result<(), Fail> {
    two_calls::<R>(rt, alloc)
}
