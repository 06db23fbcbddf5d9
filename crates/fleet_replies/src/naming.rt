//! The groups of the stages of a recording, and its reply, by the names of its stages as an import gives them: a service, a dot, the name of
//! a span, and where there are several a dot and a number; and behind these a dot and an ending, but for the stage that ends when its
//! span did.
use fleet_summary::{GroupBy, Name};
use propagate::StateRepresentation;
use span_groups::{Grouping, StageOf, grouping_of};
use std::alloc::{AllocError, Global};
use std::collections::BTreeMap;
use tried_changes::last_stage;
use version_store::Version;

/// What the name of each stage but one has behind that of its span.
const ENDINGS: [&str; 6] = ["start", "join", "work", "tried", "limit", "answer"];

/// The ending of a stage that is a limit to its span, and no work of it.
const LIMIT: &str = "limit";

/// The name of a stage up to its first dot, and up to its second one.
fn parts_of(name: &str) -> (&str, &str) {
    let Some((service, rest)) = name.split_once('.') else {
        return (name, name);
    };
    let Some((_, behind)) = rest.split_once('.') else {
        return (service, name);
    };
    match name.strip_suffix(behind) {
        Some(base) => (service, base.strip_suffix('.').unwrap_or(base)),
        None => (service, name),
    }
}

/// The ending of a name, without its number; none where there is none.
fn ending_of(name: &str) -> Option<&str> {
    let (_, base) = parts_of(name);
    let behind = name.strip_prefix(base)?.rsplit_once('.')?.1;
    let ending = match behind.split_once('-') {
        Some((ending, _)) => ending,
        None => behind,
    };
    if ENDINGS.iter().any(|it| *it == ending) {
        Some(ending)
    } else {
        None
    }
}

/// The name of the group of a stage.
fn group_of(by: GroupBy, name: &str) -> &str {
    let (service, base) = parts_of(name);
    match by {
        GroupBy::Span => base,
        GroupBy::Service => service,
    }
}

/// The name of the span of a stage: what stands before the dot of its ending, where it has one.
fn span_of(name: &str) -> &str {
    match (ending_of(name), name.rsplit_once('.')) {
        (Some(_), Some((span, _))) => span,
        _ => name,
    }
}

/// The spans of a recording.
#[derive(Drop)]
struct NamedSpans {
    /// The names of their groups.
    groups: Vec<Name>,
    /// Their numbers, by their names.
    numbers: BTreeMap<Name, usize>,
}

/// The spans of a recording: each stage that has no ending is the end of one.
fn spans_of<R: StateRepresentation>(
    alloc: Global,
    by: GroupBy,
    version: &Version<R>,
) -> Result<NamedSpans, AllocError> {
    let graph = version.graph();
    let mut groups = Vec::new(alloc);
    let mut numbers = BTreeMap::new(alloc);
    for place in 0..graph.len() as u32 {
        let name = graph.name_of(place);
        if ending_of(name).is_none() {
            numbers.insert(Name::new(alloc, name.as_bytes())?, groups.len())?;
            groups.push(Name::new(alloc, group_of(by, name).as_bytes())?)?;
        }
    }
    Ok(NamedSpans { groups, numbers })
}

/// The groups of the stages of a recording: each stage that has no ending is the end of a span, and the others are of the spans that
/// their names name.
pub(crate) fn name_grouping<R: StateRepresentation>(
    alloc: Global,
    by: GroupBy,
    version: &Version<R>,
) -> Result<Grouping, AllocError> {
    let graph = version.graph();
    let spans = spans_of(alloc, by, version)?;
    let mut stages = Vec::new(alloc);
    for place in 0..graph.len() as u32 {
        let name = graph.name_of(place);
        let ending = ending_of(name);
        let span = Name::new(alloc, span_of(name).as_bytes())?;
        stages.push(match spans.numbers.get(&span) {
            Some(span) => Some(StageOf {
                span: *span,
                is_work: ending != Some(LIMIT),
                is_end: ending.is_none(),
            }),
            None => None,
        })?;
    }
    grouping_of(alloc, spans.groups.as_slice(), stages.as_slice())
}

/// The stage of the span that a recording begins with, where it is of a trace.
fn root_place<R: StateRepresentation>(version: &Version<R>) -> Option<u32> {
    let root = version.graph().name_of(0).strip_suffix(".start")?;
    version.id_of(root).ok()
}

/// The first stage of a name, or of a group of that name.
fn named_place<R: StateRepresentation>(version: &Version<R>, name: &str) -> Option<u32> {
    if let Ok(place) = version.id_of(name) {
        return Some(place);
    }
    let graph = version.graph();
    for place in 0..graph.len() as u32 {
        let own = graph.name_of(place);
        if ending_of(own).is_none() && group_of(GroupBy::Span, own) == name {
            return Some(place);
        }
    }
    None
}

/// Where the reply of a recording stands: the stage that is asked for; or else the end of the root of a trace, or the stage that
/// completes last.
pub(crate) fn named_reply<R: StateRepresentation>(
    version: &Version<R>,
    wanted: Option<&str>,
) -> Option<u32> {
    match wanted {
        Some(name) => named_place(version, name),
        None => match root_place(version) {
            Some(place) => Some(place),
            None => last_stage(version),
        },
    }
}
