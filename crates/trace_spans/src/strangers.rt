//! What a text has that tells no spans.
use crate::strange::{Strange, StrangeKind};
use crate::text::{Text, TextList};
use json_trees::Tree;
use std::alloc::{AllocError, Global};

/// The most members that are told.
const MOST_TOLD: usize = 8;

/// The names of an object's first members.
fn member_names(alloc: Global, text: &Tree<'_, '_>) -> Result<Option<TextList>, AllocError> {
    let Some(mut members) = text.members() else {
        return Ok(None);
    };
    let mut names = TextList::new(alloc);
    'members: while let Some((name, _)) = members.next() {
        if names.as_slice().len() < MOST_TOLD {
            names.push(Text::new(alloc, name)?)?;
        }
    }
    Ok(Some(names))
}

/// Whether an object has both members.
fn has_both(text: &Tree<'_, '_>, first: &str, second: &str) -> bool {
    text.get(first).is_some() && text.get(second).is_some()
}

/// Whose traces a text may be.
pub(crate) fn kind_of(text: &Tree<'_, '_>) -> Option<StrangeKind> {
    if has_both(text, "trace_id", "start_time")
        || text.get("Segments").is_some()
        || text.get("Traces").is_some()
    {
        Some(StrangeKind::XRay)
    } else if has_both(text, "trace_id", "span_id") || has_both(text, "traceid", "spanid") {
        Some(StrangeKind::Datadog)
    } else if text.get("trace.trace_id").is_some() {
        Some(StrangeKind::Honeycomb)
    } else if text.get("traceEvents").is_some() || has_both(text, "ph", "ts") {
        Some(StrangeKind::Chrome)
    } else if text.get("hits").is_some() || has_both(text, "processor", "transaction") {
        Some(StrangeKind::Elastic)
    } else {
        None
    }
}

/// What a text has that tells no spans; nothing where memory is out.
#[cold]
pub(crate) fn strange(alloc: Global, text: &Tree<'_, '_>) -> Strange {
    Strange {
        members: member_names(alloc, text).unwrap_or(None),
        kind: kind_of(text),
        line: 0,
    }
}
