//! What a JSON text is that is a trace, and no recording.
use json_trees::Tree;
use std::fmt;

/// That a text looks like a trace, of which `import` makes a recording.
#[derive(Clone, Copy)]
pub struct TraceLike;

/// The members of which each makes an object a trace.
const OF_TRACES: [&str; 5] = [
    "resourceSpans",
    "data",
    "batches",
    "scopeSpans",
    "instrumentationLibrarySpans",
];

/// The members in which an answer has a trace.
const AROUND_TRACES: [&str; 2] = ["result", "trace"];

fn has(value: &Tree<'_, '_>, member: &str) -> bool {
    value.get(member).is_some()
}

/// Whether an object has a trace in the member.
fn is_around(value: &Tree<'_, '_>, member: &str) -> bool {
    match value.get(member) {
        Some(inner) => has(&inner, "resourceSpans"),
        None => false,
    }
}

/// Whether an object has the members of a trace or a span of Jaeger's.
fn is_of_jaeger(value: &Tree<'_, '_>) -> bool {
    has(value, "traceID") && (has(value, "spans") || has(value, "spanID"))
}

/// Whether an object is a trace and no recording.
fn is_trace(value: &Tree<'_, '_>) -> bool {
    let has_spans = OF_TRACES.iter().any(|member| has(value, member))
        || AROUND_TRACES.iter().any(|member| is_around(value, member))
        || is_of_jaeger(value);
    has_spans && !has(value, "stages")
}

/// Whether an object has the members of a span of Zipkin's.
fn is_zipkin_span(value: &Tree<'_, '_>) -> bool {
    has(value, "traceId") && has(value, "id")
}

/// Whether a value is what a list of traces has for elements.
fn is_element(value: &Tree<'_, '_>) -> bool {
    is_trace(value) || is_zipkin_span(value)
}

/// The first element of an array.
fn first_of<'t, 'a>(value: &Tree<'t, 'a>) -> Option<Tree<'t, 'a>> {
    let mut items = value.as_array()?;
    items.next()
}

/// Whether a value is a list of traces or of Zipkin's spans, or a list of such lists.
fn is_list(value: &Tree<'_, '_>) -> bool {
    let Some(first) = first_of(value) else {
        return false;
    };
    if is_element(&first) {
        return true;
    }
    match first_of(&first) {
        Some(inner) => is_element(&inner),
        None => false,
    }
}

/// Whether a value looks like a trace and not like a recording.
pub fn trace_like(value: &Tree<'_, '_>) -> Option<TraceLike> {
    if is_trace(value) || is_list(value) {
        Some(TraceLike)
    } else {
        None
    }
}

impl fmt::Display for TraceLike {
    fn fmt<W: fmt::Write>(&self, f: &mut fmt::Formatter<W>) -> fmt::Result {
        f.write_str("it looks like a trace: whatif import makes a recording of it")
    }
}
