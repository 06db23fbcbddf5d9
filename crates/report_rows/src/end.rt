//! The ends of stages, as reports name them.
ghost use Rattle.std.specs.Prelude.{◌≡◌, count_by, option_copied};
ghost use Rattle.report_rows.specs.Ends.{delay_in, end_at, end_of, end_text, is_only_in, is_only_timeout, is_timeout};

use stage_graph::{Act, End, Graph, Representation, Stage};

/// The end of an index.
pub(crate) fn end_of(stage: &Stage, index: usize) -> Option<&End>
    ensures { option_copied result ≡ end_of index stage.now }
{
    stage.ends.as_slice().get(index)
}

/// The end of an index of the stage at a place.
pub(crate) fn end_at<R: Representation>(graph: &Graph<R>, place: u32, index: usize) -> Option<&End>
    ensures { option_copied result ≡ end_at graph.now place index }
{
    match graph.stage(place) {
        Some(stage) => end_of(stage, index),
        None => None,
    }
}

/// The kind of an end, by its name in recordings.
pub(crate) fn end_text(end: Option<&End>) -> &'static str
    ensures { result.now ≡ end_text (option_copied end.entry) }
{
    let Some(end) = end else {
        return "";
    };
    match end.act {
        Act::Complete(_) => "complete",
        Act::CompleteExceptionally(_) => "completeExceptionally",
        Act::Cancel => "cancel",
        Act::OrTimeout { .. } => "orTimeout",
        Act::CompleteOnTimeout { .. } => "completeOnTimeout",
    }
}

/// How long after it was set a timeout acts; none of other ends.
pub(crate) fn delay_in(end: Option<&End>) -> Option<u64>
    ensures { result ≡ delay_in (option_copied end.entry) }
{
    match end?.act {
        Act::OrTimeout { delay } => Some(delay),
        Act::CompleteOnTimeout { delay, .. } => Some(delay),
        _ => None,
    }
}

/// Whether an end is a timeout.
fn is_timeout(end: &End) -> bool
    ensures { result ≡ is_timeout end.now }
{
    delay_in(Some(end)).is_some()
}

/// How many of the ends are timeouts.
fn timeout_count(ends: &[End]) -> usize
    ensures { result ≡ count_by is_timeout ends.now }
{
    ends.iter().filter(|end| is_timeout(end)).count()
}

/// Whether the end of an index is the one timeout of a stage.
fn is_only_in(stage: &Stage, index: usize) -> bool
    ensures { result ≡ is_only_in index stage.now }
{
    delay_in(end_of(stage, index)).is_some() && timeout_count(stage.ends.as_slice()) == 1
}

/// Whether the end of an index is the one timeout of the stage at a place.
pub(crate) fn is_only_timeout<R: Representation>(graph: &Graph<R>, place: u32, index: usize) -> bool
    ensures { result ≡ is_only_timeout graph.now place index }
{
    match graph.stage(place) {
        Some(stage) => is_only_in(stage, index),
        None => false,
    }
}
