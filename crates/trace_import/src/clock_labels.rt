//! The clocks that are moved, as labels of a recording.
ghost use Rattle.std.specs.Prelude.{◌≡◌, IfOk, map, slice_get, string_bytes};
ghost use Rattle.std.specs.Fmt.{signed_decimal};
ghost use Rattle.recording_text.specs.Labels.{plain_label};
ghost use Rattle.trace_import.specs.ClockLabels.{plain_clock, told_clock, told_clocks};

use recording_text::Label;
use std::alloc::{AllocError, Global};
use std::collections::BTreeMap;
use trace_relations::Moved;
use trace_spans::Span;

/// A clock as it is told, and by how many nanoseconds it is moved.
#[derive(Drop)]
pub(crate) struct ClockText {
    pub clock: String,
    pub by: String,
}

/// The clock of the span at a place, as it is told.
fn clock_told(alloc: Global, spans: &[Span], place: usize) -> Result<String, AllocError>
    ensures { IfOk result (λ text. string_bytes text ≡ told_clock (slice_get spans.now place)) }
{
    match spans.get(place) {
        Some(span) => Ok(span.clock.told(alloc)?.into_string()),
        None => Ok(String::new(alloc)),
    }
}

/// By how many nanoseconds a clock is moved.
fn by_told(alloc: Global, moved: Moved) -> Result<String, AllocError>
    ensures { IfOk result (λ text. string_bytes text ≡ signed_decimal moved.by) }
{
    let by = moved.by;
    format!(in alloc; "{by}")
}

/// The clocks that are moved, as they are told, in the order of their texts; of several that are told alike the last.
pub(crate) fn clock_texts(
    alloc: Global,
    spans: &[Span],
    moved: &[Moved],
) -> Result<Vec<ClockText>, AllocError>
    ensures { IfOk result (λ texts. map plain_clock texts.items ≡ told_clocks spans.now moved.now) }
{
    let mut by_text = BTreeMap::new(alloc);
    for clock in moved {
        let by = by_told(alloc, *clock)?;
        by_text.insert(clock_told(alloc, spans, clock.clock)?, by)?;
    }
    let mut texts = Vec::new(alloc);
    for (clock, by) in by_text {
        texts.push(ClockText { clock, by })?;
    }
    Ok(texts)
}

/// These as labels.
pub(crate) fn labels_of_clocks<'a>(
    alloc: Global,
    clocks: &'a [ClockText],
) -> Result<Vec<Label<'a>>, AllocError>
    ensures { IfOk result (λ labels. map plain_label labels.items ≡ map plain_clock clocks.now) }
{
    let mut labels = Vec::with_capacity(alloc, clocks.len())?;
    for clock in clocks {
        labels.push(Label {
            name: clock.clock.as_str(),
            text: clock.by.as_str(),
        })?;
    }
    Ok(labels)
}
