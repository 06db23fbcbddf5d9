//! Where the reply of a trace stands in its recording.
ghost use Rattle.std.specs.Prelude.{◌≤◌, IfOk, length, option_copied};
ghost use Rattle.fleet_replies.specs.Placed.{IsPlacing};

use fleet_summary::GroupBy;
use span_groups::Grouping;
use std::alloc::{AllocError, Global};
use trace_groups::{reply_place, replying_span, trace_grouping};
use trace_import::Reading;

/// Where the reply of a trace stands in its recording, and to which groups the stages count.
#[derive(Drop)]
pub(crate) struct Placed {
    pub(crate) reply: u32,
    pub(crate) grouping: Grouping,
}

/// Where the reply of a trace stands, if a span of it answers.
pub(crate) fn place_reply(
    alloc: Global,
    by: GroupBy,
    wanted: Option<&str>,
    reading: &Reading<'_>,
) -> Result<Option<Placed>, AllocError>
    requires few { length reading.now.stages.0.items ≤ 65536 }
    ensures { IfOk result (IsPlacing by (option_copied wanted.entry) reading.now) }
{
    let spans = reading.trace.spans.as_slice();
    let stages = reading.stages.0.as_slice();
    let Some(span) = replying_span(alloc, spans, &reading.relations, wanted)? else {
        return Ok(None);
    };
    let Some(reply) = reply_place(stages, span) else {
        return Ok(None);
    };
    let grouping = trace_grouping(alloc, by, spans, stages)?;
    Ok(Some(Placed {
        reply: reply as u32,
        grouping,
    }))
}
