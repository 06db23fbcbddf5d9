//! What happens inside a span.
use crate::walk::stage_id::StageId;

/// What happens inside a span, at a tick.
#[derive(Clone, Copy, PartialEq, Eq, Debug)]
pub enum Event {
    /// A span starts in it.
    Starts {
        span: usize,
        tick: u64,
    },
    /// A call that it waits for ends: that which began with the span, and for which the stage stands.
    Ends {
        span: usize,
        stage: StageId,
        tick: u64,
    },
}
