//! Single changes of stages, as reports tell them.
ghost use Rattle.std.specs.Prelude.{◌≡◌};
ghost use Rattle.report_rows.specs.Changes.{tried_change};

use crate::end::{end_at, is_only_timeout};
use crate::lent_end::LentEnd;
use act_expr::Value;
use reply_rescue::Change;
use stage_graph::{Graph, Representation};

/// A single change of a stage.
#[derive(Drop)]
pub enum TriedChange<'a> {
    /// Its action takes no time.
    NoTime,
    /// Its action is not queued.
    NotQueued,
    /// The exception that arose in it did not: it completes with this value.
    NoFailure {
        value: Value,
    },
    /// An end of it is taken away: its index, the end, and whether that is its one timeout.
    WithoutEnd {
        index: usize,
        end: LentEnd<'a>,
        is_only: bool,
    },
    /// A timeout of it has twice the delay: its index, the timeout, and whether that is its only one.
    TwiceTheDelay {
        index: usize,
        end: LentEnd<'a>,
        is_only: bool,
    },
}

/// A change of the stage at a place.
#[inline(always)]
pub(crate) fn tried_change<'a, R: Representation>(
    graph: &'a Graph<R>,
    place: u32,
    change: Change,
) -> TriedChange<'a>
    ensures { result ≡ tried_change graph.now place change }
{
    match change {
        Change::NoTime => TriedChange::NoTime,
        Change::NotQueued => TriedChange::NotQueued,
        Change::NoFailure { value } => TriedChange::NoFailure { value },
        Change::WithoutEnd { index } => TriedChange::WithoutEnd {
            index,
            end: LentEnd::new(end_at(graph, place, index)),
            is_only: is_only_timeout(graph, place, index),
        },
        Change::TwiceTheDelay { index } => TriedChange::TwiceTheDelay {
            index,
            end: LentEnd::new(end_at(graph, place, index)),
            is_only: is_only_timeout(graph, place, index),
        },
    }
}
