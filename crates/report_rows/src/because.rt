//! Why a stage completed when it did, or why it is pending.
ghost use Rattle.std.specs.Prelude.{◌≡◌};
ghost use Rattle.report_rows.specs.Causes.{because_of};

use crate::end::{end_of, end_text};
use crate::text::Text;
use stage_graph::{Graph, Representation, Stage};
use stage_ops::Cause;

/// Why a stage completed when it did, or why it is pending; other stages by their names.
#[derive(Drop)]
pub enum Because<'a> {
    /// Its creation at this tick was its trigger.
    Created(u64),
    /// Its trigger was the completion of this source.
    After(Text<'a>),
    /// It took the outcome of this stage.
    Inner(Text<'a>),
    /// Its moment is pinned.
    Pinned,
    /// An end completed it; its kind, by its name in recordings.
    Ended(Text<'a>),
    /// It waits for this feed.
    Waiting(Text<'a>),
    /// It is pending, and waits for no feed.
    Open,
}

impl<'a> Because<'a> {
    /// The cause of a stage of a graph.
    pub(crate) fn of<R: Representation>(
        graph: &'a Graph<R>,
        stage: &Stage,
        cause: Cause,
    ) -> Because<'a>
        ensures { result ≡ because_of graph.now stage.now cause }
    {
        match cause {
            Cause::Created => Because::Created(stage.created),
            Cause::After(place) => Because::After(Text::new(graph.name_of(place))),
            Cause::Inner(place) => Because::Inner(Text::new(graph.name_of(place))),
            Cause::Pinned => Because::Pinned,
            Cause::Ended(index) => Because::Ended(Text::new(end_text(end_of(stage, index)))),
            Cause::Waiting(place) => Because::Waiting(Text::new(graph.name_of(place))),
            Cause::Open => Because::Open,
        }
    }
}
