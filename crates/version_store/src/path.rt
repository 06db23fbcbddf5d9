//! Paths: why a stage completed when it did, or why it is pending.
ghost use Rattle.std.specs.Prelude.{◌≡◌, IfOk, Some, length};
ghost use Rattle.stage_graph.specs.Plain.{stage_at, IsLive};
ghost use Rattle.stage_ops.specs.Reasons.{feed_in};
ghost use Rattle.scratch_eval.specs.Path.{IsPath, path, reason_at, reason_in};
ghost use Rattle.version_store.specs.Queries.{told};

use crate::evaluated::Evaluated;
use propagate::StateRepresentation;
use stage_graph::{NoStage, Places, Stage};
use stage_ops::{Cause, Reason};
use std::alloc::{AllocError, Global};

/// The feed that a cause names.
fn feed_in(cause: Cause) -> Option<u32>
    ensures { result ≡ feed_in cause }
{
    match cause {
        Cause::After(place) | Cause::Inner(place) | Cause::Waiting(place) => Some(place),
        Cause::Created | Cause::Pinned | Cause::Ended(_) | Cause::Open => None,
    }
}

impl<R: StateRepresentation> Evaluated<R> {
    /// The feed that the cause of a stage's state names.
    fn next_feed(&self, stage: &Stage) -> Option<u32>
        requires { stage_at self.now.places stage.now.place ≡ Some stage.now }
        ensures { result ≡ feed_in (reason_in self.now stage.now).cause }
    {
        feed_in(self.reason_of(stage).cause)
    }

    /// The path from a place, by the states of the stages on it and of their feeds.
    fn follow_causes(&self, alloc: Global, place: u32) -> Result<Places, AllocError>
        ensures { IfOk result (λ places. places ≡ path self.now place) }
    {
        let mut path = Vec::new(alloc);
        let mut next = place;
        for _ in 0..self.graph().len() {
            let Some(stage) = self.graph().stage(next) else {
                break;
            };
            path.push(stage.place)?;
            let Some(feed) = self.next_feed(stage) else {
                break;
            };
            next = feed;
        }
        Ok(Places::from_vec(path))
    }

    /// The path of the stage at a place.
    pub(crate) fn path(&self, alloc: Global, place: u32) -> Result<Places, AllocError>
        requires { IsLive self.now.places place }
        ensures path { IfOk result (λ places. places ≡ path self.now place) }
        ensures adds_up { IfOk result (IsPath self.now place) }
    {
        let graph = self.graph();
        // With its length a graph says that it is sound, as every graph is.
        let _ = graph.len();
        self.follow_causes(alloc, place)
    }

    /// The cause of the state of the stage at a place.
    pub(crate) fn reason(&self, place: u32) -> Result<Reason, NoStage>
        ensures { result ≡ told self.now place (reason_at self.now place) }
    {
        match self.graph().stage(place) {
            Some(stage) => Ok(self.reason_of(stage)),
            None => Err(NoStage),
        }
    }
}
