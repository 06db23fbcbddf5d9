//! Whether two stages, or two graphs, have the same content.
ghost use Rattle.std.specs.Prelude.{◌≡◌, ◌↔◌, IsTrue, option_copied};

use crate::graph::Graph;
use crate::representation::Representation;
use crate::stage::Stage;
use act_expr::Expr;

pub(crate) fn same_action(action: &Option<Expr>, other: &Option<Expr>) -> bool
    ensures { IsTrue result ↔ (action.now ≡ other.now) }
{
    match (action, other) {
        (Some(action), Some(other)) => action.same(other),
        (None, None) => true,
        (Some(_), None) => false,
        (None, Some(_)) => false,
    }
}

impl Stage {
    /// Whether two stages stand at one place under one name, with the same operation and feeds.
    fn same_feeds(&self, other: &Stage) -> bool
        ensures { IsTrue result ↔ ((self.now.place ≡ other.now.place) × (self.now.name ≡ other.now.name) × (self.now.op ≡ other.now.op) × (self.now.sources ≡ other.now.sources) × (self.now.inner ≡ other.now.inner)) }
    {
        self.place == other.place
            && self.name.same(&other.name)
            && self.op == other.op
            && self.sources.same(&other.sources)
            && self.inner.same(&other.inner)
    }

    /// Whether two stages have the same times and action.
    fn same_times(&self, other: &Stage) -> bool
        ensures { IsTrue result ↔ ((self.now.created ≡ other.now.created) × (self.now.queued ≡ other.now.queued) × (self.now.runs ≡ other.now.runs) × (self.now.action ≡ other.now.action)) }
    {
        self.created == other.created
            && self.queued == other.queued
            && self.runs == other.runs
            && same_action(&self.action, &other.action)
    }

    /// Whether two stages have the same pins and ends.
    fn same_pins(&self, other: &Stage) -> bool
        ensures { IsTrue result ↔ ((self.now.pin_result ≡ other.now.pin_result) × (self.now.pin_moment ≡ other.now.pin_moment) × (self.now.ends ≡ other.now.ends)) }
    {
        self.pin_result == other.pin_result
            && self.pin_moment == other.pin_moment
            && self.ends.same(&other.ends)
    }

    /// Whether two stages have the same content. Allocates nothing.
    pub fn same(&self, other: &Stage) -> bool
        ensures { IsTrue result ↔ (self.now ≡ other.now) }
    {
        self.same_feeds(other) && self.same_times(other) && self.same_pins(other)
    }
}

/// Whether what stands at two places has the same content.
fn same_stage(stage: Option<&Stage>, other: Option<&Stage>) -> bool
    ensures { IsTrue result ↔ (option_copied stage.entry ≡ option_copied other.entry) }
{
    match (stage, other) {
        (Some(stage), Some(other)) => stage.same(other),
        (None, None) => true,
        (Some(_), None) => false,
        (None, Some(_)) => false,
    }
}

impl<R: Representation> Graph<R> {
    /// Whether two graphs have the same stages at the same places.
    fn same_places(&self, other: &Graph<R>) -> bool
        ensures { IsTrue result ↔ (self.now.places ≡ other.now.places) }
    {
        if self.len() != other.len() {
            return false;
        }
        for place in 0..self.len() {
            if !same_stage(self.stage(place as u32), other.stage(place as u32)) {
                return false;
            }
        }
        true
    }

    /// Whether two graphs have the same content. Allocates nothing.
    pub fn same(&self, other: &Graph<R>) -> bool
        ensures { IsTrue result ↔ (self.now ≡ other.now) }
    {
        self.mode() == other.mode() && self.same_places(other)
    }
}
