//! Whether two lists of edits have the same content.
ghost use Rattle.std.specs.Prelude.{◌≡◌, ◌↔◌, IsTrue};

use crate::edit::{Edit, Edits};
use crate::name::{Name, NameList};
use crate::same::same_action;
use crate::stage::Spec;

impl NameList {
    /// Whether two lists have the same names.
    pub fn same(&self, other: &NameList) -> bool
        ensures { IsTrue result ↔ (self.now ≡ other.now) }
    {
        same_names(self.as_slice(), other.as_slice())
    }
}

/// Whether two lists have the same names.
fn same_names(names: &[Name], others: &[Name]) -> bool
    ensures { IsTrue result ↔ (names.now ≡ others.now) }
{
    if names.len() != others.len() {
        return false;
    }
    for at in 0..names.len() {
        if !names[at].same(&others[at]) {
            return false;
        }
    }
    true
}

impl Spec {
    /// Whether two stages with names have the same name, operation and feeds.
    fn same_feeds(&self, other: &Spec) -> bool
        ensures { IsTrue result ↔ ((self.now.name ≡ other.now.name) × (self.now.op ≡ other.now.op) × (self.now.sources ≡ other.now.sources) × (self.now.inner ≡ other.now.inner)) }
    {
        self.name.same(&other.name)
            && self.op == other.op
            && self.sources.same(&other.sources)
            && self.inner.same(&other.inner)
    }

    /// Whether they have the same times and action.
    fn same_times(&self, other: &Spec) -> bool
        ensures { IsTrue result ↔ ((self.now.created ≡ other.now.created) × (self.now.queued ≡ other.now.queued) × (self.now.runs ≡ other.now.runs) × (self.now.action ≡ other.now.action)) }
    {
        self.created == other.created
            && self.queued == other.queued
            && self.runs == other.runs
            && same_action(&self.action, &other.action)
    }

    /// Whether they have the same pins and ends.
    fn same_pins(&self, other: &Spec) -> bool
        ensures { IsTrue result ↔ ((self.now.pin_result ≡ other.now.pin_result) × (self.now.pin_moment ≡ other.now.pin_moment) × (self.now.ends ≡ other.now.ends)) }
    {
        self.pin_result == other.pin_result
            && self.pin_moment == other.pin_moment
            && self.ends.same(&other.ends)
    }

    /// Whether two stages with names have the same content. Allocates nothing.
    pub fn same(&self, other: &Spec) -> bool
        ensures { IsTrue result ↔ (self.now ≡ other.now) }
    {
        self.same_feeds(other) && self.same_times(other) && self.same_pins(other)
    }
}

impl Edit {
    /// Whether two edits are the same. Allocates nothing.
    pub fn same(&self, other: &Edit) -> bool
        ensures { IsTrue result ↔ (self.now ≡ other.now) }
    {
        match (self, other) {
            (
                Edit::PinResult { name, result },
                Edit::PinResult {
                    name: other,
                    result: others,
                },
            ) => name.same(other) && *result == *others,
            (
                Edit::PinMoment { name, moment },
                Edit::PinMoment {
                    name: other,
                    moment: others,
                },
            ) => name.same(other) && *moment == *others,
            (
                Edit::SetTimes { name, queued, runs },
                Edit::SetTimes {
                    name: other,
                    queued: other_queued,
                    runs: other_runs,
                },
            ) => name.same(other) && *queued == *other_queued && *runs == *other_runs,
            (
                Edit::SetAction { name, action },
                Edit::SetAction {
                    name: other,
                    action: others,
                },
            ) => name.same(other) && action.same(others),
            (
                Edit::SetEnds { name, ends },
                Edit::SetEnds {
                    name: other,
                    ends: others,
                },
            ) => name.same(other) && ends.same(others),
            (Edit::Add(spec), Edit::Add(other)) => spec.same(other),
            (Edit::Remove(name), Edit::Remove(other)) => name.same(other),
            (
                Edit::Rewire {
                    name,
                    sources,
                    inner,
                },
                Edit::Rewire {
                    name: other,
                    sources: other_sources,
                    inner: other_inner,
                },
            ) => name.same(other) && sources.same(other_sources) && inner.same(other_inner),
            _ => false,
        }
    }
}

impl Edits {
    /// Whether two lists have the same edits. Allocates nothing.
    pub fn same(&self, other: &Edits) -> bool
        ensures { IsTrue result ↔ (self.now ≡ other.now) }
    {
        same_edits(self.as_slice(), other.as_slice())
    }
}

/// Whether two lists have the same edits.
fn same_edits(edits: &[Edit], others: &[Edit]) -> bool
    ensures { IsTrue result ↔ (edits.now ≡ others.now) }
{
    if edits.len() != others.len() {
        return false;
    }
    for at in 0..edits.len() {
        if !edits[at].same(&others[at]) {
            return false;
        }
    }
    true
}
