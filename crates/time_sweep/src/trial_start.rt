//! What all trials of a target start from, and how the target completes in one of them.
ghost use Rattle.std.specs.Prelude.{◌≡◌, ◌↔◌, IfOk, None, OnOk, length};
ghost use Rattle.stage_graph.specs.Plain.{stage_at, IsLive};
ghost use Rattle.time_sweep.specs.Known.{AreRanksFor};
ghost use Rattle.time_sweep.specs.Starts.{IsStart};
ghost use Rattle.time_sweep.specs.Sweep.{completion_of};
ghost use Rattle.time_sweep.specs.WithStage.{with_stage, with_stages, AreFitting, IsFitting};

use crate::ancestors::ranks_of;
use crate::changes::Changes;
use crate::completion::{OneTrial, changed_completion};
use crate::handed::handed_on;
use crate::known::states_of;
use crate::standing::{Standing, standing_of};
use propagate::{KeptState, StateRepresentation};
use stage_graph::Stage;
use stage_ops::{Done, Meter};
use std::alloc::{AllocError, Global};
use std::slice;
use version_store::{QueryFault, Version};

/// What all trials of a target start from: the states of the version, and what stands at the places that the target can
/// wait for.
#[derive(Drop)]
pub struct TrialStart<'a> {
    pub(crate) target: u32,
    /// The state of each place.
    pub(crate) before: Vec<KeptState>,
    /// The rank of each place that the target can wait for, and maybe of others.
    pub(crate) ranks: Vec<Option<u32>>,
    /// What stands at these places.
    pub(crate) standing: Vec<Option<Standing<'a>>>,
    /// How many of the ticks that each place completes sooner reach the target, at most, where it is known.
    pub(crate) handed: Vec<Option<u64>>,
}

impl<'a> TrialStart<'a> {
    /// What the trials of a target start from.
    ///
    /// Errors: `NoStage` where the target is not live; `Memory`.
    pub fn of<R: StateRepresentation>(
        alloc: Global,
        version: &'a Version<R>,
        target: u32,
    ) -> Result<TrialStart<'a>, QueryFault>
        ensures target { IfOk result (λ start. start.target ≡ target) }
        ensures start { IfOk result (λ start. IsStart version.now.graph start) }
        ensures no_stage { (result ≡ Err QueryFault.NoStage) ↔ (stage_at version.now.graph.places target ≡ None) }
    {
        if version.graph().stage(target).is_none() {
            return Err(QueryFault::NoStage);
        }
        let ranks = ranks_of(alloc, version, target)?;
        let start = TrialStart::with_ranks(alloc, version, target, ranks)?;
        Ok(start)
    }

    /// The same, where the ranks are known.
    pub(crate) fn with_ranks<R: StateRepresentation>(
        alloc: Global,
        version: &'a Version<R>,
        target: u32,
        ranks: Vec<Option<u32>>,
    ) -> Result<TrialStart<'a>, AllocError>
        requires live { IsLive version.now.graph.places target }
        requires ranks { AreRanksFor version.now.graph.places target ranks.items }
        ensures target { IfOk result (λ start. start.target ≡ target) }
        ensures start { IfOk result (λ start. IsStart version.now.graph start) }
    {
        let before = states_of(alloc, version)?;
        let standing = standing_of(alloc, version, ranks.as_slice(), target)?;
        let handed = handed_on(
            alloc,
            version,
            before.as_slice(),
            ranks.as_slice(),
            standing.as_slice(),
            target,
        )?;
        Ok(TrialStart {
            target,
            before,
            ranks,
            standing,
            handed,
        })
    }

    /// The target.
    pub fn target(&self) -> u32
        ensures { result ≡ self.now.target }
    {
        self.target
    }

    /// Room for the states that a trial changes; for one trial after another.
    pub fn room(&self, alloc: Global) -> Result<Changes, AllocError>
        ensures { IfOk result (λ changes. length changes.at.items ≡ length self.now.before.items) }
    {
        Changes::none(alloc, self.before.len())
    }

    /// How the target completes in the graph with the changed stage in place of the one that stands there; none where it
    /// would be pending.
    pub fn completion_with<R: StateRepresentation>(
        &self,
        alloc: Global,
        version: &Version<R>,
        changed: &Stage,
        changes: &mut Changes,
    ) -> Result<Option<Done>, AllocError>
        requires start { IsStart version.now.graph self.now }
        requires fits { IsFitting version.now.graph.places changed.now }
        requires room { length changes.old.at.items ≡ length self.now.before.items }
        ensures done { IfOk result (λ done. done ≡ completion_of (with_stage version.now.graph changed.now) self.now.target) }
        ensures room { OnOk result (length changes.new.at.items ≡ length self.now.before.items) }
    {
        self.completion_with_all(alloc, version, slice::from_ref(changed), changes)
    }

    /// The same with several changed stages at once, each in place of the one that stands there. They are in the order of their
    /// places.
    pub fn completion_with_all<R: StateRepresentation>(
        &self,
        alloc: Global,
        version: &Version<R>,
        changed: &[Stage],
        changes: &mut Changes,
    ) -> Result<Option<Done>, AllocError>
        requires start { IsStart version.now.graph self.now }
        requires fit { AreFitting version.now.graph.places changed.now }
        requires room { length changes.old.at.items ≡ length self.now.before.items }
        ensures done { IfOk result (λ done. done ≡ completion_of (with_stages version.now.graph changed.now) self.now.target) }
        ensures room { OnOk result (length changes.new.at.items ≡ length self.now.before.items) }
    {
        let mut meter = Meter::new(OneTrial);
        let done = changed_completion(
            alloc,
            version,
            self.before.as_slice(),
            self.ranks.as_slice(),
            self.standing.as_slice(),
            self.handed.as_slice(),
            changed,
            self.target,
            changes,
            &mut meter,
        )?;
        Ok(done)
    }
}
