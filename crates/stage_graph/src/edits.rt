//! What one edit makes of a graph.
ghost use Rattle.std.specs.Prelude.{◌≡◌, ◌<◌, ◌++◌, ◌∷◌, [], true, Some, None, length, slice_set, IfOk, IfErr, OnOk, IfSome, is_some, if◌then◌else◌, List, ℕ};
ghost use Rattle.stage_graph.specs.Plain.{IsLive, dependents, place_named, stage_at, has_name, stage_named, uses};
ghost use Rattle.stage_graph.specs.Sound.{IsSoundStage};
ghost use Rattle.stage_graph.specs.Names.{IsTableOf, found};
ghost use Rattle.stage_graph.specs.Changes.{edited_name};
ghost use Rattle.stage_graph.specs.Kept.{AreDependentsOf};
ghost use Rattle.stage_graph.specs.Edits.{IsAnswer, edited, changed_stage, added, appended, removed_at, first_dependent};

use crate::edit::Edit;
use crate::fault::{EditFault, Refusal};
use crate::graph::Graph;
use crate::name::Name;
use crate::representation::Representation;
use crate::stage::Spec;
use std::alloc::{AllocError, Global};

impl<R: Representation> Graph<R> {
    /// Whether a feed of the stage at a place is another place.
    fn uses(&self, dependent: u32, place: u32) -> bool
        ensures { result ≡ uses place (stage_at self.now.places dependent) }
    {
        match self.stage(dependent) {
            Some(stage) => stage.has_feed(place),
            None => false,
        }
    }

    /// The first dependent of a place: the first place whose stage has it as a feed.
    fn first_dependent(&self, place: u32) -> Option<u32>
        ensures { result ≡ first_dependent self.now.places place }
    {
        for dependent in 0..self.len() {
            if self.uses(dependent as u32, place) {
                return Some(dependent as u32);
            }
        }
        None
    }
}

impl<R: Representation> Graph<R> {
    /// The graph with one more stage, which stands at a new place.
    fn add(&self, alloc: Global, spec: &Spec) -> Result<Graph<R>, EditFault>
        ensures { IsAnswer result (added spec.now self.now) }
    {
        let place = self.len();
        let free = self.place_of(&spec.name).is_none();
        let names = self.names();
        match names.checked_stage(alloc, free, place as u32, spec) {
            Ok(stage) => Ok(self.append(alloc, stage)?),
            Err(fault) => Err(fault),
        }
    }

    /// The first dependent of a place: the first of the known dependents, or else found by a search.
    fn dependent_among(&self, known: Option<&[u32]>, place: u32) -> Option<u32>
        requires { IfSome known (λ known. known.now ≡ dependents self.now.places place) }
        ensures { result ≡ first_dependent self.now.places place }
    {
        match known {
            Some(dependents) => dependents.first().copied(),
            None => self.first_dependent(place),
        }
    }

    /// The graph without the stage of a name.
    fn remove(
        &self,
        alloc: Global,
        name: &Name,
        known: Option<&[u32]>,
    ) -> Result<Graph<R>, EditFault>
        requires { IfSome known (λ known. AreDependentsOf self.now.places name.now known.now) }
        ensures { IsAnswer result (removed_at self.now (place_named self.now.places name.now)) }
    {
        let Some(place) = self.place_of(name) else {
            return Err(EditFault::Refused(Refusal::NoStage));
        };
        if let Some(dependent) = self.dependent_among(known, place) {
            return Err(EditFault::Refused(Refusal::InUse(dependent)));
        }
        Ok(self.vacate(alloc, name, place)?)
    }
}

impl<R: Representation> Graph<R> {
    /// The graph in which an edit has changed the stage of a name.
    fn change_stage(&self, alloc: Global, name: &Name, edit: &Edit) -> Result<Graph<R>, EditFault>
        ensures { IsAnswer result (changed_stage self.now name.now edit.now) }
    {
        let Some(stage) = self.named(name) else {
            return Err(EditFault::Refused(Refusal::NoStage));
        };
        let stage = match stage.edited(alloc, self.names(), edit) {
            Ok(stage) => stage,
            Err(fault) => return Err(fault),
        };
        Ok(self.replace(alloc, stage)?)
    }

    /// The graph that an edit makes.
    pub(crate) fn edit(
        &self,
        alloc: Global,
        edit: &Edit,
        known: Option<&[u32]>,
    ) -> Result<Graph<R>, EditFault>
        requires { IfSome known (λ known. AreDependentsOf self.now.places (edited_name edit.now) known.now) }
        ensures { IsAnswer result (edited edit.now self.now) }
    {
        match edit {
            Edit::Add(spec) => self.add(alloc, spec),
            Edit::Remove(name) => self.remove(alloc, name, known),
            Edit::PinResult { name, .. } => self.change_stage(alloc, name, edit),
            Edit::PinMoment { name, .. } => self.change_stage(alloc, name, edit),
            Edit::SetTimes { name, .. } => self.change_stage(alloc, name, edit),
            Edit::SetAction { name, .. } => self.change_stage(alloc, name, edit),
            Edit::SetEnds { name, .. } => self.change_stage(alloc, name, edit),
            Edit::Rewire { name, .. } => self.change_stage(alloc, name, edit),
        }
    }
}
