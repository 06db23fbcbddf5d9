//! The places that a list of edits can change: at all others the graph stays as it was.
ghost use Rattle.std.specs.Prelude.{◌≡◌, ◌++◌, IfOk, OnOk};
ghost use Rattle.stage_graph.specs.Changes.{edited_name};
ghost use Rattle.stage_graph.specs.Kept.{listed, places_before_after, edited_places};

use crate::edit::{Edit, Edits};
use crate::graph::Graph;
use crate::name::Name;
use crate::places::Places;
use crate::representation::Representation;
use std::alloc::{AllocError, Global};

impl Places {
    /// Adds a place at the end, if there is one.
    fn push_found(&mut self, place: Option<u32>) -> Result<(), AllocError>
        ensures { OnOk result (self.new ≡ self.old ++ listed place) }
    {
        match place {
            Some(place) => self.push(place),
            None => Ok(()),
        }
    }

    /// Adds the places where the stage of a name stands before and after.
    fn push_named<R: Representation>(
        &mut self,
        old: &Graph<R>,
        new: &Graph<R>,
        name: &Name,
    ) -> Result<(), AllocError>
        ensures { OnOk result (self.new ≡ self.old ++ places_before_after old.now.places new.now.places name.now) }
    {
        self.push_found(old.place_of(name))?;
        self.push_found(new.place_of(name))
    }
}

impl Edits {
    /// The places, in the graph before and after, of the stages that the edits name; a place may be listed
    /// more than once.
    pub fn edited_places<R: Representation>(
        &self,
        alloc: Global,
        old: &Graph<R>,
        new: &Graph<R>,
    ) -> Result<Places, AllocError>
        ensures { IfOk result (λ places. places ≡ edited_places self.now old.now.places new.now.places) }
    {
        let mut places = Places::new(alloc);
        for edit in self.as_slice() {
            places.push_named(old, new, edit.name())?;
        }
        Ok(places)
    }
}
