//! Graphs of stages, and the three ways to make one from another.
ghost use Rattle.std.specs.Prelude.{◌≡◌, ◌≤◌, ◌<◌, ◌^◌, true, ℕ, List, unwrap_or, length, Some, None, All, slice_set, option_copied, IfOk, IfSome};
ghost use Rattle.stage_graph.specs.Plain.{PlainGraph, stage_at, stage_named, place_named, has_name, name_of, feeds_of, IsLive};
ghost use Rattle.stage_graph.specs.Sound.{IsSound, IsSoundStage, IsLawful};
ghost use Rattle.stage_graph.specs.Edits.{appended, first_dependent};
ghost use Rattle.stage_graph.specs.Names.{IsTableOf, found};
ghost use Rattle.stage_graph.specs.Changes.{IsChanged};
ghost use Rattle.stage_graph.specs.Loading.{loaded};

use crate::fault::Fault;
use crate::load::parts_of;
use crate::name::Name;
use crate::name_table::NameTable;
use crate::representation::Representation;
use crate::stage::{Spec, Stage};
use act_expr::Mode;
use share_tree::{Again, Held, KeepFault, Keeps};
use std::alloc::{AllocError, Global};
use std::marker::Model;
use std::ops::Deref;

/// A graph of stages, which contracts see as the plain graph.
#[derive(Drop)]
pub struct Graph<R: Representation> {
    mode: Mode,
    stages: R::Stages,
    /// Where the stage of each name stands.
    names: Held<NameTable>,
}

impl<R: Representation> Model for Graph<R> {
    ghost use Rattle.stage_graph.specs.Plain.{PlainGraph};

    ghost Value = { PlainGraph };

    ghost use Rattle.std.specs.Coded.{codes};
    ghost use Rattle.act_expr.specs.ExpressionCode.{coded_expression};

    ghost coded = { Prim.hlevel (codes, coded_expression) };

    ghost use Rattle.stage_graph.specs.Sound.{IsSound};
    ghost use Rattle.stage_graph.specs.Names.{IsTableOf};

    ghost view = { λ graph. record { mode = graph.mode; places = R.Stages.items graph.stages } };

    ghost invariant = { λ graph. IsSound (record { mode = graph.mode; places = R.Stages.items graph.stages }) × IsTableOf (R.Stages.items graph.stages) graph.names };
}

impl<R: Representation> Graph<R> {
    /// How exceptions are wrapped.
    #[inline(always)]
    pub fn mode(&self) -> Mode
        ensures { result ≡ self.now.mode }
    {
        self.mode
    }

    /// How many places there are, the empty ones among them. Every graph is sound.
    #[inline(always)]
    pub fn len(&self) -> usize
        ensures len { result ≡ length self.now.places }
        ensures sound { IsSound self.now }
    {
        self.stages.len()
    }

    /// The live stage at a place; none at an empty place and past the end. Allocates nothing.
    #[inline(always)]
    pub fn stage(&self, place: u32) -> Option<&Stage>
        ensures stage { option_copied result ≡ stage_at self.now.places place }
        ensures sound { IfSome result (λ stage. IsSoundStage self.now.places place stage.now) }
    {
        match self.stages.get(place as usize) {
            Some(Some(held)) => Some(held.deref()),
            Some(None) => None,
            None => None,
        }
    }

    /// The name of the stage at a place; nothing at an empty place and past the end. Allocates nothing.
    pub fn name_of(&self, place: u32) -> &str
        ensures { result.now ≡ name_of (stage_at self.now.places place) }
    {
        match self.stage(place) {
            Some(stage) => stage.name.as_str(),
            None => "",
        }
    }

    /// Where the live stage of a name stands. Allocates nothing.
    pub fn id_of(&self, name: &str) -> Option<u32>
        ensures { result ≡ place_named self.now.places name.now }
    {
        let place = self.names.get(name)?;
        Some(place as u32)
    }

    /// Where the stage of a name stands.
    pub(crate) fn place_of(&self, name: &Name) -> Option<u32>
        ensures { result ≡ place_named self.now.places name.now }
    {
        self.id_of(name.as_str())
    }

    /// The stage of a name.
    pub(crate) fn named(&self, name: &Name) -> Option<&Stage>
        ensures stage { option_copied result ≡ stage_named self.now.places name.now }
        ensures sound { IfSome result (λ stage. IsSoundStage self.now.places stage.now.place stage.now) }
        ensures stands { IfSome result (λ stage. stage_at self.now.places stage.now.place ≡ Some stage.now) }
    {
        let place = self.place_of(name)?;
        self.stage(place)
    }

    /// The table of the names.
    pub(crate) fn names(&self) -> &NameTable
        ensures table { IsTableOf self.now.places result.now }
        ensures low { (name : List ℕ) → unwrap_or (found result.now name) 0 < 2 ^ 32 }
    {
        self.names.deref()
    }

    /// The graph with another stage in place of the one of its name.
    pub(crate) fn replace(&self, alloc: Global, stage: Stage) -> Result<Graph<R>, AllocError>
        requires stands { has_name stage.name (stage_at self.now.places stage.place) ≡ true }
        requires sound { IsSoundStage self.now.places stage.place stage }
        ensures { IfOk result (λ graph. graph ≡ record self.now { places = slice_set self.now.places stage.place (Some stage) }) }
    {
        let place = stage.place as usize;
        let held = Held::new(alloc, stage)?;
        let stages = self.stages.set(place, Some(held))?;
        let names = self.names.again()?;
        Ok(Graph {
            mode: self.mode,
            stages,
            names,
        })
    }

    /// The graph with one more stage, which stands at a new place.
    pub(crate) fn append(&self, alloc: Global, stage: Stage) -> Result<Graph<R>, AllocError>
        requires room { length self.now.places < 65536 }
        requires free { place_named self.now.places stage.name ≡ None }
        requires place { stage.place ≡ length self.now.places }
        requires lawful { IsLawful stage }
        requires feeds { All (IsLive self.now.places) (feeds_of stage) }
        ensures { IfOk result (λ graph. graph ≡ appended self.now stage) }
    {
        let place = stage.place as usize;
        let names = self.names.with(alloc, stage.name.as_str(), Some(place))?;
        let held = Held::new(alloc, stage)?;
        let stages = match self.stages.push(Some(held)) {
            Ok(stages) => stages,
            Err(KeepFault::Memory) => return Err(AllocError),
            Err(KeepFault::Full) => unreachable!(),
        };
        Ok(Graph {
            mode: self.mode,
            stages,
            names: Held::new(alloc, names)?,
        })
    }

    /// The graph with nothing at the place of a name, on which no stage depends.
    pub(crate) fn vacate(
        &self,
        alloc: Global,
        name: &Name,
        place: u32,
    ) -> Result<Graph<R>, AllocError>
        requires named { place_named self.now.places name.now ≡ Some place }
        requires unused { first_dependent self.now.places place ≡ None }
        ensures { IfOk result (λ graph. graph ≡ record self.now { places = slice_set self.now.places place None }) }
    {
        let names = self.names.with(alloc, name.as_str(), None)?;
        let stages = self.stages.set(place as usize, None)?;
        Ok(Graph {
            mode: self.mode,
            stages,
            names: Held::new(alloc, names)?,
        })
    }

    /// The graph that a list of stages makes, which may have cycles.
    #[tactic(auto, unfolding(crate::specs::Loading::loaded))]
    pub(crate) fn of_specs(alloc: Global, mode: Mode, specs: &[Spec]) -> Result<Graph<R>, Fault>
        ensures { IsChanged result (loaded mode specs.now) }
    {
        let (stages, names) = match parts_of::<R>(alloc, specs) {
            Ok(parts) => parts,
            Err(fault) => return Err(fault),
        };
        let names = Held::new(alloc, names)?;
        Ok(Graph {
            mode,
            stages,
            names,
        })
    }
}
