//! Stages with places, and stages with names.
ghost use Rattle.std.specs.Prelude.{◌≡◌, [], ◌∷◌, ◌++◌, Some, IfOk, OnOk, OnErr};
ghost use Rattle.stage_graph.specs.Plain.{uses};
ghost use Rattle.stage_graph.specs.Names.{placed};

use crate::checks::MOST_PLACES;
use crate::end::Ends;
use crate::name::{Name, NameList};
use crate::op::Op;
use crate::places::Places;
use act_expr::{Expr, Outcome};
use std::alloc::{AllocError, Global};
use std::marker::Model;

/// A live stage of a graph. Its feeds are its sources and then its inner stages.
///
/// The fields lie in memory in this order. Those that an evaluation reads of each stage stand together at the front, up
/// to the operation's tag, and the pins together at the end, where the large outcome begins with its tag: so the names of
/// exceptions that an operation and an outcome have room for are passed over, and few cache lines are read.
#[derive(Drop)]
pub struct Stage {
    /// Where it stands in its graph.
    pub place: u32,
    /// The tick at which the stage was made.
    pub created: u64,
    /// How many ticks the action waits in a queue.
    pub queued: u64,
    /// How many ticks the action runs.
    pub runs: u64,
    /// The stages that it waits for, in order.
    pub sources: Places,
    pub action: Option<Expr>,
    pub ends: Ends,
    pub op: Op,
    /// The stages of which a compose operation picks one.
    pub inner: Places,
    pub name: Name,
    /// The pinned moment of completion, in ticks, which replaces the computed one.
    pub pin_moment: Option<u64>,
    /// The pinned outcome, which replaces the computed one.
    pub pin_result: Option<Outcome>,
}

/// A stage with names instead of places.
#[derive(Drop)]
pub struct Spec {
    pub name: Name,
    pub op: Op,
    /// The stages that it waits for, in order.
    pub sources: NameList,
    /// The stages of which a compose operation picks one.
    pub inner: NameList,
    /// The tick at which the stage was made.
    pub created: u64,
    /// How many ticks the action waits in a queue.
    pub queued: u64,
    /// How many ticks the action runs.
    pub runs: u64,
    pub action: Option<Expr>,
    /// The pinned outcome, which replaces the computed one.
    pub pin_result: Option<Outcome>,
    /// The pinned moment of completion, in ticks, which replaces the computed one.
    pub pin_moment: Option<u64>,
    pub ends: Ends,
}

/// A clone of the action.
pub(crate) fn action_again(action: &Option<Expr>) -> Result<Option<Expr>, AllocError>
    ensures { IfOk result (λ same. same ≡ action.now) }
{
    match action {
        Some(expr) => Ok(Some(expr.clone()?)),
        None => Ok(None),
    }
}

impl Stage {
    /// Whether the place is that of a feed: a source, or an inner stage.
    pub fn has_feed(&self, place: u32) -> bool
        ensures { result ≡ uses place (Some self.now) }
    {
        self.sources.as_slice().contains(&place) || self.inner.as_slice().contains(&place)
    }

    /// A clone of the stage.
    pub fn again(&self) -> Result<Stage, AllocError>
        ensures { IfOk result (λ same. same ≡ self.now) }
    {
        Ok(Stage {
            place: self.place,
            name: self.name.again()?,
            op: self.op,
            sources: self.sources.again()?,
            inner: self.inner.again()?,
            created: self.created,
            queued: self.queued,
            runs: self.runs,
            action: action_again(&self.action)?,
            pin_result: self.pin_result,
            pin_moment: self.pin_moment,
            ends: self.ends.again()?,
        })
    }
}

/// The places of a stage's feeds.
#[derive(Drop)]
pub(crate) struct Feeds {
    pub(crate) sources: Places,
    pub(crate) inner: Places,
}

impl Spec {
    /// The stage that it is at a place, where its feeds have these places.
    pub(crate) fn placed(&self, place: u32, feeds: Feeds) -> Result<Stage, AllocError>
        ensures { IfOk result (λ stage. stage ≡ placed place feeds self.now) }
    {
        Ok(Stage {
            place,
            name: self.name.again()?,
            op: self.op,
            sources: feeds.sources,
            inner: feeds.inner,
            created: self.created,
            queued: self.queued,
            runs: self.runs,
            action: action_again(&self.action)?,
            pin_result: self.pin_result,
            pin_moment: self.pin_moment,
            ends: self.ends.again()?,
        })
    }
}

/// Stages with names, in order.
#[derive(Drop)]
pub struct Specs {
    items: Vec<Spec>,
}

impl Model for Specs {
    ghost use Rattle.std.specs.Prelude.{List};
    ghost use Rattle.stage_graph.specs.declared.stage.Spec.{Spec};

    ghost Value = { List Spec };

    ghost use Rattle.std.specs.Coded.{codes};
    ghost use Rattle.act_expr.specs.ExpressionCode.{coded_expression};

    ghost coded = { Prim.hlevel (codes, coded_expression) };

    ghost view = { λ specs. specs.items.items };
}

impl Specs {
    /// No stages.
    pub fn new(alloc: Global) -> Specs
        ensures { result ≡ [] }
    {
        Specs {
            items: Vec::new(alloc),
        }
    }

    /// No stages, with room for this many, as far as a graph may have as many.
    pub fn with_capacity(alloc: Global, count: usize) -> Result<Specs, AllocError>
        ensures { IfOk result (λ specs. specs ≡ []) }
    {
        Ok(Specs {
            items: Vec::with_capacity(alloc, count.min(MOST_PLACES))?,
        })
    }

    /// Adds a stage at the end; if out of memory, the stages stay as they are.
    pub fn push(&mut self, spec: Spec) -> Result<(), AllocError>
        ensures added { OnOk result (self.new ≡ self.old ++ spec ∷ []) }
        ensures kept { OnErr result (self.new ≡ self.old) }
    {
        self.items.push(spec)?;
        Ok(())
    }

    /// The stages, in order.
    pub fn as_slice(&self) -> &[Spec]
        ensures { result.now ≡ self.now }
    {
        self.items.as_slice()
    }
}
