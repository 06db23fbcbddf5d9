//! Edits of a graph, and lists of them.
ghost use Rattle.std.specs.Prelude.{◌≡◌, ◌≤◌, [], ◌∷◌, length, Ok, Err, IfOk};
ghost use Rattle.std.specs.List.{list_any};
ghost use Rattle.stage_graph.specs.EditLists.{edit_list};
ghost use Rattle.stage_graph.specs.Changes.{edited_name, moves};

use crate::end::Ends;
use crate::fault::ListSize;
use crate::name::{Name, NameList};
use crate::stage::Spec;
use act_expr::{Expr, Outcome};
use std::alloc::{AllocError, Global};
use std::marker::Model;

/// A change of a graph. The name is that of the stage that it changes.
#[derive(Drop)]
pub enum Edit {
    /// Sets the pinned outcome, or removes the pin.
    PinResult {
        name: Name,
        result: Option<Outcome>,
    },
    /// Sets the pinned moment, in ticks, or removes the pin.
    PinMoment {
        name: Name,
        moment: Option<u64>,
    },
    /// Sets how many ticks the action waits in a queue and how many it runs.
    SetTimes {
        name: Name,
        queued: u64,
        runs: u64,
    },
    /// Sets what the action computes.
    SetAction {
        name: Name,
        action: Expr,
    },
    /// Sets the ends, which replace all earlier ones.
    SetEnds {
        name: Name,
        ends: Ends,
    },
    /// Adds a stage at a new place.
    Add(Spec),
    /// Removes a stage that feeds no other. Its place stays empty.
    Remove(Name),
    /// Sets the feeds.
    Rewire {
        name: Name,
        sources: NameList,
        inner: NameList,
    },
}

impl Edit {
    /// The name of the edit's stage: the one that it changes, adds or removes.
    pub fn name(&self) -> &Name
        ensures { result.now ≡ edited_name self.now }
    {
        match self {
            Edit::PinResult { name, .. } => name,
            Edit::PinMoment { name, .. } => name,
            Edit::SetTimes { name, .. } => name,
            Edit::SetAction { name, .. } => name,
            Edit::SetEnds { name, .. } => name,
            Edit::Add(spec) => &spec.name,
            Edit::Remove(name) => name,
            Edit::Rewire { name, .. } => name,
        }
    }

    /// Whether the edit adds or rewires a stage of a name.
    pub fn moves(&self, name: &Name) -> bool
        ensures { result ≡ moves name.now self.now }
    {
        match self {
            Edit::Add(spec) => spec.name.as_str() == name.as_str(),
            Edit::Rewire { name: other, .. } => other.as_str() == name.as_str(),
            Edit::PinResult { .. } | Edit::PinMoment { .. } | Edit::SetTimes { .. } => false,
            Edit::SetAction { .. } | Edit::SetEnds { .. } | Edit::Remove(_) => false,
        }
    }
}

/// 1 to 64 edits, in order.
#[derive(Drop)]
pub struct Edits {
    items: Vec<Edit>,
}

impl Model for Edits {
    ghost use Rattle.std.specs.Prelude.{List, length, ◌≤◌};
    ghost use Rattle.stage_graph.specs.declared.edit.Edit.{Edit};

    ghost Value = { List Edit };

    ghost use Rattle.std.specs.Coded.{codes};
    ghost use Rattle.act_expr.specs.ExpressionCode.{coded_expression};

    ghost coded = { Prim.hlevel (codes, coded_expression) };

    ghost view = { λ edits. edits.items.items };

    ghost invariant = { λ edits. (1 ≤ length edits.items.items) × (length edits.items.items ≤ 64) };
}

impl Edits {
    /// The list of these edits, or `ListSize` unless there are 1 to 64. It has no spare capacity.
    pub fn new(mut items: Vec<Edit>) -> Result<Edits, ListSize>
        ensures { result ≡ edit_list items.items }
    {
        if items.is_empty() || items.len() > 64 {
            return Err(ListSize);
        }
        items.shrink_to_fit();
        Ok(Edits { items })
    }

    /// The list of one edit.
    pub fn one(alloc: Global, edit: Edit) -> Result<Edits, AllocError>
        ensures { IfOk result (λ edits. edits ≡ edit ∷ []) }
    {
        let mut items = Vec::with_capacity(alloc, 1)?;
        items.push(edit)?;
        Ok(Edits { items })
    }

    /// The edits, in order.
    pub fn as_slice(&self) -> &[Edit]
        ensures edits { result.now ≡ self.now }
        ensures some { 1 ≤ length self.now }
        ensures few { length self.now ≤ 64 }
    {
        self.items.as_slice()
    }

    /// Whether the list adds or rewires a stage of a name.
    pub fn moves(&self, name: &Name) -> bool
        ensures { result ≡ list_any (moves name.now) self.now }
    {
        self.items.iter().any(|edit| edit.moves(name))
    }
}
