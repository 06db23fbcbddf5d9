//! Edits of a graph and lists of them, read from the members of a step.
ghost use Rattle.std.specs.Prelude.{◌≡◌, [], ◌∷◌, ◌++◌, OnOk};
ghost use Rattle.stage_graph.specs.EditLists.{edit_list};
ghost use Rattle.recording.specs.Tables.{beside};
ghost use Rattle.recording.specs.StepOf.{edit_names, edit_name_in, new_in, form_of_new, edit_of, listed_edit, edits_member, with_list_size};
ghost use Rattle.recording.specs.Reads.{IsRead};

use crate::from_json::FromJson;
use crate::object::required;
use crate::stage::{FormNumber, read_spec};
use crate::unread::Unread;
use crate::{Fault, Member};
use json_trees::Tree;
use stage_graph::{Edit, Edits, Spec};
use std::alloc::{AllocError, Global};
use std::marker::Model;

/// The name of an edit: its `do`.
#[derive(Clone, Copy, PartialEq, Eq, Debug)]
pub(crate) enum EditName {
    PinResult,
    PinMoment,
    SetTakes,
    SetTimes,
    SetAction,
    SetEnds,
    Add,
    Remove,
    Rewire,
}

impl EditName {
    /// The edit that a text names, if it names one.
    pub(crate) fn new(text: &str) -> Option<EditName>
        ensures { result ≡ beside edit_names text.now }
    {
        match text {
            "pinResult" => Some(EditName::PinResult),
            "pinMoment" => Some(EditName::PinMoment),
            "setTakes" => Some(EditName::SetTakes),
            "setTimes" => Some(EditName::SetTimes),
            "setAction" => Some(EditName::SetAction),
            "setEnds" => Some(EditName::SetEnds),
            "add" => Some(EditName::Add),
            "remove" => Some(EditName::Remove),
            "rewire" => Some(EditName::Rewire),
            _ => None,
        }
    }
}

impl FromJson for EditName {
    ghost form = { edit_name_in };

    fn from_json(_: Global, value: &Tree<'_, '_>) -> Result<EditName, Unread> {
        match value.as_str() {
            Some(text) => EditName::new(text).ok_or(Unread::Shape),
            None => Err(Unread::Shape),
        }
    }
}

/// A new stage has the times of form 2 if `queued` or `runs` is present, and else those of form 1.
fn form_of_new(object: &Tree<'_, '_>) -> FormNumber
    ensures { result ≡ form_of_new object.now }
{
    if object.get(Member::Queued.text()).is_some() || object.get(Member::Runs.text()).is_some() {
        FormNumber::Two
    } else {
        FormNumber::One
    }
}

/// The stage that is to be added.
fn read_new(alloc: Global, value: &Tree<'_, '_>) -> Result<Spec, Fault>
    ensures { IsRead result (new_in value.now) }
{
    if !value.is_object() {
        return Err(Fault::Shape(Member::New));
    }
    read_spec(alloc, form_of_new(value), value)
}

/// The edit of a name, from the members of its step.
#[tactic(auto, unfolding(crate::specs::StepOf::edit_of))]
pub(crate) fn read_edit(alloc: Global, name: EditName, object: &Tree<'_, '_>) -> Result<Edit, Fault>
    ensures { IsRead result (edit_of name object.now) }
{
    match name {
        EditName::PinResult => Ok(Edit::PinResult {
            name: required(alloc, object, Member::Stage)?,
            result: required(alloc, object, Member::Result)?,
        }),
        EditName::PinMoment => Ok(Edit::PinMoment {
            name: required(alloc, object, Member::Stage)?,
            moment: required(alloc, object, Member::At)?,
        }),
        EditName::SetTakes => Ok(Edit::SetTimes {
            name: required(alloc, object, Member::Stage)?,
            queued: 0,
            runs: required(alloc, object, Member::Takes)?,
        }),
        EditName::SetTimes => Ok(Edit::SetTimes {
            name: required(alloc, object, Member::Stage)?,
            queued: required(alloc, object, Member::Queued)?,
            runs: required(alloc, object, Member::Runs)?,
        }),
        EditName::SetAction => Ok(Edit::SetAction {
            name: required(alloc, object, Member::Stage)?,
            action: required(alloc, object, Member::Action)?,
        }),
        EditName::SetEnds => Ok(Edit::SetEnds {
            name: required(alloc, object, Member::Stage)?,
            ends: required(alloc, object, Member::Ends)?,
        }),
        EditName::Add => {
            let Some(new) = object.get(Member::New.text()) else {
                return Err(Fault::Shape(Member::New));
            };
            Ok(Edit::Add(read_new(alloc, &new)?))
        }
        EditName::Remove => Ok(Edit::Remove(required(alloc, object, Member::Stage)?)),
        EditName::Rewire => Ok(Edit::Rewire {
            name: required(alloc, object, Member::Stage)?,
            sources: required(alloc, object, Member::Sources)?,
            inner: required(alloc, object, Member::Inner)?,
        }),
    }
}

/// Edits in order, whatever their number.
#[derive(Drop)]
pub(crate) struct EditList {
    items: Vec<Edit>,
}

impl Model for EditList {
    ghost use Rattle.std.specs.Prelude.{List};
    ghost use Rattle.stage_graph.specs.declared.edit.Edit.{Edit};

    ghost Value = { List Edit };

    ghost use Rattle.std.specs.Coded.{codes};
    ghost use Rattle.act_expr.specs.ExpressionCode.{coded_expression};

    ghost coded = { Prim.hlevel (codes, coded_expression) };

    ghost view = { λ edits. edits.items.items };
}

impl EditList {
    /// No edits.
    fn new(alloc: Global) -> EditList
        ensures { result ≡ [] }
    {
        EditList {
            items: Vec::new(alloc),
        }
    }

    /// Adds an edit at the end.
    fn push(&mut self, edit: Edit) -> Result<(), AllocError>
        ensures { OnOk result (self.new ≡ self.old ++ edit ∷ []) }
    {
        self.items.push(edit)?;
        Ok(())
    }

    /// The list, if it has 1 to 64 edits.
    fn into_edits(self) -> Result<Edits, Fault>
        ensures { IsRead result (with_list_size (edit_list self)) }
    {
        match Edits::new(self.items) {
            Ok(edits) => Ok(edits),
            Err(_) => Err(Fault::ListSize),
        }
    }
}

/// An element of `edits`.
fn read_listed_edit(alloc: Global, value: &Tree<'_, '_>) -> Result<Edit, Fault>
    ensures { IsRead result (listed_edit value.now) }
{
    if !value.is_object() {
        return Err(Fault::Shape(Member::Edits));
    }
    let name = required::<EditName>(alloc, value, Member::Do)?;
    read_edit(alloc, name, value)
}

/// The edits of a list. Their number is checked after each of them is read.
pub(crate) fn read_edits(alloc: Global, object: &Tree<'_, '_>) -> Result<Edits, Fault>
    ensures { IsRead result (edits_member object.now) }
{
    let Some(value) = object.get(Member::Edits.text()) else {
        return Err(Fault::Shape(Member::Edits));
    };
    let Some(mut items) = value.as_array() else {
        return Err(Fault::Shape(Member::Edits));
    };
    let mut edits = EditList::new(alloc);
    while let Some(item) = items.next() {
        let edit = read_listed_edit(alloc, &item)?;
        edits.push(edit)?;
    }
    edits.into_edits()
}
