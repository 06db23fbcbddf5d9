//! Replies and faults as JSON.
ghost use Rattle.std.specs.Prelude.{◌≡◌, [], IfOk, OnOk, option_copied};
ghost use Rattle.serde_json.specs.Data.{object as object_of};
ghost use Rattle.serde_json.specs.View.{view};
ghost use Rattle.report_json.specs.Json.{with};
ghost use Rattle.report_json.specs.Objects.{held};
ghost use Rattle.serve_script.specs.Values.{closed_json, dependent_members, detail_members, edit_name, fault_json, index_members, opened_json, refusal_json, refusal_name, refused};

use crate::reply::dependent_name;
use recording::Fault;
use report_json::Object;
use serde_json::Value;
use session_core::{Event, Refusal};
use std::alloc::{AllocError, Global};
use version_store::{StateRepresentation, Version};

/// Why a line names no step.
pub(crate) fn fault_value(alloc: Global, fault: &Fault) -> Result<Value, AllocError>
    ensures { IfOk result (λ value. view value ≡ fault_json fault.now) }
{
    match fault {
        Fault::Refused(stage) => {
            let refusal = stage.refusal;
            let mut object = begun_refusal(alloc, refusal.number(), edit_name(refusal))?;
            object.count("at", stage.at as u64)?;
            Ok(object.into_value())
        }
        Fault::Cycle(_) => plain_refusal(alloc, 19, "Cycle"),
        Fault::ListSize => plain_refusal(alloc, 21, "ListSize"),
        Fault::Json => plain_refusal(alloc, 70, "JSON"),
        Fault::Shape(member) => {
            let mut object = begun_refusal(alloc, 71, "Shape")?;
            object.text("member", member.text())?;
            Ok(object.into_value())
        }
        Fault::TooLong => plain_refusal(alloc, 72, "TooLong"),
        Fault::Memory => plain_refusal(alloc, 90, "Memory"),
    }
}

/// A refusal of which no more is told than its number and its name.
pub(crate) fn plain_refusal(alloc: Global, number: u32, name: &str) -> Result<Value, AllocError>
    ensures { IfOk result (λ value. view value ≡ refused number name.now []) }
{
    let object = begun_refusal(alloc, number, name)?;
    Ok(object.into_value())
}

// The number and the name of a refusal.
fn begun_refusal(alloc: Global, number: u32, name: &str) -> Result<Object, AllocError>
    ensures { IfOk result (λ object. object_of (held object) ≡ refused number name.now []) }
{
    let mut object = Object::new(alloc);
    object.text("reply", "refused")?;
    object.count("number", u64::from(number))?;
    object.text("name", name)?;
    Ok(object)
}

/// A session was opened at a version.
pub(crate) fn opened_value(alloc: Global, session: u32, version: u32) -> Result<Value, AllocError>
    ensures { IfOk result (λ value. view value ≡ opened_json session version) }
{
    let mut object = Object::new(alloc);
    object.text("reply", "opened")?;
    object.count("session", u64::from(session))?;
    object.count("version", u64::from(version))?;
    Ok(object.into_value())
}

/// A session was closed.
pub(crate) fn closed_value(alloc: Global, session: u32) -> Result<Value, AllocError>
    ensures { IfOk result (λ value. view value ≡ closed_json session) }
{
    let mut object = Object::new(alloc);
    object.text("reply", "closed")?;
    object.count("session", u64::from(session))?;
    Ok(object.into_value())
}

/// Why an event was refused. `listed` says whether its edits came as a list, so that the refusal tells the index of its edit;
/// `base` is the version that a commit edits.
pub(crate) fn refusal_value<R: StateRepresentation>(
    alloc: Global,
    base: Option<&Version<R>>,
    event: &Event,
    listed: bool,
    refusal: Refusal,
) -> Result<Value, AllocError>
    ensures { IfOk result (λ value. view value ≡ refusal_json (option_copied base.entry) event.now listed refusal) }
{
    let mut object = begun_refusal(alloc, refusal.number(), refusal_name(refusal))?;
    add_detail(&mut object, base, event, refusal)?;
    add_index(&mut object, listed, refusal.place())?;
    Ok(object.into_value())
}

// The dependent of a removed stage, by its name, and the number of a head or of a version.
fn add_detail<R: StateRepresentation>(
    object: &mut Object,
    base: Option<&Version<R>>,
    event: &Event,
    refusal: Refusal,
) -> Result<(), AllocError>
    ensures { OnOk result (held object.new ≡ with (held object.old) (detail_members (option_copied base.entry) event.now refusal)) }
{
    match refusal {
        Refusal::Edits(refused) => add_dependent(object, base, event, refused.refusal),
        Refusal::Moved(head) => object.count("head", u64::from(head)),
        Refusal::Foreign(version) => object.count("version", u64::from(version)),
        _ => Ok(()),
    }
}

fn add_dependent<R: StateRepresentation>(
    object: &mut Object,
    base: Option<&Version<R>>,
    event: &Event,
    refusal: stage_graph::Refusal,
) -> Result<(), AllocError>
    ensures { OnOk result (held object.new ≡ with (held object.old) (dependent_members (option_copied base.entry) event.now refusal)) }
{
    match refusal {
        stage_graph::Refusal::InUse(place) => {
            object.text("dependent", dependent_name(base, event, place))
        }
        _ => Ok(()),
    }
}

fn add_index(object: &mut Object, listed: bool, place: Option<usize>) -> Result<(), AllocError>
    ensures { OnOk result (held object.new ≡ with (held object.old) (index_members listed place)) }
{
    match place {
        Some(index) if listed => object.count("edit", index as u64),
        _ => Ok(()),
    }
}

fn refusal_name(refusal: Refusal) -> &'static str
    ensures { result.now ≡ refusal_name refusal }
{
    match refusal {
        Refusal::Edits(refused) => edit_name(refused.refusal),
        Refusal::Cycle => "Cycle",
        Refusal::SessionOpen => "SessionOpen",
        Refusal::NoSession => "NoSession",
        Refusal::NoVersion => "NoVersion",
        Refusal::Moved(_) => "Moved",
        Refusal::AtBottom => "AtBottom",
        Refusal::Full => "Full",
        Refusal::Foreign(_) => "Foreign",
        Refusal::BadSession => "BadSession",
        Refusal::TooManySessions => "TooManySessions",
    }
}

fn edit_name(refusal: stage_graph::Refusal) -> &'static str
    ensures { result.now ≡ edit_name refusal }
{
    match refusal {
        stage_graph::Refusal::NoStage => "NoStage",
        stage_graph::Refusal::NameTaken => "NameTaken",
        stage_graph::Refusal::BadName => "BadName",
        stage_graph::Refusal::Arity => "Arity",
        stage_graph::Refusal::NoSource => "NoSource",
        stage_graph::Refusal::Limit => "Limit",
        stage_graph::Refusal::EndBeforeCreated => "EndBeforeCreated",
        stage_graph::Refusal::NoAction => "NoAction",
        stage_graph::Refusal::InUse(_) => "InUse",
        stage_graph::Refusal::Expr(_) => "Expr",
    }
}
