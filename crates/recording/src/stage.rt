//! Stages, recorded or new, read from JSON.
ghost use Rattle.std.specs.Prelude.{◌≡◌};
ghost use Rattle.recording.specs.StageOf.{op_of, times_of, spec_of};
ghost use Rattle.recording.specs.StageMembers.{stage_members_of};
ghost use Rattle.recording.specs.Reads.{IsRead};

use crate::forms::OpName;
use crate::object::{read_if_present, read_optional, read_required};
use crate::stage_members::StageMembers;
use crate::{Fault, Member};
use json_trees::Tree;
use stage_graph::{Ends, NameList, Op, Spec};
use std::alloc::Global;

/// How a recording gives the time that a stage takes.
#[derive(Clone, Copy, PartialEq, Eq, Debug)]
pub(crate) enum FormNumber {
    /// By `takes`: how long it runs; it is never queued.
    One,
    /// By `queued` and `runs`.
    Two,
}

/// How long a stage is queued, and how long it then runs, in ticks.
#[derive(Clone, Copy, PartialEq, Eq, Debug)]
pub(crate) struct Times {
    pub queued: u64,
    pub runs: u64,
}

/// The operation, with the value of `completed` and the exception of `failed`.
fn read_op(
    alloc: Global,
    object: &Tree<'_, '_>,
    members: &StageMembers<'_, '_>,
) -> Result<Op, Fault>
    requires { members.now ≡ stage_members_of object.now }
    ensures { IsRead result (op_of object.now) }
{
    match read_required::<OpName>(alloc, object, &members.op, Member::Op)? {
        OpName::Plain(op) => Ok(op),
        OpName::Completed => Ok(Op::Completed(read_required(
            alloc,
            object,
            &members.value,
            Member::Value,
        )?)),
        OpName::Failed => Ok(Op::Failed(read_required(
            alloc,
            object,
            &members.throws,
            Member::Throws,
        )?)),
    }
}

/// The times; each is 0 if it is absent.
fn read_times(
    alloc: Global,
    form: FormNumber,
    object: &Tree<'_, '_>,
    members: &StageMembers<'_, '_>,
) -> Result<Times, Fault>
    requires { members.now ≡ stage_members_of object.now }
    ensures { IsRead result (times_of form object.now) }
{
    match form {
        FormNumber::One => {
            let runs = read_optional(alloc, object, &members.takes, Member::Takes, 0)?;
            Ok(Times { queued: 0, runs })
        }
        FormNumber::Two => {
            if members.takes.is_some() {
                return Err(Fault::Shape(Member::Takes));
            }
            let queued = read_optional(alloc, object, &members.queued, Member::Queued, 0)?;
            let runs = read_optional(alloc, object, &members.runs, Member::Runs, 0)?;
            Ok(Times { queued, runs })
        }
    }
}

/// The stage, or a fault with the first of its members that doesn't have its form.
#[tactic(auto, unfolding(crate::specs::StageOf::spec_of))]
pub(crate) fn read_spec(
    alloc: Global,
    form: FormNumber,
    object: &Tree<'_, '_>,
) -> Result<Spec, Fault>
    ensures { IsRead result (spec_of form object.now) }
{
    let members = StageMembers::of(object);
    let name = read_required(alloc, object, &members.name, Member::Name)?;
    let op = read_op(alloc, object, &members)?;
    let sources = read_optional(
        alloc,
        object,
        &members.sources,
        Member::Sources,
        NameList::new(alloc),
    )?;
    let inner = read_optional(
        alloc,
        object,
        &members.inner,
        Member::Inner,
        NameList::new(alloc),
    )?;
    let created = read_optional(alloc, object, &members.created, Member::Created, 0)?;
    let times = read_times(alloc, form, object, &members)?;
    let action = read_if_present(alloc, object, &members.action, Member::Action)?;
    let pin_result = read_optional(alloc, object, &members.pin_result, Member::PinResult, None)?;
    let pin_moment = read_optional(alloc, object, &members.pin_moment, Member::PinMoment, None)?;
    let ends = read_optional(alloc, object, &members.ends, Member::Ends, Ends::new(alloc))?;
    Ok(Spec {
        name,
        op,
        sources,
        inner,
        created,
        queued: times.queued,
        runs: times.runs,
        action,
        pin_result,
        pin_moment,
        ends,
    })
}
