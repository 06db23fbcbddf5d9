//! The members of objects, and what is wrong in them.
use crate::action::action_fault;
use crate::finding::StageFault;
use crate::findings::Findings;
use crate::site::Path;
use crate::wanted::Wanted;
use json_names::is_among;
use json_trees::Tree;
use std::alloc::AllocError;

/// No moment and no duration is above this number of ticks.
const LAST_TICK: u64 = 1 << 40;

/// A member that an object has to have or may have, by its name, and what it may be.
#[derive(Clone, Copy)]
pub(crate) enum Member {
    Needed(&'static str, Wanted),
    Optional(&'static str, Wanted),
}

/// A member that stages of some operations, or ends of some kinds, have to have, and the others have not.
#[derive(Clone, Copy)]
pub(crate) struct MemberOf {
    pub name: &'static str,
    pub wanted: Wanted,
    /// The names of these operations or kinds.
    pub owners: &'static [&'static str],
}

impl Member {
    pub(crate) fn name(self) -> &'static str {
        match self {
            Member::Needed(name, _) | Member::Optional(name, _) => name,
        }
    }

    /// The name, what it may be, and whether it has to be there.
    fn parts(self) -> (&'static str, Wanted, bool) {
        match self {
            Member::Needed(name, wanted) => (name, wanted, true),
            Member::Optional(name, wanted) => (name, wanted, false),
        }
    }
}

/// The names of the members of an outcome.
pub(crate) const OUTCOME_MEMBERS: &[&str] = &["value", "bare", "wrapped"];

/// The members of an outcome, which has one of them.
const PARTS_OF_OUTCOME: &[Member] = &[
    Member::Optional("value", Wanted::Value),
    Member::Optional("bare", Wanted::Exception),
    Member::Optional("wrapped", Wanted::Exception),
];

/// The members of an end.
pub(crate) const END_MEMBERS: &[&str] = &["at", "do", "delay", "value", "throws"];

/// The kinds of ends that have a delay.
pub(crate) const KINDS_WITH_DELAY: &[&str] = &["orTimeout", "completeOnTimeout"];

/// The kinds of ends that have the value that they complete with.
pub(crate) const KINDS_WITH_VALUE: &[&str] = &["complete", "completeOnTimeout"];

/// The kinds of ends that have the exception that they complete with.
pub(crate) const KINDS_WITH_EXCEPTION: &[&str] = &["completeExceptionally"];

/// The members that only some kinds of ends have.
const MEMBERS_OF_KINDS: &[MemberOf] = &[
    MemberOf {
        name: "delay",
        wanted: Wanted::Ticks,
        owners: KINDS_WITH_DELAY,
    },
    MemberOf {
        name: "value",
        wanted: Wanted::Value,
        owners: KINDS_WITH_VALUE,
    },
    MemberOf {
        name: "throws",
        wanted: Wanted::Exception,
        owners: KINDS_WITH_EXCEPTION,
    },
];

/// The name that a member is, where it is one of those that are wanted.
pub(crate) fn name_in<'a>(object: &Tree<'_, 'a>, member: &str, wanted: Wanted) -> Option<&'a str> {
    let value = object.get(member)?;
    if wanted.is_met_by(&value) {
        value.as_str()
    } else {
        None
    }
}

/// The number of ticks that a value is, where it is wanted as such a number and is above the last tick.
fn late_ticks(value: &Tree<'_, '_>, wanted: Wanted) -> Option<u64> {
    match (wanted, value.as_u64()) {
        (Wanted::Ticks | Wanted::TicksOrNull, Some(ticks)) if ticks > LAST_TICK => Some(ticks),
        _ => None,
    }
}

/// Looks at the value of a member by itself.
fn look_at_value<'a>(
    findings: &mut Findings<'a>,
    path: Path<'a>,
    value: &Tree<'_, 'a>,
    wanted: Wanted,
    name: &'static str,
) -> Result<(), AllocError> {
    if !wanted.is_met_by(value) {
        return findings.wrong(path, value, wanted);
    }
    match late_ticks(value, wanted) {
        Some(ticks) => findings.limit(path.site, name, ticks, LAST_TICK),
        None => Ok(()),
    }
}

/// Looks at a member by itself, and not at what stands in it.
fn look_at_whole<'a>(
    findings: &mut Findings<'a>,
    path: Path<'a>,
    object: &Tree<'_, 'a>,
    member: Member,
) -> Result<(), AllocError> {
    let (name, wanted, is_needed) = member.parts();
    match object.get(name) {
        None if is_needed => findings.missing(path.to(name), wanted),
        None => Ok(()),
        Some(value) => look_at_value(findings, path.to(name), &value, wanted, name),
    }
}

/// Looks at a member, and at what stands in it.
pub(crate) fn look_at_member<'a>(
    findings: &mut Findings<'a>,
    path: Path<'a>,
    object: &Tree<'_, 'a>,
    member: Member,
) -> Result<(), AllocError> {
    look_at_whole(findings, path, object, member)?;
    let (name, wanted, _) = member.parts();
    match object.get(name) {
        Some(value) => look_into(findings, path.to(name), &value, wanted),
        None => Ok(()),
    }
}

/// Looks at members, in their order.
pub(crate) fn look_at_all<'a>(
    findings: &mut Findings<'a>,
    path: Path<'a>,
    object: &Tree<'_, 'a>,
    members: &[Member],
) -> Result<(), AllocError> {
    for member in members {
        look_at_member(findings, path, object, *member)?;
    }
    Ok(())
}

/// Looks at the members that only some operations or kinds have, of one of these.
pub(crate) fn look_at_members_of<'a>(
    findings: &mut Findings<'a>,
    path: Path<'a>,
    object: &Tree<'_, 'a>,
    owner: &'a str,
    members: &[MemberOf],
) -> Result<(), AllocError> {
    for member in members {
        if is_among(owner, member.owners) {
            let needed = Member::Needed(member.name, member.wanted);
            look_at_whole(findings, path, object, needed)?;
        } else {
            findings.unread_beside(path, object, member.name, owner)?;
        }
    }
    Ok(())
}

/// Looks at what stands in a value.
fn look_into<'a>(
    findings: &mut Findings<'a>,
    path: Path<'a>,
    value: &Tree<'_, 'a>,
    wanted: Wanted,
) -> Result<(), AllocError> {
    match wanted {
        Wanted::Names => look_at_names(findings, path, value),
        Wanted::OutcomeOrNull => look_at_outcome(findings, path, value),
        Wanted::Action => look_at_action(findings, path, value),
        Wanted::Ends => look_at_ends(findings, path, value),
        _ => Ok(()),
    }
}

/// Looks at the elements of an array of names.
fn look_at_names<'a>(
    findings: &mut Findings<'a>,
    path: Path<'a>,
    names: &Tree<'_, 'a>,
) -> Result<(), AllocError> {
    let Some(mut items) = names.as_array() else {
        return Ok(());
    };
    for index in 0..usize::MAX {
        let Some(name) = items.next() else {
            break;
        };
        if name.as_str().is_none() {
            findings.wrong(path.item(index), &name, Wanted::Text)?;
        }
    }
    Ok(())
}

/// Looks at the members of an outcome.
fn look_at_outcome<'a>(
    findings: &mut Findings<'a>,
    path: Path<'a>,
    outcome: &Tree<'_, 'a>,
) -> Result<(), AllocError> {
    if Wanted::OutcomeOrNull.is_met_by(outcome) {
        for part in PARTS_OF_OUTCOME {
            look_at_whole(findings, path, outcome, *part)?;
        }
    }
    findings.unread(path, outcome, OUTCOME_MEMBERS)
}

/// Looks at an action.
fn look_at_action<'a>(
    findings: &mut Findings<'a>,
    path: Path<'a>,
    action: &Tree<'_, 'a>,
) -> Result<(), AllocError> {
    match action_fault(findings.alloc(), action)? {
        Err((found, wanted)) => findings.wrong_as(path, found, wanted),
        Ok(size) if size.nodes <= 256 && size.depth <= 32 => Ok(()),
        Ok(size) => {
            let (nodes, depth) = (size.nodes, size.depth);
            findings.stage_fault(path.site, Some(StageFault::Expression { nodes, depth }))
        }
    }
}

/// Looks at an end.
fn look_at_end<'a>(
    findings: &mut Findings<'a>,
    path: Path<'a>,
    end: &Tree<'_, 'a>,
) -> Result<(), AllocError> {
    if !end.is_object() {
        return findings.wrong(path, end, Wanted::End);
    }
    look_at_whole(findings, path, end, Member::Needed("at", Wanted::Ticks))?;
    look_at_whole(findings, path, end, Member::Needed("do", Wanted::Kind))?;
    if let Some(kind) = name_in(end, "do", Wanted::Kind) {
        look_at_members_of(findings, path, end, kind, MEMBERS_OF_KINDS)?;
    }
    findings.unread(path, end, END_MEMBERS)
}

/// Looks at the elements of an array of ends.
fn look_at_ends<'a>(
    findings: &mut Findings<'a>,
    path: Path<'a>,
    ends: &Tree<'_, 'a>,
) -> Result<(), AllocError> {
    let Some(mut items) = ends.as_array() else {
        return Ok(());
    };
    for index in 0..usize::MAX {
        let Some(end) = items.next() else {
            break;
        };
        look_at_end(findings, path.item(index), &end)?;
    }
    Ok(())
}
