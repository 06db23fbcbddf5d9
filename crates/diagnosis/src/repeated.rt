//! Members that an object has more than once, where its members are read.
use crate::members::{END_MEMBERS, OUTCOME_MEMBERS};
use crate::recording::RECORDING_MEMBERS;
use crate::site::Site;
use crate::stage::{SPAN, STAGE_MEMBERS};
use crate::step_members::STEP_MEMBERS;
use crate::unread::{Unread, Warning};
use json_trees::{Items, Tree};
use std::alloc::{AllocError, Global};

/// What has members, or holds what has them.
#[derive(Clone, Copy)]
pub(crate) enum Holder {
    Recording,
    /// The stage of a recording at this place.
    Stage(usize),
    Step,
    /// The stage that a step adds.
    New,
    /// The edit of a step's list at this index.
    Edit(usize),
    /// The stage that it adds.
    NewOfEdit(usize),
}

/// An object whose members are read: what holds it, and the member and the element of this that it is.
#[derive(Clone, Copy)]
pub(crate) struct Spot {
    pub holder: Holder,
    pub within: Option<&'static str>,
    pub index: Option<usize>,
}

/// A member that an object has more than once.
#[derive(Clone, Copy)]
pub(crate) struct Repeated {
    pub spot: Spot,
    pub member: &'static str,
}

impl Repeated {
    /// The warning of it, of what holds it.
    pub(crate) fn warning<'a>(self, site: Site<'a>) -> Warning<'a> {
        Warning {
            site,
            within: self.spot.within,
            index: self.spot.index,
            member: self.member,
            why: Unread::Repeated,
            more: 0,
        }
    }

    /// Whether it stands in the stages of a recording.
    fn is_in_stages(&self) -> bool {
        matches!(self.spot.holder, Holder::Stage(_))
    }
}

impl Spot {
    /// What holds others itself.
    fn of(holder: Holder) -> Spot {
        Spot {
            holder,
            within: None,
            index: None,
        }
    }

    /// A member of it.
    fn member(holder: Holder, name: &'static str) -> Spot {
        Spot {
            holder,
            within: Some(name),
            index: None,
        }
    }

    /// The names of the members that are read there, or may be.
    fn names(self) -> &'static [&'static str] {
        match (self.holder, self.within) {
            (_, Some("ends")) => END_MEMBERS,
            (_, Some(_)) => OUTCOME_MEMBERS,
            (Holder::Recording, None) => RECORDING_MEMBERS,
            (Holder::Stage(_) | Holder::New | Holder::NewOfEdit(_), None) => STAGE_MEMBERS,
            (Holder::Step | Holder::Edit(_), None) => STEP_MEMBERS,
        }
    }

    /// The member that is read there under a name. A label is its writer's own.
    fn named(self, name: &str) -> Option<&'static str> {
        let member = self.names().iter().find(|own| **own == name).copied()?;
        if member == SPAN { None } else { Some(member) }
    }
}

/// A member that was met in an object.
#[derive(Clone, Copy)]
struct Met {
    member: &'static str,
    /// Whether it was met again.
    is_told: bool,
}

/// The members of one object that were met, and how often.
#[derive(Drop)]
struct Meeting {
    spot: Spot,
    met: Vec<Met>,
}

impl Meeting {
    fn new(alloc: Global, spot: Spot) -> Meeting {
        Meeting {
            spot,
            met: Vec::new(alloc),
        }
    }

    /// Meets the member of a name. Where it is met for the second time, it is found.
    fn meet(&mut self, name: &str, found: &mut Vec<Repeated>) -> Result<(), AllocError> {
        let spot = self.spot;
        let Some(member) = spot.named(name) else {
            return Ok(());
        };
        for met in self.met.iter_mut() {
            if met.member == member {
                if !met.is_told {
                    met.is_told = true;
                    found.push(Repeated { spot, member })?;
                }
                return Ok(());
            }
        }
        self.met.push(Met {
            member,
            is_told: false,
        })?;
        Ok(())
    }
}

/// Meets the members of an object, and not what stands in them.
fn meet_members(
    alloc: Global,
    spot: Spot,
    object: &Tree<'_, '_>,
    found: &mut Vec<Repeated>,
) -> Result<(), AllocError> {
    let Some(mut members) = object.members() else {
        return Ok(());
    };
    let mut meeting = Meeting::new(alloc, spot);
    for _ in 0..u64::MAX {
        let Some((name, _)) = members.next() else {
            break;
        };
        meeting.meet(name, found)?;
    }
    Ok(())
}

/// Meets the members of the ends of a holder.
fn meet_ends(
    alloc: Global,
    holder: Holder,
    ends: &mut Items<'_, '_>,
    found: &mut Vec<Repeated>,
) -> Result<(), AllocError> {
    for index in 0..usize::MAX {
        let Some(end) = ends.next() else {
            break;
        };
        let spot = Spot {
            holder,
            within: Some("ends"),
            index: Some(index),
        };
        meet_members(alloc, spot, &end, found)?;
    }
    Ok(())
}

/// Meets the members of what stands in a member of a holder.
fn meet_within(
    alloc: Global,
    holder: Holder,
    name: &str,
    value: &Tree<'_, '_>,
    found: &mut Vec<Repeated>,
) -> Result<(), AllocError> {
    match name {
        "pinResult" => meet_members(alloc, Spot::member(holder, "pinResult"), value, found),
        "result" => meet_members(alloc, Spot::member(holder, "result"), value, found),
        "ends" => match value.as_array() {
            Some(mut ends) => meet_ends(alloc, holder, &mut ends, found),
            None => Ok(()),
        },
        _ => Ok(()),
    }
}

/// Meets the members of a holder, and of what stands in them: of a stage, or of an edit that adds none.
fn meet_holder(
    alloc: Global,
    holder: Holder,
    object: &Tree<'_, '_>,
    found: &mut Vec<Repeated>,
) -> Result<(), AllocError> {
    let Some(mut members) = object.members() else {
        return Ok(());
    };
    let mut meeting = Meeting::new(alloc, Spot::of(holder));
    for _ in 0..u64::MAX {
        let Some((name, value)) = members.next() else {
            break;
        };
        meeting.meet(name, found)?;
        meet_within(alloc, holder, name, &value, found)?;
    }
    Ok(())
}

/// The members that a stage of a recording has more than once, and those that objects in it have; each is told once.
pub(crate) fn add_repeated_of_stage(
    alloc: Global,
    place: usize,
    stage: &Tree<'_, '_>,
    found: &mut Vec<Repeated>,
) -> Result<(), AllocError> {
    meet_holder(alloc, Holder::Stage(place), stage, found)
}

/// The same of an array of stages.
fn meet_stages(
    alloc: Global,
    stages: &Tree<'_, '_>,
    found: &mut Vec<Repeated>,
) -> Result<(), AllocError> {
    let Some(mut items) = stages.as_array() else {
        return Ok(());
    };
    for place in 0..usize::MAX {
        let Some(stage) = items.next() else {
            break;
        };
        add_repeated_of_stage(alloc, place, &stage, found)?;
    }
    Ok(())
}

/// The members that an object of a recording has more than once, where they are read; each is told once. Of stages that stand
/// more than once the last ones count.
pub(crate) fn repeated_in_recording(
    alloc: Global,
    recording: &Tree<'_, '_>,
) -> Result<Vec<Repeated>, AllocError> {
    let mut found = Vec::new(alloc);
    let Some(mut members) = recording.members() else {
        return Ok(found);
    };
    let mut meeting = Meeting::new(alloc, Spot::of(Holder::Recording));
    for _ in 0..u64::MAX {
        let Some((name, value)) = members.next() else {
            break;
        };
        meeting.meet(name, &mut found)?;
        if name == "stages" {
            found.retain(|repeated| !repeated.is_in_stages());
            meet_stages(alloc, &value, &mut found)?;
        }
    }
    Ok(found)
}

/// Meets the members of what stands in a member of a step or an edit; `added` is the stage that it adds.
fn meet_in_edit(
    alloc: Global,
    holder: Holder,
    added: Holder,
    name: &str,
    value: &Tree<'_, '_>,
    found: &mut Vec<Repeated>,
) -> Result<(), AllocError> {
    match name {
        "new" => meet_holder(alloc, added, value, found),
        _ => meet_within(alloc, holder, name, value, found),
    }
}

/// Meets the members of an edit of a step's list.
fn meet_edit(
    alloc: Global,
    index: usize,
    edit: &Tree<'_, '_>,
    found: &mut Vec<Repeated>,
) -> Result<(), AllocError> {
    let Some(mut members) = edit.members() else {
        return Ok(());
    };
    let holder = Holder::Edit(index);
    let added = Holder::NewOfEdit(index);
    let mut meeting = Meeting::new(alloc, Spot::of(holder));
    for _ in 0..u64::MAX {
        let Some((name, value)) = members.next() else {
            break;
        };
        meeting.meet(name, found)?;
        meet_in_edit(alloc, holder, added, name, &value, found)?;
    }
    Ok(())
}

/// The same of an array of edits.
fn meet_edits(
    alloc: Global,
    edits: &Tree<'_, '_>,
    found: &mut Vec<Repeated>,
) -> Result<(), AllocError> {
    let Some(mut items) = edits.as_array() else {
        return Ok(());
    };
    for index in 0..usize::MAX {
        let Some(edit) = items.next() else {
            break;
        };
        meet_edit(alloc, index, &edit, found)?;
    }
    Ok(())
}

/// The members that an object of a step has more than once, where they are read; each is told once.
pub(crate) fn repeated_in_step(
    alloc: Global,
    step: &Tree<'_, '_>,
) -> Result<Vec<Repeated>, AllocError> {
    let mut found = Vec::new(alloc);
    let Some(mut members) = step.members() else {
        return Ok(found);
    };
    let mut meeting = Meeting::new(alloc, Spot::of(Holder::Step));
    for _ in 0..u64::MAX {
        let Some((name, value)) = members.next() else {
            break;
        };
        meeting.meet(name, &mut found)?;
        match name {
            "edits" => meet_edits(alloc, &value, &mut found)?,
            _ => meet_in_edit(alloc, Holder::Step, Holder::New, name, &value, &mut found)?,
        }
    }
    Ok(found)
}
