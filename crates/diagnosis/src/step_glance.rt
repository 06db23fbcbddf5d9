//! A glance at a step: whether any of its members could be one that nothing reads, or one that stands more than once.
use crate::members::Member;
use crate::met::{OutcomeMet, meet};
use crate::passing::{Passing, all_pass};
use crate::step_members::{members_of, members_of_edit, members_of_report};
use crate::wanted::{EDIT_NAMES, REPORTS, STEP_NAMES, Wanted};
use json_names::is_among;

/// The depth of the members of a step, of an outcome in it, of an edit of its list, and of an outcome in that.
const OF_STEP: usize = 1;

const OF_OUTCOME: usize = 2;

const OF_EDIT: usize = 3;

const OF_OUTCOME_OF_EDIT: usize = 4;

/// The member that says what a step or an edit does, which comes before the others.
const FIRST: &[Member] = &[Member::Needed("do", Wanted::StepName)];

/// What the next text decides.
#[derive(Clone, Copy)]
enum Awaited {
    Nothing,
    /// What the step does.
    Name,
    /// What is reported.
    Report,
    /// What an edit of a list does.
    EditName,
}

/// Where a glance is.
#[derive(Clone, Copy)]
struct StepGlance<'a> {
    /// How many arrays and objects are open.
    depth: usize,
    /// The last text.
    text: &'a [u8],
    awaited: Awaited,
    /// The members that the step is known to have further, by what stands before.
    members: &'static [Member],
    /// The member with which each edit of the step's list begins, if the step has one.
    first_of_edit: &'static [Member],
    /// The members that the edit is known to have further, by what stands before.
    edit_members: &'static [Member],
    /// Which of the step's members, of the outcome's and of the edit's were met.
    met: Met,
    outcome_met: OutcomeMet,
    edit_met: Met,
}

/// The most members that a step or an edit is known to have further.
const MOST_MEMBERS: usize = 8;

/// Which of several members were met, by their order.
type Met = [bool; MOST_MEMBERS];

const NONE_MET: Met = [false; MOST_MEMBERS];

/// Whether a text is the name of one of the members, and of one that was not met before.
fn meets_one_of(text: &[u8], members: &[Member], met: &mut Met) -> bool {
    for (member, is_met) in members.iter().zip(met.iter_mut()) {
        if member.name().as_bytes() == text {
            return meet(is_met);
        }
    }
    false
}

/// Whether a step or an edit of a name has members of a stage or of ends in its members.
fn has_inner_members(name: &str) -> bool {
    is_among(name, &["add", "setEnds"])
}

/// The members that a step of a name has further, as far as they are known without what it reports and none is of a stage or of
/// ends.
fn members_by_name(name: &[u8]) -> &'static [Member] {
    match str::from_utf8(name) {
        Ok("report") => members_of_report("all"),
        Ok(name) if is_among(name, STEP_NAMES) && !has_inner_members(name) => members_of(name),
        _ => &[],
    }
}

/// The further members of an edit of a name, as above.
fn members_by_edit_name(name: &[u8]) -> &'static [Member] {
    match str::from_utf8(name) {
        Ok(name) if is_among(name, EDIT_NAMES) && !has_inner_members(name) => members_of_edit(name),
        _ => &[],
    }
}

/// The further members of a step that reports this.
fn members_by_report(what: &[u8]) -> &'static [Member] {
    match str::from_utf8(what) {
        Ok(what) if is_among(what, REPORTS) => members_of_report(what),
        _ => &[],
    }
}

impl<'a> StepGlance<'a> {
    /// Takes what the step does.
    fn take_name(&mut self, name: &[u8]) {
        self.members = members_by_name(name);
        self.met = NONE_MET;
        if matches!(name, b"edits") {
            self.first_of_edit = FIRST;
        }
    }

    /// Takes what an edit does.
    fn take_edit_name(&mut self, name: &[u8]) {
        self.edit_members = members_by_edit_name(name);
        self.edit_met = NONE_MET;
    }

    /// What the text after a member's name decides.
    fn awaited_after_name(&self) -> Awaited {
        match (self.depth, self.text) {
            (OF_STEP, b"do") => Awaited::Name,
            (OF_STEP, b"what") => Awaited::Report,
            (OF_EDIT, b"do") => Awaited::EditName,
            _ => Awaited::Nothing,
        }
    }
}

impl<'a> Passing<'a> for StepGlance<'a> {
    fn take(&mut self, text: &'a [u8]) {
        self.text = text;
        match self.awaited {
            Awaited::Name => self.take_name(text),
            Awaited::Report => self.members = members_by_report(text),
            Awaited::EditName => self.take_edit_name(text),
            Awaited::Nothing => {}
        }
        self.awaited = Awaited::Nothing;
    }

    fn enter(&mut self) {
        self.depth = self.depth.saturating_add(1);
        match self.depth {
            OF_EDIT => {
                self.edit_members = self.first_of_edit;
                self.edit_met = NONE_MET;
            }
            OF_OUTCOME | OF_OUTCOME_OF_EDIT => self.outcome_met = OutcomeMet::none(),
            _ => {}
        }
    }

    fn leave(&mut self) -> bool {
        self.depth = self.depth.saturating_sub(1);
        true
    }

    fn name(&mut self, _value: &'a [u8]) -> bool {
        self.awaited = self.awaited_after_name();
        match self.depth {
            OF_STEP => meets_one_of(self.text, self.members, &mut self.met),
            OF_EDIT => meets_one_of(self.text, self.edit_members, &mut self.edit_met),
            OF_OUTCOME | OF_OUTCOME_OF_EDIT => self.outcome_met.name(self.text),
            _ => false,
        }
    }
}

/// Whether a step could have a member that nothing reads, or one that stands more than once. What it does has to stand before its other members, what it reports
/// before those of the report, and what an edit does before those of the edit, or it could.
pub fn may_step_be_unread(step: &[u8]) -> bool {
    let mut glance = StepGlance {
        depth: 0,
        text: b"",
        awaited: Awaited::Nothing,
        members: FIRST,
        first_of_edit: &[],
        edit_members: &[],
        met: NONE_MET,
        outcome_met: OutcomeMet::none(),
        edit_met: NONE_MET,
    };
    !all_pass(step, &mut glance)
}
