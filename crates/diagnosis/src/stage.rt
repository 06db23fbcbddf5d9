//! The members of a stage, of a recording or of a step that adds it.
use crate::findings::Findings;
use crate::members::{Member, MemberOf, look_at_all, look_at_members_of, name_in};
use crate::site::{Path, Site};
use crate::unread::{Unread, Warning};
use crate::wanted::Wanted;
use json_trees::Tree;
use std::alloc::AllocError;

/// The label of a stage by which an imported recording tells of which span the stage is.
pub(crate) const SPAN: &str = "span";

/// The members of a stage, and its label.
pub(crate) const STAGE_MEMBERS: &[&str] = &[
    "name",
    "op",
    "value",
    "throws",
    "sources",
    "inner",
    "created",
    "takes",
    "queued",
    "runs",
    "action",
    "pinResult",
    "pinMoment",
    "ends",
    SPAN,
];

/// The members that each stage has.
const FIRST_MEMBERS: &[Member] = &[
    Member::Needed("name", Wanted::Text),
    Member::Needed("op", Wanted::Operation),
];

/// The members that only stages of an operation have.
const MEMBERS_OF_OPERATIONS: &[MemberOf] = &[
    MemberOf {
        name: "value",
        wanted: Wanted::Value,
        owners: &["completed"],
    },
    MemberOf {
        name: "throws",
        wanted: Wanted::Exception,
        owners: &["failed"],
    },
];

/// The further members up to the times.
const MEMBERS_BEFORE_TIMES: &[Member] = &[
    Member::Optional("sources", Wanted::Names),
    Member::Optional("inner", Wanted::Names),
    Member::Optional("created", Wanted::Ticks),
];

/// The times in form 1. That it has no `queued` and `runs` is told of the recording as a whole.
const TIMES_OF_FORM_ONE: &[Member] = &[Member::Optional("takes", Wanted::Ticks)];

/// The times in form 2.
const TIMES_OF_FORM_TWO: &[Member] = &[
    Member::Optional("takes", Wanted::NoTakes),
    Member::Optional("queued", Wanted::Ticks),
    Member::Optional("runs", Wanted::Ticks),
];

/// What stands in place of what a stage computes.
const LAST_MEMBERS: &[Member] = &[
    Member::Optional("action", Wanted::Action),
    Member::Optional("pinResult", Wanted::OutcomeOrNull),
    Member::Optional("pinMoment", Wanted::TicksOrNull),
    Member::Optional("ends", Wanted::Ends),
];

/// How a stage gives its times.
#[derive(Clone, Copy)]
pub(crate) enum TimeForm {
    /// By `takes`.
    One,
    /// By `queued` and `runs`.
    Two,
}

impl TimeForm {
    /// The members that are times.
    fn times(self) -> &'static [Member] {
        match self {
            TimeForm::One => TIMES_OF_FORM_ONE,
            TimeForm::Two => TIMES_OF_FORM_TWO,
        }
    }
}

/// Looks at the members of a stage, in the order in which a mistake in them is told.
pub(crate) fn look_at_members<'a>(
    findings: &mut Findings<'a>,
    site: Site<'a>,
    form: TimeForm,
    stage: &Tree<'_, 'a>,
) -> Result<(), AllocError> {
    let path = Path::of(site);
    look_at_all(findings, path, stage, FIRST_MEMBERS)?;
    if let Some(name) = name_in(stage, "op", Wanted::Operation) {
        look_at_members_of(findings, path, stage, name, MEMBERS_OF_OPERATIONS)?;
    }
    for members in [MEMBERS_BEFORE_TIMES, form.times(), LAST_MEMBERS] {
        look_at_all(findings, path, stage, members)?;
    }
    findings.unread(path, stage, STAGE_MEMBERS)
}

/// Which of the times of form 2 a stage has, if one.
pub(crate) fn time_of_form_two(stage: &Tree<'_, '_>) -> Option<&'static str> {
    match (stage.get("queued"), stage.get("runs")) {
        (Some(_), _) => Some("queued"),
        (None, Some(_)) => Some("runs"),
        (None, None) => None,
    }
}

/// The warning that stages have times which form 1 does not read.
pub(crate) fn form_warning<'a>(site: Site<'a>, member: &'static str, more: usize) -> Warning<'a> {
    Warning {
        more,
        ..Warning::at(Path::of(site), member, Unread::OfFormTwo)
    }
}
