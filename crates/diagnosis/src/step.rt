//! What is found in a step of a script.
use crate::finding::Finding;
use crate::findings::Findings;
use crate::items::item_at;
use crate::members::{Member, look_at_all, look_at_member, name_in};
use crate::repeated::{Holder, repeated_in_step};
use crate::site::{Path, Site};
use crate::stage::{TimeForm, look_at_members, time_of_form_two};
use crate::stage_checks::{look_at_checks, look_at_numbers};
use crate::step_members::{members_of, members_of_edit, members_of_report};
use crate::wanted::{EDIT_NAMES, Wanted};
use json_names::{is_among, name_of};
use json_trees::Tree;
use std::alloc::{AllocError, Global};

/// The most edits of a list.
const MOST_EDITS: usize = 64;

/// The reports that name a stage.
const REPORTS_OF_STAGE: &[&str] = &["one", "blame", "path", "sweep"];

/// The stage that a step or an edit names.
pub(crate) fn stage_of<'a>(object: &Tree<'_, 'a>) -> Option<&'a str> {
    object.get("stage")?.as_str()
}

/// Looks at what stands in the stage that is added.
fn look_at_new<'a>(
    findings: &mut Findings<'a>,
    site: Site<'a>,
    step: &Tree<'_, 'a>,
) -> Result<(), AllocError> {
    let Some(new) = step.get("new") else {
        return Ok(());
    };
    if !new.is_object() {
        return Ok(());
    }
    let name = name_of(&new);
    let inside = match site {
        Site::Edit { index, .. } => Site::NewOfEdit { index, name },
        _ => Site::New { name },
    };
    let form = match time_of_form_two(&new) {
        Some(_) => TimeForm::Two,
        None => TimeForm::One,
    };
    look_at_members(findings, inside, form, &new)?;
    look_at_checks(findings, inside, form, &new)
}

/// Looks at an edit, but for its members by themselves.
fn look_at_edit<'a>(
    findings: &mut Findings<'a>,
    site: Site<'a>,
    edit: &Tree<'_, 'a>,
    name: &str,
) -> Result<(), AllocError> {
    match name {
        "add" => look_at_new(findings, site, edit),
        _ => look_at_numbers(findings, site, edit),
    }
}

/// Looks at an edit of a list.
fn look_at_listed<'a>(
    findings: &mut Findings<'a>,
    index: usize,
    edit: &Tree<'_, 'a>,
) -> Result<(), AllocError> {
    let stage = stage_of(edit);
    let site = Site::Edit { index, stage };
    let path = Path::of(site);
    if !edit.is_object() {
        return findings.wrong(path, edit, Wanted::Edit);
    }
    look_at_member(findings, path, edit, Member::Needed("do", Wanted::EditName))?;
    match name_in(edit, "do", Wanted::EditName) {
        Some(name) => {
            let members = members_of_edit(name);
            look_at_all(findings, path, edit, members)?;
            look_at_edit(findings, site, edit, name)?;
            findings.unread_beside_do(path, edit, members)
        }
        None => Ok(()),
    }
}

/// Looks at what stands in a list of edits.
fn look_at_edits<'a>(findings: &mut Findings<'a>, step: &Tree<'_, 'a>) -> Result<(), AllocError> {
    let Some(edits) = step.get("edits") else {
        return Ok(());
    };
    let Some(mut items) = edits.as_array() else {
        return Ok(());
    };
    let mut given = 0usize;
    for index in 0..usize::MAX {
        let Some(edit) = items.next() else {
            break;
        };
        look_at_listed(findings, index, &edit)?;
        given = given.saturating_add(1);
    }
    match given {
        1..=MOST_EDITS => Ok(()),
        given => findings.fault(Finding::ListSize { given }),
    }
}

/// What says of which session or version a report is; it is of one of them.
fn subject_of_report(step: &Tree<'_, '_>) -> Member {
    match (step.get("session"), step.get("version")) {
        (Some(_), Some(_)) => Member::Needed("session", Wanted::SessionAlone),
        (Some(_), None) => Member::Needed("session", Wanted::Count),
        (None, _) => Member::Needed("version", Wanted::Count),
    }
}

/// Looks at a report.
fn look_at_report<'a>(
    findings: &mut Findings<'a>,
    path: Path<'a>,
    step: &Tree<'_, 'a>,
) -> Result<(), AllocError> {
    let first = [
        subject_of_report(step),
        Member::Needed("what", Wanted::Report),
    ];
    look_at_all(findings, path, step, &first)?;
    let Some(name) = name_in(step, "what", Wanted::Report) else {
        return Ok(());
    };
    if is_among(name, REPORTS_OF_STAGE) {
        look_at_member(findings, path, step, Member::Needed("stage", Wanted::Text))?;
    }
    look_at_member(
        findings,
        path,
        step,
        Member::Optional("against", Wanted::Count),
    )?;
    findings.unread_beside_do(path, step, members_of_report(name))
}

/// Looks at the members of a step of a name, which is no report.
fn look_at_change<'a>(
    findings: &mut Findings<'a>,
    site: Site<'a>,
    step: &Tree<'_, 'a>,
    name: &str,
) -> Result<(), AllocError> {
    let (path, members) = (Path::of(site), members_of(name));
    look_at_all(findings, path, step, members)?;
    if name == "edits" {
        look_at_edits(findings, step)?;
    } else if is_among(name, EDIT_NAMES) {
        look_at_edit(findings, site, step, name)?;
    }
    findings.unread_beside_do(path, step, members)
}

/// Looks at a step.
fn look_at_step<'a>(findings: &mut Findings<'a>, step: &Tree<'_, 'a>) -> Result<(), AllocError> {
    let stage = stage_of(step);
    let site = Site::Step { stage };
    let path = Path::of(site);
    if !step.is_object() {
        return findings.wrong(path, step, Wanted::Step);
    }
    look_at_member(findings, path, step, Member::Needed("do", Wanted::StepName))?;
    match name_in(step, "do", Wanted::StepName) {
        Some("report") => look_at_report(findings, path, step),
        Some(name) => look_at_change(findings, site, step, name),
        None => Ok(()),
    }
}

/// The name of the stage that a step or an edit adds, where it has one.
pub(crate) fn name_of_new<'a>(edit: &Tree<'_, 'a>) -> Option<&'a str> {
    name_of(&edit.get("new")?)
}

/// The stage that an edit of a step's list names.
fn stage_of_edit<'a>(step: &Tree<'_, 'a>, index: usize) -> Option<&'a str> {
    stage_of(&item_at(step, "edits", index)?)
}

/// The name of the stage that an edit of a step's list adds.
fn name_of_edit<'a>(step: &Tree<'_, 'a>, index: usize) -> Option<&'a str> {
    name_of_new(&item_at(step, "edits", index)?)
}

/// Where a member of a step stands that stands more than once.
fn site_of<'a>(step: &Tree<'_, 'a>, holder: Holder) -> Site<'a> {
    match holder {
        Holder::New => Site::New {
            name: name_of_new(step),
        },
        Holder::Edit(index) => Site::Edit {
            index,
            stage: stage_of_edit(step, index),
        },
        Holder::NewOfEdit(index) => Site::NewOfEdit {
            index,
            name: name_of_edit(step, index),
        },
        _ => Site::Step {
            stage: stage_of(step),
        },
    }
}

/// Every fault of a step that its line alone shows, every member that nothing reads, and every one that stands more than
/// once.
pub fn examine_step<'a>(alloc: Global, step: &Tree<'_, 'a>) -> Result<Findings<'a>, AllocError> {
    let mut findings = Findings::new(alloc);
    look_at_step(&mut findings, step)?;
    for repeated in repeated_in_step(alloc, step)?.as_slice() {
        let site = site_of(step, repeated.spot.holder);
        findings.warning(repeated.warning(site))?;
    }
    Ok(findings)
}
