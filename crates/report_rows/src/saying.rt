//! What each report of a version says.
ghost use Rattle.std.specs.Prelude.{◌≡◌, ◌↔◌, IfOk, None, Some};
ghost use Rattle.report_rows.specs.Failures.{path_asked};
ghost use Rattle.report_rows.specs.Known.{Knows};
ghost use Rattle.report_rows.specs.Said.{all_said, changes_said, comparison_said, drift_said, ends_said, failures_said, has_rows, said, times_said};

use crate::arisen::Arisen;
use crate::comparison::Comparison;
use crate::head::Head;
use crate::known_places::{known_places, none_known};
use crate::listing::Listing;
use crate::named_failure::named_failures;
use crate::places::{all_places, shifted_places};
use crate::said::Said;
use crate::saying_of_stage::{say_blame, say_change, say_one, say_path};
use crate::source::Source;
use crate::what::What;
use propagate::StateRepresentation;
use stage_ends::ends_of;
use std::alloc::{AllocError, Global};
use std::collections::HashSet;
use version_store::{QueryFault, StageView, Version};

/// What a report of a version says.
///
/// Errors: `NoStage` where it asks for a stage that is not live; `Memory`.
pub fn say_report<'a, R: StateRepresentation>(
    alloc: Global,
    version: &'a Version<R>,
    what: What,
) -> Result<Said<'a, R>, QueryFault>
    ensures value { IfOk result (λ report. Some report ≡ said version.now what) }
    ensures no_stage { (result ≡ Err QueryFault.NoStage) ↔ (said version.now what ≡ None) }
{
    match what {
        What::All => Ok(say_all(alloc, version)?),
        What::One(place) => say_one(alloc, version, place),
        What::Blame(place) => say_blame(alloc, version, place),
        What::Path(place) => say_path(alloc, version, place),
        What::Change(place) => say_change(alloc, version, place),
        What::Changes => Ok(say_changes(alloc, version)?),
        What::Drift => Ok(say_drift(alloc, version)?),
        What::Times => Ok(say_times(alloc, version)?),
        What::Ends => Ok(say_ends(alloc, version)?),
        What::Failures(Arisen::Anywhere) => {
            let none = none_known(alloc);
            Ok(say_failures(alloc, version, Arisen::Anywhere, &none)?)
        }
        What::Failures(Arisen::In(origin)) => say_failure_in(alloc, version, origin),
        What::Failures(Arisen::Beside(place)) => say_failures_beside(alloc, version, place),
    }
}

/// Whether a report of a version has rows.
///
/// Errors: as [`say_report`].
pub fn has_rows<R: StateRepresentation>(
    alloc: Global,
    version: &Version<R>,
    what: What,
) -> Result<bool, QueryFault>
    ensures value { IfOk result (λ has. Some has ≡ has_rows version.now what) }
    ensures no_stage { (result ≡ Err QueryFault.NoStage) ↔ (has_rows version.now what ≡ None) }
{
    let said = say_report(alloc, version, what)?;
    Ok(said.rows().count() > 0)
}

/// What a comparison of a version with another one says, stage by stage of the same name.
pub fn say_comparison<'a, R: StateRepresentation>(
    alloc: Global,
    version: &'a Version<R>,
    against: &'a Version<R>,
    comparison: Comparison,
) -> Result<Said<'a, R>, AllocError>
    ensures { IfOk result (λ said. said ≡ comparison_said comparison version.now against.now) }
{
    let (number, other) = (version.number(), against.number());
    let places = all_places(alloc, version.graph())?;
    Ok(match comparison {
        Comparison::Changes => Said {
            head: Head::ChangesAgainst {
                version: number,
                against: other,
            },
            source: Source::of_stages(Listing::ChangesAgainst, version, against, places),
        },
        Comparison::Drift => Said {
            head: Head::DriftAgainst {
                version: number,
                against: other,
            },
            source: Source::of_stages(Listing::ShiftsAgainst, version, against, places),
        },
    })
}

fn say_all<'a, R: StateRepresentation>(
    alloc: Global,
    version: &'a Version<R>,
) -> Result<Said<'a, R>, AllocError>
    ensures { IfOk result (λ said. said ≡ all_said version.now) }
{
    let places = all_places(alloc, version.graph())?;
    Ok(Said {
        head: Head::All {
            version: version.number(),
            parent: version.parent(),
            mode: version.graph().mode(),
        },
        source: Source::of_stages(Listing::States, version, version, places),
    })
}

fn say_times<'a, R: StateRepresentation>(
    alloc: Global,
    version: &'a Version<R>,
) -> Result<Said<'a, R>, AllocError>
    ensures { IfOk result (λ said. said ≡ times_said version.now) }
{
    let places = all_places(alloc, version.graph())?;
    Ok(Said {
        head: Head::Times {
            version: version.number(),
        },
        source: Source::of_stages(Listing::Times, version, version, places),
    })
}

fn say_changes<'a, R: StateRepresentation>(
    alloc: Global,
    version: &'a Version<R>,
) -> Result<Said<'a, R>, AllocError>
    ensures { IfOk result (λ said. said ≡ changes_said version.now) }
{
    let places = Vec::from_slice(alloc, version.touched())?;
    Ok(Said {
        head: Head::Changes {
            version: version.number(),
            parent: version.parent(),
        },
        source: Source::of_stages(Listing::Changes, version, version, places),
    })
}

fn say_drift<'a, R: StateRepresentation>(
    alloc: Global,
    version: &'a Version<R>,
) -> Result<Said<'a, R>, AllocError>
    ensures { IfOk result (λ said. said ≡ drift_said version.now) }
{
    let places = shifted_places(alloc, version)?;
    Ok(Said {
        head: Head::Drift {
            version: version.number(),
            parent: version.parent(),
        },
        source: Source::of_stages(Listing::Shifts, version, version, places),
    })
}

fn say_ends<'a, R: StateRepresentation>(
    alloc: Global,
    version: &'a Version<R>,
) -> Result<Said<'a, R>, AllocError>
    ensures { IfOk result (λ said. said ≡ ends_said version.now) }
{
    let ends = ends_of(alloc, version)?;
    Ok(Said {
        head: Head::Ends {
            version: version.number(),
        },
        source: Source::of_ends(version, ends),
    })
}

fn say_failures<'a, R: StateRepresentation>(
    alloc: Global,
    version: &'a Version<R>,
    arisen: Arisen,
    path: &HashSet<u32>,
) -> Result<Said<'a, R>, AllocError>
    requires { Knows path.now (path_asked version.now.graph arisen) }
    ensures { IfOk result (λ said. said ≡ failures_said version.now arisen) }
{
    let failures = named_failures(alloc, version, arisen, path)?;
    Ok(Said {
        head: Head::Failures {
            version: version.number(),
        },
        source: Source::of_failures(failures),
    })
}

// Of the stage at a place alone.
fn say_failure_in<'a, R: StateRepresentation>(
    alloc: Global,
    version: &'a Version<R>,
    origin: u32,
) -> Result<Said<'a, R>, QueryFault>
    ensures value { IfOk result (λ report. Some report ≡ said version.now (What.Failures (Arisen.In origin))) }
    ensures no_stage { (result ≡ Err QueryFault.NoStage) ↔ (said version.now (What.Failures (Arisen.In origin)) ≡ None) }
{
    if version.graph().stage(origin).is_none() {
        return Err(QueryFault::NoStage);
    }
    let none = none_known(alloc);
    Ok(say_failures(alloc, version, Arisen::In(origin), &none)?)
}

// Of those that concern the path of the stage at a place.
fn say_failures_beside<'a, R: StateRepresentation>(
    alloc: Global,
    version: &'a Version<R>,
    place: u32,
) -> Result<Said<'a, R>, QueryFault>
    ensures value { IfOk result (λ report. Some report ≡ said version.now (What.Failures (Arisen.Beside place))) }
    ensures no_stage { (result ≡ Err QueryFault.NoStage) ↔ (said version.now (What.Failures (Arisen.Beside place)) ≡ None) }
{
    match version.stage(place) {
        Some(view) => Ok(say_beside(alloc, &view)?),
        None => Err(QueryFault::NoStage),
    }
}

fn say_beside<'a, R: StateRepresentation>(
    alloc: Global,
    view: &StageView<'a, R>,
) -> Result<Said<'a, R>, AllocError>
    ensures { IfOk result (λ said. said ≡ failures_said view.now.version.now (Arisen.Beside view.now.place)) }
{
    let path = view.path(alloc)?;
    let known = known_places(alloc, path.as_slice())?;
    say_failures(alloc, view.version, Arisen::Beside(view.place), &known)
}
