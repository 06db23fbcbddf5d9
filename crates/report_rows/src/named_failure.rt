//! The exceptions that arose in stages, with the names of the stages that they concern.
ghost use Rattle.std.specs.Prelude.{◌≡◌, List, ℕ, IfOk, map};
ghost use Rattle.std.specs.Option.{option_map};
ghost use Rattle.report_rows.specs.Failures.{arose_by, failure_row_at, failure_rows, have_common, is_asked, is_by, meets, named_row, path_asked};
ghost use Rattle.version_store.specs.Queries.{moment_in, state_of};
ghost use Rattle.report_rows.specs.Known.{Knows};
ghost use Rattle.report_rows.specs.Rows.{failure_row};

use crate::arisen::Arisen;
use crate::names::Names;
use crate::row::Row;
use crate::standing::KeptStanding;
use crate::text::Text;
use failure_origins::{Failure, failures_of};
use propagate::StateRepresentation;
use std::alloc::{AllocError, Global};
use std::collections::HashSet;
use time_sweep::completion_of;
use version_store::{StageView, Version};

/// An exception that arose in a stage: the stage's name and what it came to, whom the exception reaches, and who handles it.
#[derive(Drop)]
pub(crate) struct NamedFailure<'a> {
    name: Text<'a>,
    standing: KeptStanding<'a>,
    reaches: Names<'a>,
    handled: Names<'a>,
}

impl<'a> NamedFailure<'a> {
    // That of the stage in which it arose.
    fn of<R: StateRepresentation>(
        alloc: Global,
        view: &StageView<'a, R>,
        failure: &Failure,
    ) -> Result<NamedFailure<'a>, AllocError>
        requires { view.now.place ≡ failure.now.origin }
        ensures { IfOk result (λ named. named_row named ≡ failure_row view.now.version.now.graph failure.now view.now.stage.now) }
    {
        let graph = view.version.graph();
        let reaches = Names::at(alloc, graph, failure.reaches.as_slice())?;
        let handled = Names::at(alloc, graph, failure.handled.as_slice())?;
        Ok(NamedFailure {
            name: Text::new(view.stage.name.as_str()),
            standing: KeptStanding::of(view),
            reaches,
            handled,
        })
    }

    /// Its row.
    #[inline(always)]
    pub(crate) fn row(&self) -> Row<'_>
        ensures { result ≡ named_row self.now }
    {
        Row::Failure {
            name: Text::new(self.name.as_str()),
            standing: self.standing.again(),
            reaches: self.reaches.lent(),
            handled: self.handled.lent(),
        }
    }
}

// Whether one of these places is on the path.
fn have_common(places: &[u32], path: &HashSet<u32>) -> bool
    ensures { (on : List ℕ) → Knows path.now on → result ≡ have_common places.now on }
{
    for place in places {
        if path.contains(place) {
            return true;
        }
    }
    false
}

// Whether it arose in a stage of the path, reaches one, or is handled by one.
fn meets(path: &HashSet<u32>, failure: &Failure) -> bool
    ensures { (on : List ℕ) → Knows path.now on → result ≡ meets on failure.now }
{
    path.contains(&failure.origin)
        || have_common(failure.reaches.as_slice(), path)
        || have_common(failure.handled.as_slice(), path)
}

// When the stage at a place completed.
fn moment_of<R: StateRepresentation>(version: &Version<R>, place: u32) -> Option<u64>
    ensures { result ≡ moment_in (state_of version.now.graph place) }
{
    match completion_of(version, place) {
        Some(done) => Some(done.moment),
        None => None,
    }
}

// Whether the first is not later than the second, where both are there.
fn is_by(moment: Option<u64>, last: Option<u64>) -> bool
    ensures { result ≡ is_by moment last }
{
    match (moment, last) {
        (Some(moment), Some(last)) => moment <= last,
        _ => true,
    }
}

// Whether it arose no later than the stage at a place completed.
fn arose_by<R: StateRepresentation>(version: &Version<R>, place: u32, failure: &Failure) -> bool
    ensures { result ≡ arose_by version.now.graph place failure.now }
{
    is_by(
        moment_of(version, failure.origin),
        moment_of(version, place),
    )
}

// Whether it is asked for; these places are known of the path that exceptions have to meet.
fn is_asked<R: StateRepresentation>(
    version: &Version<R>,
    arisen: Arisen,
    path: &HashSet<u32>,
    failure: &Failure,
) -> bool
    requires { Knows path.now (path_asked version.now.graph arisen) }
    ensures { result ≡ is_asked version.now.graph arisen failure.now }
{
    match arisen {
        Arisen::Anywhere => true,
        Arisen::In(origin) => failure.origin == origin,
        Arisen::Beside(place) => arose_by(version, place, failure) && meets(path, failure),
    }
}

// It with its names; none where it is not asked for.
fn named_at<'a, R: StateRepresentation>(
    alloc: Global,
    version: &'a Version<R>,
    arisen: Arisen,
    path: &HashSet<u32>,
    failure: &Failure,
) -> Result<Option<NamedFailure<'a>>, AllocError>
    requires { Knows path.now (path_asked version.now.graph arisen) }
    ensures { IfOk result (λ named. option_map named_row named ≡ failure_row_at version.now.graph arisen failure.now) }
{
    if !is_asked(version, arisen, path, failure) {
        return Ok(None);
    }
    match version.stage(failure.origin) {
        Some(view) => Ok(Some(NamedFailure::of(alloc, &view, failure)?)),
        None => Ok(None),
    }
}

/// The exceptions that arose in the stages of a version, of those that are asked for, by place. These places are known of
/// the path that they have to meet.
pub(crate) fn named_failures<'a, R: StateRepresentation>(
    alloc: Global,
    version: &'a Version<R>,
    arisen: Arisen,
    path: &HashSet<u32>,
) -> Result<Vec<NamedFailure<'a>>, AllocError>
    requires { Knows path.now (path_asked version.now.graph arisen) }
    ensures { IfOk result (λ named. map named_row named.items ≡ failure_rows version.now.graph arisen) }
{
    let failures = failures_of(alloc, version)?;
    let mut named = Vec::new(alloc);
    for failure in failures.as_slice() {
        if let Some(one) = named_at(alloc, version, arisen, path, failure)? {
            named.push(one)?;
        }
    }
    Ok(named)
}
