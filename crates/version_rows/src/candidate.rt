//! The stages that may have a row.
ghost use Rattle.std.specs.Prelude.{◌≡◌, ◌++◌, IfOk, OnOk};
ghost use Rattle.std.specs.Option.{option_to_list};
ghost use Rattle.stage_graph.specs.Plain.{stage_at};
ghost use Rattle.version_rows.specs.Candidates.{candidate_in, candidate_of, candidates, is_wanted, rest_of};

use crate::course::{course_at, own_ticks, start_of};
use crate::selection::{Selection, is_asked};
use place_flags::{flags_of, is_flagged};
use propagate::StateRepresentation;
use std::alloc::{AllocError, Global};
use timeline_svg::Course;
use version_store::{StageView, Version};

/// Which stages may have a row.
#[derive(Clone, Copy, Debug, PartialEq, Eq)]
pub enum Scope {
    All,
    /// Those on the path alone.
    Path,
}

/// A stage that may have a row.
#[derive(Clone, Copy, Debug, PartialEq, Eq)]
pub(crate) struct Candidate {
    pub(crate) place: u32,
    pub(crate) is_on_path: bool,
    /// Whether it is asked for by its ticks.
    pub(crate) is_asked: bool,
    /// By which the rows stand: the start, and then the place.
    pub(crate) order: u128,
    /// Where there are too many, those where this is least are left: 0 on the path, else the less the longer the stage's
    /// own action took.
    pub(crate) rest: u64,
    /// Where the rows stand by service: which candidate is the first of its service.
    pub(crate) service: usize,
}

/// The stages in scope, by place.
pub(crate) fn candidates<R: StateRepresentation>(
    alloc: Global,
    version: &Version<R>,
    selection: Selection,
    path: &[u32],
) -> Result<Vec<Candidate>, AllocError>
    ensures { IfOk result (λ found. found.items ≡ candidates version.now.graph selection path.now) }
{
    let count = version.graph().len();
    let flags = flags_of(alloc, count, path)?;
    let mut found = Vec::new(alloc);
    for place in 0..count as u32 {
        let is_on_path = is_flagged(flags.as_slice(), place);
        push_found(
            &mut found,
            candidate_at(version, selection, is_on_path, place),
        )?;
    }
    Ok(found)
}

fn push_found(found: &mut Vec<Candidate>, candidate: Option<Candidate>) -> Result<(), AllocError>
    ensures { OnOk result (found.new.items ≡ found.old.items ++ option_to_list candidate) }
{
    match candidate {
        Some(candidate) => {
            found.push(candidate)?;
            Ok(())
        }
        None => Ok(()),
    }
}

fn candidate_at<R: StateRepresentation>(
    version: &Version<R>,
    selection: Selection,
    is_on_path: bool,
    place: u32,
) -> Option<Candidate>
    ensures { result ≡ candidate_in version.now.graph selection is_on_path place (stage_at version.now.graph.places place) }
{
    let view = version.stage(place)?;
    if is_wanted(selection.scope, is_on_path) {
        Some(candidate_of(selection, is_on_path, &view))
    } else {
        None
    }
}

fn is_wanted(scope: Scope, is_on_path: bool) -> bool
    ensures { result ≡ is_wanted scope is_on_path }
{
    match scope {
        Scope::All => true,
        Scope::Path => is_on_path,
    }
}

fn candidate_of<R: StateRepresentation>(
    selection: Selection,
    is_on_path: bool,
    view: &StageView<'_, R>,
) -> Candidate
    ensures { result ≡ candidate_of view.now.version.now.graph selection is_on_path view.now.place view.now.stage.now }
{
    let place = view.place;
    let course = course_at(view);
    Candidate {
        place,
        is_on_path,
        is_asked: is_asked(selection, is_on_path, view.stage.created, course),
        order: u128::from(start_of(course)) * (1 << 32) + u128::from(place),
        rest: rest_of(is_on_path, course),
        service: 0,
    }
}

fn rest_of(is_on_path: bool, course: Course) -> u64
    ensures { result ≡ rest_of is_on_path course }
{
    if is_on_path {
        0
    } else {
        u64::MAX.saturating_sub(own_ticks(course))
    }
}
