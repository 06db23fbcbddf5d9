//! The comparison of a stage with the one of its name in another version.
ghost use Rattle.std.specs.Prelude.{◌≡◌, option_copied};
ghost use Rattle.propagate.specs.Completions.{same_outcome};
ghost use Rattle.report_rows.specs.Against.{is_changed, is_unlike, same_blamed, same_done};
ghost use Rattle.report_rows.specs.Shifts.{shift_against, shift_from};
ghost use Rattle.report_rows.specs.Standings.{done_of, state_there};

use crate::shift::Shift;
use act_expr::Outcome;
use propagate::{KeptState, StateRepresentation};
use stage_graph::{Graph, Representation};
use stage_ops::Done;
use version_store::{StageView, Version};

/// The state of the stage of a name, where it is stored; none where the version has no such stage.
pub(crate) fn kept_of<'a, R: StateRepresentation>(
    version: &'a Version<R>,
    name: &str,
) -> Option<&'a KeptState>
    ensures { option_copied result ≡ state_there version.now.graph name.now }
{
    let place = version.id_of(name).ok()?;
    let view = version.stage(place)?;
    Some(view.kept())
}

/// The completion of the stage of a name, none while it is pending; none at all where the version has no such stage.
fn done_of<R: StateRepresentation>(version: &Version<R>, name: &str) -> Option<Option<Done>>
    ensures { result ≡ done_of version.now.graph name.now }
{
    let kept = kept_of(version, name)?;
    Some(kept.state().done)
}

fn same_outcome(one: &Outcome, other: &Outcome) -> bool
    ensures { result ≡ same_outcome one.now other.now }
{
    *one == *other
}

/// Whether two completions, each in its graph, blame stages of one name, or both none.
fn same_blamed<R: Representation>(
    graph: &Graph<R>,
    from: Option<u32>,
    other: &Graph<R>,
    there: Option<u32>,
) -> bool
    ensures { result ≡ same_blamed graph.now from other.now there }
{
    match (from, there) {
        (None, None) => true,
        (Some(from), Some(there)) => graph.name_of(from) == other.name_of(there),
        _ => false,
    }
}

/// Whether two stages, each in its graph, are both pending, or completed in the same way.
fn same_done<R: Representation>(
    graph: &Graph<R>,
    done: &Option<Done>,
    other: &Graph<R>,
    there: &Option<Done>,
) -> bool
    ensures { result ≡ same_done graph.now done.now other.now there.now }
{
    match (done, there) {
        (None, None) => true,
        (Some(done), Some(there)) => {
            same_outcome(&done.outcome, &there.outcome)
                && done.moment == there.moment
                && same_blamed(graph, done.from, other, there.from)
        }
        _ => false,
    }
}

// Whether a stage differs from the one in another graph, or that one is not there.
fn is_unlike<R: Representation>(
    graph: &Graph<R>,
    done: &Option<Done>,
    other: &Graph<R>,
    there: &Option<Option<Done>>,
) -> bool
    ensures { result ≡ is_unlike graph.now done.now other.now there.now }
{
    match there {
        Some(there) => !same_done(graph, done, other, there),
        None => true,
    }
}

/// Whether a stage differs from the one of its name in the other version, or that one is not there.
pub(crate) fn is_changed<R: StateRepresentation>(
    view: &StageView<'_, R>,
    against: &Version<R>,
) -> bool
    ensures { result ≡ is_changed view.now.version.now against.now view.now.place view.now.stage.now }
{
    let done = view.state().done;
    let there = done_of(against, view.stage.name.as_str());
    is_unlike(view.version.graph(), &done, against.graph(), &there)
}

/// How much later or earlier a completion is, if there is one there too and at another moment.
fn shift_from(there: &Option<Option<Done>>, moment: Option<u64>) -> Option<Shift>
    ensures { result ≡ shift_from there.now moment }
{
    match (there, moment) {
        (Some(Some(there)), Some(moment)) => Shift::between(there.moment, moment),
        _ => None,
    }
}

/// How much later or earlier than the one of its name a stage completes, if both complete and at another moment.
pub(crate) fn shift_against<R: StateRepresentation>(
    view: &StageView<'_, R>,
    against: &Version<R>,
) -> Option<Shift>
    ensures { result ≡ shift_against view.now.version.now against.now view.now.place view.now.stage.now }
{
    let there = done_of(against, view.stage.name.as_str());
    shift_from(&there, view.moment())
}
