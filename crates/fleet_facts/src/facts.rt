//! What the reply of a trace came to.
ghost use Rattle.std.specs.Prelude.{◌≡◌, ◌↔◌, IfOk, IfSome, None, Some};
ghost use Rattle.std.specs.Option.{option_map};
ghost use Rattle.stage_graph.specs.Plain.{stage_at};
ghost use Rattle.time_sweep.specs.Starts.{IsStart};
ghost use Rattle.time_sweep.specs.Sweep.{completion_of};
ghost use Rattle.fleet_facts.specs.Facts.{AreFactsOf};

use crate::failing::failure_at;
use crate::group_facts::{Reply, all_group_facts};
use fleet_summary::TraceFacts;
use propagate::StateRepresentation;
use span_groups::Grouping;
use std::alloc::{AllocError, Global};
use time_sweep::TrialStart;
use version_store::{QueryFault, StageView, Version};

/// What the trials of a stage start from.
fn start_of<'a, R: StateRepresentation>(
    alloc: Global,
    view: &StageView<'a, R>,
) -> Result<TrialStart<'a>, AllocError>
    ensures target { IfOk result (λ start. start.target ≡ view.now.place) }
    ensures start { IfOk result (λ start. IsStart view.now.version.now.graph start) }
{
    match TrialStart::of(alloc, view.version, view.place) {
        Ok(start) => Ok(start),
        Err(QueryFault::Memory) => Err(AllocError),
        Err(QueryFault::NoStage) => unreachable!(),
    }
}

/// What a stage came to that completed at a tick, as the reply of its trace.
fn facts_at<R: StateRepresentation>(
    alloc: Global,
    view: &StageView<'_, R>,
    grouping: &Grouping,
    time: u64,
) -> Result<TraceFacts, AllocError>
    ensures { IfOk result (AreFactsOf view.now.version.now.graph grouping.now view.now.place time) }
{
    let failure = failure_at(alloc, view, grouping)?;
    let reply = Reply {
        start: start_of(alloc, view)?,
        path: view.path(alloc)?,
        time,
    };
    let groups = all_group_facts(alloc, view.version, &reply, grouping)?;
    Ok(TraceFacts {
        time,
        failure,
        groups,
    })
}

/// What the stage at a place of a version came to, as the reply of a trace whose stages count to groups as `grouping` says; none
/// where it is pending, as the trace has no reply then.
///
/// Errors: `NoStage` where no stage stands there; `Memory`.
pub fn facts_of<R: StateRepresentation>(
    alloc: Global,
    version: &Version<R>,
    reply: u32,
    grouping: &Grouping,
) -> Result<Option<TraceFacts>, QueryFault>
    ensures pending { IfOk result (λ found. (found ≡ None) ↔ (completion_of version.now.graph reply ≡ None)) }
    ensures facts { IfOk result (λ found. IfSome found (λ facts. AreFactsOf version.now.graph grouping.now reply facts.time facts)) }
    ensures time { IfOk result (λ found. IfSome found (λ facts. option_map (λ done. done.moment) (completion_of version.now.graph reply) ≡ Some facts.time)) }
    ensures no_stage { (result ≡ Err QueryFault.NoStage) ↔ (stage_at version.now.graph.places reply ≡ None) }
{
    let Some(view) = version.stage(reply) else {
        return Err(QueryFault::NoStage);
    };
    match view.moment() {
        Some(time) => Ok(Some(facts_at(alloc, &view, grouping, time)?)),
        None => Ok(None),
    }
}
