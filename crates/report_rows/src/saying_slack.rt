//! How much longer stages may run.
ghost use Rattle.std.specs.Prelude.{◌≡◌, ◌↔◌, IfOk, None, Some};
ghost use Rattle.report_rows.specs.Said.{slack_said, slacks_listed};

use crate::head::Head;
use crate::said::Said;
use crate::source::Source;
use crate::text::Text;
use level_pool::Runner;
use propagate::StateRepresentation;
use stage_slack::{Slack, slacks_of};
use std::alloc::Global;
use version_store::{QueryFault, StageView, Version};

/// How many ticks longer the action of each stage may run before a stage completes otherwise, where `within` names ticks of
/// those alone that may run no more than these longer: the least first, and of several that are the same by place.
///
/// Errors: `NoStage` where the stage is not live; `Memory`.
pub fn say_slack<'a, R: StateRepresentation, W: Runner>(
    alloc: Global,
    version: &'a Version<R>,
    target: u32,
    within: Option<u64>,
    runner: &W,
) -> Result<Said<'a, R>, QueryFault>
    ensures value { IfOk result (λ report. Some report ≡ slack_said version.now target within) }
    ensures no_stage { (result ≡ Err QueryFault.NoStage) ↔ (slack_said version.now target within ≡ None) }
{
    match version.stage(target) {
        Some(view) => {
            let slacks = slacks_of(alloc, version, target, within, runner)?;
            Ok(say_slacks(&view, slacks))
        }
        None => Err(QueryFault::NoStage),
    }
}

fn say_slacks<'a, R: StateRepresentation>(
    view: &StageView<'a, R>,
    slacks: Vec<Slack>,
) -> Said<'a, R>
    ensures { result ≡ slacks_listed view.now.version.now view.now.place slacks.items view.now.stage.now }
{
    let count = slacks.len();
    Said {
        head: Head::Slack {
            version: view.version.number(),
            name: Text::new(view.stage.name.as_str()),
            moment: view.moment(),
            count,
        },
        source: Source::of_slacks(view.version, slacks),
    }
}
