//! Which stages are worth making faster.
ghost use Rattle.std.specs.Prelude.{◌≡◌, ◌↔◌, IfOk, None, Some};
ghost use Rattle.time_sweep.specs.Sweep.{completion_of, sweep, ticks_of};
ghost use Rattle.report_rows.specs.Said.{sweep_of_stage, sweep_said, trials_listed};
ghost use Rattle.report_rows.specs.Swept.{ending_so};

use crate::first::first_of;
use crate::head::Head;
use crate::said::Said;
use crate::source::Source;
use crate::sweep_asked::{Ending, SweepAsked, told_haste};
use crate::text::Text;
use level_pool::Runner;
use propagate::StateRepresentation;
use std::alloc::Global;
use time_sweep::{Trial, sweep_of, values_of};
use version_store::{QueryFault, StageView, Version};

/// Which stages, if their action were so much faster, would make a stage complete sooner, with a value before with an
/// exception, of either the soonest first, and at one tick by place. Those are counted that end as is asked for; no more than
/// `most` of them are told.
///
/// Errors: `NoStage` where the stage is not live; `Memory`.
pub fn say_sweep<'a, R: StateRepresentation, W: Runner>(
    alloc: Global,
    version: &'a Version<R>,
    target: u32,
    asked: SweepAsked,
    runner: &W,
) -> Result<Said<'a, R>, QueryFault>
    ensures value { IfOk result (λ report. Some report ≡ sweep_said version.now target asked) }
    ensures no_stage { (result ≡ Err QueryFault.NoStage) ↔ (sweep_said version.now target asked ≡ None) }
{
    match version.stage(target) {
        Some(view) => {
            let trials = sweep_of(alloc, version, target, asked.haste, runner)?;
            Ok(say_trials(&view, asked, trials))
        }
        None => Err(QueryFault::NoStage),
    }
}

fn say_trials<'a, R: StateRepresentation>(
    view: &StageView<'a, R>,
    asked: SweepAsked,
    trials: Vec<Trial>,
) -> Said<'a, R>
    requires { trials.items ≡ sweep view.now.version.now.graph asked.haste view.now.place }
    ensures { result ≡ sweep_of_stage view.now.version.now view.now.place asked view.now.stage.now }
{
    let told = ending_so(asked.ending, trials);
    list_trials(view, asked, told)
}

fn list_trials<'a, R: StateRepresentation>(
    view: &StageView<'a, R>,
    asked: SweepAsked,
    told: Vec<Trial>,
) -> Said<'a, R>
    ensures { result ≡ trials_listed view.now.version.now view.now.place asked told.items view.now.stage.now }
{
    let count = told.len();
    let tick = tick_of(view);
    Said {
        head: Head::Sweep {
            version: view.version.number(),
            name: Text::new(view.stage.name.as_str()),
            moment: view.moment(),
            haste: told_haste(asked.haste),
            count,
        },
        source: Source::of_trials(view.version, tick, first_of(asked.most, told)),
    }
}

/// The tick at which the stage completes; 0 while it is pending, and then nothing makes it complete sooner.
fn tick_of<R: StateRepresentation>(view: &StageView<'_, R>) -> u64
    ensures { result ≡ ticks_of (completion_of view.now.version.now.graph view.now.place) }
{
    match view.state().done {
        Some(done) => done.moment,
        None => 0,
    }
}

/// The trials by which the target ends as is asked for.
fn ending_so(ending: Ending, trials: Vec<Trial>) -> Vec<Trial>
    ensures { result.items ≡ ending_so ending trials.items }
{
    match ending {
        Ending::Any => trials,
        Ending::Value => values_of(trials),
    }
}
