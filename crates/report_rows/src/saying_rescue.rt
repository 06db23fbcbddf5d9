//! Which changes would have saved a reply.
ghost use Rattle.std.specs.Prelude.{◌≡◌, ◌↔◌, IfOk, None, Some};
ghost use Rattle.report_rows.specs.Said.{rescue_said, rescues_listed};

use crate::first::first_of;
use crate::head::Head;
use crate::rescue_terms::RescueTerms;
use crate::said::Said;
use crate::source::Source;
use crate::standing::KeptStanding;
use crate::text::Text;
use level_pool::Runner;
use propagate::StateRepresentation;
use reply_rescue::{Rescue, Rescues, rescues_of};
use std::alloc::Global;
use version_store::{QueryFault, StageView, Version};

/// The single changes by which a stage would have completed with a value, by the tick if one is given: the soonest first, and
/// at one tick by place. All are counted, and so are those that were tried; no more than the terms say are told.
///
/// Errors: `NoStage` where the stage is not live; `Memory`.
pub fn say_rescue<'a, R: StateRepresentation, W: Runner>(
    alloc: Global,
    version: &'a Version<R>,
    target: u32,
    terms: RescueTerms,
    runner: &W,
) -> Result<Said<'a, R>, QueryFault>
    ensures value { IfOk result (λ report. Some report ≡ rescue_said version.now target terms) }
    ensures no_stage { (result ≡ Err QueryFault.NoStage) ↔ (rescue_said version.now target terms ≡ None) }
{
    match version.stage(target) {
        Some(view) => {
            let found = rescues_of(alloc, version, target, terms.by, terms.value, runner)?;
            Ok(say_rescues(&view, terms, found))
        }
        None => Err(QueryFault::NoStage),
    }
}

fn say_rescues<'a, R: StateRepresentation>(
    view: &StageView<'a, R>,
    terms: RescueTerms,
    found: Rescues,
) -> Said<'a, R>
    ensures { result ≡ rescues_listed view.now.version.now view.now.place terms found.tried found.saved.items view.now.stage.now }
{
    let Rescues { tried, saved } = found;
    let count = saved.len();
    Said {
        head: Head::Rescue {
            version: view.version.number(),
            name: Text::new(view.stage.name.as_str()),
            standing: KeptStanding::of(view),
            by: terms.by,
            tried,
            count,
        },
        source: Source::of_rescues(view.version, first_of(terms.most, saved)),
    }
}
