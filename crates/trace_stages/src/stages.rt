//! The stages of the spans of a trace.
ghost use Rattle.std.specs.Prelude.{IfOk};
ghost use Rattle.trace_relations.specs.Relations.{plain};
ghost use Rattle.trace_stages.specs.Known.{plain_known};
ghost use Rattle.trace_stages.specs.StagesOf.{AreStages, IsKnown};
ghost use Rattle.trace_stages.specs.Visits.{HasChildren};

use crate::bounds::bounds_of;
use crate::failures::failures_of;
use crate::fates::fates_of;
use crate::known::Known;
use crate::naming::all_imported;
use crate::order::ordered;
use crate::scene::scene_of;
use crate::stage::Stages;
use crate::tour::{all_children, visits_of};
use crate::two_stages::all_with_two;
use crate::walk::holdings_of;
use std::alloc::{AllocError, Global};
use trace_relations::{AsTold, Relations};
use trace_spans::Span;

/// What is known of spans before their stages.
fn known_of<'a>(
    alloc: Global,
    spans: &[Span],
    relations: &'a Relations,
    children: Vec<Vec<usize>>,
    as_told: AsTold,
) -> Result<Known<'a>, AllocError>
    requires { HasChildren relations.now.parents.items relations.now.order.items children.items }
    ensures { IfOk result (λ known. IsKnown spans.now (plain relations.now) as_told (plain_known known)) }
{
    let fates = fates_of(alloc, spans)?;
    let with_two = all_with_two(alloc, &relations.hosts, &relations.waiting)?;
    let holdings = holdings_of(alloc, relations)?;
    let bounds = bounds_of(alloc, relations)?;
    Ok(Known {
        relations,
        fates,
        with_two,
        holdings,
        children,
        bounds,
        hands_on: !as_told.calls,
    })
}

/// The stages of a recording, in its order.
pub fn stages_of(
    alloc: Global,
    spans: &[Span],
    relations: &Relations,
    as_told: AsTold,
) -> Result<Stages, AllocError>
    ensures { IfOk result (λ stages. AreStages spans.now (plain relations.now) as_told stages) }
{
    let children = all_children(alloc, &relations.parents, &relations.order)?;
    let visits = visits_of(alloc, &relations.parents, &relations.order, &children)?;
    let known = known_of(alloc, spans, relations, children, as_told)?;
    let failures = failures_of(alloc, &known, &visits)?;
    let scene = scene_of(alloc, known, failures)?;
    let ids = ordered(alloc, &scene, &visits)?;
    let stages = all_imported(alloc, &scene, &ids)?;
    Ok(Stages(stages))
}
