//! The work of a group at no time.
ghost use Rattle.std.specs.Prelude.{◌≡◌, ◌+◌, ◌++◌, IfOk, IfSome, OnOk, is_some};
ghost use Rattle.std.specs.Option.{option_to_list};
ghost use Rattle.time_sweep.specs.WithStage.{AreFitting, IsFitting};
ghost use Rattle.fleet_facts.specs.Hurried.{all_hurried, hurried, hurried_at, takes_time};

use propagate::StateRepresentation;
use span_groups::{Counted, works_for};
use stage_graph::Stage;
use std::alloc::{AllocError, Global};
use time_sweep::Haste;
use version_store::Version;

/// Whether a stage has an action, and that takes time.
fn takes_time(stage: &Stage) -> bool
    ensures { result ≡ takes_time stage.now }
{
    stage.action.is_some() && (stage.queued > 0 || stage.runs > 0)
}

/// The stage at a place at no time, if it is work of a group and took time.
fn hurried_at<R: StateRepresentation>(
    version: &Version<R>,
    stages: &[Option<Counted>],
    group: usize,
    place: u32,
) -> Result<Option<Stage>, AllocError>
    ensures made { IfOk result (λ made. made ≡ hurried_at version.now.graph stages.now group place) }
    ensures fits { IfOk result (λ made. IfSome made (IsFitting version.now.graph.places)) }
    ensures own { IfOk result (λ made. IfSome made (λ stage. stage.place ≡ place)) }
{
    if !works_for(stages, group, place) {
        return Ok(None);
    }
    let Some(stage) = version.graph().stage(place) else {
        return Ok(None);
    };
    if !takes_time(stage) {
        return Ok(None);
    }
    Ok(Some(Haste::WHOLE.hastened(stage)?))
}

/// Adds a stage, if there is one.
fn push_if(hurried: &mut Vec<Stage>, made: Option<Stage>) -> Result<(), AllocError>
    ensures { OnOk result (hurried.new.items ≡ hurried.old.items ++ option_to_list made) }
{
    match made {
        Some(stage) => {
            hurried.push(stage)?;
            Ok(())
        }
        None => Ok(()),
    }
}

/// The stages that are work of a group and took time, at no time, by place.
pub(crate) fn all_hurried<R: StateRepresentation>(
    alloc: Global,
    version: &Version<R>,
    stages: &[Option<Counted>],
    group: usize,
) -> Result<Vec<Stage>, AllocError>
    ensures hurried { IfOk result (λ hurried. hurried.items ≡ all_hurried version.now.graph stages.now group) }
    ensures fit { IfOk result (λ hurried. AreFitting version.now.graph.places hurried.items) }
{
    let mut hurried = Vec::new(alloc);
    for place in 0..version.graph().len() as u32 {
        push_if(&mut hurried, hurried_at(version, stages, group, place)?)?;
    }
    Ok(hurried)
}
