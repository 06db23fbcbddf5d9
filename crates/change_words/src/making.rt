//! The edits that changes are of a graph, in order, each of the graph as the former ones leave it.
ghost use Rattle.std.specs.Prelude.{◌≡◌, ◌-◌, ◌<◌, ◌^◌, ◌++◌, ◌∷◌, [], ℕ, false, IfOk, IfSome, IsOk, List, Ok, OnOk, Some, min, nat_le, option_copied, sum_by};
ghost use Rattle.std.specs.List.{list_any};
ghost use Rattle.stage_graph.specs.declared.edit.Edit.{Edit};
ghost use Rattle.stage_graph.specs.Changes.{changed, moves};
ghost use Rattle.stage_graph.specs.Plain.{stage_named};
ghost use Rattle.stage_graph.specs.Sound.{IsLawful};
ghost use Rattle.change_words.specs.Changes.{edit_count};
ghost use Rattle.change_words.specs.Making.{IsMade, IsMadeOf, IsStep, edits_of, listed, listed_of, made_by, made_of, own_edits, refused_after};
ghost use Rattle.change_words.specs.Results.{then_on};

use crate::change::Change;
use crate::fault::MakingFault;
use crate::timeouts::LimitFault;
use stage_graph::{Edit, Edits, Fault, Graph, Refusal, Refused, Representation, Stage};
use std::alloc::{AllocError, Global};

/// The most edits of a list.
const MOST_EDITS: usize = 64;

/// The list of these edits.
fn listed(edits: Vec<Edit>) -> Result<Edits, MakingFault>
    ensures { result ≡ listed edits.items }
{
    match Edits::new(edits) {
        Ok(edits) => Ok(edits),
        Err(_) => Err(MakingFault::ListSize),
    }
}

/// How many edits changes are, as far as that can be counted.
fn edit_total(changes: &[Change]) -> usize
    ensures { result ≡ min (sum_by edit_count changes.now) (2 ^ 64 - 1) }
{
    let mut total: usize = 0;
    for change in changes {
        total = total.saturating_add(change.edit_count());
    }
    total
}

/// Whether changes are no more edits than a list may have.
fn are_few(changes: &[Change]) -> bool
    ensures { result ≡ nat_le (sum_by edit_count changes.now) 64 }
{
    edit_total(changes) <= MOST_EDITS
}

/// The stage of a name.
fn named<'g, R: Representation>(graph: &'g Graph<R>, name: &str) -> Option<&'g Stage>
    ensures stage { option_copied result ≡ stage_named graph.now.places name.now }
    ensures lawful { IfSome result (λ stage. IsLawful stage.now) }
{
    let place = graph.id_of(name)?;
    graph.stage(place)
}

/// The edits that a change is of a stage, where so many came before.
fn own_of_stage(
    alloc: Global,
    before: usize,
    change: &Change,
    stage: &Stage,
) -> Result<Edits, MakingFault>
    requires lawful { IsLawful stage.now }
    requires few { before < 2 ^ 63 }
    ensures { IsMade result (then_on (own_edits change.now before (Some stage.now)) listed) }
{
    let mut own = Vec::new(alloc);
    match change.push_edits(alloc, stage, &mut own) {
        Ok(()) => listed(own),
        Err(LimitFault::Timeouts(count)) => {
            let at = before + own.len();
            Err(MakingFault::NotOneTimeout { at, count })
        }
        Err(LimitFault::Memory) => Err(MakingFault::Memory),
    }
}

/// The edits that a change is of the stage of its name, where so many came before.
fn own_edits(
    alloc: Global,
    before: usize,
    change: &Change,
    stage: Option<&Stage>,
) -> Result<Edits, MakingFault>
    requires lawful { IfSome stage (λ stage. IsLawful stage.now) }
    requires few { before < 2 ^ 63 }
    ensures { IsMade result (then_on (own_edits change.now before (option_copied stage.entry)) listed) }
{
    match stage {
        Some(stage) => own_of_stage(alloc, before, change, stage),
        None => {
            let refusal = Refusal::NoStage;
            Err(MakingFault::Refused(Refused {
                at: before,
                refusal,
            }))
        }
    }
}

/// Adds the edits that a change is of the stage of its name, if it is some.
fn push_own(
    alloc: Global,
    change: &Change,
    stage: Option<&Stage>,
    edits: &mut Vec<Edit>,
) -> Result<(), AllocError>
    requires { IfSome stage (λ stage. IsLawful stage.now) }
    ensures { (before : ℕ) (own : List Edit) → own_edits change.now before (option_copied stage.entry) ≡ Ok own → OnOk result (edits.new.items ≡ edits.old.items ++ own) }
{
    match stage {
        Some(stage) => match change.push_edits(alloc, stage, edits) {
            Ok(()) => Ok(()),
            Err(LimitFault::Timeouts(_)) => Ok(()),
            Err(LimitFault::Memory) => Err(AllocError),
        },
        None => Ok(()),
    }
}

/// The graph that a change's own edits make of one, where so many edits came before.
fn changed_by<R: Representation>(
    alloc: Global,
    before: usize,
    graph: &Graph<R>,
    own: &Edits,
) -> Result<Graph<R>, MakingFault>
    requires { before < 2 ^ 63 }
    ensures { IsMade result (refused_after before (changed own.now graph.now)) }
{
    // With its slice a list says that it is no longer than a list may be.
    let _ = own.as_slice();
    match graph.change(alloc, own) {
        Ok(graph) => Ok(graph),
        Err(Fault::Refused(refused)) => {
            let at = before + refused.at;
            let refusal = refused.refusal;
            Err(MakingFault::Refused(Refused { at, refusal }))
        }
        Err(Fault::Cycle(_)) => unreachable!(),
        Err(Fault::Memory) => Err(MakingFault::Memory),
    }
}

/// The graph that a change makes of one; its edits are added to those of the former changes.
fn made_by<R: Representation>(
    alloc: Global,
    graph: &Graph<R>,
    change: &Change,
    edits: &mut Vec<Edit>,
) -> Result<Graph<R>, MakingFault>
    ensures { IsStep result (made_by change.now (record { edits = edits.old.items; graph = graph.now })) edits.new.items }
{
    let before = edits.len();
    let stage = named(graph, change.name.as_str());
    let own = match own_edits(alloc, before, change, stage) {
        Ok(own) => own,
        Err(fault) => return Err(fault),
    };
    let made = match changed_by(alloc, before, graph, &own) {
        Ok(made) => made,
        Err(fault) => return Err(fault),
    };
    // (edits can't be cloned, so they are made again for the whole list)
    match push_own(alloc, change, stage, edits) {
        Ok(()) => Ok(made),
        Err(_) => Err(MakingFault::Memory),
    }
}

/// The edits that some changes are, after those of former ones, which have made the graph.
fn made_of<R: Representation>(
    alloc: Global,
    made: Graph<R>,
    changes: &[Change],
    mut edits: Vec<Edit>,
) -> Result<Vec<Edit>, MakingFault>
    ensures { IsMadeOf result (made_of changes.now (record { edits = edits.items; graph = made })) }
{
    let mut graph = made;
    for change in changes {
        graph = match made_by(alloc, &graph, change, &mut edits) {
            Ok(graph) => graph,
            Err(fault) => return Err(fault),
        };
    }
    Ok(edits)
}

/// The edits that a first change and others are of a graph.
fn made_first<R: Representation>(
    alloc: Global,
    graph: &Graph<R>,
    first: &Change,
    others: &[Change],
) -> Result<Vec<Edit>, MakingFault>
    ensures { IsMadeOf result (made_of (first.now ∷ others.now) (record { edits = []; graph = graph.now })) }
{
    let mut edits = Vec::new(alloc);
    match made_by(alloc, graph, first, &mut edits) {
        Ok(made) => made_of(alloc, made, others, edits),
        Err(fault) => Err(fault),
    }
}

/// The edits that changes are of a graph, if they are not too many.
fn edits_of_few<R: Representation>(
    alloc: Global,
    graph: &Graph<R>,
    changes: &[Change],
) -> Result<Edits, MakingFault>
    ensures { IsMade result (then_on (made_of changes.now (record { edits = []; graph = graph.now })) listed_of) }
{
    match changes.split_first() {
        Some((first, others)) => match made_first(alloc, graph, first, others) {
            Ok(edits) => listed(edits),
            Err(fault) => Err(fault),
        },
        None => Err(MakingFault::ListSize),
    }
}

/// The edits that changes are of a graph, in order, each of the graph as the former ones leave it. The graph takes them, and none
/// of them adds or rewires a stage.
///
/// Errors: more than 64 edits, or none; the first of them that is refused, by its index, as a list of edits is; the first that
/// is to set the delay of a stage's one timeout end, where the stage has none or several; `Memory`.
pub fn edits_of<R: Representation>(
    alloc: Global,
    graph: &Graph<R>,
    changes: &[Change],
) -> Result<Edits, MakingFault>
    ensures made { IsMade result (edits_of changes.now graph.now) }
    ensures accepted { IfOk result (λ edits. IsOk (changed edits graph.now)) }
    ensures unmoved { IfOk result (λ edits. (name : List ℕ) → list_any (moves name) edits ≡ false) }
{
    if !are_few(changes) {
        return Err(MakingFault::ListSize);
    }
    edits_of_few(alloc, graph, changes)
}
