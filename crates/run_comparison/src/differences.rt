//! The stages in which two runs differ.
ghost use Rattle.std.specs.Prelude.{◌≡◌, ◌||◌, ◌++◌, All, IfOk, IfSome, IsPermutation, OnOk};
ghost use Rattle.std.specs.List.Sorted.{IsNonDecreasingBy, IsStableByKey};
ghost use Rattle.std.specs.Option.{option_map, option_to_list};
ghost use Rattle.std.specs.Ordering.{nat_cmp};
ghost use Rattle.propagate.specs.Completions.{same_outcome};
ghost use Rattle.stage_graph.specs.Plain.{place_named, stage_at};
ghost use Rattle.run_comparison.specs.Differences.{StandsByShare, bad_in, bad_told, both_told, difference, differences, differs, good_at, good_told, is_told, of_bad, of_both, of_good, order_in, same_end};
ghost use Rattle.place_flags.specs.Flags.{is_flagged};
ghost use Rattle.run_comparison.specs.declared.difference.Stands.TheVariants.{Both};

use crate::difference::{Difference, Stands};
use crate::path_flags::path_flags;
use crate::share::{Share, order_of, same_share};
use act_expr::Outcome;
use place_flags::is_flagged;
use propagate::StateRepresentation;
use stage_ops::Done;
use std::alloc::{AllocError, Global};
use version_store::{StageView, Version};

/// The order of a stage of the bad run alone.
const OF_BAD: u128 = (1 << 66) + 1;

/// The order of a stage of the good run alone.
const OF_GOOD: u128 = (1 << 66) + 2;

/// Whether both are the same value, or the same exception in the same form.
fn is_same_outcome(one: &Outcome, other: &Outcome) -> bool
    ensures { result ≡ same_outcome one.now other.now }
{
    *one == *other
}

/// Whether both completed with the same outcome, or both are pending.
fn same_end(one: &Option<Done>, other: &Option<Done>) -> bool
    ensures { result ≡ same_end one.now other.now }
{
    match (one, other) {
        (None, None) => true,
        (Some(one), Some(other)) => is_same_outcome(&one.outcome, &other.outcome),
        _ => false,
    }
}

/// Whether a stage of both runs differs in its own share of the time, or in what it came to.
fn differs<R: StateRepresentation>(good: &StageView<'_, R>, bad: &StageView<'_, R>) -> bool
    ensures { result ≡ differs good.now.version.now.graph good.now.place bad.now.version.now.graph bad.now.place }
{
    let has_share = same_share(Share::of(good), Share::of(bad));
    let has_end = same_end(&good.state().done, &bad.state().done);
    !has_share || !has_end
}

/// A stage of both runs.
fn both<R: StateRepresentation>(good: &StageView<'_, R>, bad: &StageView<'_, R>) -> Difference
    ensures { result ≡ difference good.now.version.now.graph bad.now.version.now.graph (Both good.now.place bad.now.place) }
{
    Difference {
        stands: Stands::Both {
            good: good.place,
            bad: bad.place,
        },
        order: order_of(Share::of(good), Share::of(bad)),
    }
}

/// Whether a stage of both runs is told of: where it is on a path, or differs.
fn is_told<R: StateRepresentation>(
    good: &StageView<'_, R>,
    bad: &StageView<'_, R>,
    is_on_path: bool,
) -> bool
    ensures { result ≡ is_told good.now.version.now.graph good.now.place bad.now.version.now.graph bad.now.place is_on_path }
{
    is_on_path || differs(good, bad)
}

/// What is told of a stage of both runs.
fn both_told<R: StateRepresentation>(
    good: &StageView<'_, R>,
    bad: &StageView<'_, R>,
    is_on_path: bool,
) -> Option<Difference>
    ensures { result ≡ both_told good.now.version.now.graph good.now.place bad.now.version.now.graph bad.now.place is_on_path }
{
    if is_told(good, bad, is_on_path) {
        Some(both(good, bad))
    } else {
        None
    }
}

/// The stage of a name, if the version has one.
fn stage_named<'a, R: StateRepresentation>(
    version: &'a Version<R>,
    name: &str,
) -> Option<StageView<'a, R>>
    ensures version { IfSome result (λ view. view.version.now ≡ version.now) }
    ensures place { option_map (λ view. view.place) result ≡ place_named version.now.graph.places name.now }
{
    let Ok(place) = version.id_of(name) else {
        return None;
    };
    version.stage(place)
}

/// Whether a stage is on the path in the bad run, as is said, or in the good one, as the flag of its place there says.
fn is_on_either(is_on_path: bool, on_good_path: &[bool], there: u32) -> bool
    ensures { result ≡ (is_on_path || is_flagged on_good_path.now there) }
{
    is_on_path || is_flagged(on_good_path, there)
}

/// What is told of a stage of the bad run.
fn bad_told<R: StateRepresentation>(
    good: &Version<R>,
    on_good_path: &[bool],
    bad: &StageView<'_, R>,
    is_on_path: bool,
) -> Option<Difference>
    ensures { result ≡ bad_told good.now.graph (is_flagged on_good_path.now) bad.now.version.now.graph is_on_path bad.now.place (place_named good.now.graph.places bad.now.stage.now.name) }
{
    match stage_named(good, bad.stage.name.as_str()) {
        Some(there) => both_told(
            &there,
            bad,
            is_on_either(is_on_path, on_good_path, there.place),
        ),
        None => Some(Difference {
            stands: Stands::OnlyBad(bad.place),
            order: OF_BAD,
        }),
    }
}

/// The same of the stage at a place.
fn bad_in<R: StateRepresentation>(
    good: &Version<R>,
    on_good_path: &[bool],
    bad: &Version<R>,
    is_on_path: bool,
    place: u32,
) -> Option<Difference>
    ensures { result ≡ bad_in good.now.graph (is_flagged on_good_path.now) bad.now.graph is_on_path place (stage_at bad.now.graph.places place) }
{
    match bad.stage(place) {
        Some(view) => bad_told(good, on_good_path, &view, is_on_path),
        None => None,
    }
}

/// What is told of a stage of the good run.
fn good_told<R: StateRepresentation>(
    good: &StageView<'_, R>,
    bad: &Version<R>,
) -> Option<Difference>
    ensures { result ≡ good_told good.now.version.now.graph bad.now.graph good.now.place (place_named bad.now.graph.places good.now.stage.now.name) }
{
    match bad.graph().id_of(good.stage.name.as_str()) {
        Some(_) => None,
        None => Some(Difference {
            stands: Stands::OnlyGood(good.place),
            order: OF_GOOD,
        }),
    }
}

/// The same of the stage at a place.
fn good_in<R: StateRepresentation>(
    good: &Version<R>,
    bad: &Version<R>,
    place: u32,
) -> Option<Difference>
    ensures { result ≡ good_at good.now.graph bad.now.graph place }
{
    match good.stage(place) {
        Some(view) => good_told(&view, bad),
        None => None,
    }
}

/// Adds what is told, if anything is.
fn push_told(found: &mut Vec<Difference>, told: Option<Difference>) -> Result<(), AllocError>
    ensures { OnOk result (found.new.items ≡ found.old.items ++ option_to_list told) }
{
    match told {
        Some(one) => {
            found.push(one)?;
            Ok(())
        }
        None => Ok(()),
    }
}

/// Adds what is told of the stages of the bad run, by place.
fn push_of_bad<R: StateRepresentation>(
    found: &mut Vec<Difference>,
    good: &Version<R>,
    on_good_path: &[bool],
    bad: &Version<R>,
    on_bad_path: &[bool],
) -> Result<(), AllocError>
    ensures { OnOk result (found.new.items ≡ found.old.items ++ of_bad good.now.graph (is_flagged on_good_path.now) bad.now.graph (is_flagged on_bad_path.now)) }
{
    for place in 0..bad.graph().len() as u32 {
        let is_on_path = is_flagged(on_bad_path, place);
        push_told(found, bad_in(good, on_good_path, bad, is_on_path, place))?;
    }
    Ok(())
}

/// Adds what is told of the stages that only the good run has, by place.
fn push_of_good<R: StateRepresentation>(
    found: &mut Vec<Difference>,
    good: &Version<R>,
    bad: &Version<R>,
) -> Result<(), AllocError>
    ensures { OnOk result (found.new.items ≡ found.old.items ++ of_good good.now.graph bad.now.graph) }
{
    for place in 0..good.graph().len() as u32 {
        push_told(found, good_in(good, bad, place))?;
    }
    Ok(())
}

/// What is told of the stages of both runs.
fn of_both<R: StateRepresentation>(
    alloc: Global,
    good: &Version<R>,
    on_good_path: &[bool],
    bad: &Version<R>,
    on_bad_path: &[bool],
) -> Result<Vec<Difference>, AllocError>
    ensures { IfOk result (λ found. found.items ≡ of_both good.now.graph (is_flagged on_good_path.now) bad.now.graph (is_flagged on_bad_path.now)) }
{
    let mut found = Vec::new(alloc);
    push_of_bad(&mut found, good, on_good_path, bad, on_bad_path)?;
    push_of_good(&mut found, good, bad)?;
    Ok(found)
}

/// Those that differ most first.
fn in_turn(mut found: Vec<Difference>) -> Result<Vec<Difference>, AllocError>
    ensures permutation { IfOk result (λ ordered. IsPermutation found.items ordered.items) }
    ensures ordered { IfOk result (λ ordered. IsNonDecreasingBy order_in ordered.items) }
    ensures by_place { IfOk result (λ ordered. IsStableByKey order_in nat_cmp found.items ordered.items) }
{
    found.sort_by_key(|one| one.order)?;
    Ok(found)
}

/// The stages in which two runs differ, or on which one of them has waited, where they are compared for a stage of each: those
/// of both runs on either path of it, and those whose own share of the time or whose outcome differs; and those of one run
/// alone. Those of both come first, and of them those whose shares differ by most ticks in all; then those of the bad run alone;
/// then those of the good one alone. Of several that are alike the first is the one at the least place, in the bad run if that
/// has them.
pub fn differences_of<R: StateRepresentation>(
    alloc: Global,
    good: &StageView<'_, R>,
    bad: &StageView<'_, R>,
) -> Result<Vec<Difference>, AllocError>
    ensures differences { IfOk result (λ found. found.items ≡ differences good.now.version.now.graph good.now.place bad.now.version.now.graph bad.now.place) }
    ensures each { IfOk result (λ found. All (StandsByShare good.now.version.now.graph bad.now.version.now.graph) found.items) }
    ensures ordered { IfOk result (λ found. IsNonDecreasingBy order_in found.items) }
{
    let on_good_path = path_flags(alloc, good)?;
    let on_bad_path = path_flags(alloc, bad)?;
    let found = of_both(
        alloc,
        good.version,
        on_good_path.as_slice(),
        bad.version,
        on_bad_path.as_slice(),
    )?;
    let ordered = in_turn(found)?;
    Ok(ordered)
}
