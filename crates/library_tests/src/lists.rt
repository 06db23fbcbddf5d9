//! Lists that share, by functions that hold of each kind of list.
//!
//! After an out-of-memory error the same call is made again on the same list, so the tests pass
//! whichever allocation fails.
ghost use Rattle.std.specs.Prelude.{◌≡◌, ◌≤◌, ◌++◌, ◌∷◌, [], length, slice_set, ◌<◌, IfOk, OnOk};

use share_tree::{Again, Held, KeepFault, Keeps, MOST_ITEMS, Shared};
use std::alloc::{AllocError, Global};
use std::process::Abort;

/// Whether an item stands at a place of a list.
fn is_at<K: Keeps<u32>>(kept: &K, place: usize, item: u32) -> bool {
    kept.get(place).copied() == Some(item)
}

/// A push, made again if it was out of memory. The list that it is called on has then not changed.
fn push_surely<K: Keeps<u32>>(rt: &impl Abort, kept: &K, item: u32) -> Result<K, KeepFault>
    ensures { IfOk result (λ longer. K.items longer ≡ K.items kept.now ++ item ∷ []) }
{
    let count = kept.len();
    let last = kept.get(count.saturating_sub(1)).copied();
    match kept.push(item) {
        Err(KeepFault::Memory) => {
            assert!(rt; kept.len() == count);
            assert!(rt; kept.get(count.saturating_sub(1)).copied() == last);
            kept.push(item)
        }
        answer => answer,
    }
}

/// A set, made again if it was out of memory.
fn set_surely<K: Keeps<u32>>(
    rt: &impl Abort,
    kept: &K,
    place: usize,
    item: u32,
) -> Result<K, AllocError>
    requires { place < length (K.items kept.now) }
    ensures { IfOk result (λ changed. K.items changed ≡ slice_set (K.items kept.now) place item) }
{
    let before = kept.get(place).copied();
    match kept.set(place, item) {
        Ok(changed) => Ok(changed),
        Err(_) => {
            assert!(rt; kept.get(place).copied() == before);
            kept.set(place, item)
        }
    }
}

/// A write in the list itself, made again if it was out of memory.
fn write_surely<K: Keeps<u32>>(
    rt: &impl Abort,
    kept: &mut K,
    place: usize,
    item: u32,
) -> Result<(), AllocError>
    requires { place < length (K.items kept.old) }
    ensures { OnOk result (K.items kept.new ≡ slice_set (K.items kept.old) place item) }
{
    let before = kept.get(place).copied();
    match kept.write(place, item) {
        Ok(()) => Ok(()),
        Err(_) => {
            assert!(rt; kept.get(place).copied() == before);
            kept.write(place, item)
        }
    }
}

/// The list of 0, 1, .. up to a count, exclusive.
fn counted<K: Keeps<u32>>(rt: &impl Abort, alloc: Global, count: u32) -> Result<K, KeepFault>
    ensures { IfOk result (λ kept. length (K.items kept) ≡ count) }
{
    let mut kept = K::empty(alloc);
    for item in 0..count {
        kept = push_surely(rt, &kept, item)?;
    }
    Ok(kept)
}

/// Two lists: the new one has 99 at 16, and the old one still has 16.
fn trees_and_runners<K: Keeps<u32>>(rt: &impl Abort, alloc: Global) -> Result<(), KeepFault> {
    let old: K = counted(rt, alloc, 17)?;
    let new = set_surely(rt, &old, 16, 99)?;
    assert!(rt; is_at(&new, 16, 99) && is_at(&old, 16, 16) && is_at(&new, 15, 15));
    assert!(rt; new.get(17).is_none());
    Ok(())
}

/// The number of the fault of a push, and 0 where there is none.
fn refusal_of<K: Keeps<u32>>(pushed: Result<K, KeepFault>) -> u32 {
    match pushed {
        Ok(_) => 0,
        Err(fault) => fault.number(),
    }
}

/// A push at 65,536 items.
pub(crate) fn trees_and_runners_full<K: Keeps<u32>>(
    rt: &impl Abort,
    alloc: Global,
) -> Result<(), KeepFault> {
    let full: K = counted(rt, alloc, 65_536)?;
    assert!(rt; full.len() == MOST_ITEMS);
    assert!(rt; refusal_of(full.push(0)) == 30);
    assert!(rt; is_at(&full, 65_535, 65_535));
    Ok(())
}

/// Whether a list is 0, 1, .. up to a count, exclusive, but for the item at a place.
fn differs_at<K: Keeps<u32>>(kept: &K, count: u32, place: usize, item: u32) -> bool {
    kept.len() == count as usize
        && (0..count).all(|other| {
            let wanted = if place == other as usize { item } else { other };
            is_at(kept, other as usize, wanted)
        })
}

/// Three lists that differ at two places only, in different nodes.
fn shared_past_one_node<K: Keeps<u32>>(rt: &impl Abort, alloc: Global) -> Result<(), KeepFault> {
    let old: K = counted(rt, alloc, 257)?;
    let first = set_surely(rt, &old, 0, 5)?;
    let last = set_surely(rt, &old, 256, 6)?;
    assert!(rt; differs_at(&old, 257, 0, 0));
    assert!(rt; differs_at(&first, 257, 0, 5));
    assert!(rt; differs_at(&last, 257, 256, 6));
    Ok(())
}

/// Two lists share all nodes; one of them is written and gets another item: the other one stays as it was.
fn a_written_list_is_apart<K: Keeps<u32>>(rt: &impl Abort, alloc: Global) -> Result<(), KeepFault> {
    let old: K = counted(rt, alloc, 257)?;
    let mut new = match old.again() {
        Ok(new) => new,
        Err(_) => old.again()?,
    };
    write_surely(rt, &mut new, 256, 4)?;
    write_surely(rt, &mut new, 256, 6)?;
    assert!(rt; differs_at(&old, 257, 0, 0));
    assert!(rt; differs_at(&new, 257, 256, 6));
    if let Err(KeepFault::Memory) = new.add(7) {
        assert!(rt; differs_at(&new, 257, 256, 6));
        new.add(7)?;
    }
    assert!(rt; is_at(&new, 257, 7));
    assert!(rt; old.len() == 257);
    Ok(())
}

/// A list that has no room left in its tree, and a longer one, whose tree is higher and has the first tree
/// below it: a write in either list leaves the other as it was.
fn a_full_tree_grows<K: Keeps<u32>>(
    rt: &impl Abort,
    alloc: Global,
    count: u32,
) -> Result<(), KeepFault>
    requires some { 0 < count }
    requires limit { count < 65536 }
{
    let mut full: K = counted(rt, alloc, count)?;
    let mut longer = push_surely(rt, &full, count)?;
    assert!(rt; differs_at(&full, count, 0, 0));
    assert!(rt; differs_at(&longer, count + 1, 0, 0));
    write_surely(rt, &mut longer, 0, 7)?;
    assert!(rt; differs_at(&full, count, 0, 0));
    write_surely(rt, &mut full, 0, 9)?;
    assert!(rt; differs_at(&full, count, 0, 9));
    assert!(rt; differs_at(&longer, count + 1, 0, 7));
    Ok(())
}

/// What holds of lists of a kind.
pub(crate) fn hold<K: Keeps<u32>>(rt: &impl Abort, alloc: Global) -> Result<(), KeepFault> {
    trees_and_runners::<K>(rt, alloc)?;
    shared_past_one_node::<K>(rt, alloc)?;
    a_written_list_is_apart::<K>(rt, alloc)?;
    a_full_tree_grows::<K>(rt, alloc, 16)?;
    a_full_tree_grows::<K>(rt, alloc, 256)?;
    a_full_tree_grows::<K>(rt, alloc, 4_096)
}

/// A list has a value that is held, and had again before it is pushed.
fn a_held_value_is_had_again<K: Keeps<Held<u32>>>(
    rt: &impl Abort,
    alloc: Global,
) -> Result<(), KeepFault> {
    let seven = match Held::new(alloc, 7u32) {
        Ok(seven) => seven,
        Err(_) => Held::new(alloc, 7)?,
    };
    let empty = K::empty(alloc);
    let kept = match empty.push(seven.again()?) {
        Ok(kept) => kept,
        Err(_) => empty.push(seven)?,
    };
    assert!(rt; kept.get(0).is_some_and(|held| **held == 7));
    Ok(())
}

#[test]
fn held_values(rt: HostRuntime) -> Result<(), KeepFault> {
    a_held_value_is_had_again::<Shared<Held<u32>>>(&rt, rt.alloc())
}
