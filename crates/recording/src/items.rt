//! The items of arrays, by their number.
//!
//! They are counted before any of them is read, so a wrong number is refused at once, however much they hold.
ghost use Rattle.std.specs.Prelude.{◌≡◌, ◌≢◌, ◌^◌, ◌-◌, min, Some, MatchOption};
ghost use Rattle.std.specs.Bool.{MatchBool};
ghost use Rattle.serde_json.specs.Data.{Items as SpecItems, no_items, item};
ghost use Rattle.serde_json.specs.Events.{items_len};
ghost use Rattle.serde_json.specs.Find.{as_array};

use json_trees::{Items, Tree};

/// Whether there is no item.
pub(crate) fn is_empty(items: Items<'_, '_>) -> bool
    ensures { MatchBool result (items.entry ≡ no_items) (items_len items.entry ≢ 0) }
{
    let mut items = items;
    items.next().is_none()
}

/// The only item.
pub(crate) fn only<'t, 'a>(items: Items<'t, 'a>) -> Option<Tree<'t, 'a>>
    ensures { MatchOption result (items_len items.entry ≢ 1) (λ first. items.entry ≡ item first no_items) }
{
    let mut items = items;
    let first = items.next()?;
    if is_empty(items) { Some(first) } else { None }
}

/// The two items.
pub(crate) fn pair<'t, 'a>(items: Items<'t, 'a>) -> Option<(Tree<'t, 'a>, Tree<'t, 'a>)>
    ensures { MatchOption result (items_len items.entry ≢ 2)
        (λ both. items.entry ≡ item both.0 (item both.1 no_items)) }
{
    let mut items = items;
    let first = items.next()?;
    let second = only(items)?;
    Some((first, second))
}

/// The three items.
pub(crate) fn triple<'t, 'a>(
    items: Items<'t, 'a>,
) -> Option<(Tree<'t, 'a>, Tree<'t, 'a>, Tree<'t, 'a>)>
    ensures { MatchOption result (items_len items.entry ≢ 3)
        (λ all. items.entry ≡ item all.0 (item all.1 (item all.2 no_items))) }
{
    let mut items = items;
    let first = items.next()?;
    let (second, third) = pair(items)?;
    Some((first, second, third))
}

/// How many items an array has, as far as a `usize` counts.
pub(crate) fn item_count(value: &Tree<'_, '_>) -> usize
    ensures { (items : SpecItems) → as_array value.now ≡ Some items
        → result ≡ min (items_len items) (2 ^ 64 - 1) }
{
    let Some(mut items) = value.as_array() else {
        return 0;
    };
    let mut count: usize = 0;
    while let Some(_item) = items.next() {
        count = count.saturating_add(1);
    }
    count
}
