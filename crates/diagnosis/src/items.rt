//! The elements of arrays.
use json_names::items_of;
use json_trees::{Items, Tree};

/// How many items there are.
pub(crate) fn count_items(items: &mut Items<'_, '_>) -> usize {
    let mut count = 0usize;
    for _ in 0..u64::MAX {
        let Some(_) = items.next() else {
            break;
        };
        count = count.saturating_add(1);
    }
    count
}

/// How many elements a member has.
pub(crate) fn item_count(object: &Tree<'_, '_>, member: &str) -> usize {
    count_items(&mut items_of(object, member))
}

/// The element of a member at an index.
pub(crate) fn item_at<'t, 'a>(
    object: &Tree<'t, 'a>,
    member: &str,
    index: usize,
) -> Option<Tree<'t, 'a>> {
    let mut items = items_of(object, member);
    for _ in 0..index {
        items.next()?;
    }
    items.next()
}
