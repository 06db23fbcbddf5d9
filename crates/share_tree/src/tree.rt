//! The tree of a persistent list, as high as the list needs.
ghost use Rattle.std.specs.Prelude.{◌≡◌, ◌≤◌, ◌<◌, ◌++◌, ◌∷◌, [], length, slice_get, IfOk, OnOk, OnErr};
ghost use Rattle.std.specs.Option.{option_copied};
ghost use Rattle.share_tree.specs.Height.{HasHeight, items_of, room_of};
ghost use Rattle.share_tree.specs.Put.{put};

use crate::again::{Again, Held};
use crate::node::{Branch, Leaf, Node, one_item, raised, write_held};
use std::alloc::{AllocError, Global};

/// Up to 256 items.
type Low<T> = Branch<T, Leaf<T>>;

/// Up to 4,096 items.
type High<T> = Branch<T, Low<T>>;

/// Up to 65,536 items.
type Top<T> = Branch<T, High<T>>;

/// A tree by its height, from the highest to none: the root of the lowest one that has room for the list.
#[derive(Drop)]
pub enum Tree<T: Again> {
    /// 4,097 to 65,536 items.
    Top(Held<Top<T>>),
    /// 257 to 4,096 items.
    High(Held<High<T>>),
    /// 17 to 256 items.
    Low(Held<Low<T>>),
    /// 1 to 16 items.
    Leaf(Held<Leaf<T>>),
    /// No items.
    Empty,
}

impl<T: Again> Again for Tree<T> {
    fn again(&self) -> Result<Tree<T>, AllocError> {
        Ok(match self {
            Tree::Top(root) => Tree::Top(root.again()?),
            Tree::High(root) => Tree::High(root.again()?),
            Tree::Low(root) => Tree::Low(root.again()?),
            Tree::Leaf(root) => Tree::Leaf(root.again()?),
            Tree::Empty => Tree::Empty,
        })
    }
}

impl<T: Again> Tree<T> {
    /// How many items a tree of this height has room for.
    fn room(&self) -> usize
        ensures { result ≡ room_of self.now }
    {
        match self {
            Tree::Top(_) => Top::<T>::ROOM,
            Tree::High(_) => High::<T>::ROOM,
            Tree::Low(_) => Low::<T>::ROOM,
            Tree::Leaf(_) => Leaf::<T>::ROOM,
            Tree::Empty => 0,
        }
    }

    /// The item at a place.
    #[inline(always)]
    pub(crate) fn get(&self, place: usize) -> Option<&T>
        ensures { option_copied result ≡ slice_get (items_of self.now) place }
    {
        match self {
            Tree::Top(root) => root.get(place),
            Tree::High(root) => root.get(place),
            Tree::Low(root) => root.get(place),
            Tree::Leaf(root) => root.get(place),
            Tree::Empty => None,
        }
    }

    /// A tree one level higher than a full one, with another item at its end. It shares all nodes of the full one.
    fn grown(&self, alloc: Global, item: T) -> Result<Tree<T>, AllocError>
        requires full { length (items_of self.now) ≡ room_of self.now }
        requires limit { length (items_of self.now) < 65536 }
        ensures items { IfOk result (λ higher. items_of higher ≡ items_of self.now ++ item ∷ []) }
        ensures height { IfOk result (λ higher. HasHeight higher) }
    {
        Ok(match self {
            Tree::Top(_) => unreachable!(),
            Tree::High(root) => Tree::Top(raised(alloc, root, item)?),
            Tree::Low(root) => Tree::High(raised(alloc, root, item)?),
            Tree::Leaf(root) => Tree::Low(raised(alloc, root, item)?),
            Tree::Empty => Tree::Leaf(one_item(alloc, item)?),
        })
    }

    /// Writes an item at a place that a tree of this height has room for, or adds it at the end.
    #[inline(always)]
    #[tactic(auto, using(crate::proofs::Puts::puts))]
    fn write_within(&mut self, alloc: Global, place: usize, item: T) -> Result<(), AllocError>
        requires height { HasHeight self.old }
        requires place { place ≤ length (items_of self.old) }
        requires room { place < room_of self.old }
        ensures ok { OnOk result (items_of self.new ≡ put (items_of self.old) place item) }
        ensures height { HasHeight self.new }
        ensures err { OnErr result (self.new ≡ self.old) }
    {
        match self {
            Tree::Top(root) => write_held(alloc, root, place, item),
            Tree::High(root) => write_held(alloc, root, place, item),
            Tree::Low(root) => write_held(alloc, root, place, item),
            Tree::Leaf(root) => write_held(alloc, root, place, item),
            Tree::Empty => unreachable!(),
        }
    }

    /// Writes an item at a place, or adds it at the end: a full tree becomes one level higher.
    #[tactic(auto, using(crate::proofs::Puts::puts))]
    pub(crate) fn write(&mut self, alloc: Global, place: usize, item: T) -> Result<(), AllocError>
        requires height { HasHeight self.old }
        requires place { place ≤ length (items_of self.old) }
        requires limit { place < 65536 }
        ensures ok { OnOk result (items_of self.new ≡ put (items_of self.old) place item) }
        ensures height { HasHeight self.new }
        ensures err { OnErr result (self.new ≡ self.old) }
    {
        if place < self.room() {
            return self.write_within(alloc, place, item);
        }
        *self = self.grown(alloc, item)?;
        Ok(())
    }
}
