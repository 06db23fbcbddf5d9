//! Where readers find the published versions, without a lock.
ghost use Rattle.std.specs.Prelude.{◌≡◌, ◌≤◌, Some, IfSome, IfOk, OnOk, IsTrue, length, slice_get};
ghost use Rattle.left_right.specs.Handles.{published as shown, pending};
ghost use Rattle.std.specs.Arc.{arc_value};
ghost use Rattle.desk.specs.Publishing.{WillShow};
ghost use Rattle.desk.specs.Shelving.{IsShelved};
ghost use mathlib.Core.List.{IsPrefix};

use crate::front::Front;
use crate::known::Known;
use crate::name::Naming;
use boxcar::Keeps;
use boxcar::table::{Placed, Table as Slots};
use boxcar::tag::Tag;
use left_right::{Absorb, ReadHandle, WriteHandle};
use std::alloc::{AllocError, Global};
use std::sync::{Arc, Wait};
use version_store::StateRepresentation;

/// How many versions are published.
#[derive(Clone, Copy)]
pub(crate) struct Count(pub(crate) u64);

impl Absorb<u64> for Count {
    type State = u64;

    ghost state = { λ count. count.0 };

    ghost applied = { λ old new. new };

    ghost never_fails = { Unit {0} };

    fn absorb_first(&mut self, operation: &u64, _other: &Count) -> Result<(), AllocError> {
        self.0 = *operation;
        Ok(())
    }
}

/// Each slot has the version of its number.
pub(crate) struct ByNumber;

impl<N: Naming, R: StateRepresentation> Keeps<Known<N, R>> for ByNumber {
    ghost holds = { λ _ index known. known.number ≡ index };
}

/// Versions by their numbers, each set once. Threads share it.
pub(crate) type Shelf<N, R> = Slots<Known<N, R>, ByNumber, Global>;

/// What shows that a version lies on the shelf, for as long as the shelf lasts.
pub(crate) type Shelved<N, R> = Placed<Known<N, R>, ByNumber, Global>;

/// A shelf with the first version, and what shows that it lies there.
pub(crate) fn first_shelf<N: Naming, R: StateRepresentation, X: Wait>(
    rt: &X,
    alloc: Global,
    first: Known<N, R>,
) -> Result<(Arc<Shelf<N, R>>, Shelved<N, R>), AllocError>
    requires { first.number ≡ 0 }
    ensures { IfOk result (λ made. IsShelved (arc_value made.0) made.1 first) }
{
    let shelf = Arc::new(alloc, Slots::new(alloc, Tag::empty())?)?;
    match shelf.set_placed(rt, 0, first) {
        Ok(shelved) => Ok((shelf, shelved)),
        Err(_) => Err(AllocError),
    }
}

/// Puts the version on the shelf, where a slot was reserved for it, and gives what shows that it lies there. Allocates
/// nothing, and fails only if no slot was reserved or the slot is taken.
pub(crate) fn put<N: Naming, R: StateRepresentation, X: Wait>(
    rt: &X,
    shelf: &Shelf<N, R>,
    known: Known<N, R>,
) -> Result<Shelved<N, R>, AllocError>
    ensures { IfOk result (λ shelved. IsShelved shelf.now shelved known) }
{
    let number = known.number() as usize;
    match shelf.set_placed(rt, number, known) {
        Ok(shelved) => Ok(shelved),
        Err(_) => Err(AllocError),
    }
}

/// The number that the next publication shows. If out of memory, nothing is appended.
pub(crate) fn append<W: Wait + Drop>(
    published: &mut WriteHandle<Count, u64, W>,
    count: u64,
) -> Result<(), AllocError>
    ensures shown { (shown published.new).0 ≡ (shown published.old).0 }
    ensures next { OnOk result (WillShow (pending published.new) count) }
{
    match published.append(count) {
        Ok(()) => Ok(()),
        Err(_) => Err(AllocError),
    }
}

/// Shows readers the number that was appended last, in one step. Allocates nothing.
pub(crate) fn show<W: Wait + Drop>(published: &mut WriteHandle<Count, u64, W>, count: u64)
    requires { WillShow (pending published.old) count }
    ensures { (shown published.new).0 ≡ count }
{
    let _ = published.publish();
}

/// What a client reads the published versions by.
#[derive(Drop)]
pub(crate) struct Reader<N: Naming, R: StateRepresentation> {
    pub(crate) count: ReadHandle<Count>,
    pub(crate) shelf: Arc<Shelf<N, R>>,
}

impl<N: Naming, R: StateRepresentation> Reader<N, R> {
    /// Extends the front to all that is published. Then the version of that number, if it is among what has been seen.
    pub(crate) fn find(
        &mut self,
        number: u32,
        front: &mut Front<N, R>,
    ) -> Result<Option<Known<N, R>>, AllocError>
        ensures later { IsPrefix front.old front.new }
        ensures found { IfOk result (λ found. IfSome found (λ known. (known.number ≡ number) × (slice_get front.new number ≡ Some known))) }
    {
        let Some(published) = self.published() else {
            return Err(AllocError);
        };
        if !self.learn(published, front) {
            return Err(AllocError);
        }
        if u64::from(number) >= front.len() {
            return Ok(None);
        }
        let Some(known) = self.shelf.get(number as usize) else {
            return Ok(None);
        };
        known.show(front);
        Ok(Some(known.again()?))
    }

    /// How many versions are published now.
    fn published(&mut self) -> Option<u64> {
        let count = self.count.enter()?;
        Some(count.0)
    }

    /// Extends the front to this many versions, and says whether it did. It did unless the last of them is not found.
    fn learn(&self, published: u64, front: &mut Front<N, R>) -> bool
        ensures later { IsPrefix front.old front.new }
        ensures learned { IsTrue result → published ≤ length front.new }
    {
        if published <= front.len() {
            return true;
        }
        let Some(last) = self.shelf.get((published - 1) as usize) else {
            return false;
        };
        last.show(front);
        true
    }
}
