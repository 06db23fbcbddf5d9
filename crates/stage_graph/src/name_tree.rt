//! A persistent tree of names, which versions share: the place of each name.
ghost use Rattle.std.specs.Prelude.{◌≡◌, ℕ, ◌+◌, ◌-◌, ◌<◌, ◌^◌, List, Some, None, if◌then◌else◌, IfOk, false, slice_index};
ghost use Rattle.std.specs.Str.{bytes_eq};
ghost use Rattle.stage_graph.specs.NameTrees.{half_byte, decides, told_by, told_below, told};

use crate::name::Name;
use share_tree::{Again, Held};
use std::alloc::{AllocError, Global};
use std::sync::Arc;

/// The most bits that a path can test: those of the 64 bytes of the longest name of a stage.
const MOST_BITS: usize = 512;

/// The entry of one name: its place, or that it has none.
#[derive(Drop)]
struct Entry {
    name: Name,
    place: Option<usize>,
}

/// A subtree: the names whose bits lead there.
#[cycle(part)]
#[derive(Drop)]
enum Part {
    Empty,
    One(Held<Entry>),
    /// A leaf: a name, and other names with exactly the same bits.
    More(Held<Entry>, Arc<Part>),
    Fork(Arc<Sides>),
}

/// A branch: the names whose next bit is 0, and those whose next bit is 1.
#[cycle(part)]
#[derive(Drop)]
struct Sides {
    zero: Part,
    one: Part,
}

/// The entries of names. A new tree shares all but one path with the one that it is made from. The bits of
/// a name select its path, so that no path is longer than a name has bits, whatever the names are.
#[derive(Drop)]
pub(crate) struct NameTree {
    root: Part,
}

/// Half of a byte of the name: first come the low halves, from the last byte to the first, then the high ones.
fn half_byte(name: &[u8], at: usize) -> u8
    ensures { result ≡ half_byte name.now at }
{
    let count = name.len();
    if at < count {
        name[count - 1 - at] % 16
    } else if at - count < count {
        name[count - 1 - (at - count)] / 16
    } else {
        0
    }
}

/// The bit of a name that selects the branch when this many bits are left.
fn decides(name: &[u8], left: usize) -> bool
    ensures { result ≡ decides name.now left }
{
    let at = MOST_BITS.saturating_sub(left);
    (half_byte(name, at / 4) >> (at % 4)) % 2 == 1
}

/// The branch of these two sides.
fn forked(alloc: Global, zero: Part, one: Part) -> Result<Part, AllocError>
    ensures { IfOk result (λ part. (left : ℕ) (name : List ℕ) → told_below left part name
        ≡ (if decides name left then told_below (left - 1) one name else told_below (left - 1) zero name)) }
{
    Ok(Part::Fork(Arc::new(alloc, Sides { zero, one })?))
}

/// The subtree of two names, whose paths separate at the first bit that differs.
fn parted(
    alloc: Global,
    old: &Held<Entry>,
    new: Held<Entry>,
    left: usize,
) -> Result<Part, AllocError>
    ensures { IfOk result (λ part. (name : List ℕ) → told_below left part name ≡ told_by new name (told_by old.now name None)) }
{
    if left == 0 {
        let rest = Arc::new(alloc, Part::One(old.again()?))?;
        return Ok(Part::More(new, rest));
    }
    let old_side = decides(old.name.as_str().as_bytes(), left);
    let new_side = decides(new.name.as_str().as_bytes(), left);
    if old_side == new_side {
        let part = parted(alloc, old, new, left - 1)?;
        if new_side {
            forked(alloc, Part::Empty, part)
        } else {
            forked(alloc, part, Part::Empty)
        }
    } else {
        let old = Part::One(old.again()?);
        let new = Part::One(new);
        if new_side {
            forked(alloc, old, new)
        } else {
            forked(alloc, new, old)
        }
    }
}

impl Part {
    /// A clone of the subtree, which costs no more than a reference count.
    fn again(&self) -> Result<Part, AllocError>
        ensures { IfOk result (λ same. (left : ℕ) (name : List ℕ) → told_below left same name ≡ told_below left self.now name) }
    {
        match self {
            Part::Empty => Ok(Part::Empty),
            Part::One(entry) => Ok(Part::One(entry.again()?)),
            Part::More(entry, rest) => Ok(Part::More(entry.again()?, Arc::try_clone(rest)?)),
            Part::Fork(sides) => Ok(Part::Fork(Arc::try_clone(sides)?)),
        }
    }

    /// The entry of a name of which this many bits are left.
    fn get(&self, name: &str, left: usize) -> Option<Option<usize>>
        ensures { result ≡ told_below left self.now name.now }
    {
        match self {
            Part::Empty => None,
            Part::One(entry) => {
                if entry.name.as_str() == name {
                    Some(entry.place)
                } else {
                    None
                }
            }
            Part::More(entry, rest) => {
                if entry.name.as_str() == name {
                    Some(entry.place)
                } else {
                    rest.get(name, left)
                }
            }
            Part::Fork(sides) => {
                if decides(name.as_bytes(), left) {
                    sides.one.get(name, left.saturating_sub(1))
                } else {
                    sides.zero.get(name, left.saturating_sub(1))
                }
            }
        }
    }

    /// The subtree with this entry for one name; the entries of the others stay as they are.
    fn with(&self, alloc: Global, entry: Held<Entry>, left: usize) -> Result<Part, AllocError>
        ensures { IfOk result (λ part. (name : List ℕ) → told_below left part name ≡ told_by entry name (told_below left self.now name)) }
    {
        match self {
            Part::Empty => Ok(Part::One(entry)),
            Part::One(old) => {
                if entry.name.as_str() == old.name.as_str() {
                    Ok(Part::One(entry))
                } else {
                    parted(alloc, old, entry, left)
                }
            }
            Part::More(old, rest) => {
                if entry.name.as_str() == old.name.as_str() {
                    Ok(Part::More(entry, Arc::try_clone(rest)?))
                } else {
                    let rest = rest.with(alloc, entry, left)?;
                    Ok(Part::More(old.again()?, Arc::new(alloc, rest)?))
                }
            }
            Part::Fork(sides) => {
                let below = left.saturating_sub(1);
                if decides(entry.name.as_str().as_bytes(), left) {
                    let one = sides.one.with(alloc, entry, below)?;
                    forked(alloc, sides.zero.again()?, one)
                } else {
                    let zero = sides.zero.with(alloc, entry, below)?;
                    forked(alloc, zero, sides.one.again()?)
                }
            }
        }
    }
}

impl NameTree {
    /// The tree without entries.
    pub(crate) fn new() -> NameTree
        ensures { (name : List ℕ) → told result name ≡ None }
    {
        NameTree { root: Part::Empty }
    }

    /// The entry of a name, if there is one: its place, or that it has none.
    pub(crate) fn get(&self, name: &str) -> Option<Option<usize>>
        ensures { result ≡ told self.now name.now }
    {
        self.root.get(name, MOST_BITS)
    }

    /// The tree in which one name has this place, or none, and the others have the same entries as here.
    pub(crate) fn with(
        &self,
        alloc: Global,
        name: &str,
        place: Option<usize>,
    ) -> Result<NameTree, AllocError>
        ensures { IfOk result (λ tree. (other : List ℕ) → told tree other ≡ (if bytes_eq name.now other then Some place else told self.now other)) }
    {
        let name = Name::new(alloc, name)?;
        let entry = Held::new(alloc, Entry { name, place })?;
        Ok(NameTree {
            root: self.root.with(alloc, entry, MOST_BITS)?,
        })
    }
}
