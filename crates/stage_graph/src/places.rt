//! Places of a graph, which contracts see as lists.
ghost use Rattle.std.specs.Prelude.{◌≡◌, ◌↔◌, ◌<◌, ◌≤◌, [], ◌∷◌, ◌++◌, length, IfOk, OnOk, OnErr, IsTrue};
ghost use Rattle.stage_graph.specs.PlaceLists.{items_in};

use std::alloc::{AllocError, Global};
use std::fmt::{self, Debug, Formatter, Write};
use std::marker::Model;

/// How many places are kept without memory of their own.
const FEW: usize = 6;

/// Few places, in order.
#[derive(Drop)]
struct FewPlaces {
    count: u32,
    places: [u32; 6],
    alloc: Global,
}

impl Model for FewPlaces {
    ghost use Rattle.std.specs.Prelude.{ℕ, List, ◌≤◌, take};

    ghost Value = { List ℕ };

    ghost view = { λ few. take few.count few.places };

    ghost invariant = { λ few. few.count ≤ 6 };
}

impl FewPlaces {
    /// No places.
    fn new(alloc: Global) -> FewPlaces
        ensures { result ≡ [] }
    {
        FewPlaces {
            count: 0,
            places: [0; 6],
            alloc,
        }
    }

    /// The places of a short list.
    fn of(alloc: Global, places: &[u32]) -> FewPlaces
        requires { length places.now ≤ 6 }
        ensures { result ≡ places.now }
    {
        let mut few = FewPlaces::new(alloc);
        for place in places {
            few.push(*place);
        }
        few
    }

    /// Whether there is no room for one more.
    fn is_full(&self) -> bool
        ensures { IsTrue result ↔ (6 ≤ length self.now) }
    {
        self.count as usize >= FEW
    }

    /// Adds a place at the end.
    fn push(&mut self, place: u32)
        requires { length self.old < 6 }
        ensures { self.new ≡ self.old ++ place ∷ [] }
    {
        self.places[self.count as usize] = place;
        self.count += 1;
    }

    /// The places and one more at the end, as a vector with room for as many again.
    fn with(&self, place: u32) -> Result<Vec<u32>, AllocError>
        ensures { IfOk result (λ places. places.items ≡ self.now ++ place ∷ []) }
    {
        let mut places = Vec::with_capacity(self.alloc, 2 * FEW)?;
        places.extend_from_slice(self.as_slice())?;
        places.push(place)?;
        Ok(places)
    }

    /// The places, in order.
    #[inline(always)]
    fn as_slice(&self) -> &[u32]
        ensures { result.now ≡ self.now }
    {
        &self.places[..self.count as usize]
    }

    /// A clone of the places.
    fn again(&self) -> FewPlaces
        ensures { result ≡ self.now }
    {
        FewPlaces {
            count: self.count,
            places: self.places,
            alloc: self.alloc,
        }
    }
}

/// Where places are kept. Most stages have few sources and few dependents, so these are kept in the value
/// itself: to read them costs no look at other memory, and to make them no allocation.
#[derive(Drop)]
enum Items {
    Few(FewPlaces),
    Many(Vec<u32>),
}

impl Items {
    /// The places, in order.
    #[inline(always)]
    fn as_slice(&self) -> &[u32]
        ensures { result.now ≡ items_in self.now }
    {
        match self {
            Items::Few(places) => places.as_slice(),
            Items::Many(places) => places.as_slice(),
        }
    }
}

impl Debug for Items {
    fn fmt<W: Write>(&self, f: &mut Formatter<W>) -> fmt::Result {
        self.as_slice().fmt(f)
    }
}

/// Places of a graph, in order.
#[derive(Drop, Debug)]
pub struct Places {
    items: Items,
}

const _: () = prove!(size_of::<Places>() <= 32);

impl Model for Places {
    ghost use Rattle.std.specs.Prelude.{ℕ, List};

    ghost Value = { List ℕ };

    ghost use Rattle.stage_graph.specs.PlaceLists.{items_in};

    ghost view = { λ places. items_in places.items };
}

impl Places {
    /// No places.
    pub fn new(alloc: Global) -> Places
        ensures { result ≡ [] }
    {
        Places {
            items: Items::Few(FewPlaces::new(alloc)),
        }
    }

    /// No places, with room for this many.
    pub(crate) fn with_capacity(alloc: Global, count: usize) -> Result<Places, AllocError>
        ensures { IfOk result (λ places. places ≡ []) }
    {
        if count <= FEW {
            return Ok(Places::new(alloc));
        }
        Ok(Places {
            items: Items::Many(Vec::with_capacity(alloc, count)?),
        })
    }

    /// Adds a place at the end; if out of memory, the places stay as they are.
    pub fn push(&mut self, place: u32) -> Result<(), AllocError>
        ensures added { OnOk result (self.new ≡ self.old ++ place ∷ []) }
        ensures kept { OnErr result (self.new ≡ self.old) }
    {
        match &mut self.items {
            Items::Few(places) => {
                if places.is_full() {
                    self.items = Items::Many(places.with(place)?);
                } else {
                    places.push(place);
                }
            }
            Items::Many(places) => places.push(place)?,
        }
        Ok(())
    }

    /// The places of a vector.
    pub fn from_vec(items: Vec<u32>) -> Places
        ensures { result ≡ items.items }
    {
        if items.len() <= FEW {
            return Places {
                items: Items::Few(FewPlaces::of(*items.allocator(), &items)),
            };
        }
        Places {
            items: Items::Many(items),
        }
    }

    /// The places, in order.
    #[inline(always)]
    pub fn as_slice(&self) -> &[u32]
        ensures { result.now ≡ self.now }
    {
        self.items.as_slice()
    }

    /// Whether two lists have the same places.
    pub fn same(&self, other: &Places) -> bool
        ensures { IsTrue result ↔ (self.now ≡ other.now) }
    {
        self.as_slice() == other.as_slice()
    }

    /// A clone of the places.
    pub fn again(&self) -> Result<Places, AllocError>
        ensures { IfOk result (λ same. same ≡ self.now) }
    {
        Ok(Places {
            items: match &self.items {
                Items::Few(places) => Items::Few(places.again()),
                Items::Many(places) => {
                    Items::Many(Vec::from_slice(*places.allocator(), places)?)
                }
            },
        })
    }
}
