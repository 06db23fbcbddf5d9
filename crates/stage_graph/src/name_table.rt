//! A table of names.
ghost use Rattle.std.specs.Prelude.{◌≡◌, ℕ, ◌<◌, ◌^◌, List, Some, None, if◌then◌else◌, IfOk, IfErr, OnOk, unwrap_or, not, is_some};
ghost use Rattle.std.specs.Str.{bytes_eq};
ghost use Rattle.stage_graph.specs.Checks.{are_known};
ghost use Rattle.stage_graph.specs.Hashers.{after_names, hashes_begin};
ghost use Rattle.stage_graph.specs.Names.{first_place, found, known_feeds, known_places, stage_of};

use crate::checks::{Checks, MOST_PLACES, checks_of};
use crate::fault::EditFault;
use crate::list_hasher::ListHasher;
use crate::name::{Name, NameList};
use crate::name_tree::NameTree;
use crate::places::Places;
use crate::stage::{Feeds, Spec, Stage};
use indexmap::IndexMap;
use share_tree::{Again, Held};
use std::alloc::{AllocError, Global};

/// The first place of each name of a list.
#[derive(Drop)]
pub(crate) struct FirstPlaces {
    places: IndexMap<String, usize, ListHasher>,
}

impl FirstPlaces {
    /// No places, with room for those of the names of a list, as far as a graph may have as many.
    pub(crate) fn new(alloc: Global, specs: &[Spec]) -> Result<FirstPlaces, AllocError>
        ensures empty { IfOk result (λ first. (name : List ℕ) → first_place first name ≡ None) }
        ensures hashed { IfOk result (λ first. hashes_begin first ≡ after_names specs.now) }
    {
        let places = specs.len().min(MOST_PLACES);
        let hasher = ListHasher::of(specs);
        Ok(FirstPlaces {
            places: IndexMap::with_capacity_and_hasher(alloc, places, hasher)?,
        })
    }

    /// The first place of a name.
    fn get(&self, name: &str) -> Option<usize>
        ensures { result ≡ first_place self.now name.now }
    {
        self.places.get(name).copied()
    }

    /// Sets the place of a name, in place of the one that it has, if any. The answer is whether it has none.
    pub(crate) fn set(
        &mut self,
        alloc: Global,
        name: &str,
        place: usize,
    ) -> Result<bool, AllocError>
        ensures sets { OnOk result ((other : List ℕ) → first_place self.new other ≡ (if bytes_eq name.now other then Some place else first_place self.old other)) }
        ensures new { IfOk result (λ is_new. is_some (first_place self.old name.now) ≡ not is_new) }
    {
        let old = self.places.insert(String::from_str(alloc, name)?, place)?;
        Ok(old.is_none())
    }
}

/// The place of each name's stage. A new table shares with the one that it is made from what was loaded,
/// and all but one path of the entries that were added since.
#[derive(Drop)]
pub(crate) struct NameTable {
    loaded: Held<FirstPlaces>,
    /// The entries of the names that were added or removed since loading.
    since: NameTree,
}

impl NameTable {
    /// The table of a list.
    pub(crate) fn of(alloc: Global, loaded: FirstPlaces) -> Result<NameTable, AllocError>
        ensures { IfOk result (λ table. (name : List ℕ) → found table name ≡ first_place loaded name) }
    {
        Ok(NameTable {
            loaded: Held::new(alloc, loaded)?,
            since: NameTree::new(),
        })
    }

    /// The place of a name.
    pub(crate) fn get(&self, name: &str) -> Option<usize>
        ensures { result ≡ found self.now name.now }
    {
        match self.since.get(name) {
            Some(place) => place,
            None => self.loaded.get(name),
        }
    }

    /// The table in which one name has this place, or none, and the others have theirs.
    pub(crate) fn with(
        &self,
        alloc: Global,
        name: &str,
        place: Option<usize>,
    ) -> Result<NameTable, AllocError>
        ensures { IfOk result (λ table. (other : List ℕ) → found table other ≡ (if bytes_eq name.now other then place else found self.now other)) }
    {
        Ok(NameTable {
            loaded: self.loaded.again()?,
            since: self.since.with(alloc, name, place)?,
        })
    }

    /// Whether each of the names has a place.
    pub(crate) fn knows_all(&self, names: &[Name]) -> bool
        ensures { result ≡ are_known (found self.now) names.now }
    {
        names.iter().all(|name| self.get(name.as_str()).is_some())
    }
}

impl NameTable {
    ghost use Rattle.stage_graph.specs.Checks.{checks_of};
    ghost use Rattle.stage_graph.specs.Checks.{first_refusal};
    ghost use Rattle.stage_graph.specs.Edits.{IsFaultOf};

    /// The checks of a whole stage that is to stand at a place.
    pub(crate) fn checks_of(&self, free: bool, place: usize, spec: &Spec) -> Checks
        ensures { result ≡ checks_of free (found self.now) place spec.now }
    {
        let known = self.knows_all(spec.sources.as_slice())
            && self.knows_all(spec.inner.as_slice());
        checks_of(free, known, place, spec)
    }

    /// The places of names, if each of them has one.
    fn known_places(&self, alloc: Global, names: &NameList) -> Result<Option<Places>, AllocError>
        requires { (name : List ℕ) → unwrap_or (found self.now name) 0 < 2 ^ 32 }
        ensures { IfOk result (λ places. places ≡ known_places (found self.now) names.now) }
    {
        let mut places = Places::with_capacity(alloc, names.as_slice().len())?;
        for name in names.as_slice() {
            let Some(place) = self.get(name.as_str()) else {
                return Ok(None);
            };
            places.push(place as u32)?;
        }
        Ok(Some(places))
    }

    /// The places of what a stage is fed by, its sources and its inner stages, if each of them has one.
    pub(crate) fn known_feeds(
        &self,
        alloc: Global,
        sources: &NameList,
        inner: &NameList,
    ) -> Result<Option<Feeds>, AllocError>
        requires { (name : List ℕ) → unwrap_or (found self.now name) 0 < 2 ^ 32 }
        ensures { IfOk result (λ feeds. feeds ≡ known_feeds (found self.now) sources.now inner.now) }
    {
        let Some(sources) = self.known_places(alloc, sources)? else {
            return Ok(None);
        };
        let Some(inner) = self.known_places(alloc, inner)? else {
            return Ok(None);
        };
        Ok(Some(Feeds { sources, inner }))
    }

    /// The stage that is to stand at a place, with places for names, where it is known whether its name is free; or the first
    /// check that it fails. Each name is looked up once.
    pub(crate) fn checked_stage(
        &self,
        alloc: Global,
        free: bool,
        place: u32,
        spec: &Spec,
    ) -> Result<Stage, EditFault>
        requires { (name : List ℕ) → unwrap_or (found self.now name) 0 < 2 ^ 32 }
        ensures stage { IfOk result (λ stage. stage ≡ stage_of (found self.now) place spec.now) }
        ensures passes { OnOk result (first_refusal (checks_of free (found self.now) place spec.now) ≡ None) }
        ensures fault { IfErr result (IsFaultOf (first_refusal (checks_of free (found self.now) place spec.now))) }
    {
        let feeds = self.known_feeds(alloc, &spec.sources, &spec.inner)?;
        let checks = checks_of(free, feeds.is_some(), place as usize, spec);
        if let Some(refusal) = checks.first_refusal() {
            return Err(EditFault::Refused(refusal));
        }
        match feeds {
            Some(feeds) => Ok(spec.placed(place, feeds)?),
            None => unreachable!(),
        }
    }
}
