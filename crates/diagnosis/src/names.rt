//! The names of a recording's stages.
use crate::finding::StageFault;
use crate::site::Site;
use crate::stage_checks::is_name;
use json_names::{name_of, nearest};
use json_trees::Items;
use std::alloc::{AllocError, Global};
use std::collections::BTreeMap;

/// How many mistaken names a like one is looked for.
const MOST_LOOKS: usize = 16;

/// The places of names: of several stages of one name that of the first.
#[derive(Drop)]
pub(crate) struct Names<'a> {
    alloc: Global,
    places: BTreeMap<&'a str, usize>,
    /// The names once more, for those that are like a mistaken one.
    list: Vec<&'a str>,
    looks: usize,
}

impl<'a> Names<'a> {
    /// No names.
    pub(crate) fn none(alloc: Global) -> Names<'a> {
        Names {
            alloc,
            places: BTreeMap::new(alloc),
            list: Vec::new(alloc),
            looks: 0,
        }
    }

    /// The names of stages.
    pub(crate) fn of(alloc: Global, stages: &mut Items<'_, 'a>) -> Result<Names<'a>, AllocError> {
        let mut names = Names::none(alloc);
        for place in 0..usize::MAX {
            let Some(stage) = stages.next() else {
                break;
            };
            if let Some(name) = name_of(&stage) {
                names.add(name, place)?;
            }
        }
        Ok(names)
    }

    /// Adds the name of the stage at a place, unless an earlier one has it.
    pub(crate) fn add(&mut self, name: &'a str, place: usize) -> Result<(), AllocError> {
        if self.places.get(name).is_some() {
            return Ok(());
        }
        self.places.insert(name, place)?;
        if is_name(name) {
            self.list.push(name)?;
        }
        Ok(())
    }

    /// The name that is most like a mistaken one, while not many were looked for.
    pub(crate) fn near(&mut self, name: &str) -> Result<Option<&'a str>, AllocError> {
        if self.looks >= MOST_LOOKS {
            return Ok(None);
        }
        self.looks += 1;
        nearest(self.alloc, name, self.list.as_slice())
    }

    /// That an earlier stage has the name.
    pub(crate) fn taken_fault(&self, site: Site<'a>) -> Option<StageFault<'a>> {
        let place = site.place()?;
        match self.places.get(site.name()?) {
            Some(first) if *first < place => Some(StageFault::NameTaken { place: *first }),
            _ => None,
        }
    }

    /// That no stage has the name of a feed, if that is so.
    pub(crate) fn feed_fault(
        &mut self,
        member: &'static str,
        name: &'a str,
    ) -> Result<Option<StageFault<'a>>, AllocError> {
        if self.places.get(name).is_some() {
            return Ok(None);
        }
        let near = self.near(name)?;
        Ok(Some(StageFault::NoSource { member, name, near }))
    }
}
