//! The stages of a recording, and where they stand.
use crate::site::Site;
use json_names::{items_of, name_of};
use json_trees::{Items, Tree};

/// The stages of a recording, one after the other.
#[derive(Drop)]
pub(crate) struct Stages<'t, 'a> {
    items: Items<'t, 'a>,
    /// The place of the next one.
    place: usize,
    /// The name of the one before.
    before: Option<&'a str>,
}

impl<'t, 'a> Stages<'t, 'a> {
    pub(crate) fn of(recording: &Tree<'t, 'a>) -> Stages<'t, 'a> {
        Stages {
            items: items_of(recording, "stages"),
            place: 0,
            before: None,
        }
    }

    /// The next one, and where it stands.
    pub(crate) fn next(&mut self) -> Option<(Site<'a>, Tree<'t, 'a>)> {
        let stage = self.items.next()?;
        let name = name_of(&stage);
        let site = Site::Stage {
            place: self.place,
            name,
            before: self.before,
        };
        self.place = self.place.saturating_add(1);
        self.before = name;
        Some((site, stage))
    }

    /// Where the stage of a place stands that is not before the last one, whose site is known.
    pub(crate) fn go_to(&mut self, place: usize, last: Site<'a>) -> Site<'a> {
        let mut site = last;
        for _ in self.place..=place {
            match self.next() {
                Some((next, _)) => site = next,
                None => break,
            }
        }
        site
    }
}
