//! What is asked of a version, and reports of it.
use crate::drafts::made_of;
use crate::refusals::Window;
use crate::reports::push_report;
use crate::scene::Scene;
use crate::texts::{push_places, push_version};
use crate::told::Told;
use crate::turn::{Turn, shown};
use anyhow::Result;
use level_pool::Runner;
use std::alloc::{AllocError, Global};
use version_store::{StateRepresentation, Version};

/// Version 0 of a recording, the version that a step makes of it, and what is asked of that one.
#[derive(Drop)]
pub(crate) struct Asked<'a, R: StateRepresentation, W> {
    pub(crate) runner: &'a W,
    pub(crate) scene: Scene<'a>,
    pub(crate) first: &'a Version<R>,
    pub(crate) last: &'a Version<R>,
}

/// Tells places that were touched, unless memory ran out.
fn push_sorted(text: &mut Told, answer: &Result<Vec<u32>, AllocError>) -> bool {
    match answer {
        Ok(places) => text.push_numbers(places.as_slice()),
        Err(_) => return true,
    }
    false
}

impl<R: StateRepresentation, W: Runner> Asked<'_, R, W> {
    /// A chain of blame, or a path.
    fn push_places(&self, window: &mut Window, text: &mut Told) -> bool {
        let (alloc, place) = (window.alloc, self.scene.number);
        window.begin();
        let places = match self.scene.call {
            "blame" => self.last.blame(alloc, place),
            _ => self.last.path(alloc, place),
        };
        window.end();
        push_places(text, &places)
    }

    /// What the edits touched.
    fn push_touched(&self, window: &mut Window, text: &mut Told) -> bool {
        window.begin();
        let touched = self.last.touched_by_place(window.alloc);
        window.end();
        push_sorted(text, &touched)
    }

    /// The call.
    fn push_answer(&self, window: &mut Window, text: &mut Told) -> bool {
        match (self.scene.group, self.scene.call) {
            ("version", "touched") => self.push_touched(window, text),
            ("version", _) => self.push_places(window, text),
            _ => push_report(window, text, self),
        }
    }

    fn show(&self, window: &mut Window, turn: &mut Turn) {
        shown!(
            turn,
            window,
            |text| push_version(window.alloc, text, self.last),
            |window, text| self.push_answer(window, text)
        )
    }
}

/// What is asked of the version that the step makes of another one.
pub(crate) fn show<R: StateRepresentation, W: Runner>(
    window: &mut Window,
    scene: Scene<'_>,
    turn: &mut Turn,
    runner: &W,
    first: &Version<R>,
) -> Result<()> {
    let last = made_of(window.alloc, runner, first, scene.step(), 1)?;
    let asked = Asked {
        runner,
        scene,
        first,
        last: &last,
    };
    asked.show(window, turn);
    Ok(())
}
