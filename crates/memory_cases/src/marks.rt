//! Marks: another place is marked, or each marked one again.
use crate::refusals::Window;
use crate::scene::Scene;
use crate::told::Told;
use crate::turn::{Turn, shown};
use anyhow::Result;
use rank_order::Marks;
use std::alloc::{AllocError, Global};

/// Marks of the first places, and the call on them.
#[derive(Drop)]
struct Marked<'a> {
    call: &'a str,
    marks: Marks,
    count: u32,
}

/// The rank of a place: places stand above each other, and beside each other.
fn rank_of(place: u32) -> u32 {
    place % 3
}

/// Marks the places up to a count.
fn mark_all(marks: &mut Marks, count: u32) -> Result<(), AllocError> {
    for place in 0..count {
        marks.insert(rank_of(place), place)?;
    }
    Ok(())
}

/// Marks one place as often as there are places.
fn mark_often(marks: &mut Marks, count: u32) -> Result<(), AllocError> {
    for _turn in 0..count {
        marks.insert(rank_of(0), 0)?;
    }
    Ok(())
}

impl Marked<'_> {
    /// Which of the places up to the count, and the one after them, are marked.
    fn push_value(&self, text: &mut Told) {
        for place in 0..=self.count {
            if self.marks.has(place) {
                text.push_number(place);
            }
        }
        text.push("\n");
    }

    /// The call. What marks a marked place again needs no memory, so it is told where it was refused.
    fn push_answer(&mut self, window: &mut Window, text: &mut Told) -> bool {
        window.begin();
        let answer = match self.call {
            "again" => mark_all(&mut self.marks, self.count),
            "often" => mark_often(&mut self.marks, self.count),
            _ => self.marks.insert(rank_of(self.count), self.count),
        };
        window.end();
        match answer {
            Ok(()) => false,
            Err(_) if self.call == "insert" => true,
            Err(_) => {
                text.push("refused memory");
                false
            }
        }
    }

    fn show(&mut self, window: &mut Window, turn: &mut Turn) {
        shown!(
            turn,
            window,
            |text| self.push_value(text),
            |window, text| self.push_answer(window, text)
        )
    }
}

/// A change of marks.
pub(crate) fn show(window: &mut Window, scene: Scene<'_>, turn: &mut Turn) -> Result<()> {
    let mut marks = Marks::new(window.alloc);
    mark_all(&mut marks, scene.number)?;
    let mut marked = Marked {
        call: scene.call,
        marks,
        count: scene.number,
    };
    marked.show(window, turn);
    Ok(())
}
