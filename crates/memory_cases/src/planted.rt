//! Calls that are wrong, each of which has to be found.
use crate::refusals::Window;
use crate::told::Told;
use crate::turn::{Turn, shown};
use anyhow::Result;
use std::alloc::AllocError;

/// Numbers, to which a call adds two, and whether an addition was refused.
#[derive(Drop)]
struct Numbers<'a> {
    /// What the call does wrong.
    wrong: &'a str,
    items: Vec<u32>,
    was_refused: bool,
}

impl Numbers<'_> {
    /// Adds one number, and then another: out of memory, it leaves a trace.
    fn add_each(&mut self) -> Result<(), AllocError> {
        self.items.push(1)?;
        self.items.push(2)?;
        Ok(())
    }

    /// Adds two numbers or none.
    fn add_both(&mut self) -> Result<(), AllocError> {
        self.items.reserve(2)?;
        self.add_each()
    }

    /// The same, and nothing for ever once it was refused.
    fn add_unless_refused(&mut self) -> Result<(), AllocError> {
        if self.was_refused {
            return Err(AllocError);
        }
        let answer = self.add_both();
        self.was_refused = answer.is_err();
        answer
    }

    /// The call that does this wrong.
    fn add(&mut self) -> Result<(), AllocError> {
        match self.wrong {
            "trace" => self.add_each(),
            "for-ever" => self.add_unless_refused(),
            "unfounded" => Err(AllocError),
            "passed-over" => {
                let _ = self.add_both();
                Ok(())
            }
            _ => self.add_both(),
        }
    }

    /// The call.
    fn push_answer(&mut self, window: &mut Window, text: &mut Told) -> bool {
        window.begin();
        let answer = self.add();
        window.end();
        let (word, out_of_memory) = match (answer.is_ok(), self.wrong) {
            (true, _) => ("added", false),
            (false, "other-refusal") => ("refused 30 Full", false),
            (false, "other-text") => ("other", true),
            (false, _) => ("", true),
        };
        text.push(word);
        out_of_memory
    }

    fn show(&mut self, window: &mut Window, turn: &mut Turn) {
        shown!(
            turn,
            window,
            |text| text.push_numbers(self.items.as_slice()),
            |window, text| self.push_answer(window, text)
        )
    }
}

/// A call that does this wrong, or nothing.
pub(crate) fn show(window: &mut Window, wrong: &str, turn: &mut Turn) -> Result<()> {
    let mut numbers = Numbers {
        wrong,
        items: Vec::with_capacity(window.alloc, 1)?,
        was_refused: false,
    };
    numbers.show(window, turn);
    Ok(())
}
