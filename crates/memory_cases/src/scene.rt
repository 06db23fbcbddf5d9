//! What a case is made of.

/// A call of a block of the table, with what the block gives.
#[derive(Clone, Copy)]
pub(crate) struct Scene<'a> {
    /// The name of the case: the words of the call.
    pub(crate) name: &'a str,
    /// What it is a call of, and which one.
    pub(crate) group: &'a str,
    pub(crate) call: &'a str,
    /// The number behind it; 0 where there is none.
    pub(crate) number: u32,
    /// The lines that begin with `recording`, `trace`, `stages` or `step`, and the calls.
    pub(crate) block: &'a str,
    /// How many of the steps belong to the case.
    pub(crate) steps: usize,
}

/// How many steps a block has.
pub(crate) fn step_count(block: &str) -> usize {
    let mut count: usize = 0;
    for line in block.lines() {
        if line.starts_with("step ") {
            count = count.saturating_add(1);
        }
    }
    count
}

impl<'a> Scene<'a> {
    /// What the block has behind a word, or no text.
    fn behind(self, word: &str) -> &'a str {
        for line in self.block.lines() {
            if let Some(rest) = line.strip_prefix(word) {
                return rest;
            }
        }
        ""
    }

    /// The recording of the block, or no text.
    pub(crate) fn recording(self) -> &'a str {
        self.behind("recording ")
    }

    /// The trace of the block, or no text.
    pub(crate) fn trace(self) -> &'a str {
        self.behind("trace ")
    }

    /// The stages of the block, or the one that is asked for; or no text.
    pub(crate) fn stages(self) -> &'a str {
        self.behind("stages ")
    }

    /// The step of the block with this index, or no text.
    pub(crate) fn step_at(self, index: usize) -> &'a str {
        let mut count: usize = 0;
        for line in self.block.lines() {
            if let Some(step) = line.strip_prefix("step ") {
                if count == index {
                    return step;
                }
                count = count.saturating_add(1);
            }
        }
        ""
    }

    /// The last step of the case, or no text.
    pub(crate) fn step(self) -> &'a str {
        self.step_at(self.steps.saturating_sub(1))
    }
}
