//! Texts that are told piece by piece.
use session_core::Reply;
use stage_ops::State;
use std::alloc::Global;
use std::fmt::Write;

/// A text. If memory runs out for a piece, the piece is left out, and that is remembered.
#[derive(Drop)]
pub(crate) struct Told {
    text: String,
    is_lost: bool,
}

impl Told {
    /// No text.
    pub(crate) fn new(alloc: Global) -> Told {
        Told {
            text: String::new(alloc),
            is_lost: false,
        }
    }

    /// The text.
    pub(crate) fn as_str(&self) -> &str {
        self.text.as_str()
    }

    /// No text from now on.
    pub(crate) fn clear(&mut self) {
        self.text.clear();
    }

    /// The same text as another one from now on.
    pub(crate) fn be(&mut self, other: &Told) {
        self.text.clear();
        self.push(other.as_str());
    }

    /// Whether a piece was left out.
    pub(crate) fn is_lost(&self) -> bool {
        self.is_lost
    }

    /// Remembers whether a piece was left out.
    pub(crate) fn keep(&mut self, is_told: bool) {
        self.is_lost = self.is_lost || !is_told;
    }

    /// A piece is left out. No call was made in its place, so none was out of memory.
    pub(crate) fn lose(&mut self) -> bool {
        self.is_lost = true;
        false
    }

    /// Adds a piece.
    pub(crate) fn push(&mut self, piece: &str) {
        let is_told = self.text.push_str(piece).is_ok();
        self.keep(is_told);
    }

    /// Adds what bytes say, which are UTF-8.
    pub(crate) fn push_bytes(&mut self, bytes: &[u8]) {
        match std::str::from_utf8(bytes) {
            Ok(piece) => self.push(piece),
            Err(_) => self.keep(false),
        }
    }

    /// Adds a number.
    pub(crate) fn push_number(&mut self, number: u32) {
        let is_told = write!(self.text, "{number} ").is_ok();
        self.keep(is_told);
    }

    /// Adds a count.
    pub(crate) fn push_count(&mut self, count: u64) {
        let is_told = write!(self.text, "{count} ").is_ok();
        self.keep(is_told);
    }

    /// Adds the state and the rank of a stage.
    pub(crate) fn push_state(&mut self, place: u32, rank: u32, state: &State) {
        let is_told = write!(self.text, "{place} {rank} {state:?}\n").is_ok();
        self.keep(is_told);
    }

    /// Adds a reply.
    pub(crate) fn push_reply(&mut self, reply: Reply) {
        let is_told = write!(self.text, "{reply:?}\n").is_ok();
        self.keep(is_told);
    }

    /// Adds numbers.
    pub(crate) fn push_numbers(&mut self, numbers: &[u32]) {
        for number in numbers {
            self.push_number(*number);
        }
        self.push("\n");
    }
}
