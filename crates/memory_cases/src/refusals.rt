//! Requests for memory that are refused in turn.
//!
//! A library that stands before the heap refuses them. It is told which ones by requests for more bytes than a process can
//! have: where it isn't there, the heap refuses these as it does each such request, and no other one is refused.
use std::alloc::Global;

/// The least request that is a word to the library.
const WORD: usize = 1 << 61;

/// Added to a word: those after it are refused too.
const ALL_AFTER: usize = 1 << 40;

/// Added to a word: no request is refused any more.
const END: usize = 2 << 40;

/// Added to a word: a question whether the library is there.
const QUESTION: usize = 3 << 40;

/// Which of a call's requests are refused.
#[derive(Clone, Copy)]
pub(crate) enum Refused {
    None,
    /// This one alone, counted from 1.
    Nth(u32),
    /// This one and all after it.
    From(u32),
}

/// The time of a call in which requests are refused.
#[derive(Clone, Copy)]
pub(crate) struct Window {
    pub(crate) alloc: Global,
    refused: Refused,
    /// Whether one was refused.
    pub(crate) met: bool,
}

/// Whether a request of so many bytes is granted.
fn is_granted(alloc: Global, bytes: usize) -> bool {
    let room: Result<Vec<u8>, _> = Vec::with_capacity(alloc, bytes);
    room.is_ok()
}

/// Whether requests can be refused.
pub(crate) fn can_refuse(alloc: Global) -> bool {
    is_granted(alloc, WORD + QUESTION)
}

impl Window {
    /// The time of a call in which these are to be refused.
    pub(crate) fn new(alloc: Global, refused: Refused) -> Window {
        Window {
            alloc,
            refused,
            met: false,
        }
    }

    /// The time of a call in which none is refused.
    pub(crate) fn with_memory(&self) -> Window {
        Window::new(self.alloc, Refused::None)
    }

    /// From now on requests are counted, and refused.
    pub(crate) fn begin(&self) {
        let _ = match self.refused {
            Refused::None => false,
            Refused::Nth(nth) => is_granted(self.alloc, WORD + nth as usize),
            Refused::From(nth) => is_granted(self.alloc, WORD + ALL_AFTER + nth as usize),
        };
    }

    /// From now on no request is refused.
    pub(crate) fn end(&mut self) {
        self.met = match self.refused {
            Refused::None => false,
            Refused::Nth(_) | Refused::From(_) => !is_granted(self.alloc, WORD + END),
        };
    }
}
