//! One call with requests refused, and what has to hold of it.
use crate::told::Told;
use std::alloc::Global;

/// What a call showed.
#[derive(Drop)]
pub(crate) struct Shown {
    pub(crate) out_of_memory: bool,
    /// Its answer; what it had written, if it was out of memory.
    pub(crate) answer: Told,
    /// What it was made on, after it.
    pub(crate) after: Told,
}

/// What one turn of a call showed.
#[derive(Drop)]
pub(crate) struct Turn {
    /// Whether a request was refused in the call.
    pub(crate) met: bool,
    /// What the call was made on, before it.
    pub(crate) before: Told,
    /// The call.
    pub(crate) first: Shown,
    /// The same call once more with memory, if it was out of memory.
    pub(crate) again: Shown,
    /// What further calls answer at the end.
    pub(crate) end: Told,
}

/// The turn of a call: what it is made on is told before it and after it, and the call is made again with memory if it was
/// out of memory. The call answers whether it was.
macro_rules! shown {
    ($turn:expr, $window:expr, |$text:ident| $told:expr, |$call:ident, $answer:ident| $made:expr) => {{
        let $text = &mut $turn.before;
        $told;
        let ($call, $answer) = (&mut *$window, &mut $turn.first.answer);
        $turn.first.out_of_memory = $made;
        $turn.met = $window.met;
        let $text = &mut $turn.first.after;
        $told;
        if $turn.first.out_of_memory {
            let ($call, $answer) = (&mut $window.with_memory(), &mut $turn.again.answer);
            $turn.again.out_of_memory = $made;
            let $text = &mut $turn.again.after;
            $told;
        }
    }};
}

pub(crate) use shown;

impl Shown {
    /// Nothing yet.
    pub(crate) fn new(alloc: Global) -> Shown {
        Shown {
            out_of_memory: false,
            answer: Told::new(alloc),
            after: Told::new(alloc),
        }
    }

    /// Whether a piece of a text was left out.
    fn is_lost(&self) -> bool {
        self.answer.is_lost() || self.after.is_lost()
    }

    /// Whether it answered and left the same.
    pub(crate) fn is_as(&self, ordinary: &Shown) -> bool {
        self.answer.as_str() == ordinary.answer.as_str()
            && self.after.as_str() == ordinary.after.as_str()
    }
}

impl Turn {
    /// A turn that showed nothing yet.
    pub(crate) fn new(alloc: Global) -> Turn {
        Turn {
            met: false,
            before: Told::new(alloc),
            first: Shown::new(alloc),
            again: Shown::new(alloc),
            end: Told::new(alloc),
        }
    }

    /// Whether a piece of a text was left out.
    fn is_lost(&self) -> bool {
        self.before.is_lost() || self.first.is_lost() || self.again.is_lost() || self.end.is_lost()
    }

    /// What is wrong with the turn, by what the call showed with memory.
    pub(crate) fn fault(&self, ordinary: &Turn) -> Option<&'static str> {
        if self.is_lost() || ordinary.is_lost() {
            return Some("a text is lost");
        }
        if self.before.as_str() != ordinary.before.as_str() {
            return Some("the value isn't the same at the start");
        }
        if self.end.as_str() != ordinary.end.as_str() {
            return Some("the value answers otherwise at the end");
        }
        match self.first.out_of_memory {
            true => self.fault_of_refusal(&ordinary.first),
            false => match self.first.is_as(&ordinary.first) {
                true => None,
                false => Some("another answer, or another value is left"),
            },
        }
    }

    /// What is wrong where the call was out of memory.
    fn fault_of_refusal(&self, ordinary: &Shown) -> Option<&'static str> {
        if !self.met {
            return Some("out of memory, and no request was refused");
        }
        let written = self.first.answer.as_str();
        if !ordinary.answer.as_str().starts_with(written) {
            return Some("what was written is no beginning of the text");
        }
        if self.first.after.as_str() != self.before.as_str() {
            return Some("the refused call changed the value");
        }
        match !self.again.out_of_memory && self.again.is_as(ordinary) {
            true => None,
            false => Some("the same call then answers or leaves something else"),
        }
    }
}
