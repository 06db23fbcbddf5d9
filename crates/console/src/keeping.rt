//! A sink that keeps what it passes on.
use std::alloc::Global;
use text_io::{Sink, WriteFault};

/// Passes answers on, and keeps them if they are wanted.
#[derive(Drop)]
pub struct KeepingSink<S> {
    sink: S,
    answers: Vec<u8>,
    /// Whether they are kept, and memory for all of them was there.
    is_kept: bool,
}

impl<S: Sink> KeepingSink<S> {
    ghost use Rattle.std.specs.Prelude.{◌≡◌};
    ghost use Rattle.console.specs.Kept.{kept_failures};

    /// A sink to which nothing was written yet, over this one.
    pub fn new(alloc: Global, sink: S, is_wanted: bool) -> KeepingSink<S>
        ensures { kept_failures S.failures result ≡ S.failures sink }
    {
        KeepingSink {
            sink,
            answers: Vec::new(alloc),
            is_kept: is_wanted,
        }
    }

    /// What was written, if it is kept.
    pub fn into_answers(self) -> Option<Vec<u8>>
    where
        S: Drop,
    {
        let KeepingSink {
            answers,
            is_kept,
            ..
        } = self;
        if is_kept { Some(answers) } else { None }
    }

    /// Keeps what was written.
    fn keep(&mut self, bytes: &[u8])
        ensures { self.new.sink ≡ self.old.sink }
    {
        if self.is_kept {
            self.is_kept = self.answers.extend_from_slice(bytes).is_ok();
        }
    }
}

impl<S: Sink> Sink for KeepingSink<S> {
    ghost held = { λ keeping. S.held keeping.sink };

    ghost failures = { λ keeping. S.failures keeping.sink };

    fn accept(&mut self, bytes: &[u8]) -> usize {
        let taken = self.sink.accept(bytes);
        self.keep(&bytes[..taken]);
        taken
    }

    fn flush(&mut self) -> Result<(), WriteFault> {
        self.sink.flush()
    }
}
