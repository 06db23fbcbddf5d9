//! Ends that are borrowed from a version.
ghost use Rattle.std.specs.Prelude.{◌≡◌, option_copied, option_map};
ghost use Rattle.reply_rescue.specs.Ends.{twice};
ghost use Rattle.report_rows.specs.Ends.{delay_in, end_text, set_at};

use crate::end::{delay_in, end_text};
use reply_rescue::twice;
use stage_graph::End;
use std::marker::Model;

/// An end of a stage, borrowed from a version. Contracts see the end; none where the stage has none of its index.
#[derive(Drop)]
pub struct LentEnd<'a> {
    end: Option<&'a End>,
}

impl<'a> Model for LentEnd<'a> {
    ghost use Rattle.std.specs.Prelude.{Option, option_copied};
    ghost use Rattle.stage_graph.specs.declared.end.End.{End};

    ghost Value = { Option End };

    ghost view = { λ lent. option_copied lent.end };
}

impl<'a> LentEnd<'a> {
    /// This end, borrowed.
    #[inline(always)]
    pub(crate) fn new(end: Option<&'a End>) -> LentEnd<'a>
        ensures { result ≡ option_copied end.entry }
    {
        LentEnd { end }
    }

    /// Its kind, by its name in recordings.
    pub fn kind(&self) -> &'static str
        ensures { result.now ≡ end_text self.now }
    {
        end_text(self.end)
    }

    /// How long after it was set a timeout acts; none of other ends.
    pub fn delay(&self) -> Option<u64>
        ensures { result ≡ delay_in self.now }
    {
        delay_in(self.end)
    }

    /// Twice the delay of a timeout, but no more than a recording may say.
    pub fn longer(&self) -> Option<u64>
        ensures { result ≡ option_map twice (delay_in self.now) }
    {
        match self.delay() {
            Some(delay) => Some(twice(delay)),
            None => None,
        }
    }

    /// The tick at which it is set.
    pub fn set_at(&self) -> u64
        ensures { result ≡ set_at self.now }
    {
        match self.end {
            Some(end) => end.at,
            None => 0,
        }
    }
}
