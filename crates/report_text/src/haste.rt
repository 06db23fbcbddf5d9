//! How much faster the actions of trials are, appended to a text.
ghost use Rattle.std.specs.Prelude.{◌≡◌, ◌++◌, OnOk, string_bytes};
ghost use Rattle.time_sweep.specs.declared.haste.Part.TheVariants.{Both};
ghost use Rattle.report_text.specs.Texts.{haste_text, left_text, share_text};

use crate::digits::push_number;
use std::alloc::AllocError;
use time_sweep::{Haste, Part};

/// Appends how much faster the actions of trials are, where that is told: with queued=P% runs=P%, or with queued=P%
pub(crate) fn push_haste(line: &mut String, haste: Option<Haste>) -> Result<(), AllocError>
    ensures { OnOk result (string_bytes line.new ≡ string_bytes line.old ++ haste_text haste) }
{
    match haste {
        Some(haste) => push_left(line, haste.part, haste.percent),
        None => Ok(()),
    }
}

// The share of the queue that is left, and of the action itself if less of that is left too.
fn push_left(line: &mut String, part: Part, percent: u8) -> Result<(), AllocError>
    ensures { OnOk result (string_bytes line.new ≡ string_bytes line.old ++ left_text part percent) }
{
    match part {
        Part::Both => push_both(line, percent),
        Part::Queue => push_share(line, " with queued=", percent),
    }
}

// The same share of the queue and of the action.
fn push_both(line: &mut String, percent: u8) -> Result<(), AllocError>
    ensures { OnOk result (string_bytes line.new ≡ string_bytes line.old ++ left_text Both percent) }
{
    push_share(line, " with queued=", percent)?;
    push_share(line, " runs=", percent)
}

// KEY=P%
fn push_share(line: &mut String, key: &str, percent: u8) -> Result<(), AllocError>
    ensures { OnOk result (string_bytes line.new ≡ string_bytes line.old ++ share_text key.now percent) }
{
    line.push_str(key)?;
    push_number(line, u64::from(percent))?;
    line.push_str("%")
}
