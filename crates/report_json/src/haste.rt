//! How much faster the actions of trials are, in a line.
ghost use Rattle.std.specs.Prelude.{OnOk, codes};
ghost use Rattle.time_sweep.specs.declared.haste.Part.TheVariants.{Both, Queue};
ghost use Rattle.report_json.specs.Heads.{facts_json, haste_facts, left_members};
ghost use Rattle.report_json.specs.Json.{object};
ghost use Rattle.report_json.specs.Tokens.{Tells, TellsMember, TellsRows};

use crate::line::Line;
use std::alloc::AllocError;
use time_sweep::{Haste, Part};

/// Adds how much faster the actions of trials are, where that is told.
pub(crate) fn push_haste(line: &mut Line, haste: Option<Haste>) -> Result<(), AllocError>
    ensures { OnOk result (TellsRows (facts_json (haste_facts haste)) line.old line.new) }
{
    match haste {
        Some(haste) => push_hundredths(line, haste.part, haste.percent),
        None => Ok(()),
    }
}

// The member that says which hundredths are left.
fn push_hundredths(line: &mut Line, part: Part, percent: u8) -> Result<(), AllocError>
    ensures { OnOk result (TellsMember (codes "hundredths") (object (left_members part percent)) line.old line.new) }
{
    line.name("hundredths")?;
    push_left(line, part, percent)
}

// The hundredths that are left of the queue, and of the action itself if less of that is left too.
fn push_left(line: &mut Line, part: Part, percent: u8) -> Result<(), AllocError>
    ensures { OnOk result (Tells (object (left_members part percent)) line.old line.new) }
{
    match part {
        Part::Both => push_both(line, percent),
        Part::Queue => push_queue(line, percent),
    }
}

// The same hundredths of the queue and of the action.
fn push_both(line: &mut Line, percent: u8) -> Result<(), AllocError>
    ensures { OnOk result (Tells (object (left_members Both percent)) line.old line.new) }
{
    let percent = u64::from(percent);
    line.begin_object()?;
    line.count("queued", percent)?;
    line.count("runs", percent)?;
    line.end_object()
}

// Those of the queue.
fn push_queue(line: &mut Line, percent: u8) -> Result<(), AllocError>
    ensures { OnOk result (Tells (object (left_members Queue percent)) line.old line.new) }
{
    let percent = u64::from(percent);
    line.begin_object()?;
    line.count("queued", percent)?;
    line.end_object()
}
