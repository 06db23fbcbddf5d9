//! The deadline.
ghost use Rattle.std.specs.Prelude.{◌≡◌, ◌++◌, IfOk, OnOk, string_bytes};
ghost use Rattle.serde_json.specs.Data.{object as object_of};
ghost use Rattle.timeline_trace.specs.Held.{held};
ghost use Rattle.timeline_trace.specs.Deadlines.{deadline_event, deadline_line};

use crate::event::{Object, push_line};
use crate::labels::{Labels, Track};
use std::alloc::{AllocError, Global};

/// A mark of all processes at the deadline, where one is told.
#[tactic(auto, using(crate::proofs::Exact::deadline_exact))]
pub(crate) fn push_deadline(
    alloc: Global,
    text: &mut String,
    labels: Labels,
) -> Result<(), AllocError>
    ensures { OnOk result (string_bytes text.new ≡ string_bytes text.old ++ deadline_line labels.tick labels.deadline) }
{
    match labels.deadline {
        Some(deadline) => {
            let event = deadline_event(alloc, labels.tick.micros(deadline))?;
            push_line(alloc, text, event)
        }
        None => Ok(()),
    }
}

fn deadline_event(alloc: Global, at: u64) -> Result<Object, AllocError>
    ensures { IfOk result (λ event. object_of (held event) ≡ deadline_event at) }
{
    let track = Track { process: 1, row: 0 };
    let mut event = Object::event(alloc, "i", track, "deadline")?;
    event.text("cat", "deadline")?;
    event.count("ts", at)?;
    event.text("s", "g")?;
    Ok(event)
}
