//! What it means that summaries are written, read and joined.
ghost use Rattle.std.specs.Prelude.{IfOk};
ghost use Rattle.fleet_summary.specs.Counters.{IsSound};
ghost use Rattle.fleet_text.specs.Back.{IsReadAs};
ghost use Rattle.fleet_text.specs.Laws.{JoinsInAnyOrder, JoinsOfAnySplit, SaysOneSummary, SaysWhatIsWritten};

use crate::fault::WriteFault;
use crate::part::PartSummary;
use crate::read_fault::ReadFault;
use crate::reading::read_summary;
use crate::writing::write_summary;
use std::alloc::Global;

/// The JSON that is written of a summary says it, and no other.
pub fn each_json_is_of_one_summary()
    ensures written { SaysWhatIsWritten }
    ensures one { SaysOneSummary }
{}

/// However traces are split in parts, and in whatever order the parts are joined, the join is the summary of all.
pub fn each_join_is_the_whole()
    ensures order { JoinsInAnyOrder }
    ensures split { JoinsOfAnySplit }
{}

/// A summary that is written reads back as itself.
pub fn written_and_read(
    alloc: Global,
    part: &PartSummary,
) -> Result<Result<PartSummary, ReadFault>, WriteFault>
    ensures { IsSound part.now.summary → IfOk result (λ back. IsReadAs back part.now) }
{
    let text = write_summary(alloc, part)?;
    Ok(read_summary(alloc, &text))
}
