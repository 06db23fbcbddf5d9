//! In which stages two runs differ.
ghost use Rattle.std.specs.Prelude.{◌≡◌, IfOk};
ghost use Rattle.report_rows.specs.Said.{differences_said};

use crate::head::Head;
use crate::row::name_in;
use crate::said::Said;
use crate::source::Source;
use crate::standing::KeptStanding;
use propagate::StateRepresentation;
use run_comparison::differences_of;
use std::alloc::{AllocError, Global};
use version_store::StageView;

/// In which stages a good run and a bad one differ, where they are compared for a stage of each: those of both on either path of
/// it, and those whose own share of the time or whose outcome differs, of which those come first whose shares differ by most
/// ticks in all; then those of the bad run alone; then those of the good one alone.
pub fn say_differences<'a, R: StateRepresentation>(
    alloc: Global,
    good: &StageView<'a, R>,
    bad: &StageView<'a, R>,
) -> Result<Said<'a, R>, AllocError>
    ensures { IfOk result (λ said. said ≡ differences_said good.now.version.now.graph good.now.place bad.now.version.now.graph bad.now.place) }
{
    let differences = differences_of(alloc, good, bad)?;
    Ok(Said {
        head: Head::Differences {
            name: name_in(bad.version, bad.place),
            good: KeptStanding::of(good),
            bad: KeptStanding::of(bad),
        },
        source: Source::of_differences(good.version, bad.version, differences),
    })
}
