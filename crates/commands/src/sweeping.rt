//! What is asked of a sweep.
use command_line::Sweep;
use report_rows::{Ending, SweepAsked};
use time_sweep::{Haste, Part};

/// What is asked of a sweep.
pub fn swept_as(sweep: Sweep) -> SweepAsked {
    SweepAsked {
        haste: haste_of(sweep),
        ending: ending_of(sweep),
        most: sweep.most,
    }
}

/// Which trials are made.
fn haste_of(sweep: Sweep) -> Haste {
    let part = match sweep.part {
        command_line::Part::Both => Part::Both,
        command_line::Part::Queue => Part::Queue,
    };
    Haste {
        part,
        percent: sweep.percent,
    }
}

/// Which of them are told.
fn ending_of(sweep: Sweep) -> Ending {
    match sweep.ending {
        command_line::Ending::Any => Ending::Any,
        command_line::Ending::Value => Ending::Value,
    }
}
