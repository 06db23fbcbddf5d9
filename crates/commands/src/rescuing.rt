//! Which changes would have saved a reply.
use crate::report::run_report_stage;
use command_line::{Input, Manner};
use console::{Fault, value_in};
use recording_reports::StageReport;
use report_rows::RescueTerms;
use std::sync::Wait;
use std::thread::Threads;
use version_store::StateRepresentation;

/// What of rescues is asked for.
#[derive(Clone, Copy, Debug)]
pub struct RescueWords<'a> {
    /// The tick by which there is to be a value, where it is given.
    pub by: Option<u64>,
    /// The word for the value that stands in place of an exception, where it is given.
    pub value: Option<&'a str>,
    /// The most changes that are printed.
    pub most: Option<usize>,
}

/// Prints which single changes would have made a stage of a recording complete with a value, the one that completes last where
/// none is named; many trials are made on the processors that there are.
pub fn run_rescue<'a, K: StateRepresentation, H: Threads + Wait + Copy + Drop + Send + Sync>(
    rt: &'a HostRuntime,
    threads: H,
    manner: Manner,
    input: Input<'a>,
    stage: Option<&str>,
    words: RescueWords<'_>,
) -> Result<(), Fault> {
    let value = value_in(rt.alloc(), "--as", words.value)?;
    let asked = StageReport::Rescue(RescueTerms {
        by: words.by,
        value,
        most: words.most,
    });
    run_report_stage::<K, _>(rt, threads, manner, input, stage, asked)
}
