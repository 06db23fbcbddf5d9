//! What the program is told to do.
use crate::fleet::Fleet;
use crate::input::Input;
use crate::manner::Manner;
use crate::picture::Picture;
use crate::printed::Printed;
use crate::scripts::Scripts;
use crate::sweep::Sweep;
use crate::traces::{Mapping, Wanted};
use crate::trial::Trial;
use recording_forms::Form;

/// What the program is told to do. A recording by a path alone stands in a file, as standard input has the script or is not
/// read. Where no `stage` is named, the one is meant that completes last of those on which no other waits.
#[derive(Debug, Drop)]
pub enum Command<'a> {
    /// To print each stage of a recording.
    Report {
        recording: Input<'a>,
    },
    /// To print how a stage ended, and why.
    Explain {
        recording: Input<'a>,
        stage: Option<&'a str>,
    },
    /// To print which stages would make a stage complete sooner.
    Sweep {
        recording: Input<'a>,
        stage: Option<&'a str>,
        sweep: Sweep,
    },
    /// To print how many ticks longer each stage may run before a stage completes otherwise, and where `within` names ticks those
    /// alone that may run no more than these longer.
    Slack {
        recording: Input<'a>,
        stage: Option<&'a str>,
        within: Option<u64>,
    },
    /// To print which single changes would have made a stage complete with a value, by the tick `by` where that is given, and no
    /// more of them than `most`. The word `value` says which value stands in place of an exception, and is yet to be read.
    Rescue {
        recording: Input<'a>,
        stage: Option<&'a str>,
        by: Option<u64>,
        value: Option<&'a str>,
        most: Option<usize>,
    },
    /// To print what came of each end: of each timeout, and of each call that completes or cancels a stage.
    Ends {
        recording: Input<'a>,
    },
    /// To print the failures that arose in a stage, and whom each came to; or the one of a stage.
    Failures {
        recording: Input<'a>,
        origin: Option<&'a str>,
    },
    /// To print what would come of changes of a recording, or to write the recording that they make.
    Try {
        recording: Input<'a>,
        trial: Trial<'a>,
    },
    /// To print in which stages two recordings differ, a good one and a bad one, and the path of a stage in both. Where none is
    /// named, that of the bad one is meant.
    Compare {
        good: Input<'a>,
        bad: Input<'a>,
        stage: Option<&'a str>,
    },
    /// To write a picture of a recording.
    Draw {
        recording: Input<'a>,
        picture: Picture<'a>,
    },
    /// To write a page that tells of a recording, of the versions that a script makes of it if one is named, and of a stage if one
    /// is named or completes last.
    Page {
        recording: Input<'a>,
        script: Option<&'a str>,
        stage: Option<&'a str>,
    },
    /// To print every fault of a recording.
    Check {
        recording: Input<'a>,
    },
    /// To answer the steps that come on standard input.
    Serve {
        recording: &'a str,
    },
    /// To answer the lines that a person says on standard input.
    Console {
        recording: &'a str,
        printed: Printed,
    },
    /// To write the version that a script made last.
    Export {
        recording: &'a str,
        script: &'a str,
    },
    /// To answer several scripts at once.
    Many {
        recording: &'a str,
        scripts: Scripts<'a>,
    },
    /// To write the recordings that traces make, or to list them.
    Import {
        trace: Input<'a>,
        wanted: Wanted<'a>,
        mapping: Mapping,
    },
    /// To print what the replies of many traces came to, or to write the summary of it.
    Fleet {
        fleet: Fleet<'a>,
    },
    /// To print a recording to begin with.
    New {
        form: Form,
    },
}

/// What the words of the command line ask for.
#[derive(Debug, Drop)]
pub struct CommandLine<'a> {
    pub command: Command<'a>,
    pub manner: Manner,
}
