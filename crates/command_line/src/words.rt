//! The arguments of commands, with their help.
use crate::argument::{Argument, Choice, Takes};
use crate::fleet::MOST_FILES;
use crate::names;
use crate::scripts::MOST_SCRIPTS;
use crate::trial::MOST_CHANGES;

/// The most workers that compute at once.
pub(crate) const MOST_WORKERS: usize = 16;

pub(crate) const QUIET: Argument = Argument {
    name: names::QUIET,
    help: "leave explanations and warnings out",
    takes: Takes::Nothing,
};

pub(crate) const QUIET_IMPORT: Argument = Argument {
    name: names::QUIET,
    help: "leave explanations out",
    takes: Takes::Nothing,
};

pub(crate) const STRICT: Argument = Argument {
    name: names::STRICT,
    help: "end with status 1 where there is a warning",
    takes: Takes::Nothing,
};

pub(crate) const STRICT_STEPS: Argument = Argument {
    name: names::STRICT,
    help: "end with status 1 where the recording has a warning, and with 5 at the first refused step",
    takes: Takes::Nothing,
};

pub(crate) const STRICT_SCRIPTS: Argument = Argument {
    name: names::STRICT,
    help: "end with status 1 where the recording has a warning, and with 5 where a step was refused",
    takes: Takes::Nothing,
};

pub(crate) const FORMAT: Argument = Argument {
    name: names::FORMAT,
    help: "text for people, or json for programs: a line for each answer, which is one object",
    takes: Takes::OneOf("FORMAT", Choice::Format),
};

pub(crate) const PICTURE: Argument = Argument {
    name: names::FORMAT,
    help: "an SVG file, or trace events as JSON, which Perfetto and chrome://tracing open",
    takes: Takes::OneOf("FORMAT", Choice::Picture),
};

pub(crate) const ROWS: Argument = Argument {
    name: names::ROWS,
    help: "which stages have a row: all, or those on the path of --stage alone",
    takes: Takes::OneOf("WHAT", Choice::Rows),
};

pub(crate) const UNIT: Argument = Argument {
    name: names::UNIT,
    help: "the unit of ticks",
    takes: Takes::OneOf("UNIT", Choice::Unit),
};

pub(crate) const CLOCKS: Argument = Argument {
    name: names::CLOCKS,
    help: "whether clocks that a trace contradicts are moved",
    takes: Takes::OneOf("HOW", Choice::Reading),
};

pub(crate) const CALLS: Argument = Argument {
    name: names::CALLS,
    help: "whether calls may have been tried again or given up",
    takes: Takes::OneOf("HOW", Choice::Reading),
};

pub(crate) const TOP: Argument = Argument {
    name: names::TOP,
    help: "print the first N stages alone",
    takes: Takes::Number("N", None),
};

pub(crate) const WANT: Argument = Argument {
    name: names::WANT,
    help: "print the stages alone by which the stage then completes with a value",
    takes: Takes::MaybeWord("ENDING", &["value"]),
};

pub(crate) const QUEUED: Argument = Argument {
    name: names::QUEUED,
    help: "make the queues alone shorter: each action runs as long as it does",
    takes: Takes::Nothing,
};

pub(crate) const BY_PERCENT: Argument = Argument {
    name: names::BY,
    help: "leave P percent of the times, rounded down, from 0% to 99%; where it is left out, none",
    takes: Takes::Text("P%"),
};

pub(crate) const WITHIN: Argument = Argument {
    name: names::WITHIN,
    help: "print the stages alone that may run no more than D ticks longer, from 0 to 2^40",
    takes: Takes::Ticks("D"),
};

pub(crate) const TOP_CHANGES: Argument = Argument {
    name: names::TOP,
    help: "print the first N changes alone",
    takes: Takes::Number("N", None),
};

pub(crate) const BY: Argument = Argument {
    name: names::BY,
    help: "the tick by which the stage is to have a value, from 0 to 2^40; where it is left out, any will do",
    takes: Takes::Ticks("T"),
};

pub(crate) const AS: Argument = Argument {
    name: names::AS,
    help: "the value that stands in place of an exception, a whole number or null; where it is left out, null",
    takes: Takes::Value("V"),
};

pub(crate) const STEPS: Argument = Argument {
    name: names::STEPS,
    help: "print the steps that the lines say, as a script, and tell their answers on standard error",
    takes: Takes::Nothing,
};

pub(crate) const WORKERS: Argument = Argument {
    name: names::WORKERS,
    help: "how many threads compute for each script, from 1 to 16",
    takes: Takes::Number("N", Some(MOST_WORKERS as u8)),
};

pub(crate) const TRACE_ID: Argument = Argument {
    name: names::TRACE,
    help: "which trace, where the file has several: its id, or a beginning of it that no other has",
    takes: Takes::Text("ID"),
};

pub(crate) const DRAWN_STAGE: Argument = Argument {
    name: names::PATH_OF,
    help: "draw the path of this stage over the rows",
    takes: Takes::TextIf("STAGE", names::ROWS, "path"),
};

pub(crate) const STAGE_OF_PAGE: Argument = Argument {
    name: names::STAGE_OF_PAGE,
    help: "the stage that the page is about; where it is left out, the one that completes last of those on which no other waits, if one does",
    takes: Takes::Text("STAGE"),
};

pub(crate) const FROM: Argument = Argument {
    name: names::FROM,
    help: "draw the ticks from T on alone, from 0 to 2^40, and the stages that completed then or later",
    takes: Takes::Ticks("T"),
};

pub(crate) const TO: Argument = Argument {
    name: names::TO,
    help: "draw the ticks up to T alone, from 0 to 2^40, and the stages that were created by then",
    takes: Takes::Ticks("T"),
};

pub(crate) const LEAST: Argument = Argument {
    name: names::LEAST,
    help: "leave out the stages that took less than T ticks from their trigger to their completion, from 0 to 2^40, but none of the path of --stage",
    takes: Takes::Ticks("T"),
};

pub(crate) const GROUP: Argument = Argument {
    name: names::GROUP,
    help: "the rows of a service stand together below its name, which is what stands before the first dot of theirs; of an SVG file 100 at most then",
    takes: Takes::MaybeWord("WHAT", &["service"]),
};

pub(crate) const SCRIPT_OF_PICTURE: Argument = Argument {
    name: names::SCRIPT_OF_PICTURE,
    help: "draw the version that this script makes last of the recording",
    takes: Takes::Text("SCRIPT"),
};

pub(crate) const PLAYED_VERSION: Argument = Argument {
    name: names::VERSION,
    help: "draw version N of those that the script makes, from 0 to 65535; 0 is the recording",
    takes: Takes::NumberWith("N", u16::MAX, names::SCRIPT_OF_PICTURE),
};

pub(crate) const ORIGIN: Argument = Argument {
    name: names::ORIGIN,
    help: "print the failure that arose in this stage alone",
    takes: Takes::Text("STAGE"),
};

pub(crate) const STAGE_OF_TRIAL: Argument = Argument {
    name: names::STAGE_OF_TRIAL,
    help: "the stage to report on; where it is left out, the one that completes last of those on which no other waits",
    takes: Takes::Text("STAGE"),
};

pub(crate) const SAVE: Argument = Argument {
    name: names::SAVE,
    help: "write the recording that the changes make, in place of the reports",
    takes: Takes::NothingBeside(&[names::STAGE_OF_TRIAL, names::DRAW]),
};

pub(crate) const DRAW: Argument = Argument {
    name: names::DRAW,
    help: "write a picture of what the changes make, in place of the reports: the changed stages are marked, and with --stage the path of that stage is drawn over the rows",
    takes: Takes::NothingBeside(&[names::SAVE]),
};

pub(crate) const RECORDING: Argument = Argument {
    name: names::FILE,
    help: "the recording",
    takes: Takes::One,
};

pub(crate) const RECORDING_OR_DASH: Argument = Argument {
    name: names::FILE,
    help: "the recording; - is standard input",
    takes: Takes::One,
};

pub(crate) const GOOD: Argument = Argument {
    name: names::GOOD,
    help: "the recording of a run that went well; - is standard input",
    takes: Takes::One,
};

pub(crate) const BAD: Argument = Argument {
    name: names::BAD,
    help: "the recording of one that was late, or failed; - is standard input, where GOOD is not",
    takes: Takes::One,
};

pub(crate) const RECORDING_OR_INPUT: Argument = Argument {
    name: names::FILE,
    help: "the recording; standard input where it is left out, or -",
    takes: Takes::MaybeOne,
};

pub(crate) const LIST: Argument = Argument {
    name: names::LIST,
    help: "print which traces the file has: id, root, start, length, spans and failures, by start",
    takes: Takes::NothingBeside(&[names::EACH, names::TRACE]),
};

pub(crate) const EACH: Argument = Argument {
    name: names::EACH,
    help: "write the recording of every trace of the file, each on one line",
    takes: Takes::NothingBeside(&[names::LIST, names::TRACE]),
};

pub(crate) const LIST_FORMAT: Argument = Argument {
    name: names::FORMAT,
    help: "of --list: text for people, or json for programs: a line for each trace, which is one object",
    takes: Takes::OneOf("FORMAT", Choice::Format),
};

pub(crate) const TRACE: Argument = Argument {
    name: names::FILE,
    help: "the trace, in OTLP/JSON, Jaeger JSON or Zipkin's; standard input where it is left out, or -",
    takes: Takes::MaybeOne,
};

pub(crate) const REPLY: Argument = Argument {
    name: names::REPLY,
    help: "the span whose end is the reply of its trace, by its name, with its service and a dot before it where that is to be told; where it is left out, the root of the trace",
    takes: Takes::Text("NAME"),
};

pub(crate) const GROUPED_BY: Argument = Argument {
    name: names::GROUPED_BY,
    help: "by what spans are counted together: their service and their name, or the service alone",
    takes: Takes::OneOf("WHAT", Choice::Grouping),
};

pub(crate) const SLOWEST: Argument = Argument {
    name: names::SLOWEST,
    help: "print also what each group did on the paths of the slowest P percent of the replies, from 1 to 100, or 1 where none is told, for each of them, and for each of all",
    takes: Takes::Percent("P"),
};

pub(crate) const TRY: Argument = Argument {
    name: names::TRY,
    help: "print also what the replies come to where a change is made to each span of a group: a word in quotes, the group's name and assignments as of try, as 'shop.GET /order runs=50%'; it may be told several times",
    takes: Takes::Texts("CHANGE"),
};

pub(crate) const WORKERS_OF_FLEET: Argument = Argument {
    name: names::WORKERS,
    help: "how many threads count traces at once, from 1 to 16",
    takes: Takes::Number("N", Some(MOST_WORKERS as u8)),
};

pub(crate) const PART: Argument = Argument {
    name: names::PART,
    help: "write the summary of what was counted, which --join reads, in place of the answer",
    takes: Takes::NothingBeside(&[names::SLOWEST]),
};

pub(crate) const JOIN: Argument = Argument {
    name: names::JOIN,
    help: "the files hold summaries, which --part wrote, each on one line: join them",
    takes: Takes::NothingBeside(&[
        names::REPLY,
        names::GROUPED_BY,
        names::TRY,
        names::WORKERS,
        names::UNIT,
        names::CLOCKS,
        names::CALLS,
    ]),
};

pub(crate) const STRICT_FLEET: Argument = Argument {
    name: names::STRICT,
    help: "end with status 1 at the first trace that is not counted",
    takes: Takes::Nothing,
};

pub(crate) const TRACES: Argument = Argument {
    name: names::FILE,
    help: "traces, in OTLP/JSON, Jaeger JSON or Zipkin's, or recordings, each on one line, at most 4096 files; - is standard input",
    takes: Takes::UpTo(MOST_FILES),
};

pub(crate) const FORM: Argument = Argument {
    name: names::FORM,
    help: "first: ten stages, each of which says what it is; or a form of code that docs/MODELLING.md writes down",
    takes: Takes::Chosen(Choice::Form),
};

pub(crate) const STAGE: Argument = Argument {
    name: names::STAGE,
    help: "the stage; where it is left out, the one that completes last of those on which no other waits",
    takes: Takes::MaybeOne,
};

pub(crate) const STAGE_OF_BOTH: Argument = Argument {
    name: names::STAGE,
    help: "the stage, of this name in both; where it is left out, the one of BAD that completes last of those on which no other waits",
    takes: Takes::MaybeOne,
};

pub(crate) const SCRIPT: Argument = Argument {
    name: names::SCRIPT,
    help: "the steps, one to a line",
    takes: Takes::One,
};

pub(crate) const SCRIPT_OF_PAGE: Argument = Argument {
    name: names::SCRIPT,
    help: "steps, one to a line: the page shows each version that they make beside the one that it was made of",
    takes: Takes::MaybeOne,
};

pub(crate) const SCRIPTS: Argument = Argument {
    name: names::SCRIPT,
    help: "the scripts, at most 64, each answered by a client of its own",
    takes: Takes::UpTo(MOST_SCRIPTS),
};

pub(crate) const CHANGES: Argument = Argument {
    name: names::CHANGE,
    help: "the changes, at most 64: each is one word, in quotes, a stage's name and assignments, as 'stock runs=50% gives=1'",
    takes: Takes::UpTo(MOST_CHANGES),
};
