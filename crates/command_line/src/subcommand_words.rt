//! The words that the program takes, with their help.
use crate::argument::{Argument, arg_of};
use crate::subcommand::{SUBCOMMANDS, Subcommand};
use crate::words::{
    AS, BAD, BY, BY_PERCENT, CALLS, CHANGES, CLOCKS, DRAW, DRAWN_STAGE, EACH, FORM, FORMAT, FROM,
    GOOD, GROUP, GROUPED_BY, JOIN, LEAST, LIST, LIST_FORMAT, ORIGIN, PART, PICTURE, PLAYED_VERSION,
    QUEUED, QUIET, QUIET_IMPORT, RECORDING, RECORDING_OR_DASH, RECORDING_OR_INPUT, REPLY, ROWS,
    SAVE, SCRIPT, SCRIPT_OF_PAGE, SCRIPT_OF_PICTURE, SCRIPTS, SLOWEST, STAGE, STAGE_OF_BOTH,
    STAGE_OF_PAGE, STAGE_OF_TRIAL, STEPS, STRICT, STRICT_FLEET, STRICT_SCRIPTS, STRICT_STEPS, TO,
    TOP, TOP_CHANGES, TRACE, TRACE_ID, TRACES, TRY, UNIT, WANT, WITHIN, WORKERS, WORKERS_OF_FLEET,
};
use clap::Command;
use std::alloc::{AllocError, Global};

/// The version of the program.
pub const VERSION: &str = "1.0.0";

/// The words that the program takes.
pub(crate) fn command<'a>(alloc: Global) -> Result<Command<'a>, AllocError> {
    let mut command = Command::new(alloc, "whatif")
        .about("A what-if debugger for recorded runs of asynchronous Java services")
        .version(VERSION)
        .after_help(
            "Examples:\n  whatif report examples/first-run.json\n  whatif explain examples/late-reply.json reply\n\nRecordings, steps, reports and refusals: docs/FORMATS.md. How to write a run down: docs/MODELLING.md. Recordings from traces: docs/TRACES.md.",
        )
        .subcommand_required(true);
    for subcommand in &SUBCOMMANDS {
        command = command.subcommand(described(alloc, *subcommand)?)?;
    }
    Ok(command)
}

/// The words of a subcommand.
pub(crate) fn described<'a>(
    alloc: Global,
    subcommand: Subcommand,
) -> Result<Command<'a>, AllocError> {
    match subcommand {
        Subcommand::Report => report(alloc),
        Subcommand::Explain => explain(alloc),
        Subcommand::Sweep => sweep(alloc),
        Subcommand::Slack => slack(alloc),
        Subcommand::Rescue => rescue(alloc),
        Subcommand::Ends => ends(alloc),
        Subcommand::Failures => failures(alloc),
        Subcommand::Try => try_changes(alloc),
        Subcommand::Compare => compare(alloc),
        Subcommand::Draw => draw(alloc),
        Subcommand::Page => page(alloc),
        Subcommand::Check => check(alloc),
        Subcommand::Serve => serve(alloc),
        Subcommand::Console => console(alloc),
        Subcommand::Export => export(alloc),
        Subcommand::Many => many(alloc),
        Subcommand::Import => import(alloc),
        Subcommand::Fleet => fleet(alloc),
        Subcommand::New => new(alloc),
    }
}

fn report<'a>(alloc: Global) -> Result<Command<'a>, AllocError> {
    told(
        alloc,
        Subcommand::Report,
        "Prints each stage of a recording: its rank, its state and its moment",
        "Examples:\n  whatif report examples/first-run.json\n  whatif report --strict - < examples/first-run.json\n  whatif report --format json examples/first-run.json\n\nThe lines: docs/FORMATS.md, Reports.",
        &[QUIET, STRICT, FORMAT, RECORDING_OR_INPUT],
    )
}

fn explain<'a>(alloc: Global) -> Result<Command<'a>, AllocError> {
    told(
        alloc,
        Subcommand::Explain,
        "Prints how a stage ended, which failure it hands on, or which failures it was spared, and why it completed when it did or is pending",
        "Examples:\n  whatif explain examples/late-reply.json reply\n  whatif explain --quiet - reply < examples/late-reply.json\n\nThe lines: docs/FORMATS.md, Reports.",
        &[QUIET, STRICT, FORMAT, RECORDING_OR_DASH, STAGE],
    )
}

fn sweep<'a>(alloc: Global) -> Result<Command<'a>, AllocError> {
    told(
        alloc,
        Subcommand::Sweep,
        "Prints which stages would make a stage complete sooner if they took no time",
        "Examples:\n  whatif sweep examples/late-reply.json reply\n  whatif sweep --top 3 examples/late-reply.json reply\n  whatif sweep --want value --queued --by 50% examples/late-reply.json reply\n\nThe lines: docs/FORMATS.md, Reports.",
        &[
            TOP,
            WANT,
            QUEUED,
            BY_PERCENT,
            QUIET,
            STRICT,
            FORMAT,
            RECORDING_OR_DASH,
            STAGE,
        ],
    )
}

fn slack<'a>(alloc: Global) -> Result<Command<'a>, AllocError> {
    told(
        alloc,
        Subcommand::Slack,
        "Prints how many ticks longer each stage may run before a stage completes otherwise",
        "Examples:\n  whatif slack examples/late-reply.json reply\n  whatif slack --within 20 examples/late-reply.json reply\n\nThe lines: docs/FORMATS.md, Reports.",
        &[WITHIN, QUIET, STRICT, FORMAT, RECORDING_OR_DASH, STAGE],
    )
}

fn rescue<'a>(alloc: Global) -> Result<Command<'a>, AllocError> {
    told(
        alloc,
        Subcommand::Rescue,
        "Prints which single changes would have made a stage complete with a value, in time if a tick is given",
        "Examples:\n  whatif rescue --as 7 examples/late-reply.json reply\n  whatif rescue --by 100 --top 2 examples/late-reply.json customer\n\nThe lines: docs/FORMATS.md, Reports.",
        &[
            BY,
            AS,
            TOP_CHANGES,
            QUIET,
            STRICT,
            FORMAT,
            RECORDING_OR_DASH,
            STAGE,
        ],
    )
}

fn ends<'a>(alloc: Global) -> Result<Command<'a>, AllocError> {
    told(
        alloc,
        Subcommand::Ends,
        "Prints what came of each timeout, and of each call that completes or cancels a stage",
        "Examples:\n  whatif ends examples/late-reply.json\n  whatif ends --format json - < examples/late-reply.json\n\nThe lines: docs/FORMATS.md, Reports.",
        &[QUIET, STRICT, FORMAT, RECORDING_OR_INPUT],
    )
}

fn failures<'a>(alloc: Global) -> Result<Command<'a>, AllocError> {
    told(
        alloc,
        Subcommand::Failures,
        "Prints where each failure arose, which stages it reached, and which read it and didn't hand it on",
        "Examples:\n  whatif failures examples/late-reply.json\n  whatif failures --origin stock-south examples/late-reply.json\n\nThe lines: docs/FORMATS.md, Reports.",
        &[ORIGIN, QUIET, STRICT, FORMAT, RECORDING_OR_INPUT],
    )
}

fn try_changes<'a>(alloc: Global) -> Result<Command<'a>, AllocError> {
    told(
        alloc,
        Subcommand::Try,
        "Prints what would come of changes, made together",
        "Examples:\n  whatif try examples/late-reply.json 'customer-database runs=50%' --stage reply\n  whatif try examples/late-reply.json 'customer-database queued=0 runs=20' 'stock-south gives=7' --stage reply\n  whatif try --save examples/late-reply.json 'stock-south gives=7' > fixed.json\n\nA CHANGE is one word, in quotes: a stage's name, a space, and assignments with spaces between them. runs=N and queued=N set times in ticks, runs=P% and queued=P% to P percent of what they are, rounded down; gives=V sets the value that the stage computes, fails=NAME the exception, and at=T the tick at which it has computed it; limit=N sets the delay of its one timeout (orTimeout or completeOnTimeout), and unlimited takes its timeouts away. An end that acts before the stage has computed its value still wins, and a stage that would be pending needs gives or fails, and at.\n\nThe changes and the lines: docs/FORMATS.md, Trying changes.",
        &[
            STAGE_OF_TRIAL,
            SAVE,
            DRAW,
            QUIET,
            STRICT,
            FORMAT,
            RECORDING_OR_DASH,
            CHANGES,
        ],
    )
}

fn compare<'a>(alloc: Global) -> Result<Command<'a>, AllocError> {
    told(
        alloc,
        Subcommand::Compare,
        "Prints what made a stage late in one run that was not late in another: its path in both, and the stages in which they differ",
        "Examples:\n  whatif compare examples/good-reply.json examples/late-reply.json reply\n  whatif compare --format json examples/good-reply.json - reply < examples/late-reply.json\n\nStages are matched by their names. The lines: docs/FORMATS.md, Two runs compared.",
        &[QUIET, STRICT, FORMAT, GOOD, BAD, STAGE_OF_BOTH],
    )
}

fn draw<'a>(alloc: Global) -> Result<Command<'a>, AllocError> {
    told(
        alloc,
        Subcommand::Draw,
        "Writes a picture of a recording: when each stage waited, was queued, ran and completed",
        "Examples:\n  whatif draw examples/late-reply.json --stage reply > reply.svg\n  whatif draw examples/late-reply.json --from 100 --to 150 --min 10 > end.svg\n  whatif draw examples/late-reply.json --script examples/late-reply.script --stage reply > fixed.svg\n  whatif import examples/order.otlp.trace | whatif draw --group service > services.svg\n  whatif draw --format trace examples/late-reply.json > late-reply.trace.json\n\nWhat is drawn: docs/FORMATS.md, Pictures.",
        &[
            DRAWN_STAGE,
            ROWS,
            FROM,
            TO,
            LEAST,
            GROUP,
            SCRIPT_OF_PICTURE,
            PLAYED_VERSION,
            PICTURE,
            QUIET,
            STRICT_STEPS,
            RECORDING_OR_INPUT,
        ],
    )
}

fn page<'a>(alloc: Global) -> Result<Command<'a>, AllocError> {
    told(
        alloc,
        Subcommand::Page,
        "Writes a page that tells of a recording, and of what a script changes: one HTML file that stands alone, for the ticket of an incident",
        "Examples:\n  whatif page examples/late-reply.json --stage reply > late-reply.html\n  whatif page examples/late-reply.json examples/late-reply.script --stage reply > fixes.html\n  whatif page - < examples/late-reply.json > late-reply.html\n\nWhat the page has: docs/PAGE.md.",
        &[
            STAGE_OF_PAGE,
            QUIET,
            STRICT_STEPS,
            RECORDING_OR_DASH,
            SCRIPT_OF_PAGE,
        ],
    )
}

fn check<'a>(alloc: Global) -> Result<Command<'a>, AllocError> {
    told(
        alloc,
        Subcommand::Check,
        "Prints every fault of a recording, and every member that nothing reads",
        "Examples:\n  whatif check examples/first-run.json\n  whatif check --strict examples/late-reply.json\n\nWhat a recording is: docs/FORMATS.md, Recordings.",
        &[STRICT, RECORDING_OR_DASH],
    )
}

fn serve<'a>(alloc: Global) -> Result<Command<'a>, AllocError> {
    told(
        alloc,
        Subcommand::Serve,
        "Answers the steps that come on standard input, one to a line, about a recording",
        "Examples:\n  whatif serve examples/late-reply.json < examples/late-reply.script\n  whatif serve --strict examples/late-reply.json < examples/late-reply-why.script\n  whatif serve --format json examples/late-reply.json < examples/late-reply.script\n\nThe steps and their answers: docs/FORMATS.md, Scripts.",
        &[QUIET, STRICT_STEPS, FORMAT, RECORDING],
    )
}

fn console<'a>(alloc: Global) -> Result<Command<'a>, AllocError> {
    told(
        alloc,
        Subcommand::Console,
        "Answers the lines that a person says, word by word, about a recording",
        "Examples:\n  whatif console examples/late-reply.json\n  rlwrap whatif console examples/late-reply.json\n  whatif console --steps examples/late-reply.json > kept.script\n\nhelp, said to it, tells which commands there are. The commands and their answers: docs/FORMATS.md, The console.",
        &[STEPS, QUIET, STRICT, RECORDING],
    )
}

fn export<'a>(alloc: Global) -> Result<Command<'a>, AllocError> {
    told(
        alloc,
        Subcommand::Export,
        "Writes the version that a script made last, as a recording",
        "Examples:\n  whatif export examples/late-reply.json examples/late-reply.script > fixed.json\n  whatif export --strict examples/late-reply.json examples/late-reply-why.script > fixed.json\n\nThe steps: docs/FORMATS.md, Scripts. What is written: Recordings.",
        &[QUIET, STRICT_STEPS, RECORDING, SCRIPT],
    )
}

fn many<'a>(alloc: Global) -> Result<Command<'a>, AllocError> {
    told(
        alloc,
        Subcommand::Many,
        "Answers several scripts at once, whose clients share the sessions and versions",
        "Examples:\n  whatif many examples/late-reply.json examples/late-reply.script examples/late-reply-why.script\n  whatif many --workers 4 examples/late-reply.json examples/late-reply.script\n\nThe steps and their answers: docs/FORMATS.md, Scripts and The program.",
        &[WORKERS, QUIET, STRICT_SCRIPTS, FORMAT, RECORDING, SCRIPTS],
    )
}

fn import<'a>(alloc: Global) -> Result<Command<'a>, AllocError> {
    told(
        alloc,
        Subcommand::Import,
        "Writes the recording that a trace makes, from OTLP/JSON, Jaeger JSON or Zipkin's",
        "Examples:\n  whatif import examples/order.otlp.trace\n  whatif import examples/order.otlp.trace | whatif explain - shop.GET-order\n  whatif import --list night.jsonl\n  whatif import --each night.jsonl > night.recordings\n\nWhat is inferred of a trace, and what can't be known: docs/TRACES.md.",
        &[
            LIST,
            EACH,
            TRACE_ID,
            UNIT,
            CLOCKS,
            CALLS,
            LIST_FORMAT,
            QUIET_IMPORT,
            TRACE,
        ],
    )
}

fn fleet<'a>(alloc: Global) -> Result<Command<'a>, AllocError> {
    told(
        alloc,
        Subcommand::Fleet,
        "Prints what many traces came to: how long their replies took, which spans, if they took no time, would bring them sooner, and which failures came from where",
        "Examples:\n  whatif fleet night.jsonl\n  whatif fleet --slowest 1 --by service night/*.jsonl\n  whatif fleet --try 'stock.GET /items runs=50%' --workers 4 night/*.jsonl\n  whatif fleet --part night/1.jsonl > 1.summary\n  whatif fleet --join 1.summary 2.summary\n  ls night/*.jsonl | parallel whatif fleet --part {} | whatif fleet --join -\n\nWhat is counted, what a gain means, and what is tried: docs/FLEET.md.",
        &[
            REPLY,
            GROUPED_BY,
            TRY,
            SLOWEST,
            WORKERS_OF_FLEET,
            PART,
            JOIN,
            UNIT,
            CLOCKS,
            CALLS,
            QUIET,
            STRICT_FLEET,
            FORMAT,
            TRACES,
        ],
    )
}

/// A subcommand with what its help tells of it, examples at the end.
fn told<'a>(
    alloc: Global,
    subcommand: Subcommand,
    about: &'static str,
    examples: &'static str,
    arguments: &[Argument],
) -> Result<Command<'a>, AllocError> {
    let mut command = Command::new(alloc, subcommand.name())
        .about(about)
        .after_help(examples);
    for it in arguments {
        command = command.arg(arg_of(alloc, *it)?)?;
    }
    Ok(command)
}

fn new<'a>(alloc: Global) -> Result<Command<'a>, AllocError> {
    told(
        alloc,
        Subcommand::New,
        "Prints a recording to begin with: one that says what each of its stages is, or the form of a retry, a timeout, a race",
        "Examples:\n  whatif new > run.json\n  whatif new retry > retry.json\n  whatif new timer | whatif explain -\n\nWhat each is a form of, with its code: docs/MODELLING.md.",
        &[FORM],
    )
}
