//! From the words of the command line to what they ask for.
ghost use Rattle.std.specs.Prelude.{◌≡◌, codes, None, Some, false, is_some, true, option_map, IfOk};
ghost use Rattle.clap.specs.Matches.{first_value, found_of, one_text};
ghost use Rattle.command_line.specs.Percents.{percent_asked, percent_in};
ghost use Rattle.command_line.specs.Words.{drawn_of, ending_of, format_of, grouped_by, has_no_tick, path_of, picture_format_of, reading_of, rows_of, told_of, unit_of, wanted_path};
ghost use Rattle.recording_forms.specs.Names.{name_of};
ghost use Rattle.command_line.specs.declared.printed.Printed.TheVariants.{Answers, Steps};
ghost use Rattle.command_line.specs.declared.sweep.Part.TheVariants.{Both, Queue};
ghost use Rattle.command_line.specs.declared.traces.Wanted.TheVariants.{List, Each};
ghost use Rattle.command_line.specs.declared.trial.Asked.TheVariants.{Recording};

use crate::command::{Command, CommandLine};
use crate::fleet::{Counting, Fleet, Held, Told, grouped_by};
use crate::input::Input;
use crate::manner::{Format, Manner};
use crate::names;
use crate::percent::percent_in;
use crate::picture::{Picture, PictureFormat, PlayedVersion, Rows, Ticks};
use crate::printed::Printed;
use crate::scripts::Scripts;
use crate::subcommand::Subcommand;
use crate::subcommand_words::{command, described};
use crate::sweep::{Ending, Part, Sweep};
use crate::traces::{Mapping, Reading, Unit, Wanted};
use crate::trial::{Asked, Trial};
use crate::words::MOST_WORKERS;
use clap::ArgMatches;
use clap::error::ErrorKind;
use level_pool::Workers;
use recording_forms::Form;
use std::alloc::{AllocError, Global};

/// Why the words ask for nothing that the program can do.
#[derive(Debug, Drop)]
pub enum WordsFault {
    /// There is something to say in place of an answer: help or the version that was asked for, or what is wrong with the
    /// words; or memory ran out.
    Told(clap::Error),
    /// A word is missing that clap requires, or is one that it refuses, so what it takes is never so.
    Missing,
}

impl From<clap::Error> for WordsFault {
    fn from(error: clap::Error) -> WordsFault {
        WordsFault::Told(error)
    }
}

impl From<AllocError> for WordsFault {
    fn from(error: AllocError) -> WordsFault {
        WordsFault::Told(clap::Error::from(error))
    }
}

/// Leaves out what asks for the help of `help` itself, whose help is that of the program.
pub fn without_help_of_help(words: &mut Vec<String>) {
    let asks_for_help = match words.get(1) {
        Some(word) => word.as_str() == "help",
        None => false,
    };
    if asks_for_help {
        words.retain(|word| word.as_str() != "--help" && word.as_str() != "-h");
    }
}

/// What the words of the command line ask for.
pub fn parsed<'a>(alloc: Global, words: &'a [String]) -> Result<CommandLine<'a>, WordsFault> {
    let matches = command(alloc)?.try_get_matches_from(words)?;
    let (name, matches) = required(matches.subcommand())?;
    let subcommand = required(Subcommand::named(name))?;
    let command = command_of(alloc, subcommand, matches)?;
    Ok(CommandLine {
        command,
        manner: manner_of(matches),
    })
}

/// What clap sees to: that a word is there, and is one that is taken.
fn required<T: Drop>(word: Option<T>) -> Result<T, WordsFault>
    ensures { IfOk result (λ value. word ≡ Some value) }
{
    word.ok_or(WordsFault::Missing)
}

/// What a subcommand's words ask for.
fn command_of<'a>(
    alloc: Global,
    subcommand: Subcommand,
    matches: &ArgMatches<'a>,
) -> Result<Command<'a>, WordsFault> {
    Ok(match subcommand {
        Subcommand::Report => Command::Report {
            recording: input_of(matches),
        },
        Subcommand::Explain => Command::Explain {
            recording: input_of(matches),
            stage: stage_of(matches),
        },
        Subcommand::Sweep => Command::Sweep {
            recording: input_of(matches),
            stage: stage_of(matches),
            sweep: sweep_of(alloc, matches)?,
        },
        Subcommand::Slack => Command::Slack {
            recording: input_of(matches),
            stage: stage_of(matches),
            within: matches.get_one::<u64>(names::WITHIN),
        },
        Subcommand::Rescue => Command::Rescue {
            recording: input_of(matches),
            stage: stage_of(matches),
            by: matches.get_one::<u64>(names::BY),
            value: matches.get_str(names::AS),
            most: matches.get_one::<usize>(names::TOP),
        },
        Subcommand::Ends => Command::Ends {
            recording: input_of(matches),
        },
        Subcommand::Failures => Command::Failures {
            recording: input_of(matches),
            origin: origin_of(matches),
        },
        Subcommand::Try => Command::Try {
            recording: input_of(matches),
            trial: trial_of(alloc, matches)?,
        },
        Subcommand::Compare => Command::Compare {
            good: good_of(matches),
            bad: bad_of(matches),
            stage: stage_of(matches),
        },
        Subcommand::Draw => Command::Draw {
            recording: input_of(matches),
            picture: picture_of(matches, ticks_of(alloc, matches)?),
        },
        Subcommand::Page => Command::Page {
            recording: input_of(matches),
            script: script_of_page(matches),
            stage: stage_of_page(matches),
        },
        Subcommand::Check => Command::Check {
            recording: input_of(matches),
        },
        Subcommand::Serve => Command::Serve {
            recording: file_of(matches)?,
        },
        Subcommand::Console => Command::Console {
            recording: file_of(matches)?,
            printed: printed_of(matches),
        },
        Subcommand::Export => Command::Export {
            recording: file_of(matches)?,
            script: required(matches.get_str(names::SCRIPT))?,
        },
        Subcommand::Many => Command::Many {
            recording: file_of(matches)?,
            scripts: scripts_of(alloc, matches)?,
        },
        Subcommand::Import => Command::Import {
            trace: input_of(matches),
            wanted: wanted_of(matches),
            mapping: mapping_of(matches),
        },
        Subcommand::Fleet => Command::Fleet {
            fleet: fleet_of(alloc, matches)?,
        },
        Subcommand::New => Command::New {
            form: form_of(matches)?,
        },
    })
}

fn manner_of(matches: &ArgMatches<'_>) -> Manner
    ensures format { result.format ≡ format_of (first_value (found_of matches.now) (codes "format")) }
    ensures quiet { one_text (found_of matches.now) (codes "quiet") ≡ Some (codes "true") → result.is_quiet ≡ true }
    ensures loud { one_text (found_of matches.now) (codes "quiet") ≡ None → result.is_quiet ≡ false }
    ensures loud_where_false { one_text (found_of matches.now) (codes "quiet") ≡ Some (codes "false") → result.is_quiet ≡ false }
    ensures strict { one_text (found_of matches.now) (codes "strict") ≡ Some (codes "true") → result.is_strict ≡ true }
    ensures lenient { one_text (found_of matches.now) (codes "strict") ≡ None → result.is_strict ≡ false }
    ensures lenient_where_false { one_text (found_of matches.now) (codes "strict") ≡ Some (codes "false") → result.is_strict ≡ false }
{
    Manner {
        format: Format::of(matches.get_str(names::FORMAT)),
        is_quiet: matches.get_flag(names::QUIET),
        is_strict: matches.get_flag(names::STRICT),
    }
}

fn input_of<'a>(matches: &ArgMatches<'a>) -> Input<'a>
    ensures { path_of result ≡ wanted_path (first_value (found_of matches.now) (codes "FILE")) }
{
    Input::of(matches.get_str(names::FILE))
}

fn good_of<'a>(matches: &ArgMatches<'a>) -> Input<'a>
    ensures { path_of result ≡ wanted_path (first_value (found_of matches.now) (codes "GOOD")) }
{
    Input::of(matches.get_str(names::GOOD))
}

fn bad_of<'a>(matches: &ArgMatches<'a>) -> Input<'a>
    ensures { path_of result ≡ wanted_path (first_value (found_of matches.now) (codes "BAD")) }
{
    Input::of(matches.get_str(names::BAD))
}

fn file_of<'a>(matches: &ArgMatches<'a>) -> Result<&'a str, WordsFault> {
    required(matches.get_str(names::FILE))
}

fn stage_of<'a>(matches: &ArgMatches<'a>) -> Option<&'a str>
    ensures { option_map (λ stage. stage.now) result ≡ first_value (found_of matches.now) (codes "STAGE") }
{
    matches.get_str(names::STAGE)
}

fn sweep_of(alloc: Global, matches: &ArgMatches<'_>) -> Result<Sweep, WordsFault> {
    Ok(Sweep {
        part: part_of(matches),
        percent: percent_of(alloc, matches)?,
        ending: ending_of(matches),
        most: matches.get_one::<usize>(names::TOP),
    })
}

fn part_of(matches: &ArgMatches<'_>) -> Part
    ensures queue { one_text (found_of matches.now) (codes "queued") ≡ Some (codes "true") → result ≡ Queue }
    ensures both { one_text (found_of matches.now) (codes "queued") ≡ None → result ≡ Both }
    ensures both_where_false { one_text (found_of matches.now) (codes "queued") ≡ Some (codes "false") → result ≡ Both }
{
    if matches.get_flag(names::QUEUED) {
        Part::Queue
    } else {
        Part::Both
    }
}

fn ending_of(matches: &ArgMatches<'_>) -> Ending
    ensures { result ≡ ending_of (first_value (found_of matches.now) (codes "want")) }
{
    Ending::of(matches.get_str(names::WANT))
}

fn percent_of(alloc: Global, matches: &ArgMatches<'_>) -> Result<u8, WordsFault>
    ensures { IfOk result (λ percent. Some percent ≡ percent_asked (first_value (found_of matches.now) (codes "by"))) }
{
    match matches.get_str(names::BY) {
        Some(word) => percent_or_fault(alloc, word),
        None => Ok(0),
    }
}

fn percent_or_fault(alloc: Global, word: &str) -> Result<u8, WordsFault>
    ensures { IfOk result (λ percent. Some percent ≡ percent_in word.now) }
{
    match percent_in(word) {
        Some(percent) => Ok(percent),
        None => Err(no_percentage(alloc, word)?),
    }
}

/// That a word says no hundredths.
fn no_percentage(alloc: Global, word: &str) -> Result<WordsFault, AllocError> {
    let message = format!(in alloc;
        "invalid value '{word}' for '--by <P%>': a whole number from 0 to 99 is wanted, with a % behind it"
    )?;
    let mut sweep = described(alloc, Subcommand::Sweep)?.bin_name("whatif sweep")?;
    let error = sweep.error(ErrorKind::ValueValidation, message.as_str())?;
    Ok(WordsFault::Told(error))
}

fn origin_of<'a>(matches: &ArgMatches<'a>) -> Option<&'a str>
    ensures { option_map (λ stage. stage.now) result ≡ first_value (found_of matches.now) (codes "origin") }
{
    matches.get_str(names::ORIGIN)
}

fn trial_of<'a>(alloc: Global, matches: &ArgMatches<'a>) -> Result<Trial<'a>, WordsFault> {
    let changes = required(matches.get_strs(names::CHANGE))?;
    Ok(Trial::new(alloc, changes, asked_of(matches))?)
}

fn asked_of<'a>(matches: &ArgMatches<'a>) -> Asked<'a>
    ensures saved { one_text (found_of matches.now) (codes "save") ≡ Some (codes "true") → result ≡ Recording }
    ensures drawn { one_text (found_of matches.now) (codes "save") ≡ Some (codes "false") → one_text (found_of matches.now) (codes "draw") ≡ Some (codes "true") → drawn_of result ≡ Some (first_value (found_of matches.now) (codes "stage")) }
    ensures told { one_text (found_of matches.now) (codes "save") ≡ Some (codes "false") → one_text (found_of matches.now) (codes "draw") ≡ Some (codes "false") → told_of result ≡ Some (first_value (found_of matches.now) (codes "stage")) }
{
    if matches.get_flag(names::SAVE) {
        Asked::Recording
    } else if matches.get_flag(names::DRAW) {
        Asked::Picture(matches.get_str(names::STAGE_OF_TRIAL))
    } else {
        Asked::Reports(matches.get_str(names::STAGE_OF_TRIAL))
    }
}

/// The ticks that are drawn.
fn ticks_of(alloc: Global, matches: &ArgMatches<'_>) -> Result<Ticks, WordsFault>
    ensures { IfOk result (λ ticks. has_no_tick ticks ≡ false) }
{
    let ticks = Ticks {
        from: matches.get_one::<u64>(names::FROM),
        to: matches.get_one::<u64>(names::TO),
    };
    if ticks.is_empty() {
        Err(no_ticks(alloc)?)
    } else {
        Ok(ticks)
    }
}

/// That no ticks are drawn.
fn no_ticks(alloc: Global) -> Result<WordsFault, AllocError> {
    let mut draw = described(alloc, Subcommand::Draw)?.bin_name("whatif draw")?;
    let error = draw.error(
        ErrorKind::ValueValidation,
        "the tick of '--to <T>' comes before that of '--from <T>'",
    )?;
    Ok(WordsFault::Told(error))
}

fn printed_of(matches: &ArgMatches<'_>) -> Printed
    ensures steps { one_text (found_of matches.now) (codes "steps") ≡ Some (codes "true") → result ≡ Steps }
    ensures answers { one_text (found_of matches.now) (codes "steps") ≡ None → result ≡ Answers }
    ensures answers_where_false { one_text (found_of matches.now) (codes "steps") ≡ Some (codes "false") → result ≡ Answers }
{
    if matches.get_flag(names::STEPS) {
        Printed::Steps
    } else {
        Printed::Answers
    }
}

fn picture_of<'a>(matches: &ArgMatches<'a>, ticks: Ticks) -> Picture<'a>
    ensures format { result.format ≡ picture_format_of (first_value (found_of matches.now) (codes "format")) }
    ensures rows { result.rows ≡ rows_of (first_value (found_of matches.now) (codes "what")) }
    ensures ticks { result.ticks ≡ ticks }
    ensures path { option_map (λ stage. stage.now) result.path_of ≡ first_value (found_of matches.now) (codes "stage") }
    ensures group { result.by_service ≡ is_some (first_value (found_of matches.now) (codes "group")) }
    ensures script { option_map (λ played. played.script.now) result.played ≡ first_value (found_of matches.now) (codes "script") }
{
    Picture {
        format: PictureFormat::of(matches.get_str(names::FORMAT)),
        rows: Rows::of(matches.get_str(names::ROWS)),
        ticks,
        least: matches.get_one::<u64>(names::LEAST).unwrap_or(0),
        path_of: matches.get_str(names::PATH_OF),
        by_service: matches.get_str(names::GROUP).is_some(),
        played: played_of(matches),
    }
}

/// The version that is drawn, where a script is named.
fn played_of<'a>(matches: &ArgMatches<'a>) -> Option<PlayedVersion<'a>>
    ensures { option_map (λ played. played.script.now) result ≡ first_value (found_of matches.now) (codes "script") }
{
    match matches.get_str(names::SCRIPT_OF_PICTURE) {
        Some(script) => Some(PlayedVersion {
            script,
            version: matches.get_one::<u32>(names::VERSION),
        }),
        None => None,
    }
}

fn script_of_page<'a>(matches: &ArgMatches<'a>) -> Option<&'a str>
    ensures { option_map (λ script. script.now) result ≡ first_value (found_of matches.now) (codes "SCRIPT") }
{
    matches.get_str(names::SCRIPT)
}

fn stage_of_page<'a>(matches: &ArgMatches<'a>) -> Option<&'a str>
    ensures { option_map (λ stage. stage.now) result ≡ first_value (found_of matches.now) (codes "stage") }
{
    matches.get_str(names::STAGE_OF_PAGE)
}

fn scripts_of<'a>(alloc: Global, matches: &ArgMatches<'a>) -> Result<Scripts<'a>, WordsFault> {
    let paths = required(matches.get_strs(names::SCRIPT))?;
    required(Scripts::new(alloc, paths, workers_of(matches)?)?)
}

fn workers_of(matches: &ArgMatches<'_>) -> Result<Workers, WordsFault> {
    let count = required(matches.get_one::<usize>(names::WORKERS))?;
    if count == 0 || count > MOST_WORKERS {
        return Err(WordsFault::Missing);
    }
    Ok(Workers::new(count))
}

fn wanted_of<'a>(matches: &ArgMatches<'a>) -> Wanted<'a>
    ensures list { one_text (found_of matches.now) (codes "list") ≡ Some (codes "true") → result ≡ List }
    ensures each { one_text (found_of matches.now) (codes "list") ≡ Some (codes "false") → one_text (found_of matches.now) (codes "each") ≡ Some (codes "true") → result ≡ Each }
    ensures each_where_none { one_text (found_of matches.now) (codes "list") ≡ None → one_text (found_of matches.now) (codes "each") ≡ Some (codes "true") → result ≡ Each }
{
    if matches.get_flag(names::LIST) {
        Wanted::List
    } else if matches.get_flag(names::EACH) {
        Wanted::Each
    } else {
        Wanted::One(matches.get_str(names::TRACE))
    }
}

fn fleet_of<'a>(alloc: Global, matches: &ArgMatches<'a>) -> Result<Fleet<'a>, WordsFault> {
    let files = Vec::from_slice(alloc, required(matches.get_strs(names::FILE))?)?;
    let tries = match matches.get_strs(names::TRY) {
        Some(tries) => Vec::from_slice(alloc, tries)?,
        None => Vec::new(alloc),
    };
    let workers = workers_of(matches)?;
    let held = held_of(matches);
    required(Fleet::new(files, held, tries, workers, told_of(matches)))
}

fn held_of<'a>(matches: &ArgMatches<'a>) -> Held<'a> {
    if matches.get_flag(names::JOIN) {
        Held::Summaries
    } else {
        Held::Traces(counting_of(matches))
    }
}

fn counting_of<'a>(matches: &ArgMatches<'a>) -> Counting<'a>
    ensures reply { option_map (λ name. name.now) result.reply ≡ first_value (found_of matches.now) (codes "reply") }
    ensures by { result.by ≡ grouped_by (first_value (found_of matches.now) (codes "by")) }
{
    Counting {
        reply: matches.get_str(names::REPLY),
        by: grouped_by(matches.get_str(names::GROUPED_BY)),
        mapping: mapping_of(matches),
    }
}

fn told_of(matches: &ArgMatches<'_>) -> Told {
    if matches.get_flag(names::PART) {
        Told::Summary
    } else {
        Told::Answer(slowest_of(matches))
    }
}

/// Clap sees to it that the number is no more than 100.
fn slowest_of(matches: &ArgMatches<'_>) -> Option<u8> {
    let percent = matches.get_one::<u64>(names::SLOWEST)?;
    Some(percent.min(100) as u8)
}

/// Clap sees to it that the word is the name of a form.
fn form_of(matches: &ArgMatches<'_>) -> Result<Form, WordsFault>
    ensures { IfOk result (λ form. Some (name_of form) ≡ first_value (found_of matches.now) (codes "FORM")) }
{
    let word = required(matches.get_str(names::FORM))?;
    required(Form::named(word))
}

fn mapping_of(matches: &ArgMatches<'_>) -> Mapping
    ensures unit { result.unit ≡ unit_of (first_value (found_of matches.now) (codes "unit")) }
    ensures clocks { result.clocks ≡ reading_of (first_value (found_of matches.now) (codes "clocks")) }
    ensures calls { result.calls ≡ reading_of (first_value (found_of matches.now) (codes "calls")) }
{
    Mapping {
        unit: Unit::of(matches.get_str(names::UNIT)),
        clocks: Reading::of(matches.get_str(names::CLOCKS)),
        calls: Reading::of(matches.get_str(names::CALLS)),
    }
}
