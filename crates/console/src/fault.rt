//! What ends the program early.
use crate::reasons::reason_of;
use change_words::MakingFault;
use command_help::ToldFault;
use recording::Fault as ReadingFault;
use std::alloc::{AllocError, Global};
use std::fmt;
use trace_import::ImportFault;

/// What ends the program early. Beside some stands what people are told of it, where anything is.
#[derive(Debug, Drop)]
pub enum Fault {
    /// The recording is refused.
    Refused(ReadingFault, Option<String>),
    /// The trace makes no recording.
    NotImported(ImportFault, Option<String>),
    /// The recording has no stage of the name.
    NoStage(Option<String>),
    /// The script makes no version of the number.
    NoVersion(Option<String>),
    /// Changes are no list of edits of the recording.
    NotMade(MakingFault, Option<String>),
    /// No trace has a reply.
    NoReply(Option<String>),
    /// The file of this name holds something that is no summary.
    BadSummary(String, Option<String>),
    /// A word of the command line is no change or no value, or one more is wanted for this recording. Only people are told of it.
    Word(String),
    /// A file or standard input can't be opened or read.
    Read(Option<String>),
    /// Standard output or standard error can't be written.
    Write(Option<String>),
    /// Nothing reads a member of the recording, and that is to end the program.
    Strict,
    /// A step was refused, and that is to end the program.
    Step,
    /// The command line is no text, or names nothing to do.
    CommandLine,
    /// A desk isn't closed, since a client of it is missing.
    Missing,
    /// A desk isn't closed, since its log is another one than its clients kept.
    Torn,
    /// A thread can't be started.
    NoThread,
    /// Memory ran out.
    Memory,
}

impl Fault {
    /// The exit status.
    pub fn status(&self) -> u8 {
        match self {
            Fault::Refused(ReadingFault::Memory, _) | Fault::NotMade(MakingFault::Memory, _) => 4,
            Fault::Refused(_, _)
            | Fault::NotImported(_, _)
            | Fault::NoStage(_)
            | Fault::NoVersion(_)
            | Fault::NotMade(_, _)
            | Fault::NoReply(_)
            | Fault::BadSummary(_, _)
            | Fault::Strict => 1,
            Fault::CommandLine | Fault::Word(_) => 2,
            Fault::Read(_) | Fault::Write(_) | Fault::Missing | Fault::Torn => 3,
            Fault::NoThread | Fault::Memory => 4,
            Fault::Step => 5,
        }
    }

    /// What people are told of it, beside its line.
    pub fn why(&self) -> Option<&str> {
        let why = match self {
            Fault::Refused(_, why) => why,
            Fault::NotImported(_, why) => why,
            Fault::NoStage(why) => why,
            Fault::NoVersion(why) => why,
            Fault::NotMade(_, why) => why,
            Fault::NoReply(why) => why,
            Fault::BadSummary(_, why) => why,
            Fault::Word(why) => return Some(why.as_str()),
            Fault::Read(why) => why,
            Fault::Write(why) => why,
            _ => return None,
        };
        match why {
            Some(why) => Some(why.as_str()),
            None => None,
        }
    }

    /// Why nothing was said in place of an answer.
    pub fn of_told(alloc: Global, fault: ToldFault) -> Fault {
        match fault {
            ToldFault::Memory => Fault::Memory,
            ToldFault::Write(error) => Fault::Write(reason_of(alloc, "standard output", error)),
        }
    }

    /// The same, of a recording that is about to be answered from a script.
    pub fn before_script(self, alloc: Global) -> Fault {
        match self {
            Fault::Refused(fault, why) => Fault::Refused(fault, with_script(alloc, why)),
            other => other,
        }
    }
}

/// What is told of a refused recording, and that no step was read.
fn with_script(alloc: Global, why: Option<String>) -> Option<String> {
    let why = why?;
    let text: Result<String, AllocError> = format!(in alloc;
        "{why}\nwhatif: the recording is refused, so no step was read"
    );
    text.ok()
}

impl fmt::Display for Fault {
    ghost use Rattle.std.specs.Prelude.{Some};
    ghost use Rattle.console.specs.FaultTexts.{fault_text};

    ghost output = { λ fault. Some (fault_text fault) };

    fn fmt<W: fmt::Write>(&self, f: &mut fmt::Formatter<W>) -> fmt::Result {
        match self {
            Fault::Refused(fault, _) => write!(f, "{fault}"),
            Fault::NotImported(fault, _) => write!(f, "{fault}"),
            Fault::NotMade(fault, _) => write!(f, "{fault}"),
            Fault::Word(_) => f.write_str("error: a word of the command line is mistaken"),
            Fault::Strict => f.write_str("warning: a member is read by nothing"),
            Fault::Step => f.write_str("refused: a step"),
            Fault::NoStage(_) => f.write_str("refused 10 NoStage"),
            Fault::NoVersion(_) => f.write_str("refused 52 NoVersion"),
            Fault::NoReply(_) => f.write_str("refused 86 NoReply"),
            Fault::BadSummary(file, _) => write!(f, "refused 87 BadSummary {file}"),
            Fault::Read(_) => f.write_str("refused 41 ReadFault"),
            Fault::Write(_) => f.write_str("refused 40 WriteFault"),
            Fault::CommandLine => f.write_str("error: the command line is not UTF-8 text"),
            Fault::Missing => f.write_str("refused 60 Missing"),
            Fault::Torn => f.write_str("refused 61 Torn"),
            Fault::NoThread => f.write_str("refused 35 NoThread"),
            Fault::Memory => f.write_str("refused 90 Memory"),
        }
    }
}

impl From<AllocError> for Fault {
    fn from(_: AllocError) -> Fault {
        Fault::Memory
    }
}
