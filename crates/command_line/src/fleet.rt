//! What is asked of many traces.
ghost use Rattle.std.specs.Prelude.{◌≡◌, ◌≤◌, length, option_map};
ghost use Rattle.command_line.specs.Words.{grouped_by};

use crate::traces::Mapping;
use fleet_summary::GroupBy;
use level_pool::Workers;

/// The most files that are read.
pub(crate) const MOST_FILES: usize = 4_096;

pub(crate) static GROUPINGS: [&str; 2] = ["span", "service"];

/// By what spans are counted together, as the word asks for it; by service and name where there is none.
pub fn grouped_by(word: Option<&str>) -> GroupBy
    ensures { result ≡ grouped_by (option_map (λ word. word.now) word.entry) }
{
    match word {
        Some("service") => GroupBy::Service,
        _ => GroupBy::Span,
    }
}

/// How the traces of a fleet are counted.
#[derive(Clone, Copy, Debug, PartialEq, Eq)]
pub struct Counting<'a> {
    /// The span whose end is the reply of its trace; the root where there is none.
    pub reply: Option<&'a str>,
    pub by: GroupBy,
    pub mapping: Mapping,
}

/// What the files hold.
#[derive(Clone, Copy, Debug, PartialEq, Eq)]
pub enum Held<'a> {
    /// Traces, or recordings, which are counted.
    Traces(Counting<'a>),
    /// Summaries, which are joined.
    Summaries,
}

/// What is written of them.
#[derive(Clone, Copy, Debug, PartialEq, Eq)]
pub enum Told {
    /// The summary, to be joined with others.
    Summary,
    /// The answer, and where it is asked for what the slowest replies wait for, in hundredths of them.
    Answer(Option<u8>),
}

/// Many traces: where they are read from, what the files hold, and what is written of them.
#[derive(Debug, Drop)]
pub struct Fleet<'a> {
    files: Vec<&'a str>,
    pub held: Held<'a>,
    /// The changes of groups that are tried in each trace, each as one word.
    pub tries: Vec<&'a str>,
    /// How many threads count at once.
    pub workers: Workers,
    pub told: Told,
    ghost some: { 1 ≤ length files.items },
    ghost few: { length files.items ≤ 4096 },
}

impl<'a> Fleet<'a> {
    /// A fleet in the files of these paths, in which these changes are tried, unless there are no files or too many.
    pub(crate) fn new(
        files: Vec<&'a str>,
        held: Held<'a>,
        tries: Vec<&'a str>,
        workers: Workers,
        told: Told,
    ) -> Option<Fleet<'a>> {
        if files.is_empty() || files.len() > MOST_FILES {
            return None;
        }
        Some(Fleet {
            files,
            held,
            tries,
            workers,
            told,
        })
    }

    /// The paths, as they were given.
    pub fn files(&self) -> &[&'a str]
        ensures some { 1 ≤ length result.now }
        ensures few { length result.now ≤ 4096 }
    {
        self.files.as_slice()
    }
}
