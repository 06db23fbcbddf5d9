//! Why changes make no edits of a recording.
use crate::voice::Voice;
use change_words::{Change, MakingFault};
use diagnosis::{Quoted, StageFault, nearest_stage, read_again};
use json::Scratch;
use json_trees::Tree;
use stage_graph::Refusal;
use std::alloc::Global;
use std::fmt;

/// The last tick, and the longest duration.
const LAST_TICK: u64 = 1_099_511_627_776;

/// The word that makes an edit. Where there are several, it is told by its number, from 1.
#[derive(Clone, Copy)]
struct Word<'a> {
    text: &'a str,
    number: Option<usize>,
}

impl fmt::Display for Word<'_> {
    fn fmt<W: fmt::Write>(&self, f: &mut fmt::Formatter<W>) -> fmt::Result {
        let text = Quoted(self.text);
        match self.number {
            Some(number) => write!(f, "change {number}, {text}"),
            None => write!(f, "the change {text}"),
        }
    }
}

/// A change that makes an edit.
#[derive(Clone, Copy)]
struct Maker<'a> {
    word: Word<'a>,
    /// The name of its stage.
    name: &'a str,
    /// The assignments of which a number may be too large in this edit.
    numbers: &'static str,
}

/// The assignments of a change of which a number may be too large in its edit of an index.
fn numbers_in(change: &Change, edit: usize) -> &'static str {
    let sets_times = change.queued.is_some() || change.runs.is_some();
    if sets_times && edit == 0 {
        return "queued and runs are";
    }
    // (the edit of the ends is the last one)
    if change.limit.is_some() && edit.saturating_add(1) == change.edit_count() {
        return "limit is";
    }
    "at is"
}

/// The change that makes the edit of an index of the list.
fn maker_of<'a>(words: &[&'a str], changes: &'a [Change], edit: usize) -> Option<Maker<'a>> {
    let mut left = edit;
    let mut number: usize = 0;
    for (text, change) in words.iter().zip(changes) {
        number = number.saturating_add(1);
        let count = change.edit_count();
        if left < count {
            let number = if words.len() > 1 { Some(number) } else { None };
            return Some(Maker {
                word: Word {
                    text: *text,
                    number,
                },
                name: change.name.as_str(),
                numbers: numbers_in(change, left),
            });
        }
        left -= count;
    }
    None
}

/// Why an edit of a stage that is there is refused.
#[derive(Clone, Copy)]
struct RefusedEdit<'a> {
    maker: Maker<'a>,
    refusal: Refusal,
}

impl fmt::Display for RefusedEdit<'_> {
    fn fmt<W: fmt::Write>(&self, f: &mut fmt::Formatter<W>) -> fmt::Result {
        let name = Quoted(self.maker.name);
        match self.refusal {
            Refusal::Limit => {
                let numbers = self.maker.numbers;
                let last = LAST_TICK;
                write!(f, "{numbers} {last} at most")
            }
            Refusal::NoAction => write!(f, "stage {name} has no action that could take time"),
            refusal => write!(f, "stage {name} refuses it: {refusal}"),
        }
    }
}

/// Why the stage of a name has not the one timeout whose delay is to be set.
#[derive(Clone, Copy)]
struct NotOneTimeout<'a> {
    name: &'a str,
    count: usize,
}

impl fmt::Display for NotOneTimeout<'_> {
    fn fmt<W: fmt::Write>(&self, f: &mut fmt::Formatter<W>) -> fmt::Result {
        let name = Quoted(self.name);
        match self.count {
            0 => write!(f, "stage {name} has no timeout whose delay could be set"),
            count => write!(
                f,
                "stage {name} has {count} timeouts, and limit sets the delay of one; setEnds in a script sets each"
            ),
        }
    }
}

/// That the word of a change begins with no stage's name, where that can be seen.
fn why_no_name(voice: Voice<'_>, word: Word<'_>, name: &str) -> Option<String> {
    let quoted = Quoted(name);
    if name.is_empty() {
        let text = Quoted(word.text);
        return voice.text(format_args!("the change begins with a space: {text}"));
    }
    if name.contains('=') {
        return voice.text(format_args!(
            "{word}: {quoted} is an assignment; a stage's name has to stand before it"
        ));
    }
    None
}

/// That no stage of a recording has the name in a word, and which one is like it.
fn why_unknown(
    alloc: Global,
    voice: Voice<'_>,
    recording: &[u8],
    word: Word<'_>,
    name: &str,
) -> Option<String> {
    let mut room = Scratch::new(alloc);
    let document = read_again(alloc, recording, &mut room).ok()??;
    why_unknown_in(alloc, voice, &document.root(), word, name)
}

/// The same of a recording that is read.
fn why_unknown_in(
    alloc: Global,
    voice: Voice<'_>,
    recording: &Tree<'_, '_>,
    word: Word<'_>,
    name: &str,
) -> Option<String> {
    let near = nearest_stage(alloc, recording, name).ok()?;
    let why = StageFault::NoStage { name, near };
    voice.text(format_args!("{word}: {why}"))
}

/// That there is no stage of a change's name; which one is like it, or that no name was given.
fn why_missing(
    alloc: Global,
    voice: Voice<'_>,
    recording: &[u8],
    maker: Maker<'_>,
) -> Option<String> {
    let word = maker.word;
    let name = maker.name;
    if let Some(why) = why_no_name(voice, word, name) {
        return Some(why);
    }
    why_unknown(alloc, voice, recording, word, name)
}

/// Why an edit that a change makes is refused; where its stage is missing, which one is like it.
fn why_refused(
    alloc: Global,
    voice: Voice<'_>,
    recording: &[u8],
    maker: Maker<'_>,
    refusal: Refusal,
) -> Option<String> {
    match refusal {
        Refusal::NoStage => why_missing(alloc, voice, recording, maker),
        refusal => {
            let why = RefusedEdit { maker, refusal };
            let word = maker.word;
            voice.text(format_args!("{word}: {why}"))
        }
    }
}

/// How many edits changes are.
fn edit_total(changes: &[Change]) -> usize {
    let mut total: usize = 0;
    for change in changes {
        total = total.saturating_add(change.edit_count());
    }
    total
}

/// Why the changes that words are make no edits of a recording; nothing where no more can be told, or nothing is to be.
pub fn why_not_made(
    alloc: Global,
    voice: Voice<'_>,
    recording: &[u8],
    words: &[&str],
    changes: &[Change],
    fault: &MakingFault,
) -> Option<String> {
    if voice.is_quiet() {
        return None;
    }
    match fault {
        MakingFault::Refused(refused) => {
            let maker = maker_of(words, changes, refused.at)?;
            why_refused(alloc, voice, recording, maker, refused.refusal)
        }
        MakingFault::NotOneTimeout { at, count } => {
            let maker = maker_of(words, changes, *at)?;
            let word = maker.word;
            let why = NotOneTimeout {
                name: maker.name,
                count: *count,
            };
            voice.text(format_args!("{word}: {why}"))
        }
        MakingFault::ListSize => {
            let total = edit_total(changes);
            voice.text(format_args!("the changes make {total} edits; 64 can be made together"))
        }
        MakingFault::Memory => None,
    }
}
