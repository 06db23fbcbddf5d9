//! Words that are changes, and what people are told of those that are none.
use crate::fault::Fault;
use change_words::{Change, KEYS, Key, Misread, ReadFault, Wrong};
use diagnosis::{Quoted, read_again};
use json::Scratch;
use json_names::nearest;
use std::alloc::{AllocError, Global};
use std::fmt;

/// What is wrong with a part of a change, as people are told of it.
#[derive(Clone, Copy)]
struct WrongPart<'a> {
    /// The whole word.
    word: &'a str,
    misread: Misread<'a>,
    /// The key that is most like the one of the part.
    near: Option<&'a str>,
}

/// What a part begins with.
fn key_in(part: &str) -> &str {
    match part.split_once('=') {
        Some((key, _)) => key,
        None => part,
    }
}

/// What the value of a key is to be.
fn wanted(part: &str) -> &'static str {
    match Key::named(key_in(part)) {
        Some(Key::Queued) => "queued=N is in ticks, and queued=P% is a percentage of what it is",
        Some(Key::Runs) => "runs=N is in ticks, and runs=P% is a percentage of what it is",
        Some(Key::Gives) => "gives=V is a whole number, or null",
        Some(Key::Fails) => "fails=NAME is the name of an exception",
        Some(Key::At) => "at=T is a tick",
        Some(Key::Limit) => "limit=N is in ticks",
        Some(Key::Unlimited) => "unlimited stands without a value",
        None => "queued, runs, gives, fails, at, limit and unlimited can be assigned",
    }
}

/// The other key that assigns the same as the one of a part, where there is one.
fn other_key(part: &str) -> Option<&'static str> {
    match Key::named(key_in(part)) {
        Some(Key::Gives) => Some("fails"),
        Some(Key::Fails) => Some("gives"),
        Some(Key::Limit) => Some("unlimited"),
        Some(Key::Unlimited) => Some("limit"),
        _ => None,
    }
}

/// Whether a part of this key stands in a word before another part.
fn stands_before(word: &str, key: &str, part: &str) -> bool {
    let Some((_, parts)) = word.split_once(' ') else {
        return false;
    };
    for former in parts.split(' ') {
        if former == part {
            return false;
        }
        if key_in(former) == key {
            return true;
        }
    }
    false
}

/// Why a part assigns the same as a former one of its word, where that has another key.
fn alike(word: &str, part: &str) -> &'static str {
    let Some(key) = other_key(part) else {
        return "";
    };
    if !stands_before(word, key, part) {
        return "";
    }
    match key {
        "gives" | "fails" => "; gives and fails both say what the stage completes with",
        _ => "; limit and unlimited both say how long it waits",
    }
}

impl fmt::Display for WrongPart<'_> {
    fn fmt<W: fmt::Write>(&self, f: &mut fmt::Formatter<W>) -> fmt::Result {
        let part = self.misread.part;
        let quoted = Quoted(part);
        let wanted = wanted(part);
        match self.misread.wrong {
            Wrong::NothingAssigned => write!(
                f,
                "it assigns nothing; a change is one word, in quotes, as 'stock runs=50%'"
            ),
            Wrong::NoKey => {
                let key = key_in(part);
                if key.is_empty() {
                    return write!(f, "{quoted} has nothing before \"=\"; {wanted}");
                }
                let key = Quoted(key);
                match self.near {
                    Some(near) => write!(f, "{key} can't be assigned; did you mean \"{near}\"?"),
                    None => write!(f, "{key} can't be assigned; {wanted}"),
                }
            }
            Wrong::NoValue => write!(f, "{quoted} has no value; {wanted}"),
            Wrong::TakesNoValue => write!(f, "{quoted} has a value; {wanted}"),
            Wrong::NoNumber => write!(f, "{quoted} has no whole number; {wanted}"),
            Wrong::TooLarge => write!(f, "{quoted} has a number of more than 64 bits; {wanted}"),
            Wrong::TooManyHundredths => {
                write!(
                    f,
                    "{quoted} is too much; 100000% is the most that may be asked for"
                )
            }
            Wrong::NoException => write!(
                f,
                "{quoted} names no exception: 1 to 128 letters, digits, \".\", \"_\" and \"$\" are wanted, and not java.util.concurrent.CompletionException, which wraps others"
            ),
            Wrong::Again => {
                let alike = alike(self.word, part);
                write!(
                    f,
                    "{quoted} comes after a part that assigns the same{alike}"
                )
            }
        }
    }
}

/// What stands in a word where the name of a stage has to stand.
fn name_in(word: &str) -> &str {
    match word.split_once(' ') {
        Some((name, _)) => name,
        None => word,
    }
}

/// What a word that is to be a change names.
#[derive(Clone, Copy)]
struct NameIn<'a> {
    /// The name that stands there, where it stands without quotes.
    plain: Option<&'a str>,
    /// Whose name it is to be.
    of: &'static str,
}

impl NameIn<'_> {
    /// Whether an assignment stands in place of the name.
    fn is_assignment(self) -> bool {
        match self.plain {
            Some(name) => name.contains('='),
            None => false,
        }
    }
}

/// What is wrong with a word that is no change.
fn why_no_change<'a>(
    alloc: Global,
    word: &'a str,
    name: NameIn<'_>,
    misread: Misread<'a>,
) -> Result<String, AllocError> {
    let quoted = Quoted(word);
    if word.starts_with(' ') {
        return format!(in alloc; "the change begins with a space: {quoted}");
    }
    if name.is_assignment() {
        let of = name.of;
        let part = Quoted(name_in(word));
        return format!(in alloc; "{part} is an assignment; {of} name has to stand before it");
    }
    let near = match misread.wrong {
        Wrong::NoKey => nearest(alloc, key_in(misread.part), &KEYS[..])?,
        _ => None,
    };
    let wrong = WrongPart {
        word,
        misread,
        near,
    };
    format!(in alloc; "the change {quoted}: {wrong}")
}

/// The change that was read of a word, or what is wrong with the word.
fn change_read<'a>(
    alloc: Global,
    word: &'a str,
    name: NameIn<'_>,
    read: Result<Change, ReadFault<'a>>,
) -> Result<Change, Fault> {
    match read {
        Ok(change) => Ok(change),
        Err(ReadFault::Misread(misread)) => {
            Err(Fault::Word(why_no_change(alloc, word, name, misread)?))
        }
        Err(ReadFault::Memory) => Err(Fault::Memory),
    }
}

/// The change that a word is.
fn change_of(alloc: Global, word: &str) -> Result<Change, Fault> {
    let name = NameIn {
        plain: Some(name_in(word)),
        of: "a stage's",
    };
    change_read(alloc, word, name, Change::of(alloc, word))
}

/// Whether a part of a word is an assignment, or one that is misspelled.
fn is_assignment(part: &str) -> bool {
    part.contains('=') || matches!(Key::named(part), Some(Key::Unlimited))
}

/// Whether a quote behind a text is escaped.
fn escapes(text: &str) -> bool {
    let slashes = text.len().saturating_sub(text.trim_end_matches('\\').len());
    slashes % 2 == 1
}

/// The JSON string with which a word begins, up to its first quote that is not escaped, and what stands behind it.
fn quoted_parts(word: &str) -> Option<(&str, &str)> {
    let mut rest = word.strip_prefix('"')?;
    for _ in 0..word.len() {
        let (before, behind) = rest.split_once('"')?;
        if !escapes(before) {
            return Some((word.strip_suffix(behind).unwrap_or(word), behind));
        }
        rest = behind;
    }
    None
}

/// The name in a word, and what stands behind it: the last parts of the word, as far as they are assignments.
fn plain_parts(word: &str) -> (&str, &str) {
    let mut name = word;
    for _ in 0..word.len() {
        match name.rsplit_once(' ') {
            Some((before, part)) if part.is_empty() || is_assignment(part) => name = before,
            _ => break,
        }
    }
    (name, word.strip_prefix(name).unwrap_or(""))
}

/// The text that a JSON string is.
fn unquoted(alloc: Global, quoted: &str) -> Result<Option<String>, AllocError> {
    let mut room = Scratch::new(alloc);
    let Some(document) = read_again(alloc, quoted.as_bytes(), &mut room)? else {
        return Ok(None);
    };
    match document.root().as_str() {
        Some(text) => Ok(Some(String::from_str(alloc, text)?)),
        None => Ok(None),
    }
}

/// The change of a group that a word is. The group's name stands as a line of an answer has it, or without its quotes: then it ends
/// before the last parts of the word, as far as they are assignments.
pub fn group_change_of(alloc: Global, word: &str) -> Result<Change, Fault> {
    let of = "a group's";
    if !word.starts_with('"') {
        let (name, parts) = plain_parts(word);
        let plain = Some(name);
        let read = Change::of_parts(alloc, word, name, parts);
        return change_read(alloc, word, NameIn { plain, of }, read);
    }
    let (name, parts) = quoted_parts(word).unwrap_or((word, ""));
    match unquoted(alloc, name)? {
        Some(name) => {
            let read = Change::of_parts(alloc, word, &name, parts);
            change_read(alloc, word, NameIn { plain: None, of }, read)
        }
        None => {
            let word = Quoted(word);
            Err(Fault::Word(format!(in alloc;
                "the change {word}: its name begins with a quote, and is no JSON string"
            )?))
        }
    }
}

/// The changes that words are.
pub fn changes_of(alloc: Global, words: &[&str]) -> Result<Vec<Change>, Fault> {
    let mut changes = Vec::new(alloc);
    for word in words {
        let change = change_of(alloc, word)?;
        changes.reserve(1)?;
        changes.push_reserved(change);
    }
    Ok(changes)
}
