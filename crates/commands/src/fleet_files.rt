//! The traces of files, counted.
use crate::fleet_counted_recordings::{count_recording_lines, count_recordings};
use crate::fleet_counted_traces::{count_indexed, count_traces};
use crate::fleet_counter::Counter;
use crate::fleet_counts::Counts;
use crate::fleet_index::index_of;
use crate::fleet_lines::{HeldText, LONGEST, buffered, too_long};
use crate::fleet_night::Night;
use crate::fleet_recording::{begins_with_recording, recordings_in};
use crate::importing::mapping_of;
use change_words::Change;
use command_line::{Counting, Fleet, Input, Manner};
use console::{Fault, Named, Voice, group_change_of, opened, tell_missing_group, trace};
use diagnosis::Quoted;
use fleet_replies::Question;
use fleet_summary::{Name, Summary};
use fleet_text::{Basis, PartSummary};
use std::alloc::{AllocError, Global};
use std::thread::Threads;
use std::{fs, str};
use version_store::StateRepresentation;

/// The bytes of a file, whole.
pub(crate) fn whole(
    rt: &HostRuntime,
    voice: Voice<'_>,
    input: Input<'_>,
) -> Result<Vec<u8>, Fault> {
    let bytes = trace(rt, voice, input)?;
    if bytes.len() > LONGEST {
        return Err(too_long(voice, "it has more than 268435456 bytes"));
    }
    Ok(bytes)
}

/// The changes of groups that words are, of which none is given twice.
fn changes_of_groups(alloc: Global, words: &[&str]) -> Result<Vec<Change>, Fault> {
    let mut changes = Vec::new(alloc);
    for number in 0..words.len() {
        let word = words[number];
        if words[..number].iter().any(|former| *former == word) {
            let word = Quoted(word);
            return Err(Fault::Word(format!(in alloc; "the change {word} is given twice")?));
        }
        let change = group_change_of(alloc, word)?;
        changes.reserve(1)?;
        changes.push_reserved(change);
    }
    Ok(changes)
}

/// Counts the traces of files, one file after the other.
pub(crate) fn count_files<'a, K: StateRepresentation, H: Threads + Copy + Sync>(
    rt: &'a HostRuntime,
    threads: &'a H,
    manner: Manner,
    files: &[&'a str],
    counting: Counting<'a>,
    fleet: &'a Fleet<'a>,
) -> Result<Counts, Fault> {
    let alloc = rt.alloc();
    let words = fleet.tries.as_slice();
    let changes = changes_of_groups(alloc, words)?;
    let mut night = Night::new(alloc, changes.len())?;
    let question = Question {
        mapping: mapping_of(counting.mapping),
        reply: counting.reply,
        by: counting.by,
        changes: changes.as_slice(),
    };
    for path in files {
        let input = Input::of(Some(*path));
        let voice = Voice::new(rt, manner, input);
        let voice = if files.len() > 1 {
            voice.of_several()
        } else {
            voice
        };
        let counter = Counter {
            voice,
            question,
            threads,
            fleet: &*fleet,
        };
        count_file::<K, H>(rt, counter, input, &mut night)?;
    }
    let voice = Voice::new(rt, manner, Input::of(None));
    night.tell(voice);
    tell_missing(alloc, voice, &night.summary, changes.as_slice())?;
    counts_of(alloc, counting, words, night)
}

/// Tells which changes are of groups that no trace has, where traces were counted.
fn tell_missing(
    alloc: Global,
    voice: Voice<'_>,
    summary: &Summary,
    changes: &[Change],
) -> Result<(), AllocError> {
    if summary.replies.count == 0 {
        return Ok(());
    }
    for change in changes {
        let name = Name::new(alloc, change.name.as_str().as_bytes())?;
        if summary.groups.get(&name).is_none() {
            let mut names: Vec<&str> = Vec::new(alloc);
            for (group, _) in summary.groups.by_name() {
                if let Ok(text) = str::from_utf8(group.bytes()) {
                    names.push(text)?;
                }
            }
            tell_missing_group(alloc, voice, change, names.as_slice())?;
        }
    }
    Ok(())
}

/// Adds a summary.
pub(crate) fn push_part(parts: &mut Vec<PartSummary>, part: PartSummary) -> Result<(), AllocError> {
    parts.push(part)?;
    Ok(())
}

/// What was counted, with what its numbers are of.
fn counts_of(
    alloc: Global,
    counting: Counting<'_>,
    words: &[&str],
    night: Night,
) -> Result<Counts, Fault> {
    let Night {
        summary,
        tried,
        unit,
        ..
    } = night;
    let basis = basis_of(alloc, counting, unit)?;
    let mut tries = Vec::new(alloc);
    let mut number: usize = 0;
    for summary in tried {
        let mut basis = basis.copy(alloc)?;
        basis.tried = name_of(alloc, words.get(number).copied())?;
        push_part(&mut tries, PartSummary { basis, summary })?;
        number = number.saturating_add(1);
    }
    let whole = PartSummary { basis, summary };
    Ok(Counts { whole, tries })
}

/// A text as a name, if there is one.
fn name_of(alloc: Global, text: Option<&str>) -> Result<Option<Name>, AllocError> {
    match text {
        Some(text) => Ok(Some(Name::new(alloc, text.as_bytes())?)),
        None => Ok(None),
    }
}

/// A name, if it isn't empty.
fn named(name: Option<Name>) -> Option<Name> {
    let name = name?;
    if name.bytes().is_empty() {
        None
    } else {
        Some(name)
    }
}

/// What the numbers are of.
fn basis_of(
    alloc: Global,
    counting: Counting<'_>,
    unit: Option<Name>,
) -> Result<Basis, AllocError> {
    Ok(Basis {
        by: counting.by,
        reply: name_of(alloc, counting.reply)?,
        unit: named(unit),
        tried: None,
    })
}

/// The fewest bytes of a text whose traces are read a few at a time.
const LEAST_INDEXED: usize = 1_048_576;

/// Counts the traces of a text that is read whole, or its recordings.
fn count_text<K: StateRepresentation, H: Threads + Copy + Sync>(
    alloc: Global,
    counter: Counter<'_, H>,
    bytes: &[u8],
    night: &mut Night,
) -> Result<(), Fault> {
    match recordings_in(alloc, bytes)? {
        Some(recordings) => count_recordings::<K, H>(alloc, counter, &recordings, night),
        None => count_traces::<K, H>(alloc, counter, bytes, night),
    }
}

/// Counts the traces of standard input, or its recordings: of a long one of which each line is a text of its own a few at a time.
fn count_input<K: StateRepresentation, H: Threads + Copy + Sync>(
    alloc: Global,
    counter: Counter<'_, H>,
    bytes: &[u8],
    night: &mut Night,
) -> Result<(), Fault> {
    if bytes.len() >= LEAST_INDEXED && recordings_in(alloc, bytes)?.is_none() {
        let mut rest = bytes;
        if let Some(index) = index_of(
            alloc,
            counter.voice,
            counter.threads,
            counter.fleet.workers,
            &mut rest,
        )? {
            return count_indexed::<K, H, _>(alloc, counter, &HeldText(bytes), &index, night);
        }
    }
    count_text::<K, H>(alloc, counter, bytes, night)
}

/// Whether a file is one that can be read several times, and is long enough that this is worth while.
fn is_long(rt: &HostRuntime, path: &str) -> bool {
    match fs::metadata(rt, path) {
        Ok(metadata) => metadata.is_file() && metadata.len() >= LEAST_INDEXED as u64,
        Err(_) => false,
    }
}

/// Counts the traces of a long file, or its recordings, a few at a time, and answers whether it is one of which each line is a text of its
/// own.
fn count_lines<'a, K: StateRepresentation, H: Threads + Copy + Sync>(
    rt: &'a HostRuntime,
    counter: Counter<'a, H>,
    path: &'a str,
    night: &mut Night,
) -> Result<bool, Fault> {
    let alloc = rt.alloc();
    let voice = counter.voice;
    let mut first = buffered(rt, voice, path)?;
    let mut reader = buffered(rt, voice, path)?;
    if begins_with_recording(alloc, voice, &mut first)? {
        count_recording_lines::<K, H, _>(alloc, counter, &mut reader, night)?;
        return Ok(true);
    }
    let workers = counter.fleet.workers;
    let Some(index) = index_of(alloc, voice, counter.threads, workers, &mut reader)? else {
        return Ok(false);
    };
    let file = opened(rt, voice, path, Named::Recording)?;
    count_indexed::<K, H, _>(alloc, counter, &file, &index, night)?;
    Ok(true)
}

/// Counts the traces of a file, or its recordings.
fn count_file<'a, K: StateRepresentation, H: Threads + Copy + Sync>(
    rt: &'a HostRuntime,
    counter: Counter<'a, H>,
    input: Input<'a>,
    night: &mut Night,
) -> Result<(), Fault> {
    match input {
        Input::File(path) => {
            if is_long(rt, path) && count_lines::<K, H>(rt, counter, path, night)? {
                return Ok(());
            }
            let bytes = whole(rt, counter.voice, input)?;
            count_text::<K, H>(rt.alloc(), counter, &bytes, night)
        }
        Input::Standard => {
            let bytes = whole(rt, counter.voice, input)?;
            count_input::<K, H>(rt.alloc(), counter, &bytes, night)
        }
    }
}
