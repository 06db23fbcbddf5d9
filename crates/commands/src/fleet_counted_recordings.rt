//! The recordings of files, counted.
use crate::fleet_counter::{Counter, MOST_COUNTED, count_recording};
use crate::fleet_lines::{BYTES_AT_ONCE, MOST_LINES, read_line};
use crate::fleet_night::Night;
use console::{Fault, TraceAt};
use fleet_replies::replies_of_recordings;
use std::alloc::{AllocError, Global};
use std::io::BufRead;
use std::thread::Threads;
use version_store::StateRepresentation;

/// The recordings of lines, without the numbers of these.
fn recordings_of<'b>(
    alloc: Global,
    lines: &[(usize, &'b [u8])],
) -> Result<Vec<&'b [u8]>, AllocError> {
    let mut recordings = Vec::with_capacity(alloc, lines.len())?;
    for (_, recording) in lines {
        recordings.push(*recording)?;
    }
    Ok(recordings)
}

/// Counts recordings, each with the number of its line.
pub(crate) fn count_recordings<K: StateRepresentation, H: Threads + Copy + Sync>(
    alloc: Global,
    counter: Counter<'_, H>,
    lines: &[(usize, &[u8])],
    night: &mut Night,
) -> Result<(), Fault> {
    for round in lines.chunks(MOST_COUNTED) {
        let recordings = recordings_of(alloc, round)?;
        let replies = replies_of_recordings::<K, H>(
            alloc,
            counter.threads,
            counter.fleet.workers,
            &counter.question,
            recordings.as_slice(),
        )?;
        for ((number, recording), reply) in round.iter().zip(replies) {
            let at = TraceAt {
                number: *number,
                id: None,
            };
            count_recording(alloc, counter, at, *recording, reply?, night)?;
        }
    }
    Ok(())
}

/// Recordings that were read, each with the number of its line.
type HeldLines = Vec<(usize, Vec<u8>)>;

/// Counts recordings that are held.
fn count_held<K: StateRepresentation, H: Threads + Copy + Sync>(
    alloc: Global,
    counter: Counter<'_, H>,
    held: &HeldLines,
    night: &mut Night,
) -> Result<(), Fault> {
    let recordings = lent_lines(alloc, held)?;
    count_recordings::<K, H>(alloc, counter, &recordings, night)
}

/// The same lines, lent.
fn lent_lines<'h>(
    alloc: Global,
    held: &'h HeldLines,
) -> Result<Vec<(usize, &'h [u8])>, AllocError> {
    let mut lines = Vec::new(alloc);
    for (number, line) in held {
        lines.push((*number, line.as_slice()))?;
    }
    Ok(lines)
}

/// Adds a line, without its end.
fn push_held(held: &mut HeldLines, number: usize, mut line: Vec<u8>) -> Result<(), AllocError> {
    if line.as_slice().last() == Some(&b'\n') {
        line.pop();
    }
    held.push((number, line))?;
    Ok(())
}

/// Counts recordings that are read line by line, a few at a time.
pub(crate) fn count_recording_lines<K: StateRepresentation, H: Threads + Copy + Sync, B: BufRead>(
    alloc: Global,
    counter: Counter<'_, H>,
    reader: &mut B,
    night: &mut Night,
) -> Result<(), Fault> {
    let mut held: HeldLines = Vec::new(alloc);
    let mut bytes: usize = 0;
    let mut number: usize = 0;
    for _ in 0..MOST_LINES {
        let mut line = Vec::new(alloc);
        let length = read_line(counter.voice, reader, &mut line)?;
        if length == 0 {
            break;
        }
        number = number.saturating_add(1);
        if !line.iter().all(|byte| byte.is_ascii_whitespace()) {
            push_held(&mut held, number, line)?;
            bytes = bytes.saturating_add(length);
        }
        if bytes >= BYTES_AT_ONCE || held.len() >= MOST_COUNTED {
            count_held::<K, H>(alloc, counter, &held, night)?;
            held.clear();
            bytes = 0;
        }
    }
    count_held::<K, H>(alloc, counter, &held, night)
}
