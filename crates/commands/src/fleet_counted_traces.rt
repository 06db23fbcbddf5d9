//! The traces of texts, counted.
use crate::fleet_counter::{Counter, MOST_COUNTED, count_trace};
use crate::fleet_index::Index;
use crate::fleet_lines::{TextOfLines, traces_in};
use crate::fleet_night::Night;
use console::{Fault, TraceAt, traces_of};
use fleet_replies::replies_of_traces;
use std::alloc::Global;
use std::thread::Threads;
use trace_spans::Trace;
use version_store::StateRepresentation;

/// Counts traces, in the order of their first spans, before which so many of the file were counted.
fn count_some<K: StateRepresentation, H: Threads + Copy + Sync>(
    alloc: Global,
    counter: Counter<'_, H>,
    traces: &[Trace],
    before: usize,
    night: &mut Night,
) -> Result<(), Fault> {
    let mut number = before;
    for round in traces.chunks(MOST_COUNTED) {
        let replies = replies_of_traces::<K, H>(
            alloc,
            counter.threads,
            counter.fleet.workers,
            &counter.question,
            round,
        )?;
        for (trace, reply) in round.iter().zip(replies) {
            number = number.saturating_add(1);
            let at = TraceAt {
                number,
                id: Some(trace.id.as_str()),
            };
            count_trace(alloc, counter, at, reply?, night)?;
        }
    }
    Ok(())
}

/// Counts the traces of a text that is read whole.
pub(crate) fn count_traces<K: StateRepresentation, H: Threads + Copy + Sync>(
    alloc: Global,
    counter: Counter<'_, H>,
    bytes: &[u8],
    night: &mut Night,
) -> Result<(), Fault> {
    let mapping = counter.question.mapping;
    let traces = traces_of(
        alloc,
        counter.voice,
        bytes,
        mapping,
        traces_in(alloc, bytes),
    )?;
    count_some::<K, H>(alloc, counter, traces.as_slice(), 0, night)
}

/// Counts the traces of a text that is read by its lines, a few at a time.
pub(crate) fn count_indexed<K: StateRepresentation, H: Threads + Copy + Sync, T: TextOfLines>(
    alloc: Global,
    counter: Counter<'_, H>,
    text: &T,
    index: &Index,
    night: &mut Night,
) -> Result<(), Fault> {
    if index.len() == 0 {
        return count_traces::<K, H>(alloc, counter, &[], night);
    }
    let most = index.most_at_once(alloc)?;
    let mut from: usize = 0;
    for _ in 0..index.len() {
        if from < index.len() {
            let (traces, end) = index.read_from(
                alloc,
                counter.voice,
                counter.threads,
                counter.fleet.workers,
                text,
                from,
                most,
            )?;
            count_some::<K, H>(alloc, counter, traces.as_slice(), from, night)?;
            from = end;
        }
    }
    Ok(())
}
