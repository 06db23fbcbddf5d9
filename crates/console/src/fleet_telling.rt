//! What is told of the traces of a fleet that are not counted.
use crate::explaining::why_refused;
use crate::fault::Fault;
use crate::guesses::CUT_LINE;
use crate::importing::not_imported;
use crate::not_made::NotMade;
use crate::voice::Voice;
use change_words::{Change, MakingFault};
use diagnosis::Quoted;
use json_names::nearest;
use recording::Fault as ReadingFault;
use stage_graph::Refusal;
use std::alloc::{AllocError, Global};
use std::fmt::{self, Display};
use trace_import::{ImportFault, Mapping, Options, Unit};
use trace_spans::{Fault as TraceFault, Trace};

/// A trace among those of its file.
#[derive(Clone, Copy, Drop)]
pub struct TraceAt<'a> {
    /// Its number, from 1; that of its line, where it is a recording.
    pub number: usize,
    /// Its id; none where it is a recording.
    pub id: Option<&'a str>,
}

impl Display for TraceAt<'_> {
    fn fmt<W: fmt::Write>(&self, f: &mut fmt::Formatter<W>) -> fmt::Result {
        let number = self.number;
        match self.id {
            Some(id) => write!(f, "trace {number}, {id}"),
            None => write!(f, "line {number}"),
        }
    }
}

/// The traces of a file, or why it can't be read. It is told where the last line of the file is cut; and where the file holds no
/// trace, if that is not to end the program.
pub fn traces_of(
    alloc: Global,
    voice: Voice<'_>,
    bytes: &[u8],
    mapping: Mapping,
    traces: Result<Vec<Trace>, TraceFault>,
) -> Result<Vec<Trace>, Fault> {
    let options = Options {
        trace: None,
        mapping,
    };
    match traces {
        Ok(traces) => {
            if traces.as_slice().iter().any(|trace| trace.is_cut) {
                voice.say_of_file(CUT_LINE);
            }
            Ok(traces)
        }
        Err(TraceFault::NoTrace) if !voice.is_strict() => {
            voice.tell_of_file("the file holds no trace");
            Ok(Vec::new(alloc))
        }
        Err(fault) => Err(not_imported(alloc, voice, bytes, options, ImportFault::Refused(fault))),
    }
}

/// Tells that a trace is left out that makes no recording, also where no explanations are to be told; where that is to end the
/// program it does.
pub fn left_out(
    voice: Voice<'_>,
    unit: Unit,
    at: TraceAt<'_>,
    fault: ImportFault,
) -> Result<(), Fault> {
    if voice.is_strict() {
        let why = NotMade {
            unit,
            fault: &fault,
        };
        let why = voice.text(format_args!("{at}: {why}"));
        return Err(Fault::NotImported(fault, why));
    }
    if voice.is_quiet() {
        voice.tell_of_file(format_args!("{at}: {fault}"));
        return Ok(());
    }
    let why = NotMade {
        unit,
        fault: &fault,
    };
    voice.tell_of_file(format_args!("{at}: {fault}: {why}"));
    Ok(())
}

/// The same of a recording that is refused.
pub fn left_out_recording(
    alloc: Global,
    voice: Voice<'_>,
    at: TraceAt<'_>,
    recording: &[u8],
    fault: ReadingFault,
) -> Result<(), Fault> {
    let why = why_refused(alloc, voice.of_line(at.number), recording, &fault)?;
    if voice.is_strict() {
        return Err(Fault::Refused(fault, why));
    }
    voice.tell_of_file(format_args!("{at}: {fault}"));
    if let Some(why) = why {
        voice.tell(why);
    }
    Ok(())
}

/// Why a trace has no reply.
#[derive(Clone, Copy, Drop)]
struct NoReply<'a>(Option<&'a str>);

impl Display for NoReply<'_> {
    fn fmt<W: fmt::Write>(&self, f: &mut fmt::Formatter<W>) -> fmt::Result {
        match self.0 {
            Some(name) => {
                let name = Quoted(name);
                write!(f, "no span named {name} ends")
            }
            None => f.write_str("its root does not end"),
        }
    }
}

/// The same of a trace that has no reply.
pub fn left_out_without_reply(
    voice: Voice<'_>,
    at: TraceAt<'_>,
    reply: Option<&str>,
) -> Result<(), Fault> {
    let why = NoReply(reply);
    if voice.is_strict() {
        return Err(Fault::NoReply(voice.text(format_args!("{at}: {why}"))));
    }
    if voice.is_quiet() {
        voice.tell_of_file(format_args!("{at}: refused 86 NoReply"));
    } else {
        voice.tell_of_file(format_args!("{at}: refused 86 NoReply: {why}"));
    }
    Ok(())
}

/// Why a change of a group is not made to the spans of a trace.
#[derive(Clone, Copy)]
struct NotTried<'a>(&'a MakingFault);

impl Display for NotTried<'_> {
    fn fmt<W: fmt::Write>(&self, f: &mut fmt::Formatter<W>) -> fmt::Result {
        match self.0 {
            MakingFault::Refused(refused) => match refused.refusal {
                Refusal::Limit => f.write_str("a time would be longer than 1099511627776 ticks"),
                refusal => write!(f, "a stage refuses it: {refusal}"),
            },
            MakingFault::NotOneTimeout { count, .. } => write!(
                f,
                "the end of a span has {count} timeouts, and limit sets the delay of one"
            ),
            fault => write!(f, "{fault}"),
        }
    }
}

/// That a change of a group, which a word is, is not made to the spans of a trace.
pub fn not_tried(voice: Voice<'_>, at: TraceAt<'_>, word: &str, fault: MakingFault) -> Fault {
    let word = Quoted(word);
    let why = NotTried(&fault);
    let why = voice.text(format_args!("{at}: the change {word}: {why}"));
    Fault::NotMade(fault, why)
}

/// Tells that no trace has the group of a change, and which group is like it.
pub fn tell_missing_group(
    alloc: Global,
    voice: Voice<'_>,
    change: &Change,
    groups: &[&str],
) -> Result<(), AllocError> {
    let name = change.name.as_str();
    let quoted = Quoted(name);
    match nearest(alloc, name, groups)? {
        Some(near) => {
            let near = Quoted(near);
            voice.say(format_args!("no trace has the group {quoted}; did you mean {near}?"));
        }
        None => voice.say(format_args!("no trace has the group {quoted}")),
    }
    Ok(())
}
