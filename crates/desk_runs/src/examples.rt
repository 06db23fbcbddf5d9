//! Two clients that meet, what a desk refuses, and clients that find their own commits.
use crate::signals::{ENTERED, Way};
use crate::stages::set_times;
use crate::steps::{Answer, Request, Script, Step, edit};
use session_core::{Event, Refusal, Reply};
use std::alloc::{AllocError, Global};

/// The first client has opened the session.
const OPENED: u64 = 1;

/// The second client's edit has made version 1.
const EDITED: u64 = 2;

/// How many commits each client makes.
const COMMITS: u32 = 100;

/// The first client opens session 1 at version 0 and edits that, and its edit waits at the gate.
pub(crate) fn edits_at_gate(
    alloc: Global,
    way: Way,
    script: &mut Script,
) -> Result<(), AllocError> {
    script.way = way;
    script.waits = true;
    script.push(Step::ask(Event::Open {
        session: 1,
        version: 0,
    }))?;
    script.push(Step::after(0, Request::Ask(Event::Head { session: 1 }), true))?;
    script.push(Step::after(EDITED, edit(1, set_times(alloc, "b", 1)?), false))
}

/// The second client edits version 0 before the first one does. Once that one's edit has begun, it undoes its own, or reads
/// it.
pub(crate) fn undoes_meanwhile(
    alloc: Global,
    undoes: bool,
    script: &mut Script,
) -> Result<(), AllocError> {
    let head = Request::Ask(Event::Head { session: 1 });
    script.push(Step::after(OPENED, head, false))?;
    script.push(Step::after(0, edit(1, set_times(alloc, "a", 20)?), true))?;
    let last = if undoes {
        Request::Ask(Event::Undo { session: 1 })
    } else {
        Request::Read(1)
    };
    script.push(Step::after(ENTERED, last, true))
}

/// A client of a desk of one version asks for what it is refused.
pub(crate) fn asks_in_vain(alloc: Global, script: &mut Script) -> Result<(), AllocError> {
    script.push(Step::ask(Event::Open {
        session: 1,
        version: 0,
    }))?;
    script.push(Step::new(edit(1, set_times(alloc, "a", 20)?)))?;
    script.push(Step::new(Request::Read(1)))?;
    script.push(Step::new(Request::EditOther {
        session: 1,
        edits: set_times(alloc, "a", 20)?,
    }))?;
    script.push(Step::ask(Event::Close { session: 1 }))?;
    script.push(Step::ask(Event::Undo { session: 1 }))
}

/// A client commits a hundred times, on a session of its own from version 0 on.
pub(crate) fn commits_often(
    alloc: Global,
    session: u32,
    script: &mut Script,
) -> Result<(), AllocError> {
    script.push(Step::ask(Event::Open {
        session,
        version: 0,
    }))?;
    for _commit in 0..COMMITS {
        script.push(Step::new(edit(session, set_times(alloc, "a", 20)?)))?;
    }
    Ok(())
}

/// What a refusal is called, with the version that it names.
fn text_of_refusal(alloc: Global, refusal: Refusal) -> Result<String, AllocError> {
    match refusal.detail() {
        Some(detail) => format!(in alloc; "{refusal} {detail}"),
        None => format!(in alloc; "{refusal}"),
    }
}

/// What an answer comes to.
fn text_of_answer(alloc: Global, answer: Answer) -> Result<String, AllocError> {
    if !answer.holds {
        return String::from_str(alloc, "what does not hold");
    }
    match answer.reply {
        Reply::Opened(number) => format!(in alloc; "opened at {number}"),
        Reply::At(number) => format!(in alloc; "at {number}"),
        Reply::Committed(number) => format!(in alloc; "version {number}, which it finds"),
        Reply::Undone(number) => format!(in alloc; "back at {number}"),
        Reply::Closed => String::from_str(alloc, "closed"),
        Reply::Refused(refusal) => text_of_refusal(alloc, refusal),
        Reply::Memory => String::from_str(alloc, "90 Memory"),
    }
}

/// What a client's answers come to.
fn text_of_answers(alloc: Global, steps: &[Step]) -> Result<String, AllocError> {
    let mut text = String::new(alloc);
    for step in steps {
        let answer = text_of_answer(alloc, step.answer)?;
        if !text.is_empty() {
            text.push_str(", ")?;
        }
        text.push_str(answer.as_str())?;
    }
    Ok(text)
}

/// How many versions the client had seen at the end of a step.
fn seen_at(step: Option<&Step>) -> u64 {
    match step {
        Some(step) => step.answer.seen,
        None => 0,
    }
}

/// What is told of the two clients.
pub(crate) fn text_of_meeting(alloc: Global, scripts: &[Script]) -> Result<String, AllocError> {
    let [first, second] = scripts else {
        return String::from_str(alloc, "two clients: there are others");
    };
    let way = first.way.title();
    let start = seen_at(first.steps.first());
    let end = seen_at(first.steps.last());
    let one = text_of_answers(alloc, first.steps.as_slice())?;
    let other = text_of_answers(alloc, second.steps.as_slice())?;
    format!(in alloc;
        "two clients, by {way}: the first has seen {start} version at its start and {end} at its end, and is answered {one}; \
        the other {other}"
    )
}

/// What is told of the refusals.
pub(crate) fn text_of_refusals(alloc: Global, scripts: &[Script]) -> Result<String, AllocError> {
    let Some(asking) = scripts.first() else {
        return String::from_str(alloc, "refusals: there are no clients");
    };
    let answers = text_of_answers(alloc, asking.steps.as_slice())?;
    format!(in alloc;
        "refusals: an opening, an edit, a read of version 1, an edit of another graph, a closing and an undo are answered \
        {answers}"
    )
}

/// Whether a client's commits are all made, and found at once.
fn are_found(steps: &[Step]) -> bool {
    let mut count = 0u32;
    for step in steps {
        if let Reply::Committed(_) = step.answer.reply {
            if step.answer.holds {
                count = count.saturating_add(1);
            }
        }
    }
    count == COMMITS
}

/// What is told of the commits.
pub(crate) fn text_of_commits(alloc: Global, scripts: &[Script]) -> Result<String, AllocError> {
    let mut all = 0u32;
    for script in scripts {
        if are_found(script.steps.as_slice()) {
            all = all.saturating_add(1);
        }
    }
    format!(in alloc; "own commits: {all} clients find each of their {COMMITS} at once")
}
