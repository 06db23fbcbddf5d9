//! What a client does, one step after the other, and what it is answered.
use crate::signals::{Signals, Way};
use desk::{EditFault, ReadFault};
use session_core::{Entry, Event, Refusal, Reply, TableFault};
use share_tree::Held;
use stage_graph::Edits;
use std::alloc::{AllocError, Global};

/// What a client asks for.
#[derive(Drop)]
pub(crate) enum Request {
    /// An event of a session. A commit is of the version at hand, which the client took, read or made last.
    Ask(Event),
    /// The version with this number.
    Read(u32),
    /// A commit of another recording's version 0.
    EditOther { session: u32, edits: Held<Edits> },
}

/// What a client is answered.
#[derive(Clone, Copy)]
pub(crate) struct Answer {
    /// The reply. A version that is read is told as one at which a session stands.
    pub(crate) reply: Reply,
    /// Whether the table has an entry of it.
    pub(crate) booked: bool,
    /// Whether the others did in time what the step waits for, memory did not run out, and a new version is found at once.
    pub(crate) holds: bool,
    /// How many versions the client has seen then.
    pub(crate) seen: u64,
    /// The nanoseconds from the request to its answer.
    pub(crate) nanos: u64,
}

impl Answer {
    /// A reply.
    fn new(reply: Reply, booked: bool) -> Answer {
        Answer {
            reply,
            booked,
            holds: false,
            seen: 0,
            nanos: 0,
        }
    }

    /// A reply of which the table has an entry.
    pub(crate) fn of_table(reply: Reply) -> Answer {
        Answer::new(reply, true)
    }

    /// Memory ran out.
    pub(crate) fn memory() -> Answer {
        Answer::new(Reply::Memory, false)
    }

    /// The table's fault.
    pub(crate) fn of_fault(fault: TableFault) -> Answer {
        match fault {
            TableFault::Refused(refusal) => Answer::of_table(Reply::Refused(refusal)),
            TableFault::Memory => Answer::memory(),
        }
    }

    /// The fault of an edit.
    pub(crate) fn of_edit(fault: EditFault) -> Answer {
        match fault {
            EditFault::Table(refusal) => Answer::of_table(Reply::Refused(refusal)),
            EditFault::Edits(refusal) => Answer::new(Reply::Refused(refusal), false),
            EditFault::NoVersion => Answer::new(Reply::Refused(Refusal::NoVersion), false),
            EditFault::Foreign(number) => {
                Answer::new(Reply::Refused(Refusal::Foreign(number)), false)
            }
            EditFault::Memory => Answer::memory(),
        }
    }

    /// A version that is read.
    pub(crate) fn of_read(read: Result<u32, ReadFault>) -> Answer {
        match read {
            Ok(number) => Answer::new(Reply::At(number), false),
            Err(ReadFault::NoVersion) => Answer::new(Reply::Refused(Refusal::NoVersion), false),
            Err(ReadFault::Memory) => Answer::memory(),
        }
    }

    /// The version at hand after the answer, where this one was.
    fn hand(self, before: u32) -> u32 {
        match self.reply {
            Reply::At(number) | Reply::Committed(number) => number,
            _ => before,
        }
    }
}

/// The request of a commit of the version at hand.
pub(crate) fn edit(session: u32, edit: Held<Edits>) -> Request {
    Request::Ask(Event::Commit {
        session,
        base: 0,
        edit,
    })
}

/// A step of a client.
#[derive(Drop)]
pub(crate) struct Step {
    /// How many steps are told of before it begins.
    pub(crate) after: u64,
    pub(crate) request: Request,
    /// Whether it is told of, once it is answered.
    pub(crate) tells: bool,
    pub(crate) answer: Answer,
}

impl Step {
    /// A step that begins once so many are told of, and is told of itself or not.
    pub(crate) fn after(after: u64, request: Request, tells: bool) -> Step {
        Step {
            after,
            request,
            tells,
            answer: Answer::memory(),
        }
    }

    /// A step that waits for nothing and is not told of.
    pub(crate) fn new(request: Request) -> Step {
        Step::after(0, request, false)
    }

    /// A step that asks for an event.
    pub(crate) fn ask(event: Event) -> Step {
        Step::new(Request::Ask(event))
    }

    /// A commit is of the version at hand.
    pub(crate) fn set_base(&mut self, hand: u32) {
        if let Request::Ask(Event::Commit { base, .. }) = &mut self.request {
            *base = hand;
        }
    }

    /// The step is answered. Answers the version at hand after it.
    pub(crate) fn hear(&mut self, answer: Answer, signals: &Signals, hand: u32) -> u32 {
        self.answer = answer;
        if self.tells {
            signals.tell();
        }
        answer.hand(hand)
    }

    /// Whether an entry of the table is of this step.
    pub(crate) fn is_of(&self, entry: &Entry) -> bool {
        match &self.request {
            Request::Ask(event) => {
                event.same(&entry.event) && self.answer.reply.same(entry.reply)
            }
            _ => false,
        }
    }
}

/// All steps of a client.
#[derive(Drop)]
pub(crate) struct Script {
    /// By what its edits are computed.
    pub(crate) way: Way,
    /// Whether its edits wait at the gate.
    pub(crate) waits: bool,
    pub(crate) steps: Vec<Step>,
}

impl Script {
    /// A client that does nothing yet, and whose edits don't wait.
    pub(crate) fn new(alloc: Global) -> Script {
        Script {
            way: Way::OneThread,
            waits: false,
            steps: Vec::new(alloc),
        }
    }

    /// One step more.
    pub(crate) fn push(&mut self, step: Step) -> Result<(), AllocError> {
        self.steps.push(step)?;
        Ok(())
    }
}
