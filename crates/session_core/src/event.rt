//! What is asked of a table, and what it answers.
ghost use Rattle.std.specs.Prelude.{◌≡◌, ◌↔◌, IsTrue};
ghost use Rattle.session_core.specs.Headline.{session_of};

use crate::refusal::Refusal;
use share_tree::Held;
use stage_graph::Edits;

/// What is asked of the table.
#[derive(Drop)]
pub enum Event {
    /// A session begins at a version.
    Open {
        session: u32,
        version: u32,
    },
    /// Where does the session stand?
    Head {
        session: u32,
    },
    /// A list of edits is applied to the base, at which the session has to stand.
    Commit {
        session: u32,
        base: u32,
        edit: Held<Edits>,
    },
    /// The session goes back to the version before.
    Undo {
        session: u32,
    },
    /// The session ends.
    Close {
        session: u32,
    },
}

/// What the table answers.
#[derive(Clone, Copy, PartialEq, Eq, Debug)]
pub enum Reply {
    /// The session stands at this version.
    Opened(u32),
    /// The session's head.
    At(u32),
    /// The number of the new version, at which the session now stands.
    Committed(u32),
    /// The version at which the session stands again.
    Undone(u32),
    Closed,
    Refused(Refusal),
    /// 90: out of memory, and nothing was done.
    Memory,
}

/// One event of the history: who asked, for what, and the reply.
#[derive(Drop)]
pub struct Entry {
    pub who: u32,
    pub event: Event,
    pub reply: Reply,
}

impl Event {
    /// The session that the event is about. Allocates nothing.
    pub fn session(&self) -> u32
        ensures { result ≡ session_of self.now }
    {
        match self {
            Event::Open { session, .. }
            | Event::Head { session }
            | Event::Commit { session, .. }
            | Event::Undo { session }
            | Event::Close { session } => *session,
        }
    }

    /// Whether two events are the same. Allocates nothing.
    pub fn same(&self, other: &Event) -> bool
        ensures { IsTrue result ↔ (self.now ≡ other.now) }
    {
        match (self, other) {
            (
                Event::Open { session, version },
                Event::Open {
                    session: other,
                    version: others,
                },
            ) => *session == *other && *version == *others,
            (Event::Head { session }, Event::Head { session: other }) => *session == *other,
            (
                Event::Commit {
                    session,
                    base,
                    edit,
                },
                Event::Commit {
                    session: other,
                    base: other_base,
                    edit: others,
                },
            ) => *session == *other && *base == *other_base && edit.same(others),
            (Event::Undo { session }, Event::Undo { session: other }) => *session == *other,
            (Event::Close { session }, Event::Close { session: other }) => *session == *other,
            _ => false,
        }
    }
}

impl Reply {
    /// Whether two replies are the same. Allocates nothing.
    pub fn same(self, other: Reply) -> bool
        ensures { IsTrue result ↔ (self ≡ other) }
    {
        self == other
    }
}

impl Entry {
    /// Whether two entries are the same. Allocates nothing.
    pub fn same(&self, other: &Entry) -> bool
        ensures { IsTrue result ↔ (self.now ≡ other.now) }
    {
        self.who == other.who && self.event.same(&other.event) && self.reply.same(other.reply)
    }
}
