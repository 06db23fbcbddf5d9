//! A list of events, processed one after the other.
ghost use Rattle.std.specs.Prelude.{◌≡◌, ◌≢◌, ◌++◌, List, Some, IfOk, OnErr};
ghost use Rattle.session_core.specs.declared.event.Event.TheVariants.{Commit};
ghost use Rattle.session_core.specs.declared.event.Reply.TheVariants.{Committed, Memory};
ghost use Rattle.session_core.specs.declared.event.Reply.{Reply};
ghost use Rattle.session_core.specs.Applied.{DraftsOrRefuses};
ghost use Rattle.session_core.specs.Headline.{LeadsFromOpening};
ghost use Rattle.session_core.specs.Machine.{step};
ghost use Rattle.session_core.specs.Runs.{Replies, Runs, TakesOrStays};
ghost use Rattle.session_core.specs.TableView.{IsSame, reply_of};

use crate::event::{Event, Reply};
use crate::refusal::{TableFault, of_fault};
use crate::table::Table;
use level_pool::Runner;
use share_tree::Held;
use stage_graph::Edits;
use std::alloc::{AllocError, Global};
use version_store::{Draft, StateRepresentation, Version};

/// Processes the events one after the other, as client 0, and adds the replies to the list. A commit is drafted on its
/// base first, so that 52 and the refusals of the edits come before 51, 53 and 55, and have no entry in the history. If
/// memory runs out for an event, its reply is `Memory`, and the others are processed all the same. An error comes
/// before the first event.
///
/// From a table at its opening state they lead to what [`crate::every_list_of_steps`] states.
pub fn run<R: StateRepresentation, W: Runner>(
    alloc: Global,
    table: &mut Table<R>,
    events: &[Event],
    runner: &W,
    replies: &mut Vec<Reply>,
) -> Result<(), AllocError>
    ensures ran { IfOk result (λ _. (given : List Reply) × (replies.new.items ≡ replies.old.items ++ given) × Runs table.old events.now given table.new) }
    ensures leads { IfOk result (λ _. (given : List Reply) × (replies.new.items ≡ replies.old.items ++ given) × LeadsFromOpening table.old events.now given table.new) }
    ensures kept { OnErr result (IsSame table.old table.new × (replies.new.items ≡ replies.old.items)) }
{
    replies.reserve(events.len())?;
    table.beginning();
    for event in events {
        let reply = table.take(alloc, event, runner);
        replies.push_reserved(reply);
    }
    Ok(())
}

/// The draft that a list of edits makes of a version, or the refusal of the edits.
pub fn draft_of<R: StateRepresentation, W: Runner>(
    alloc: Global,
    version: &Version<R>,
    edit: &Held<Edits>,
    runner: &W,
) -> Result<Draft<R>, TableFault>
    ensures { DraftsOrRefuses version.now edit.now result }
{
    match version.drafted(alloc, edit, runner) {
        Ok(draft) => Ok(draft),
        Err(fault) => Err(of_fault(&fault)),
    }
}

impl<R: StateRepresentation> Table<R> {
    /// Processes one event, as [`run`] does.
    pub fn take<W: Runner>(&mut self, alloc: Global, event: &Event, runner: &W) -> Reply
        ensures replies { Replies self.old event.now result self.new }
        ensures steps { result ≢ Memory → step self.old.state event.now ≡ Some (result, self.new.state) }
    {
        self.reply_to(alloc, event, runner)
    }

    /// The reply to an event.
    fn reply_to<W: Runner>(&mut self, alloc: Global, event: &Event, runner: &W) -> Reply
        ensures { Replies self.old event.now result self.new }
    {
        match event {
            Event::Open { session, version } => match self.open(0, *session, *version) {
                Ok(()) => Reply::Opened(*version),
                Err(fault) => fault.reply(),
            },
            Event::Head { session } => match self.head(0, *session) {
                Ok(version) => Reply::At(version.number()),
                Err(fault) => fault.reply(),
            },
            Event::Commit {
                session,
                base,
                edit,
            } => match self.edit(alloc, *session, *base, edit, runner) {
                Ok(number) => Reply::Committed(number),
                Err(fault) => fault.reply(),
            },
            Event::Undo { session } => match self.undo(0, *session) {
                Ok(number) => Reply::Undone(number),
                Err(fault) => fault.reply(),
            },
            Event::Close { session } => match self.close(0, *session) {
                Ok(()) => Reply::Closed,
                Err(fault) => fault.reply(),
            },
        }
    }

    /// Drafts the base, which is one of the table's own versions, and commits the draft.
    fn edit<W: Runner>(
        &mut self,
        alloc: Global,
        session: u32,
        base: u32,
        edit: &Held<Edits>,
        runner: &W,
    ) -> Result<u32, TableFault>
        ensures { TakesOrStays self.old (Commit session base edit.now) (reply_of Committed result) self.new }
    {
        let draft = draft_of(alloc, self.version(base)?, edit, runner)?;
        self.commit_own(0, session, &draft)
    }
}
