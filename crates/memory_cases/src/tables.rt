//! Events on a table, and commits of drafts.
ghost use Rattle.std.specs.Prelude.{IfOk};
ghost use Rattle.session_core.specs.Adding.{IsOfState};

use crate::drafts::loaded;
use crate::refusals::Window;
use crate::scene::Scene;
use crate::sources::{event_of, graph_of};
use crate::texts::{push_edits, push_version};
use crate::told::Told;
use crate::turn::{Turn, shown};
use anyhow::Result;
use level_pool::Runner;
use session_core::{Entry, Event, Ready, Reply, Table, TableFault, draft_of};
use std::alloc::Global;
use version_store::{Draft, StateRepresentation, Version};

/// The client whose calls are made where a call takes one.
const CLIENT: u32 = 3;

/// A recording of another graph than those of the cases.
const OTHER: &str = r#"{"stages":[{"name":"a","op":"async","takes":11,"action":4}]}"#;

/// A table for a recording's version 0 and many versions, or for that one alone.
pub(crate) fn table_of<R: StateRepresentation>(
    alloc: Global,
    recording: &str,
    is_full: bool,
) -> Result<Table<R>> {
    let most = if is_full { 1 } else { 65_536 };
    let graph = graph_of(alloc, recording)?;
    Ok(Table::new(alloc, Version::load(alloc, graph)?, most)?)
}

/// The word of an event.
fn word_of(event: &Event) -> &'static str {
    match event {
        Event::Open { .. } => "open",
        Event::Head { .. } => "head",
        Event::Commit { .. } => "commit",
        Event::Undo { .. } => "undo",
        Event::Close { .. } => "close",
    }
}

/// Tells an entry of a history.
fn push_entry(text: &mut Told, entry: &Entry) {
    text.push_numbers(&[entry.who, entry.event.session()]);
    text.push(word_of(&entry.event));
    text.push_reply(entry.reply);
    if let Event::Commit { edit, .. } = &entry.event {
        push_edits(text, edit);
    }
}

/// Tells the entries of a history.
pub(crate) fn push_history(text: &mut Told, history: &[Entry]) {
    for entry in history {
        push_entry(text, entry);
    }
}

/// Tells the versions of a table.
fn push_versions<R: StateRepresentation>(alloc: Global, text: &mut Told, table: &Table<R>) {
    for number in 0..65_536 {
        match table.version(number) {
            Ok(version) => push_version(alloc, text, version),
            Err(_) => return,
        }
    }
}

/// Tells the history and the versions of a table.
pub(crate) fn push_table<R: StateRepresentation>(alloc: Global, text: &mut Told, table: &Table<R>) {
    push_history(text, table.history());
    push_versions(alloc, text, table);
}

/// The reply to an event.
fn reply_to<R: StateRepresentation, W: Runner>(
    alloc: Global,
    table: &mut Table<R>,
    runner: &W,
    event: Event,
) -> Reply {
    table.take(alloc, &event, runner)
}

/// Tells where the sessions stand and what they are taken back to, which changes the table.
pub(crate) fn push_sessions<R: StateRepresentation, W: Runner>(
    alloc: Global,
    text: &mut Told,
    table: &mut Table<R>,
    runner: &W,
) {
    for session in [0, 1, 1, 2, 2, 3] {
        text.push_reply(reply_to(alloc, table, runner, Event::Head { session }));
        text.push_reply(reply_to(alloc, table, runner, Event::Undo { session }));
    }
}

/// Tells a reply, unless memory ran out.
pub(crate) fn push_reply(text: &mut Told, reply: Reply) -> bool {
    if reply == Reply::Memory {
        return true;
    }
    text.push_reply(reply);
    false
}

/// Tells a version that was committed, or why it wasn't.
fn push_committed<R: StateRepresentation>(
    alloc: Global,
    text: &mut Told,
    answer: Result<Version<R>, TableFault>,
) -> bool {
    match answer {
        Ok(version) => push_version(alloc, text, &version),
        Err(fault) => return push_reply(text, fault.reply()),
    }
    false
}

/// Tells the version of a commit that is prepared, or why there is none.
fn push_ready<R: StateRepresentation>(
    alloc: Global,
    text: &mut Told,
    answer: Result<Ready<R>, TableFault>,
) -> bool {
    match answer {
        Ok(ready) => push_version(alloc, text, ready.version()),
        Err(fault) => return push_reply(text, fault.reply()),
    }
    false
}

/// Tells the number of a version that was committed, or why it wasn't.
fn push_finished(text: &mut Told, answer: Result<u32, TableFault>) -> bool {
    match answer {
        Ok(number) => text.push_number(number),
        Err(fault) => return push_reply(text, fault.reply()),
    }
    false
}

/// The reply to an event as a call of the client; a commit is client 0's.
fn reply_by_client<R: StateRepresentation, W: Runner>(
    alloc: Global,
    table: &mut Table<R>,
    runner: &W,
    event: &Event,
) -> Reply {
    match event {
        Event::Open { session, version } => match table.open(CLIENT, *session, *version) {
            Ok(()) => Reply::Opened(*version),
            Err(fault) => fault.reply(),
        },
        Event::Head { session } => match table.head(CLIENT, *session) {
            Ok(version) => Reply::At(version.number()),
            Err(fault) => fault.reply(),
        },
        Event::Undo { session } => match table.undo(CLIENT, *session) {
            Ok(number) => Reply::Undone(number),
            Err(fault) => fault.reply(),
        },
        Event::Close { session } => match table.close(CLIENT, *session) {
            Ok(()) => Reply::Closed,
            Err(fault) => fault.reply(),
        },
        Event::Commit { .. } => table.take(alloc, event, runner),
    }
}

/// An event on a table, or a commit of a draft that its edits make.
#[derive(Drop)]
struct Calling<'a, R: StateRepresentation, W> {
    runner: &'a W,
    scene: Scene<'a>,
    session: u32,
    event: Event,
    table: Table<R>,
}

impl<R: StateRepresentation, W: Runner> Calling<'_, R, W> {
    /// The event.
    fn push_event(&mut self, window: &mut Window, text: &mut Told) -> bool {
        let (alloc, runner) = (window.alloc, self.runner);
        window.begin();
        let reply = match self.scene.call {
            "client" => reply_by_client(alloc, &mut self.table, runner, &self.event),
            _ => self.table.take(alloc, &self.event, runner),
        };
        window.end();
        push_reply(text, reply)
    }

    /// The draft that the edits make of the table's version.
    fn own_draft(&self, alloc: Global) -> Result<Draft<R>, TableFault>
        ensures { IfOk result (λ draft. IsOfState self.now.table.state self.now.session draft) }
    {
        let Event::Commit { base, edit, .. } = &self.event else {
            return Err(TableFault::Memory);
        };
        let version = self.table.version(*base)?;
        match draft_of(alloc, version, edit, self.runner) {
            Ok(draft) => Ok(draft),
            Err(fault) => Err(fault),
        }
    }

    /// The commit of a draft.
    fn push_commit(&mut self, window: &mut Window, text: &mut Told, draft: &Draft<R>) -> bool {
        window.begin();
        let version = self.table.commit(CLIENT, self.session, draft);
        window.end();
        push_committed(window.alloc, text, version)
    }

    /// A commit that is prepared, and given up.
    fn push_prepared(&mut self, window: &mut Window, text: &mut Told, draft: &Draft<R>) -> bool
        requires { IsOfState self.old.table.state self.old.session draft.now }
    {
        window.begin();
        let ready = self.table.prepare(CLIENT, self.session, draft);
        window.end();
        push_ready(window.alloc, text, ready)
    }

    /// Prepares a commit, and finishes it.
    fn finish(&mut self, draft: &Draft<R>) -> Result<u32, TableFault>
        requires { IsOfState self.old.table.state self.old.session draft.now }
    {
        let ready = self.table.prepare(CLIENT, self.session, draft)?;
        Ok(self.table.finish(ready))
    }

    /// A commit that is prepared, and finished.
    fn push_finished(&mut self, window: &mut Window, text: &mut Told, draft: &Draft<R>) -> bool
        requires { IsOfState self.old.table.state self.old.session draft.now }
    {
        window.begin();
        let number = self.finish(draft);
        window.end();
        push_finished(text, number)
    }

    /// The commit of a draft of this version, which is of another graph.
    fn push_foreign_of(
        &mut self,
        window: &mut Window,
        text: &mut Told,
        other: &Version<R>,
    ) -> bool {
        let Event::Commit { edit, .. } = &self.event else {
            return text.lose();
        };
        match draft_of(window.alloc, other, edit, self.runner) {
            Ok(draft) => self.push_commit(window, text, &draft),
            Err(_) => text.lose(),
        }
    }

    /// The commit of a draft of another graph's version.
    fn push_foreign(&mut self, window: &mut Window, text: &mut Told) -> bool {
        match loaded(window.alloc, OTHER) {
            Ok(other) => self.push_foreign_of(window, text, &other),
            Err(_) => text.lose(),
        }
    }

    /// The call with a draft of the table's own version.
    fn push_own_of(&mut self, window: &mut Window, text: &mut Told, draft: &Draft<R>) -> bool
        requires { IsOfState self.old.table.state self.old.session draft.now }
    {
        match self.scene.call {
            "prepare" => self.push_prepared(window, text, draft),
            "finish" => self.push_finished(window, text, draft),
            _ => self.push_commit(window, text, draft),
        }
    }

    /// The call with the draft of the table's own version.
    fn push_own(&mut self, window: &mut Window, text: &mut Told) -> bool {
        match self.own_draft(window.alloc) {
            Ok(draft) => self.push_own_of(window, text, &draft),
            Err(_) => text.lose(),
        }
    }

    /// The call.
    fn push_answer(&mut self, window: &mut Window, text: &mut Told) -> bool {
        match self.scene.call {
            "take" | "client" => self.push_event(window, text),
            "foreign" => self.push_foreign(window, text),
            _ => self.push_own(window, text),
        }
    }

    fn show(&mut self, window: &mut Window, turn: &mut Turn) {
        shown!(
            turn,
            window,
            |text| push_table(window.alloc, text, &self.table),
            |window, text| self.push_answer(window, text)
        );
        push_sessions(window.alloc, &mut turn.end, &mut self.table, self.runner);
    }
}

/// Takes the events of the steps before the last.
fn take_earlier<R: StateRepresentation, W: Runner>(
    alloc: Global,
    scene: Scene<'_>,
    runner: &W,
    table: &mut Table<R>,
) -> Result<()> {
    for index in 0..scene.steps.saturating_sub(1) {
        let event = event_of(alloc, scene.step_at(index))?;
        let _ = reply_to(alloc, table, runner, event);
    }
    Ok(())
}

/// Makes so many entries of refusals.
fn take_refused<R: StateRepresentation, W: Runner>(
    alloc: Global,
    runner: &W,
    table: &mut Table<R>,
    count: u32,
) {
    for _turn in 0..count {
        let _ = reply_to(alloc, table, runner, Event::Head { session: 99 });
    }
}

/// The table of the recording after the events of the steps before the last, and so many entries of refusals.
fn table_before<R: StateRepresentation, W: Runner>(
    alloc: Global,
    scene: Scene<'_>,
    runner: &W,
) -> Result<Table<R>> {
    let mut table = table_of(alloc, scene.recording(), scene.call == "full")?;
    take_earlier(alloc, scene, runner, &mut table)?;
    take_refused(alloc, runner, &mut table, scene.number);
    Ok(table)
}

/// The last step's event on a table, or a commit of its edits, after the steps before it.
pub(crate) fn show<R: StateRepresentation, W: Runner>(
    window: &mut Window,
    scene: Scene<'_>,
    turn: &mut Turn,
    runner: &W,
) -> Result<()> {
    let event = event_of(window.alloc, scene.step())?;
    let mut calling = Calling::<R, W> {
        runner,
        scene,
        session: event.session(),
        event,
        table: table_before(window.alloc, scene, runner)?,
    };
    calling.show(window, turn);
    Ok(())
}
