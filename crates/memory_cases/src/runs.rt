//! Lists of events that are run on a table.
use crate::refusals::Window;
use crate::scene::Scene;
use crate::sources::event_of;
use crate::tables::{push_sessions, push_table, table_of};
use crate::told::Told;
use crate::turn::Turn;
use anyhow::Result;
use level_pool::Runner;
use session_core::{Event, Reply, Table, run};
use std::alloc::{AllocError, Global};
use version_store::StateRepresentation;

/// A table, events that are run on it, and the replies.
#[derive(Drop)]
struct Running<'a, R: StateRepresentation, W> {
    runner: &'a W,
    events: Vec<Event>,
    replies: Vec<Reply>,
    table: Table<R>,
}

/// Whether an event was not processed because memory ran out.
fn is_out_of_memory(reply: &Reply) -> bool {
    *reply == Reply::Memory
}

/// Adds the event of a step.
fn add_event(alloc: Global, events: &mut Vec<Event>, step: &str) -> Result<()> {
    Ok(events.push(event_of(alloc, step)?)?)
}

/// The events of the steps, but those with replies that say that they were not processed.
fn events_of(alloc: Global, scene: Scene<'_>, replies: &[Reply]) -> Result<Vec<Event>> {
    let mut events = Vec::new(alloc);
    for index in 0..scene.steps {
        let is_left_out = replies.get(index).is_some_and(is_out_of_memory);
        if !is_left_out {
            add_event(alloc, &mut events, scene.step_at(index))?;
        }
    }
    Ok(events)
}

/// A run of the events of the steps on a new table, but those with replies that say that they were not processed.
fn run_of<'a, R: StateRepresentation, W: Runner>(
    alloc: Global,
    scene: Scene<'_>,
    left_out: &[Reply],
    runner: &'a W,
) -> Result<Running<'a, R, W>> {
    let events = events_of(alloc, scene, left_out)?;
    Ok(Running {
        runner,
        events,
        replies: Vec::new(alloc),
        table: table_of(alloc, scene.recording(), false)?,
    })
}

/// Each of so many events has the reply that it was not processed.
fn refuse_all(replies: &mut Vec<Reply>, events: usize) -> Result<(), AllocError> {
    for _event in 0..events {
        replies.push(Reply::Memory)?;
    }
    Ok(())
}

/// Tells replies, but those that say that an event was not processed.
fn push_replies(text: &mut Told, replies: &[Reply]) {
    for reply in replies {
        if !is_out_of_memory(reply) {
            text.push_reply(*reply);
        }
    }
}

impl<R: StateRepresentation, W: Runner> Running<'_, R, W> {
    /// Runs the events in the window. Where all were refused, each has the reply that it was not processed; false where
    /// memory runs out for these replies.
    fn run(&mut self, window: &mut Window) -> bool {
        let (alloc, events) = (window.alloc, self.events.as_slice());
        window.begin();
        let ran = run(
            alloc,
            &mut self.table,
            events,
            self.runner,
            &mut self.replies,
        );
        window.end();
        match ran {
            Ok(()) => true,
            Err(_) => refuse_all(&mut self.replies, self.events.len()).is_ok(),
        }
    }

    /// Runs the events in the window, and tells the replies and the table.
    fn show(&mut self, window: &mut Window, turn: &mut Turn) {
        push_table(window.alloc, &mut turn.before, &self.table);
        let has_replies = self.run(window);
        turn.met = window.met;
        turn.first.answer.keep(has_replies);
        push_replies(&mut turn.first.answer, self.replies.as_slice());
        push_table(window.alloc, &mut turn.first.after, &self.table);
        push_sessions(window.alloc, &mut turn.end, &mut self.table, self.runner);
    }
}

/// What a run with memory shows, of the events but those with replies that say that they were not processed.
fn ran_without<R: StateRepresentation, W: Runner>(
    mut window: Window,
    scene: Scene<'_>,
    left_out: &[Reply],
    runner: &W,
) -> Result<Turn> {
    let mut running: Running<'_, R, W> = run_of(window.alloc, scene, left_out, runner)?;
    let mut turn = Turn::new(window.alloc);
    running.show(&mut window, &mut turn);
    Ok(turn)
}

/// Where events were not processed, the other replies and the table have to be those of a run without these events: then
/// it is as if the value had not changed, and else the text of what is left stays another one.
fn compare(turn: &mut Turn, others: &Turn, whole: Turn) {
    if others.first.is_as(&turn.first) && others.end.as_str() == turn.end.as_str() {
        turn.first.after.be(&turn.before);
    }
    turn.first.out_of_memory = true;
    turn.first.answer.clear();
    turn.again = whole.first;
    turn.end = whole.end;
}

/// Compares a run in which events were not processed with one without these events.
fn show_others<R: StateRepresentation, W: Runner>(
    window: &Window,
    scene: Scene<'_>,
    turn: &mut Turn,
    left_out: &[Reply],
    runner: &W,
) -> Result<()> {
    let others = ran_without::<R, W>(window.with_memory(), scene, left_out, runner)?;
    let whole = ran_without::<R, W>(window.with_memory(), scene, &[], runner)?;
    compare(turn, &others, whole);
    Ok(())
}

/// A run.
pub(crate) fn show<R: StateRepresentation, W: Runner>(
    window: &mut Window,
    scene: Scene<'_>,
    turn: &mut Turn,
    runner: &W,
) -> Result<()> {
    let mut running: Running<'_, R, W> = run_of(window.alloc, scene, &[], runner)?;
    running.show(window, turn);
    if !running.replies.iter().any(is_out_of_memory) {
        return Ok(());
    }
    show_others::<R, W>(window, scene, turn, running.replies.as_slice(), runner)
}
