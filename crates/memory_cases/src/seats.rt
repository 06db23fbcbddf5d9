//! A desk with its clients, who make the calls of a case.
use crate::calls::{Call, Trial, push_known};
use crate::drafts::{loaded, made_of};
use crate::refusals::{Refused, Window};
use crate::sources::{commit_of, event_of};
use crate::told::Told;
use crate::turn::Shown;
use anyhow::{Result, bail};
use desk::{Client, Desk, Known, Naming};
use level_pool::Runner;
use session_core::Event;
use share_tree::Held;
use stage_graph::Edits;
use std::alloc::Global;
use std::sync::Wait;
use version_store::{StateRepresentation, Version};

/// How many clients a desk has.
pub(crate) const CLIENTS: u32 = 2;

/// The session in which versions are made before a call.
const MAKING: u32 = 9;

/// A desk with its clients, who take turns in making the calls of the steps.
#[derive(Drop)]
struct Seats<'a, 'h, N: Naming, R: StateRepresentation, H: Wait, W> {
    trial: &'a Trial<'a, H, W>,
    desk: &'a Desk<N, R, &'h H>,
    clients: &'a mut [Client<N, R>],
}

/// In which windows a call is made, by whom, and what it shows.
#[derive(Drop)]
struct Making<'a> {
    windows: &'a mut [Window],
    shown: &'a mut Shown,
    /// Whose turn it is.
    turn: usize,
}

/// Tells each version that a client finds.
fn push_versions<N: Naming, R: StateRepresentation>(
    alloc: Global,
    text: &mut Told,
    client: &mut Client<N, R>,
) {
    for number in 0..65_536 {
        match client.version(number) {
            Ok(known) => push_known(alloc, text, known),
            Err(_) => return,
        }
    }
}

impl<N: Naming, R: StateRepresentation, H: Wait, W: Runner> Seats<'_, '_, N, R, H, W> {
    /// The version with this number, as the client reads it whose turn this is.
    fn read(&mut self, turn: usize, number: u32) -> Result<Known<N, R>> {
        match self.clients.get_mut(turn % CLIENTS as usize) {
            Some(client) => Ok(client.version(number)?),
            None => bail!("there is no such client"),
        }
    }

    /// The client whose turn this is makes a call in the window, and its answer is told.
    fn push_answer(
        &mut self,
        window: &mut Window,
        text: &mut Told,
        turn: usize,
        call: &Call<'_, N, R>,
    ) -> bool {
        match self.clients.get_mut(turn % CLIENTS as usize) {
            Some(client) => self
                .trial
                .push_answer(self.desk, client, call, window, text),
            None => text.lose(),
        }
    }

    /// Makes a call in each window, and tells the last answer and what is left.
    fn make(&mut self, making: &mut Making<'_>, call: &Call<'_, N, R>) {
        let seen = self.seen();
        let turn = making.turn;
        for window in making.windows.iter_mut() {
            making.shown.out_of_memory = self.push_answer(
                window,
                &mut making.shown.answer,
                turn,
                call,
            );
        }
        let before = if making.shown.out_of_memory {
            Some(seen)
        } else {
            None
        };
        self.push_seen(&mut making.shown.after, before);
    }

    /// Makes the call of edits of a version, which the client reads whose turn this is.
    fn commit(
        &mut self,
        making: &mut Making<'_>,
        reader: usize,
        session: u32,
        base: u32,
        edits: &Held<Edits>,
    ) -> Result<()> {
        let base = self.read(reader, base)?;
        let call = Call::EditKnown {
            session,
            base: &base,
            edits,
        };
        self.make(making, &call);
        Ok(())
    }

    /// Makes the call of an event. The base of a commit is read by the client whose turn this is.
    fn take_event(&mut self, making: &mut Making<'_>, reader: usize, event: &Event) -> Result<()> {
        let call = match event {
            Event::Commit {
                session,
                base,
                edit,
            } => return self.commit(making, reader, *session, *base, edit),
            Event::Open { session, version } => Call::Open {
                session: *session,
                version: *version,
            },
            Event::Head { session } => Call::Snapshot(*session),
            Event::Undo { session } => Call::Undo(*session),
            Event::Close { session } => Call::CloseSession(*session),
        };
        self.make(making, &call);
        Ok(())
    }

    /// Makes the call of a step. The base of a commit is read by the client whose turn this is.
    fn take(&mut self, making: &mut Making<'_>, reader: usize, step: &str) -> Result<()> {
        let event = event_of(self.trial.alloc, step)?;
        self.take_event(making, reader, &event)
    }

    /// The first client makes so many versions, each of the one before, by the edits of the last step.
    fn add_versions(&mut self, making: &mut Making<'_>, count: u32) -> Result<()> {
        let (_, _, edits) = commit_of(self.trial.alloc, self.trial.scene.step())?;
        let open = Call::Open {
            session: MAKING,
            version: 0,
        };
        self.make(making, &open);
        for base in 0..count {
            self.commit(making, 0, MAKING, base, &edits)?;
        }
        Ok(())
    }

    /// How many steps come before the call. Whose turn is next makes the call.
    fn earlier(&self) -> usize {
        let scene = self.trial.scene;
        match scene.call {
            "version" | "close" | "missing" => scene.steps,
            _ => scene.steps.saturating_sub(1),
        }
    }

    /// Takes all that comes before the call.
    fn take_earlier(&mut self, making: &mut Making<'_>) -> Result<()> {
        let scene = self.trial.scene;
        if scene.call == "grown" {
            self.add_versions(making, scene.number)?;
        }
        for index in 0..self.earlier() {
            making.turn = index;
            self.take(making, index, scene.step_at(index))?;
        }
        Ok(())
    }

    /// A version of another desk: what the last step makes of version 0, under this number.
    fn foreign(&self, number: u32) -> Result<Version<R>> {
        let (alloc, scene) = (self.trial.alloc, self.trial.scene);
        let first = loaded(alloc, scene.recording())?;
        let made = made_of(alloc, self.trial.runner, &first, scene.step(), number);
        drop(first);
        made
    }

    /// Makes the call about a version that may be of another desk.
    fn make_about(&mut self, making: &mut Making<'_>, version: &Version<R>) -> Result<()> {
        let scene = self.trial.scene;
        if scene.call == "recognize" || scene.call == "strange" {
            self.make(making, &Call::Recognize(version));
            return Ok(());
        }
        let (session, _, edits) = commit_of(self.trial.alloc, scene.step())?;
        let call = Call::Edit {
            session,
            version,
            edits: &edits,
        };
        self.make(making, &call);
        Ok(())
    }

    /// Makes the call about the desk's version with the number, as the client reads it who doesn't make the call.
    fn make_about_own(&mut self, making: &mut Making<'_>) -> Result<()> {
        let reader = making.turn.saturating_add(1);
        let known = self.read(reader, self.trial.scene.number)?;
        self.make_about(making, &known)
    }

    /// Makes the call about a version of another desk.
    fn make_about_foreign(&mut self, making: &mut Making<'_>) -> Result<()> {
        let version = self.foreign(self.trial.scene.number)?;
        self.make_about(making, &version)
    }

    /// Makes the call of the last step, or of the number.
    fn make_call(&mut self, making: &mut Making<'_>) -> Result<()> {
        let (scene, turn) = (self.trial.scene, making.turn);
        match scene.call {
            "version" => {
                self.make(making, &Call::Version(scene.number));
                Ok(())
            }
            "edit" | "recognize" => self.make_about_own(making),
            "foreign" | "strange" => self.make_about_foreign(making),
            "lent" => self.take(making, turn.saturating_add(1), scene.step()),
            _ => self.take(making, turn, scene.step()),
        }
    }

    /// How many versions the caller has seen.
    fn seen(&self) -> u64 {
        match self.clients.get(self.earlier() % CLIENTS as usize) {
            Some(client) => client.seen(),
            None => 0,
        }
    }

    /// Tells how many versions each client has seen. Where memory ran out, the caller may have seen more than before its
    /// call, and not less: so it is told as what it had seen before.
    fn push_seen(&self, text: &mut Told, before: Option<u64>) {
        let caller = self.earlier() % CLIENTS as usize;
        for (index, client) in self.clients.iter().enumerate() {
            let seen = match before {
                Some(before) if index == caller => client.seen().min(before),
                _ => client.seen(),
            };
            text.push_number(client.number());
            text.push_count(seen);
        }
    }

    /// Tells the versions that the clients find, and where sessions stand and what they are taken back to, for which they
    /// ask in turn.
    fn push_versions(&mut self, text: &mut Told) {
        let alloc = self.trial.alloc;
        for client in self.clients.iter_mut() {
            push_versions(alloc, text, client);
        }
        let mut window = Window::new(alloc, Refused::None);
        for session in [0, 1, 1, 2, 2, 3] {
            self.push_answer(&mut window, text, 0, &Call::Snapshot(session));
            self.push_answer(&mut window, text, 1, &Call::Undo(session));
        }
    }

    /// Takes the steps before the call. What they show isn't told.
    fn begin(&mut self) -> Result<()> {
        let alloc = self.trial.alloc;
        let mut windows = [Window::new(alloc, Refused::None)];
        let mut making = Making {
            windows: &mut windows,
            shown: &mut Shown::new(alloc),
            turn: 0,
        };
        self.take_earlier(&mut making)
    }

    /// Takes the steps, makes the call in each window if it isn't the close, and tells what is left.
    fn play(&mut self, windows: &mut [Window], shown: &mut Shown) -> Result<()> {
        self.begin()?;
        let (scene, turn) = (self.trial.scene, self.earlier());
        match scene.call {
            "close" | "missing" => self.push_seen(&mut shown.after, None),
            _ => self.make_call(&mut Making {
                windows,
                shown,
                turn,
            })?,
        }
        self.push_versions(&mut shown.after);
        Ok(())
    }
}

/// Takes the steps, makes the call in each window if it isn't the close, and tells what is left.
pub(crate) fn play<N: Naming, R: StateRepresentation, H: Wait, W: Runner>(
    trial: &Trial<'_, H, W>,
    desk: &Desk<N, R, &H>,
    clients: &mut [Client<N, R>],
    windows: &mut [Window],
    shown: &mut Shown,
) -> Result<()> {
    let mut seats = Seats {
        trial,
        desk,
        clients,
    };
    seats.play(windows, shown)
}

/// Tells the versions that the clients find, and where sessions stand.
pub(crate) fn push_left<N: Naming, R: StateRepresentation, H: Wait, W: Runner>(
    trial: &Trial<'_, H, W>,
    desk: &Desk<N, R, &H>,
    clients: &mut [Client<N, R>],
    text: &mut Told,
) {
    let mut seats = Seats {
        trial,
        desk,
        clients,
    };
    seats.push_versions(text);
}
