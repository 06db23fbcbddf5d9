//! The clients in threads of their own.
use crate::asking::{Access, play};
use crate::signals::{Gated, Signals};
use crate::steps::Script;
use desk::{Client, Desk, Naming};
use stage_graph::InShared;
use std::alloc::{AllocError, Global};
use std::sync::Wait;
use std::thread::{self, Threads};
use std::time::Clock;
use std::vec::IntoIter;
use version_store::StateRepresentation;

/// The next script, or one that does nothing.
fn next_script(alloc: Global, scripts: &mut IntoIter<Script>) -> Script {
    match scripts.next() {
        Some(script) => script,
        None => Script::new(alloc),
    }
}

/// A client with its script.
#[derive(Drop)]
struct Seat<'a, N: Naming, H: Wait + Drop> {
    rt: &'a H,
    alloc: Global,
    desk: &'a Desk<N, InShared, H>,
    signals: &'a Signals,
    client: Client<N, InShared>,
    script: Script,
}

/// The seats with one more, if there is memory for all of them.
fn with_seat<S: Drop>(seats: Result<Vec<S>, AllocError>, seat: S) -> Result<Vec<S>, AllocError> {
    let mut seats = seats?;
    seats.push(seat)?;
    Ok(seats)
}

/// A seat for each client, with its script. A client without one does nothing.
fn seats_of<'a, N: Naming, H: Wait + Drop>(
    rt: &'a H,
    alloc: Global,
    desk: &'a Desk<N, InShared, H>,
    signals: &'a Signals,
    clients: Vec<Client<N, InShared>>,
    scripts: Vec<Script>,
) -> Result<Vec<Seat<'a, N, H>>, AllocError> {
    let mut scripts = scripts.into_iter();
    let mut seats = Ok(Vec::new(alloc));
    for client in clients {
        let seat = Seat {
            rt,
            alloc,
            desk,
            signals,
            client,
            script: next_script(alloc, &mut scripts),
        };
        seats = with_seat(seats, seat);
    }
    seats
}

/// A client plays its script.
fn play_script<N: Naming, K: StateRepresentation, H: Threads + Wait + Clock + Drop + Sync>(
    rt: &H,
    alloc: Global,
    desk: &Desk<N, K, H>,
    signals: &Signals,
    client: &mut Client<N, K>,
    script: &mut Script,
) {
    let runner = &Gated::new(rt, script.way, signals, script.waits);
    let access = Access {
        rt,
        alloc,
        desk,
        signals,
        runner,
    };
    play(&access, client, script.steps.as_mut_slice());
}

/// Each client plays its script, in a thread of its own if one can be started.
fn play_each<N: Naming + Send + Sync, H: Threads + Wait + Clock + Drop + Send + Sync>(
    rt: &H,
    seats: &mut [Seat<'_, N, H>],
) {
    let threads = seats.len().max(1);
    thread::for_each_mut(
        rt,
        seats,
        threads,
        &|_, seat: &mut Seat<'_, N, H>| {
            play_script(
                seat.rt,
                seat.alloc,
                seat.desk,
                seat.signals,
                &mut seat.client,
                &mut seat.script,
            )
        },
    );
}

/// The clients once each has played its script.
#[derive(Drop)]
pub(crate) struct Played<C> {
    pub(crate) clients: Vec<C>,
    pub(crate) scripts: Vec<Script>,
}

impl<C: Drop> Played<C> {
    /// One client more.
    fn add(&mut self, client: C, script: Script) -> Result<(), AllocError> {
        self.clients.push(client)?;
        self.scripts.push(script)?;
        Ok(())
    }
}

/// The clients that have played with one more, if there is memory for all of them.
fn with_client<C: Drop>(
    played: Result<Played<C>, AllocError>,
    client: C,
    script: Script,
) -> Result<Played<C>, AllocError> {
    let mut played = played?;
    played.add(client, script)?;
    Ok(played)
}

/// The clients with their scripts, once each has left its seat.
fn leave<N: Naming, H: Wait + Drop>(
    alloc: Global,
    seats: Vec<Seat<'_, N, H>>,
) -> Result<Played<Client<N, InShared>>, AllocError> {
    let clients = Vec::new(alloc);
    let scripts = Vec::new(alloc);
    let mut played = Ok(Played { clients, scripts });
    for seat in seats {
        let Seat { client, script, .. } = seat;
        played = with_client(played, client, script);
    }
    played
}

/// The clients once each has played its script.
pub(crate) fn play_all<N: Naming + Send + Sync, H: Threads + Wait + Clock + Drop + Send + Sync>(
    rt: &H,
    alloc: Global,
    desk: &Desk<N, InShared, H>,
    signals: &Signals,
    clients: Vec<Client<N, InShared>>,
    scripts: Vec<Script>,
) -> Result<Played<Client<N, InShared>>, AllocError> {
    let mut seats = seats_of(rt, alloc, desk, signals, clients, scripts)?;
    play_each(rt, &mut seats);
    leave(alloc, seats)
}
