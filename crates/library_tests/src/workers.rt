//! Drafts by two workers: each touched stage is computed once, and two stages of one level at the same time.
use crate::gates::Meeting;
use crate::versions::made;
use level_pool::{Gate, Scoped};
use std::alloc::{AllocError, Global};
use std::process::Abort;
use std::sync::atomic::{AtomicU64, Ordering};
use std::test::Fail;
use std::thread::Threads;
use std::time::Clock;
use test_kit::{COMPOSE_PICKS, REWIRE_A, REWIRED};
use version_store::{StateRepresentation, Version};

/// A gate that counts how often each of the first eight pieces ran.
#[derive(Drop)]
struct Counted {
    counts: Vec<AtomicU64>,
}

impl Counted {
    fn new(alloc: Global) -> Result<Counted, AllocError> {
        let mut counts = Vec::new(alloc);
        for _piece in 0..8 {
            counts.push(AtomicU64::new(0))?;
        }
        Ok(Counted { counts })
    }

    /// Whether each of these pieces ran once, and no other one.
    fn is_just(&self, places: &[u32]) -> bool {
        let mut pairs = self.counts.iter().zip(0..8);
        pairs.all(|(count, place)| {
            let wanted = if places.contains(&place) { 1 } else { 0 };
            count.load(Ordering::SeqCst) == wanted
        })
    }
}

impl Gate for Counted {
    fn enter(&self, piece: u32) {
        if let Some(count) = self.counts.get(piece as usize) {
            count.fetch_add(1, Ordering::SeqCst);
        }
    }

    fn leave(&self, _piece: u32) {}
}

/// Whether a step on a recording touches these places, where two workers pass a gate with each piece.
fn touches<R: StateRepresentation, H: Abort + Threads + Sync, G: Gate + Sync>(
    rt: &H,
    alloc: Global,
    gate: &G,
    recording: &str,
    step: &str,
    places: &[u32],
) -> Result<bool, Fail> {
    let made: Version<R> = made(alloc, &Scoped::new(rt, 2, gate), recording, step)?;
    Ok(made.touched() == places)
}

/// A step on a recording touches these places, and the stage at each is computed once; no other one is computed.
fn ran<R: StateRepresentation, H: Abort + Threads + Sync>(
    rt: &H,
    alloc: Global,
    recording: &str,
    step: &str,
    places: &[u32],
) -> Result<(), Fail> {
    let counted = Counted::new(alloc)?;
    let is_touched = touches::<R, H, Counted>(rt, alloc, &counted, recording, step, places)?;
    assert!(rt; is_touched && counted.is_just(places));
    Ok(())
}

/// A draft computes the touched stages by its runner, each once, and no others.
fn run_once<R: StateRepresentation, H: Abort + Threads + Sync>(
    rt: &H,
    alloc: Global,
) -> Result<(), Fail> {
    let unread = r#"{"do":"setTakes","session":1,"stage":"i1","takes":4}"#;
    let index = r#"{"do":"setAction","session":1,"stage":"s","action":1}"#;
    ran::<R, H>(rt, alloc, COMPOSE_PICKS, unread, &[2])?;
    ran::<R, H>(rt, alloc, COMPOSE_PICKS, index, &[0, 3])?;
    ran::<R, H>(rt, alloc, REWIRED, REWIRE_A, &[3, 4, 5])
}

/// `x` and `y` come of `z`.
const TWO_OF_ONE: &str = r#"{"stages":[{"name":"z","op":"completed","value":1},
    {"name":"x","op":"thenApply","sources":["z"],"action":["arg",0]},
    {"name":"y","op":"thenApply","sources":["z"],"action":["arg",0]}]}"#;

const PIN_Z: &str = r#"{"do":"pinResult","session":1,"stage":"z","result":{"value":2}}"#;

/// The two stages of one rank are computed at the same time. Were they computed one by one, the first would use up its turns.
fn meet<R: StateRepresentation, H: Abort + Threads + Clock + Sync>(
    rt: &H,
    alloc: Global,
) -> Result<(), Fail> {
    let meeting = Meeting::new(rt);
    assert!(rt; touches::<R, H, _>(rt, alloc, &meeting, TWO_OF_ONE, PIN_Z, &[0, 1, 2])?);
    assert!(rt; meeting.entered() == 2);
    assert!(rt; meeting.gone_on_alone() == 0);
    Ok(())
}

/// What holds of drafts by two workers.
pub(crate) fn hold<R: StateRepresentation, H: Abort + Threads + Clock + Sync>(
    rt: &H,
    alloc: Global,
) -> Result<(), Fail> {
    run_once::<R, H>(rt, alloc)?;
    meet::<R, H>(rt, alloc)
}
