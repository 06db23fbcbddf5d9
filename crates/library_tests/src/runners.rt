//! Runners of levels, and their gates.
ghost use Rattle.std.specs.Prelude.{◌≡◌, ◌*◌, ◌<◌, ◌≤◌, ◌^◌, IfOk, All, map};

use crate::gates::Meeting;
use level_pool::{Gate, NoGate, OneThread, PoolFault, Pooled, Runner, Scoped};
use std::alloc::{AllocError, Global};
use std::process::Abort;
use std::sync::atomic::{AtomicU64, Ordering};
use std::thread::Threads;
use std::time::Clock;

/// Each of the numbers doubled. A caller that knows nothing of its runner proves its own answer.
fn doubled<R: Runner>(runner: &R, alloc: Global, numbers: &[u32]) -> Result<Vec<u32>, PoolFault>
    requires { All (λ number. 2 * number < 2 ^ 32) numbers.now }
    ensures { IfOk result (λ doubled. doubled.items ≡ map (λ number. 2 * number) numbers.now) }
{
    runner.run(
        alloc,
        numbers,
        &|number: u32| -> u32
            requires { 2 * number < 2 ^ 32 }
            ensures { result ≡ 2 * number }
        { 2 * number },
    )
}

/// A test of any runner: a level of four pieces, and an empty one.
fn trees_and_runners<R: Runner>(
    rt: &impl Abort,
    alloc: Global,
    runner: &R,
) -> Result<(), PoolFault> {
    let four = doubled(runner, alloc, &[5, 6, 7, 8])?;
    assert!(rt; four.as_slice() == [10, 12, 14, 16].as_slice());
    let none = doubled(runner, alloc, &[])?;
    assert!(rt; none.is_empty());
    Ok(())
}

/// The same of each runner.
fn trees_and_runners_of_each<H: Abort + Threads + Sync>(
    rt: &H,
    alloc: Global,
) -> Result<(), PoolFault> {
    trees_and_runners(rt, alloc, &OneThread::new(rt))?;
    trees_and_runners(rt, alloc, &Scoped::new(rt, 3, NoGate))?;
    trees_and_runners(rt, alloc, &Pooled::new(rt))
}

/// How many of the pieces 1 and 2 continued alone.
fn gone_on_alone<R: Threads + Clock + Sync>(
    rt: &R,
    alloc: Global,
    workers: usize,
) -> Result<u64, PoolFault>
    requires some { 0 < workers }
    requires few { workers ≤ 16 }
{
    let meeting = Meeting::new(rt);
    Scoped::new(rt, workers, &meeting).run(alloc, &[1, 2], &|piece| piece)?;
    Ok(meeting.gone_on_alone())
}

/// A runner that computes all pieces in one thread fails here, at the end of the first piece's turns. The gate
/// distinguishes one thread from two: the only worker's first piece continues alone.
fn two_workers_meet<H: Abort + Threads + Clock + Sync>(
    rt: &H,
    alloc: Global,
) -> Result<(), PoolFault> {
    for (workers, alone) in [(2, 0), (1, 1)] {
        assert!(rt; gone_on_alone(rt, alloc, workers)? == alone);
    }
    Ok(())
}

/// A gate that adds up the pieces that entered and those that left.
#[derive(Drop)]
struct Sums {
    entered: AtomicU64,
    left: AtomicU64,
}

impl Gate for Sums {
    fn enter(&self, piece: u32) {
        self.entered.fetch_add(u64::from(piece), Ordering::SeqCst);
    }

    fn leave(&self, piece: u32) {
        self.left.fetch_add(u64::from(piece), Ordering::SeqCst);
    }
}

fn each_piece_passes_the_gate<H: Abort + Threads + Sync>(
    rt: &H,
    alloc: Global,
) -> Result<(), PoolFault> {
    let sums = Sums {
        entered: AtomicU64::new(0),
        left: AtomicU64::new(0),
    };
    Scoped::new(rt, 3, &sums).run(alloc, &[1, 10, 100, 1000], &|piece| piece)?;
    assert!(rt; sums.entered.load(Ordering::SeqCst) == 1111);
    assert!(rt; sums.left.load(Ordering::SeqCst) == 1111);
    Ok(())
}

/// A gate that records for each of four pieces whether it has entered, and whether it has left.
#[derive(Drop)]
struct Doors {
    turns: Vec<AtomicU64>,
}

impl Doors {
    fn new(alloc: Global) -> Result<Doors, AllocError> {
        let mut turns = Vec::new(alloc);
        for _piece in 0..4 {
            turns.push(AtomicU64::new(0))?;
        }
        Ok(Doors { turns })
    }

    /// 0 for a piece that has not entered, 1 for one that is inside, and 2 for one that has left.
    fn turn_of(&self, piece: u32) -> u64 {
        match self.turns.get(piece as usize) {
            Some(turn) => turn.load(Ordering::SeqCst),
            None => 3,
        }
    }

    fn turn(&self, piece: u32) {
        if let Some(turn) = self.turns.get(piece as usize) {
            turn.fetch_add(1, Ordering::SeqCst);
        }
    }
}

impl Gate for Doors {
    fn enter(&self, piece: u32) {
        self.turn(piece);
    }

    fn leave(&self, piece: u32) {
        self.turn(piece);
    }
}

/// What holds of runners.
fn hold<H: Abort + Threads + Clock + Sync>(rt: &H, alloc: Global) -> Result<(), PoolFault> {
    trees_and_runners_of_each(rt, alloc)?;
    two_workers_meet(rt, alloc)?;
    each_piece_passes_the_gate(rt, alloc)
}

#[test]
fn runners(rt: HostRuntime) -> Result<(), PoolFault> {
    hold(&rt, rt.alloc())
}

/// A piece enters before it is computed, and leaves after it: computed at the wrong time, it would find itself outside.
#[test]
fn each_piece_is_computed_inside(rt: HostRuntime) -> Result<(), PoolFault> {
    let doors = Doors::new(rt.alloc())?;
    let runner = Scoped::new(&rt, 3, &doors);
    let found = runner.run(rt.alloc(), &[0, 1, 2, 3], &|piece| doors.turn_of(piece))?;
    assert!(rt; found.as_slice() == [1, 1, 1, 1].as_slice());
    for piece in 0..4 {
        assert!(rt; doors.turn_of(piece) == 2);
    }
    Ok(())
}
