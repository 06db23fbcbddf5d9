//! Cases with each of their requests for memory refused in turn.
use crate::cases::turn_of;
use crate::refusals::{Refused, can_refuse};
use crate::scene::Scene;
use crate::turn::Turn;
use anyhow::Result;
use share_tree::Keeps;
use std::alloc::Global;
use std::sync::Wait;
use std::thread::Threads;
use version_store::StateRepresentation;

/// The most requests that a call is taken to make.
const MOST: u32 = 20_000;

/// Counts the cases, and the tests of them that passed and failed.
#[derive(Drop)]
pub(crate) struct Sweep {
    alloc: Global,
    can_refuse: bool,
    cases: u64,
    passed: u64,
    failed: u64,
}

/// Which of a call's requests are refused in a turn.
fn refused_from(nth: u32, all_after: bool) -> Refused {
    match all_after {
        true => Refused::From(nth),
        false => Refused::Nth(nth),
    }
}

/// Whether a request was refused in a turn of a case, and what is wrong with the turn.
fn tried<F: Keeps<u32>, R: StateRepresentation, H: Threads + Wait + Sync>(
    rt: &H,
    alloc: Global,
    scene: Scene<'_>,
    refused: Refused,
    ordinary: &Turn,
) -> Result<(bool, Option<&'static str>)> {
    let turn = turn_of::<F, R, H>(rt, alloc, scene, refused)?;
    Ok((turn.met, turn.fault(ordinary)))
}

/// How many requests of a case were refused, and what is wrong at the last of these.
fn tried_each<F: Keeps<u32>, R: StateRepresentation, H: Threads + Wait + Sync>(
    rt: &H,
    alloc: Global,
    scene: Scene<'_>,
    ordinary: &Turn,
    all_after: bool,
) -> Result<(u32, Option<&'static str>)> {
    for nth in 1..MOST {
        let refused = refused_from(nth, all_after);
        let (met, wrong) = tried::<F, R, H>(rt, alloc, scene, refused, ordinary)?;
        if wrong.is_some() {
            return Ok((nth, wrong));
        }
        if !met {
            return Ok((nth - 1, None));
        }
    }
    Ok((MOST, Some("more requests than are tried")))
}

impl Sweep {
    pub(crate) fn new(alloc: Global) -> Sweep {
        Sweep {
            alloc,
            can_refuse: can_refuse(alloc),
            cases: 0,
            passed: 0,
            failed: 0,
        }
    }

    /// Counts a test that passed.
    fn pass(&mut self) {
        self.passed = self.passed.saturating_add(1);
    }

    /// Counts a test that failed.
    fn fail(&mut self) {
        self.failed = self.failed.saturating_add(1);
    }

    /// Counts a test, and tells how many requests were refused in it, or what is wrong at the last.
    fn count<H: Print>(&mut self, rt: &H, name: &str, nth: u32, wrong: Option<&str>) -> Result<()> {
        let (begin, what) = match wrong {
            None => ("", "requests refused"),
            Some(wrong) => ("FAILED ", wrong),
        };
        match wrong.is_none() {
            true => self.pass(),
            false => self.fail(),
        }
        println!(rt; "{begin}{name}: {nth} {what}")?;
        Ok(())
    }

    /// Each request of a case refused: alone, or with all after it.
    fn each<F: Keeps<u32>, R: StateRepresentation, H: Print + Threads + Wait + Sync>(
        &mut self,
        rt: &H,
        scene: Scene<'_>,
        ordinary: &Turn,
        all_after: bool,
    ) -> Result<()> {
        let (nth, wrong) = tried_each::<F, R, H>(rt, self.alloc, scene, ordinary, all_after)?;
        self.count(rt, scene.name, nth, wrong)
    }

    /// A case with memory, and then, if requests can be refused, two tests of it: each request refused alone, and each
    /// with all after it.
    pub(crate) fn case<F: Keeps<u32>, R: StateRepresentation, H: Print + Threads + Wait + Sync>(
        &mut self,
        rt: &H,
        scene: Scene<'_>,
    ) -> Result<()> {
        let ordinary = turn_of::<F, R, H>(rt, self.alloc, scene, Refused::None)?;
        self.case_as::<F, R, H>(rt, scene, &ordinary)
    }

    /// The tests of a case, by what it shows with memory. One that is out of memory then is wrong, as a planted call has to be.
    fn case_as<F: Keeps<u32>, R: StateRepresentation, H: Print + Threads + Wait + Sync>(
        &mut self,
        rt: &H,
        scene: Scene<'_>,
        ordinary: &Turn,
    ) -> Result<()> {
        self.cases = self.cases.saturating_add(1);
        let is_planted = scene.group == "wrong";
        // This is found where no request can be refused, too.
        if ordinary.first.out_of_memory {
            let wrong = (!is_planted).then_some("out of memory, with memory");
            return self.count(rt, scene.name, 0, wrong);
        }
        if !self.can_refuse {
            return Ok(());
        }
        if is_planted {
            return self.wrong::<F, R, H>(rt, scene, ordinary);
        }
        self.each::<F, R, H>(rt, scene, ordinary, false)?;
        self.each::<F, R, H>(rt, scene, ordinary, true)
    }

    /// The test of a wrong call, which has to be found.
    fn wrong<F: Keeps<u32>, R: StateRepresentation, H: Print + Threads + Wait + Sync>(
        &mut self,
        rt: &H,
        scene: Scene<'_>,
        ordinary: &Turn,
    ) -> Result<()> {
        let refused = Refused::Nth(1);
        let (_, wrong) = tried::<F, R, H>(rt, self.alloc, scene, refused, ordinary)?;
        match wrong {
            Some(_) => self.count(rt, scene.name, 1, None),
            None => self.count(rt, scene.name, 1, Some("a wrong call isn't found")),
        }
    }

    /// Tells how many tests passed and failed, or how many cases there are, and whether none failed.
    pub(crate) fn end<H: Print>(&self, rt: &H) -> Result<bool> {
        let (count, what) = match self.can_refuse {
            true => (self.passed, "passed"),
            false => (self.cases, "cases with memory"),
        };
        println!(rt; "{count} {what}, {} failed", self.failed)?;
        Ok(self.failed == 0)
    }
}
