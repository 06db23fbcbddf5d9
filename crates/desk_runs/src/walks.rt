//! Random steps of clients on shared sessions.
ghost use Rattle.std.specs.Prelude.{◌<◌};

use crate::steps::{Request, Script, Step, edit};
use act_expr::{Expr, Form, Outcome, Value};
use session_core::{Entry, Event};
use share_tree::Held;
use stage_graph::{Edit, Edits, Name, NameList};
use std::alloc::{AllocError, Global};

/// How often each client takes two steps.
const TURNS: u32 = 250;

/// The sessions that the clients share.
const SESSIONS: u32 = 5;

/// Numbers that look random, and are the same at each run.
#[derive(Drop)]
struct Numbers {
    state: u64,
}

impl Numbers {
    /// A number below a bound.
    fn below(&mut self, bound: u32) -> u32
        requires { 0 < bound }
        ensures { result < bound }
    {
        self.state = self
            .state
            .wrapping_mul(6_364_136_223_846_793_005)
            .wrapping_add(1_442_695_040_888_963_407);
        let drawn = ((self.state >> 33) % 2_147_483_648) as u32;
        drawn % bound
    }

    /// The number of a session.
    fn session(&mut self) -> u32 {
        1 + self.below(SESSIONS)
    }

    /// The number of a version that there may be. Low ones come more often.
    fn version(&mut self) -> u32 {
        match self.below(3) {
            0 => 0,
            1 => self.below(30),
            _ => self.below(450),
        }
    }
}

/// The name of one of the stages, or of one that is not there.
fn random_name(alloc: Global, numbers: &mut Numbers) -> Result<Name, AllocError> {
    let stage = numbers.below(9);
    let text = format!(in alloc; "s{stage}")?;
    Name::new(alloc, text.as_str())
}

/// The edit that gives the fourth stage one source.
fn rewire(alloc: Global, source: Name) -> Result<Edit, AllocError> {
    let mut sources = NameList::new(alloc);
    sources.push(source)?;
    Ok(Edit::Rewire {
        name: Name::new(alloc, "s3")?,
        sources,
        inner: NameList::new(alloc),
    })
}

/// A random edit. Most are taken, and some are refused.
fn random_edit(alloc: Global, numbers: &mut Numbers) -> Result<Edit, AllocError> {
    let name = random_name(alloc, numbers)?;
    let ticks = numbers.below(9);
    match numbers.below(6) {
        0 => Ok(Edit::SetAction {
            name,
            action: Expr::new(alloc, Form::Literal(Value::Num(i64::from(ticks))))?,
        }),
        1 => Ok(Edit::PinMoment {
            name,
            moment: Some(u64::from(ticks)),
        }),
        2 => Ok(Edit::PinResult {
            name,
            result: Some(Outcome::Value(Value::Num(i64::from(ticks)))),
        }),
        3 => rewire(alloc, name),
        _ => Ok(Edit::SetTimes {
            name,
            queued: 0,
            runs: u64::from(ticks),
        }),
    }
}

/// A list of one random edit.
fn random_edits(alloc: Global, numbers: &mut Numbers) -> Result<Held<Edits>, AllocError> {
    let edit = random_edit(alloc, numbers)?;
    Held::new(alloc, Edits::one(alloc, edit)?)
}

/// A commit of what stands at hand.
fn random_commit(alloc: Global, numbers: &mut Numbers, session: u32) -> Result<Step, AllocError> {
    let edits = random_edits(alloc, numbers)?;
    Ok(Step::new(edit(session, edits)))
}

/// A random step.
fn random_step(alloc: Global, numbers: &mut Numbers, session: u32) -> Result<Step, AllocError> {
    match numbers.below(16) {
        0 | 1 => Ok(Step::new(Request::Read(numbers.version()))),
        2 | 3 | 4 => Ok(Step::ask(Event::Open {
            session,
            version: numbers.version(),
        })),
        5 => Ok(Step::ask(Event::Close { session })),
        6 | 7 => Ok(Step::ask(Event::Undo { session })),
        _ => random_commit(alloc, numbers, session),
    }
}

/// Adds two steps: the version at which a session stands is taken, and then a commit of it.
fn add_head_and_commit(
    alloc: Global,
    numbers: &mut Numbers,
    session: u32,
    script: &mut Script,
) -> Result<(), AllocError> {
    script.push(Step::ask(Event::Head { session }))?;
    script.push(random_commit(alloc, numbers, session)?)
}

/// Adds two random steps.
fn add_two_steps(
    alloc: Global,
    numbers: &mut Numbers,
    session: u32,
    script: &mut Script,
) -> Result<(), AllocError> {
    script.push(random_step(alloc, numbers, session)?)?;
    script.push(random_step(alloc, numbers, session)?)
}

/// Adds two steps: a commit of the version at which a session stands, as often as two random ones.
fn add_turn(alloc: Global, numbers: &mut Numbers, script: &mut Script) -> Result<(), AllocError> {
    let session = numbers.session();
    match numbers.below(2) {
        0 => add_head_and_commit(alloc, numbers, session, script),
        _ => add_two_steps(alloc, numbers, session, script),
    }
}

/// Adds the 500 random steps of the client with this number.
pub(crate) fn walks(alloc: Global, who: u32, script: &mut Script) -> Result<(), AllocError> {
    let mut numbers = Numbers {
        state: u64::from(who),
    };
    for _turn in 0..TURNS {
        add_turn(alloc, &mut numbers, script)?;
    }
    Ok(())
}

/// Whether all answers hold, and the versions that the client has seen never shrink.
fn is_sound(steps: &[Step]) -> bool {
    let mut seen = 0u64;
    let mut sound = true;
    for step in steps {
        sound = sound && step.answer.holds && seen <= step.answer.seen;
        seen = step.answer.seen;
    }
    sound
}

/// Whether a client's calls are the log's entries of its number, in order.
fn agrees(who: u32, steps: &[Step], log: &[Entry]) -> bool {
    let mut rest = steps.iter().filter(|step| step.answer.booked);
    let mut same = true;
    for entry in log {
        if entry.who == who {
            same = same && rest.next().is_some_and(|step| step.is_of(entry));
        }
    }
    same && rest.next().is_none()
}

/// Whether all walks are sound, with calls that are the log's.
pub(crate) fn all_agree(scripts: &[Script], log: &[Entry]) -> bool {
    let mut same = true;
    let mut who = 0u32;
    for script in scripts {
        who = who.saturating_add(1);
        let steps = script.steps.as_slice();
        same = same && is_sound(steps) && agrees(who, steps, log);
    }
    same
}
