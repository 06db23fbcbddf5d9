//! The checks of a stage, and the order in which they are made.
ghost use Rattle.std.specs.Prelude.{◌≡◌, ◌||◌, Option, length};
ghost use Rattle.std.specs.List.{list_all};
ghost use Rattle.stage_graph.specs.Checks.{is_first_byte, is_name_byte, begins_well, is_name, takes_count, has_arity, fits_action, are_few, is_tick, is_pin, delay_of, is_end, are_ends, are_after, fits_times, action_fault, first_refusal, is_within, checks_alone};

use crate::end::{Act, End};
use crate::fault::Refusal;
use crate::op::Op;
use crate::stage::Spec;
use act_expr::{Expr, ExprFault};

/// The most places that a graph may have.
pub(crate) const MOST_PLACES: usize = 65_536;

/// The greatest moment, and the longest duration, in ticks.
const LAST_TICK: u64 = 1 << 40;

/// The results of the checks, in the order in which refusals are reported. A check that isn't made passes.
#[derive(Clone, Copy)]
pub(crate) struct Checks {
    /// The name is not taken.
    pub(crate) free: bool,
    /// The name is a name of a stage.
    pub(crate) named: bool,
    /// The numbers of sources, inner stages and actions are the operation's.
    pub(crate) arity: bool,
    /// The sources and inner stages are there.
    pub(crate) known: bool,
    /// Each number is within its limit.
    pub(crate) within: bool,
    /// No end is set before the creation.
    pub(crate) in_time: bool,
    /// The operation has an action, if it has to have one.
    pub(crate) acts: bool,
    /// What is wrong with the action.
    pub(crate) action: Option<ExprFault>,
}

impl Checks {
    pub(crate) const PASSING: Checks = Checks {
        free: true,
        named: true,
        arity: true,
        known: true,
        within: true,
        in_time: true,
        acts: true,
        action: None,
    };

    /// The first check that fails.
    pub(crate) fn first_refusal(self) -> Option<Refusal>
        ensures { result ≡ first_refusal self }
    {
        if !self.free {
            return Some(Refusal::NameTaken);
        }
        if !self.named {
            return Some(Refusal::BadName);
        }
        if !self.arity {
            return Some(Refusal::Arity);
        }
        if !self.known {
            return Some(Refusal::NoSource);
        }
        if !self.within {
            return Some(Refusal::Limit);
        }
        if !self.in_time {
            return Some(Refusal::EndBeforeCreated);
        }
        if !self.acts {
            return Some(Refusal::NoAction);
        }
        match self.action {
            Some(fault) => Some(Refusal::Expr(fault)),
            None => None,
        }
    }
}

fn is_first_byte(byte: u8) -> bool
    ensures { result ≡ is_first_byte byte }
{
    byte.is_ascii_alphanumeric() || byte == b'_'
}

fn is_name_byte(byte: u8) -> bool
    ensures { result ≡ is_name_byte byte }
{
    is_first_byte(byte) || byte == b'-' || byte == b'.'
}

fn begins_well(bytes: &[u8]) -> bool
    ensures { result ≡ begins_well bytes.now }
{
    match bytes {
        [] => false,
        [first, ..] => is_first_byte(*first),
    }
}

fn are_name_bytes(bytes: &[u8]) -> bool
    ensures { result ≡ list_all is_name_byte bytes.now }
{
    bytes.iter().all(|byte| is_name_byte(*byte))
}

/// Whether a text is a name of a stage: 1 to 64 ASCII letters, digits, `_`, `-` and `.`, of which the first
/// is no `-` and no `.`.
pub(crate) fn is_name(text: &str) -> bool
    ensures { result ≡ is_name text.now }
{
    let bytes = text.as_bytes();
    begins_well(bytes) && bytes.len() <= 64 && are_name_bytes(bytes)
}

/// Whether the numbers of sources and inner stages are the operation's.
pub(crate) fn has_arity(op: &Op, sources: usize, inner: usize) -> bool
    ensures { result ≡ has_arity op.now sources inner }
{
    let counted = match op.source_count() {
        Some(fixed) => fixed == sources,
        None => true,
    };
    counted && (op.picks() || inner == 0)
}

/// Whether there is an action exactly if the operation has one.
fn fits_action(op: &Op, action: &Option<Expr>) -> bool
    ensures { result ≡ fits_action op.now action.now }
{
    match action {
        Some(_) => op.has_action(),
        None => !op.has_action(),
    }
}

/// Whether there are not too many sources or inner stages.
pub(crate) fn are_few(count: usize) -> bool
    ensures { result ≡ are_few count }
{
    count <= 1024
}

pub(crate) fn is_tick(ticks: u64) -> bool
    ensures { result ≡ is_tick ticks }
{
    ticks <= LAST_TICK
}

pub(crate) fn is_pin(moment: Option<u64>) -> bool
    ensures { result ≡ is_pin moment }
{
    match moment {
        Some(moment) => is_tick(moment),
        None => true,
    }
}

/// How many ticks after its `at` an end acts.
fn delay_of(act: Act) -> u64
    ensures { result ≡ delay_of act }
{
    match act {
        Act::Complete(_) | Act::CompleteExceptionally(_) | Act::Cancel => 0,
        Act::OrTimeout { delay } => delay,
        Act::CompleteOnTimeout { delay, .. } => delay,
    }
}

fn is_end(end: &End) -> bool
    ensures { result ≡ is_end end.now }
{
    is_tick(end.at) && is_tick(delay_of(end.act))
}

fn is_each_end(ends: &[End]) -> bool
    ensures { result ≡ list_all is_end ends.now }
{
    ends.iter().all(|end| is_end(end))
}

/// Whether there are at most 16 ends, and none is too late.
pub(crate) fn are_ends(ends: &[End]) -> bool
    ensures { result ≡ are_ends ends.now }
{
    ends.len() <= 16 && is_each_end(ends)
}

/// Whether no end is set before the creation.
pub(crate) fn are_after(created: u64, ends: &[End]) -> bool
    ensures { result ≡ are_after created ends.now }
{
    ends.iter().all(|end| created <= end.at)
}

/// Whether there is time only where the operation has an action.
fn fits_times(op: &Op, queued: u64, runs: u64) -> bool
    ensures { result ≡ fits_times op.now queued runs }
{
    op.has_action() || queued == 0 && runs == 0
}

/// What is wrong with an action.
pub(crate) fn action_fault(action: &Option<Expr>) -> Option<ExprFault>
    ensures { result ≡ action_fault action.now }
{
    match action {
        Some(action) => expression_fault(action),
        None => None,
    }
}

pub(crate) fn expression_fault(action: &Expr) -> Option<ExprFault>
    ensures { result ≡ action_fault (Some action.now) }
{
    match action.check() {
        Ok(()) => None,
        Err(fault) => Some(fault),
    }
}

/// Whether the numbers of a stage that is to stand at a place are within their limits.
fn is_within(place: usize, spec: &Spec) -> bool
    ensures { result ≡ is_within place spec.now }
{
    place < MOST_PLACES
        && are_few(spec.sources.as_slice().len())
        && are_few(spec.inner.as_slice().len())
        && is_tick(spec.created)
        && is_tick(spec.queued)
        && is_tick(spec.runs)
        && is_pin(spec.pin_moment)
        && are_ends(spec.ends.as_slice())
}

/// The checks of a whole stage that is to stand at a place, where it is known whether its name is
/// free and its feeds are there.
pub(crate) fn checks_of(free: bool, known: bool, place: usize, spec: &Spec) -> Checks
    ensures { result ≡ record (checks_alone place spec.now) { free = free; known = known } }
{
    Checks {
        free,
        named: is_name(spec.name.as_str()),
        arity: has_arity(
            &spec.op,
            spec.sources.as_slice().len(),
            spec.inner.as_slice().len(),
        ) && fits_action(&spec.op, &spec.action),
        known,
        within: is_within(place, spec),
        in_time: are_after(spec.created, spec.ends.as_slice()),
        acts: fits_times(&spec.op, spec.queued, spec.runs),
        action: action_fault(&spec.action),
    }
}
