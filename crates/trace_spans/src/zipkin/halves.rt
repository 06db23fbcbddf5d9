//! The servers' halves of spans that client and server share.
ghost use Rattle.std.specs.Prelude.{◌≡◌, ◌++◌, IfOk, List, OnOk};
ghost use Rattle.trace_spans.specs.Halves.{ToldHalf, half_of, has_half, is_shared_by};
ghost use Rattle.trace_spans.specs.HalfMarks.{AreHalves, HasHalves, told_of};
ghost use Rattle.trace_spans.specs.Reads.{IsReadAs};

use crate::fault::Fault;
use crate::identifier::compared_id;
use crate::member::Member;
use crate::object::member;
use crate::text::Text;
use crate::zipkin::endpoint::clock_of;
use json_trees::{Items, Tree};
use std::alloc::{AllocError, Global};
use std::collections::HashSet;

/// A server's half of a span.
#[derive(PartialEq, Eq, Hash, Drop)]
pub(crate) struct Half {
    trace: String,
    id: String,
    service: String,
}

/// The servers' halves in a list of spans.
#[derive(Drop)]
pub(crate) struct Halves {
    all: HashSet<Half>,
}

/// Whether a span is a server's half, from the look-up that found its member or not.
pub(crate) fn is_shared(found: &Option<Tree<'_, '_>>) -> bool
    ensures { result ≡ is_shared_by found.now }
{
    let Some(value) = found else {
        return false;
    };
    match value.as_bool() {
        Some(truth) => truth,
        None => false,
    }
}

/// A server's half, where the span is one.
#[tactic(auto, unfolding(crate::specs::Halves::half_of, crate::specs::Halves::is_shared))]
fn half_of(alloc: Global, span: &Tree<'_, '_>) -> Result<Option<Half>, Fault>
    ensures { IsReadAs told_of result (half_of span.now) }
{
    if !is_shared(&member(span, Member::Shared)) {
        return Ok(None);
    }
    let trace = compared_id(alloc, span, Member::OtlpTrace)?;
    let id = compared_id(alloc, span, Member::ZipkinSpan)?;
    let clock = clock_of(alloc, span, &member(span, Member::LocalEndpoint))?;
    Ok(Some(Half {
        trace: trace.into_string(),
        id: id.into_string(),
        service: String::from_str(alloc, clock.service())?,
    }))
}

/// Puts a half into a set of them, if there is one.
fn hold(halves: &mut HashSet<Half>, half: Option<Half>) -> Result<(), AllocError>
    ensures { (known : List ToldHalf) → AreHalves halves.old known → OnOk result (AreHalves halves.new (known ++ told_of half)) }
{
    match half {
        Some(half) => {
            halves.insert(half)?;
            Ok(())
        }
        None => Ok(()),
    }
}

impl Halves {
    /// The servers' halves in a list of spans.
    pub(crate) fn of(alloc: Global, mut spans: Items<'_, '_>) -> Result<Halves, Fault>
        ensures { HasHalves spans.entry result }
    {
        let mut all = HashSet::new(alloc);
        'spans: while let Some(span) = spans.next() {
            let half = half_of(alloc, &span)?;
            hold(&mut all, half)?;
        }
        Ok(Halves { all })
    }

    /// Whether the span of that id in the trace has a half in which that service is the server.
    pub(crate) fn has(
        &self,
        alloc: Global,
        trace: &Text,
        id: &Text,
        service: &str,
    ) -> Result<bool, AllocError>
        ensures { (known : List ToldHalf) → AreHalves self.now.all known → IfOk result (λ has. has ≡ has_half known trace.now id.now service.now) }
    {
        if self.all.is_empty() {
            return Ok(false);
        }
        let own_trace = String::from_str(alloc, trace.as_str())?;
        let own_id = String::from_str(alloc, id.as_str())?;
        let own_service = String::from_str(alloc, service)?;
        let half = Half {
            trace: own_trace,
            id: own_id,
            service: own_service,
        };
        Ok(self.all.contains(&half))
    }
}
