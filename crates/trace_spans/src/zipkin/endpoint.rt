//! The clocks of endpoints.
ghost use Rattle.std.specs.Prelude.{◌≡◌};
ghost use Rattle.trace_spans.specs.Members.{member_of};
ghost use Rattle.trace_spans.specs.declared.member.Member.TheVariants as member;
ghost use Rattle.trace_spans.specs.Reads.{IsRead};
ghost use Rattle.trace_spans.specs.Endpoints.{clock_in};

use crate::clock::Clock;
use crate::fault::Fault;
use crate::member::Member;
use crate::object::{found_object, text_or_empty};
use json_trees::Tree;
use std::alloc::Global;

/// The clock of a span's endpoint, of which no part is told where it has none.
#[tactic(auto, unfolding(crate::specs::Endpoints::clock_in))]
pub(crate) fn clock_of(
    alloc: Global,
    span: &Tree<'_, '_>,
    found: &Option<Tree<'_, '_>>,
) -> Result<Clock, Fault>
    requires { found.now ≡ member_of member.LocalEndpoint span.now }
    ensures { IsRead result (clock_in span.now) }
{
    let Some(endpoint) = found_object(span, found, Member::LocalEndpoint)? else {
        return Ok(Clock::new(alloc, "", "", "")?);
    };
    let service = text_or_empty(endpoint, Member::ServiceName)?;
    let address = text_or_empty(endpoint, Member::Ipv4)?;
    Ok(Clock::new(alloc, service, "", address)?)
}
