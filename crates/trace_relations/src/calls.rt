//! Which children are calls, and what tells calls from each other.
ghost use Rattle.std.specs.Prelude.{◌≡◌, ◌++◌, OnOk, string_bytes};
ghost use Rattle.std.specs.List.{flat_map};
ghost use Rattle.trace_relations.specs.Calls.{aim_texts, attribute_text, call_texts, consumes, is_message, is_queued, kind_text, produces};
ghost use Rattle.trace_relations.specs.Keys.{AreShort, key_of};

use crate::key::push_text;
use std::alloc::AllocError;
use trace_spans::{Aim, Attribute, Kind, Span};

/// Whether a span takes a message from a queue.
pub(crate) fn consumes(kind: Kind) -> bool
    ensures { result ≡ consumes kind }
{
    matches!(kind, Kind::Consumer)
}

/// Whether a span puts a message into a queue.
pub(crate) fn produces(kind: Kind) -> bool
    ensures { result ≡ produces kind }
{
    matches!(kind, Kind::Producer)
}

/// Whether a message is on its way between a caller and a span.
pub(crate) fn is_message(caller: &Span, span: &Span) -> bool
    ensures { result ≡ is_message caller.now span.now }
{
    produces(caller.kind) || consumes(span.kind)
}

/// Whether a caller puts a message into a queue, from which a span takes it.
pub(crate) fn is_queued(caller: &Span, span: &Span) -> bool
    ensures { result ≡ is_queued caller.now span.now }
{
    produces(caller.kind) && consumes(span.kind)
}

fn kind_text(kind: Kind) -> &'static str
    ensures { result.now ≡ kind_text kind }
{
    match kind {
        Kind::Server => "server",
        Kind::Client => "client",
        Kind::Producer => "producer",
        Kind::Consumer => "consumer",
        Kind::Other => "other",
    }
}

fn attribute_text(attribute: Attribute) -> &'static str
    ensures { result.now ≡ attribute_text attribute }
{
    match attribute {
        Attribute::UrlFull => "url.full",
        Attribute::HttpUrl => "http.url",
        Attribute::UrlPath => "url.path",
        Attribute::HttpTarget => "http.target",
        Attribute::DbQueryText => "db.query.text",
        Attribute::DbStatement => "db.statement",
        Attribute::RpcMethod => "rpc.method",
        Attribute::ServerAddress => "server.address",
        Attribute::NetPeerName => "net.peer.name",
        Attribute::PeerService => "peer.service",
        Attribute::MessagingDestinationName => "messaging.destination.name",
    }
}

/// Puts what a call was to at the end of a key.
fn push_target(key: &mut String, target: &[Aim]) -> Result<(), AllocError>
    ensures texts { OnOk result (string_bytes key.new ≡ string_bytes key.old ++ key_of (flat_map aim_texts target.now)) }
    ensures short { OnOk result (AreShort (flat_map aim_texts target.now)) }
{
    for aim in target {
        push_text(key, attribute_text(aim.attribute))?;
        push_text(key, aim.text.as_str())?;
    }
    Ok(())
}

/// Puts what tells a call from others at the end of a key.
pub(crate) fn push_call(key: &mut String, span: &Span) -> Result<(), AllocError>
    ensures texts { OnOk result (string_bytes key.new ≡ string_bytes key.old ++ key_of (call_texts span.now)) }
    ensures short { OnOk result (AreShort (call_texts span.now)) }
{
    push_text(key, span.service.as_str())?;
    push_text(key, span.name.as_str())?;
    push_text(key, kind_text(span.kind))?;
    push_target(key, span.target.as_slice())?;
    Ok(())
}
