//! Kinds of spans, by their names and numbers.
ghost use Rattle.std.specs.Prelude.{◌≡◌};
ghost use Rattle.trace_spans.specs.Kinds.{kind_named, kind_numbered};

use crate::span::Kind;

/// The kind of that name, as OTLP, Jaeger and Zipkin spell it.
pub(crate) fn kind_named(name: &str) -> Kind
    ensures { result ≡ kind_named name.now }
{
    match name {
        "server" | "SERVER" | "SPAN_KIND_SERVER" => Kind::Server,
        "client" | "CLIENT" | "SPAN_KIND_CLIENT" => Kind::Client,
        "producer" | "PRODUCER" | "SPAN_KIND_PRODUCER" => Kind::Producer,
        "consumer" | "CONSUMER" | "SPAN_KIND_CONSUMER" => Kind::Consumer,
        _ => Kind::Other,
    }
}

/// The kind of that number in OTLP.
pub(crate) fn kind_numbered(number: u64) -> Kind
    ensures { result ≡ kind_numbered number }
{
    match number {
        2 => Kind::Server,
        3 => Kind::Client,
        4 => Kind::Producer,
        5 => Kind::Consumer,
        _ => Kind::Other,
    }
}
