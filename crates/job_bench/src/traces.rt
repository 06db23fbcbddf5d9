//! Traces, as text: requests one after the other, each with calls of which some overlap and some fail.

use crate::names::push_name;
use crate::random::Random;
use std::alloc::{AllocError, Global};
use std::fmt::Write;

/// The calls of a request.
const CALLS: u32 = 48;

/// The form of a trace.
#[derive(Clone, Copy, PartialEq, Eq)]
pub(crate) enum Form {
    Otlp,
    Jaeger,
}

/// A span of a trace that is written.
#[derive(Clone, Copy)]
struct Span {
    number: u32,
    parent: Option<u32>,
    /// Nanoseconds since 1970.
    start: u64,
    end: u64,
    fails: bool,
}

/// When the first span begins, in nanoseconds since 1970.
const EPOCH: u64 = 1_763_974_800_000_000_000;

/// How long a call takes at most, in nanoseconds.
const TICK: u64 = 1000;

/// The span of a number: the batch, a request, or a call of one.
fn planned(random: &mut Random, number: u32, spans: u32) -> Span {
    let begin = u64::from(number) * 100;
    let at = number.saturating_sub(1) % (CALLS + 1);
    let parent = if number == 0 {
        None
    } else {
        Some(if at == 0 {
            0
        } else {
            number.saturating_sub(at)
        })
    };
    let early = u64::from(random.below(60));
    let length = match parent {
        None => u64::from(spans) * 100 + 200,
        Some(0) => u64::from(CALLS) * 100 + 60,
        Some(_) => 90 + early,
    };
    let start = EPOCH.saturating_add((begin + 100).saturating_sub(early) * TICK);
    Span {
        number,
        parent,
        start,
        end: start.saturating_add(length * TICK),
        fails: random.below(12) == 0,
    }
}

/// Adds an OTLP span.
fn push_otlp(text: &mut String, seed: u32, span: &Span) -> Result<(), AllocError> {
    let number = span.number;
    write!(
        text,
        "{{\"traceId\":\"4bf92f3577b34da6a3ce929d0e0e4736\",\"spanId\":\"{:016x}\"",
        u64::from(number) + 1
    )?;
    if let Some(parent) = span.parent {
        write!(text, ",\"parentSpanId\":\"{:016x}\"", u64::from(parent) + 1)?;
    }
    text.push_str(",\"name\":\"")?;
    push_name(text, seed, number % 64)?;
    write!(
        text,
        "\",\"kind\":3,\"startTimeUnixNano\":\"{}\",\"endTimeUnixNano\":\"{}\"",
        span.start, span.end
    )?;
    write!(
        text,
        ",\"attributes\":[{{\"key\":\"http.request.method\",\"value\":{{\"stringValue\":\"GET\"}}}},{{\"key\":\"http.response.status_code\",\"value\":{{\"intValue\":\"{}\"}}}}]",
        200 + number % 3
    )?;
    if span.fails {
        write!(
            text,
            ",\"events\":[{{\"name\":\"exception\",\"timeUnixNano\":\"{}\",\"attributes\":[{{\"key\":\"exception.type\",\"value\":{{\"stringValue\":\"java.net.SocketTimeoutException\"}}}}]}}],\"status\":{{\"code\":2}}",
            span.end
        )?;
    }
    text.push_str("}")
}

/// Adds a Jaeger span.
fn push_jaeger(text: &mut String, seed: u32, span: &Span) -> Result<(), AllocError> {
    let number = span.number;
    write!(
        text,
        "{{\"traceID\":\"8a3c60f7d188f8fa\",\"spanID\":\"{:x}\",\"operationName\":\"",
        u64::from(number) + 1
    )?;
    push_name(text, seed, number % 64)?;
    text.push_str("\",\"references\":[")?;
    if let Some(parent) = span.parent {
        write!(
            text,
            "{{\"refType\":\"CHILD_OF\",\"traceID\":\"8a3c60f7d188f8fa\",\"spanID\":\"{:x}\"}}",
            u64::from(parent) + 1
        )?;
    }
    let length = span.end.saturating_sub(span.start) / 1000;
    write!(
        text,
        "],\"startTime\":{},\"duration\":{length},\"processID\":\"p{}\"",
        span.start / 1000,
        number % 5
    )?;
    write!(
        text,
        ",\"tags\":[{{\"key\":\"span.kind\",\"type\":\"string\",\"value\":\"client\"}},{{\"key\":\"error\",\"type\":\"bool\",\"value\":{}}}]",
        span.fails
    )?;
    if span.fails {
        write!(
            text,
            ",\"logs\":[{{\"timestamp\":{},\"fields\":[{{\"key\":\"event\",\"type\":\"string\",\"value\":\"error\"}},{{\"key\":\"error.kind\",\"type\":\"string\",\"value\":\"java.sql.SQLException\"}}]}}]",
            span.end / 1000
        )?;
    }
    text.push_str("}")
}

/// The trace of so many spans.
pub(crate) fn trace(
    alloc: Global,
    form: Form,
    spans: u32,
    seed: u32,
) -> Result<String, AllocError> {
    let mut random = Random::new(seed);
    let mut text = String::from_str(
        alloc,
        match form {
            Form::Otlp =>
                "{\"resourceSpans\":[{\"resource\":{\"attributes\":[{\"key\":\"service.name\",\"value\":{\"stringValue\":\"shop\"}}]},\"scopeSpans\":[{\"scope\":{\"name\":\"io.opentelemetry.http\"},\"spans\":[\n",
            Form::Jaeger => "{\"data\":[{\"traceID\":\"8a3c60f7d188f8fa\",\"spans\":[\n",
        },
    )?;
    for number in 0..spans {
        if number > 0 {
            text.push_str(",\n")?;
        }
        let span = planned(&mut random, number, spans);
        match form {
            Form::Otlp => push_otlp(&mut text, seed, &span)?,
            Form::Jaeger => push_jaeger(&mut text, seed, &span)?,
        }
    }
    text.push_str(match form {
        Form::Otlp => "\n]}]}]}\n",
        Form::Jaeger =>
            "\n],\"processes\":{\"p0\":{\"serviceName\":\"shop\"},\"p1\":{\"serviceName\":\"stock\"},\"p2\":{\"serviceName\":\"audit\"},\"p3\":{\"serviceName\":\"bank\"},\"p4\":{\"serviceName\":\"mail\"}}}]}\n",
    })?;
    Ok(text)
}
