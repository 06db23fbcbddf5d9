//! Spans.
ghost use Rattle.std.specs.Prelude.{◌≡◌, [], ◌∷◌, ◌++◌, OnOk, OnErr};

use crate::clock::Clock;
use crate::target::Target;
use crate::text::{Text, TextList};
use std::alloc::{AllocError, Global};
use std::marker::Model;

/// Which end of a call or of a message a span is.
#[derive(Clone, Copy, PartialEq, Eq, Debug)]
pub enum Kind {
    Server,
    Client,
    Producer,
    Consumer,
    Other,
}

/// A span as its tracer told it. Times are in nanoseconds.
#[derive(Drop, Debug)]
pub struct Span {
    /// The trace that it belongs to, without leading zeros.
    pub trace: Text,
    /// Its id as it is told, in lower case.
    pub id: Text,
    /// Whether it is the server's half of a span that client and server share; the client's half has its id.
    pub shared: bool,
    pub service: Text,
    pub name: Text,
    pub kind: Kind,
    /// The clock by which its times were told.
    pub clock: Clock,
    /// What it called, as far as it tells.
    pub target: Target,
    pub start: Option<u64>,
    pub end: Option<u64>,
    /// The keys of the parents that it names in its trace.
    pub parents: TextList,
    /// The keys of its other references into its trace.
    pub links: TextList,
    pub failed: bool,
    /// The name of the exception with which it failed, where it tells one.
    pub exception: Option<Text>,
}

/// Spans, in the order of the file.
#[derive(Drop, Debug)]
pub struct Spans {
    items: Vec<Span>,
}

impl Model for Spans {
    ghost use Rattle.std.specs.Prelude.{List};
    ghost use Rattle.trace_spans.specs.declared.span.Span.{Span};

    ghost Value = { List Span };

    ghost view = { λ spans. spans.items.items };
}

impl Spans {
    /// No spans.
    pub fn new(alloc: Global) -> Spans
        ensures { result ≡ [] }
    {
        Spans {
            items: Vec::new(alloc),
        }
    }

    /// Adds a span at the end; where memory is out the spans stay as they are.
    pub fn push(&mut self, span: Span) -> Result<(), AllocError>
        ensures added { OnOk result (self.new ≡ self.old ++ span ∷ []) }
        ensures kept { OnErr result (self.new ≡ self.old) }
    {
        self.items.push(span)?;
        Ok(())
    }

    /// Adds spans at the end.
    pub(crate) fn append(&mut self, more: Spans) -> Result<(), AllocError>
        ensures { OnOk result (self.new ≡ self.old ++ more) }
    {
        for span in more.into_vec() {
            self.push(span)?;
        }
        Ok(())
    }

    /// The spans, in order.
    pub fn as_slice(&self) -> &[Span]
        ensures { result.now ≡ self.now }
    {
        self.items.as_slice()
    }

    /// The spans, as a vector.
    pub(crate) fn into_vec(self) -> Vec<Span>
        ensures { result.items ≡ self }
    {
        self.items
    }
}
