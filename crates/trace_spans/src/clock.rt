//! Clocks.
ghost use Rattle.std.specs.Prelude.{◌≡◌, ◌↔◌, [], ◌∷◌, IfOk, IsTrue};
ghost use Rattle.trace_spans.specs.Clocks.{clock_text, service_of};

use crate::text::{Text, TextList};
use std::alloc::{AllocError, Global};
use std::marker::Model;
use std::sync::Arc;

/// The clock of one instance of a service on its host, as far as a tracer tells them. A contract sees its three parts.
///
/// The spans of a resource or a process share them.
#[derive(Drop, Debug)]
pub struct Clock {
    parts: Arc<TextList>,
}

impl Model for Clock {
    ghost use Rattle.std.specs.Prelude.{ℕ, List};

    ghost Value = { List (List ℕ) };

    ghost view = { λ clock. clock.parts.value };
}

impl Clock {
    /// The clock of an instance of a service on a host.
    pub fn new(
        alloc: Global,
        service: &str,
        instance: &str,
        host: &str,
    ) -> Result<Clock, AllocError>
        ensures { IfOk result (λ clock. clock ≡ service.now ∷ (instance.now ∷ (host.now ∷ []))) }
    {
        let mut parts = TextList::new(alloc);
        parts.push(Text::new(alloc, service)?)?;
        parts.push(Text::new(alloc, instance)?)?;
        parts.push(Text::new(alloc, host)?)?;
        Ok(Clock {
            parts: Arc::new(alloc, parts)?,
        })
    }

    /// The same clock, for one more span.
    pub fn share(&self) -> Result<Clock, AllocError>
        ensures { IfOk result (λ clock. clock ≡ self.now) }
    {
        Ok(Clock {
            parts: self.parts.clone()?,
        })
    }

    /// Its service, its instance and its host, each empty where it is not told.
    pub fn parts(&self) -> &[Text]
        ensures { result.now ≡ self.now }
    {
        self.parts.as_ref().as_slice()
    }

    /// Its service.
    pub fn service(&self) -> &str
        ensures { result.now ≡ service_of self.now }
    {
        match self.parts() {
            [service, ..] => service.as_str(),
            [] => "",
        }
    }

    /// Whether two clocks are the same.
    pub fn same(&self, other: &Clock) -> bool
        ensures { IsTrue result ↔ (self.now ≡ other.now) }
    {
        self.parts.as_ref().same(other.parts.as_ref())
    }

    /// Its parts, but for empty ones, with a space between any two.
    pub fn told(&self, alloc: Global) -> Result<Text, AllocError>
        ensures { IfOk result (λ text. text ≡ clock_text self.now) }
    {
        let mut told = String::new(alloc);
        for part in self.parts() {
            let part = part.as_str();
            if !part.is_empty() {
                if !told.is_empty() {
                    told.push(' ')?;
                }
                told.push_str(part)?;
            }
        }
        Ok(Text::of(told))
    }
}
