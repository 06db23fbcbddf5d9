//! What was counted of files' traces so far.
use console::Voice;
use fleet_replies::Found;
use fleet_summary::{Name, Summary};
use std::alloc::{AllocError, Global};

/// What was counted, and how many traces were not.
#[derive(Drop)]
pub(crate) struct Night {
    pub(crate) summary: Summary,
    /// The same by each change that is tried.
    pub(crate) tried: Vec<Summary>,
    /// The unit of all ticks, as the first counted trace tells it; empty where it tells none.
    pub(crate) unit: Option<Name>,
    traces: u64,
    left_out: u64,
}

impl Night {
    /// Of no trace, in which so many changes are tried.
    pub(crate) fn new(alloc: Global, changes: usize) -> Result<Night, AllocError> {
        let mut tried = Vec::new(alloc);
        for _ in 0..changes {
            tried.push(Summary::new(alloc))?;
        }
        Ok(Night {
            summary: Summary::new(alloc),
            tried,
            unit: None,
            traces: 0,
            left_out: 0,
        })
    }

    /// Whether what has ticks of a unit can be counted: whether the ticks of all that was before are of that unit.
    pub(crate) fn takes(&mut self, alloc: Global, unit: &str) -> Result<bool, AllocError> {
        match &self.unit {
            Some(own) => Ok(own.bytes() == unit.as_bytes()),
            None => {
                self.unit = Some(Name::new(alloc, unit.as_bytes())?);
                Ok(true)
            }
        }
    }

    /// One trace more, with what it came to.
    pub(crate) fn add(&mut self, alloc: Global, found: &Found) -> Result<(), AllocError> {
        self.traces = self.traces.saturating_add(1);
        self.summary.add(alloc, &found.facts)?;
        for number in 0..self.tried.len() {
            if let Some(facts) = found.tried.get(number) {
                self.tried[number].add(alloc, facts)?;
            }
        }
        Ok(())
    }

    /// One trace more, which is not counted.
    pub(crate) fn leave_out(&mut self) {
        self.traces = self.traces.saturating_add(1);
        self.left_out = self.left_out.saturating_add(1);
    }

    /// Tells how many traces were not counted, if one was not.
    pub(crate) fn tell(&self, voice: Voice<'_>) {
        if self.left_out > 0 {
            let left_out = self.left_out;
            let traces = self.traces;
            voice.say(format_args!("{left_out} of {traces} traces not counted"));
        }
    }
}
