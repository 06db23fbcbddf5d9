//! What is told of the steps of a script, by line.
ghost use Rattle.std.specs.Prelude.{◌≡◌, false, IsTrue};

use crate::json_refusal::text_of_refusal;
use crate::listening::{is_json_refusal, may_be_refusal};
use crate::voice::Voice;
use diagnosis::{
    Findings, KnownStages, Refusal, asked_step, examine_step, explain_step, json_fault,
    may_step_be_unread, read_again,
};
use json::Scratch;
use json_trees::Tree;
use std::alloc::{AllocError, Global};

/// Of how many lines of a script something is told.
const MOST_TOLD: usize = 1000;

/// Tells of refused steps and of members that nothing reads.
#[derive(Drop)]
pub struct StepTeller<'a> {
    alloc: Global,
    voice: Voice<'a>,
    /// The recording, as long as the names of its stages are not read.
    recording: Vec<u8>,
    known: KnownStages,
    /// Whether the first refused step ends the script.
    is_strict: bool,
    /// Whether there was one, where it ends the script.
    is_refused: bool,
    /// Of how many lines something was told.
    told: usize,
}

/// A line without what ends it.
fn without_end(line: &[u8]) -> &[u8] {
    match line {
        [front @ .., b'\r', b'\n'] => front,
        [front @ .., b'\n'] => front,
        [front @ .., b'\r'] => front,
        _ => line,
    }
}

/// The first line of an answer.
fn first_line(answer: &[u8]) -> Option<&str> {
    let end = match answer.iter().position(|byte| *byte == b'\n') {
        Some(end) => end,
        None => answer.len(),
    };
    str::from_utf8(&answer[..end]).ok()
}

/// Adds the names of the stages of a recording that was read before.
fn add_names(alloc: Global, recording: &[u8], known: &mut KnownStages) -> Result<(), AllocError> {
    let mut room = Scratch::new(alloc);
    match read_again(alloc, recording, &mut room)? {
        Some(document) => known.add_of_recording(&document.root()),
        None => Ok(()),
    }
}

impl<'a> StepTeller<'a> {
    ghost use Rattle.console.specs.Stopping.{has_stopped, may_stop};

    pub fn new(alloc: Global, voice: Voice<'a>, recording: Vec<u8>) -> StepTeller<'a>
        ensures { has_stopped result ≡ false }
    {
        StepTeller {
            alloc,
            voice,
            recording,
            known: KnownStages::new(alloc),
            is_strict: voice.is_strict(),
            is_refused: false,
            told: 0,
        }
    }

    /// Tells of the lines of the script of this name from here on.
    pub(crate) fn begins(&mut self, script: &'a str) {
        self.voice = self.voice.of_script(script);
    }

    /// Tells that from a line on no step is explained.
    pub(crate) fn tell_end(&mut self, number: u64) {
        self.voice.say_of_line(
            number,
            "from here on no step is explained, as no more of the script was kept",
        );
    }

    /// Whether a refused step has ended the script.
    pub fn is_stopped(&self) -> bool
        ensures { result ≡ has_stopped self.now }
    {
        self.is_strict && self.is_refused
    }

    /// Tells of a line and of what it was answered.
    pub fn tell(&mut self, number: u64, line: &[u8], answer: &[u8])
        ensures may_stop { may_stop self.new ≡ may_stop self.old }
        ensures stopped { IsTrue (has_stopped self.old) → IsTrue (has_stopped self.new) }
    {
        // (of most lines there is nothing to tell, and a look at them shows it)
        let may_be_unread = may_step_be_unread(line);
        if may_be_unread || may_be_refusal(answer) {
            self.tell_of_answer(number, line, answer, may_be_unread);
        }
    }

    /// Tells of a line that may be refused, or may have what nothing reads.
    fn tell_of_answer(&mut self, number: u64, line: &[u8], answer: &[u8], may_be_unread: bool)
        ensures may_stop { may_stop self.new ≡ may_stop self.old }
        ensures stopped { IsTrue (has_stopped self.old) → IsTrue (has_stopped self.new) }
    {
        let first = first_line(answer).unwrap_or("");
        let read = match first.as_bytes() {
            [b'{', ..] => text_of_refusal(self.alloc, first),
            _ => None,
        };
        let refusal = Refusal::of_answer(read.as_deref().unwrap_or(first));
        // (a line that is skipped has no answer, and nothing is told where memory is out)
        let may_be_told = !answer.is_empty() && !self.voice.is_quiet() && self.told < MOST_TOLD;
        if may_be_told && (refusal.is_some() || may_be_unread) {
            let _ = self.tell_of_step(number, without_end(line), refusal);
            if self.told == MOST_TOLD {
                self.voice.say_of_line(
                    number,
                    "from here on no step is explained, as this was done a thousand times",
                );
            }
        }
        // (a refusal as JSON is known by its front, as its text takes memory)
        if self.is_strict && (refusal.is_some() || is_json_refusal(answer)) {
            self.is_refused = true;
        }
    }

    /// Reads the names of the recording's stages, unless that is done.
    fn read_names(&mut self) -> Result<(), AllocError>
        ensures strict { self.new.is_strict ≡ self.old.is_strict }
        ensures refused { self.new.is_refused ≡ self.old.is_refused }
    {
        if self.recording.is_empty() {
            return Ok(());
        }
        add_names(self.alloc, self.recording.as_slice(), &mut self.known)?;
        self.recording = Vec::new(self.alloc);
        Ok(())
    }

    /// Tells why a step was refused.
    fn tell_refused(
        &mut self,
        number: u64,
        findings: &Findings<'_>,
        step: &Tree<'_, '_>,
        refusal: Refusal<'_>,
    ) -> Result<(), AllocError>
        ensures strict { self.new.is_strict ≡ self.old.is_strict }
        ensures refused { self.new.is_refused ≡ self.old.is_refused }
    {
        if refusal.is_of_names() {
            self.read_names()?;
        }
        let asked = asked_step(step, refusal, &self.known);
        let refused = explain_step(findings, asked, refusal, &mut self.known)?;
        self.voice.say_of_line(number, refused);
        Ok(())
    }

    /// Tells of a step, which is not skipped.
    fn tell_of_step(
        &mut self,
        number: u64,
        line: &[u8],
        refusal: Option<Refusal<'_>>,
    ) -> Result<(), AllocError>
        ensures strict { self.new.is_strict ≡ self.old.is_strict }
        ensures refused { self.new.is_refused ≡ self.old.is_refused }
    {
        if refusal.is_some_and(|refusal| refusal.number == 72) {
            self.voice
                .say_of_line(number, "the step has more than 65536 bytes");
            return Ok(());
        }
        let mut room = Scratch::new(self.alloc);
        let Some(document) = read_again(self.alloc, line, &mut room)? else {
            self.told = self.told.saturating_add(1);
            let fault = json_fault(self.alloc, line)?;
            let (column, unmet) = (fault.column, fault.unmet);
            self.voice
                .say_of_line(number, format_args!("column {column}: {unmet}"));
            return Ok(());
        };
        let step = document.root();
        let findings = examine_step(self.alloc, &step)?;
        if refusal.is_some() || !findings.warnings().is_empty() {
            self.told = self.told.saturating_add(1);
        }
        if let Some(refusal) = refusal {
            self.tell_refused(number, &findings, &step, refusal)?;
        } else {
            self.known.add_of_step(&step)?;
        }
        for warning in findings.warnings() {
            self.voice.say_of_line(number, *warning);
        }
        Ok(())
    }
}
