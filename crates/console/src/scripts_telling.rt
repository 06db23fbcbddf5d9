//! What is told of the steps of several scripts, once all are answered.
use crate::kept_script::KeptScript;
use crate::listening::{MOST_KEPT, is_json_refusal, may_be_refusal};
use crate::step_telling::StepTeller;
use diagnosis::{Refusal, read_again};
use json::Scratch;
use json_trees::Tree;
use memchr::memchr;
use std::alloc::{AllocError, Global};
use std::str;

/// How many lines follow the first one of the answer to a step: none, but for a report as text, whose kind or whose first
/// line tells it.
fn lines_after(alloc: Global, step: &[u8], first: &str) -> Result<usize, AllocError> {
    let is_report = match str::from_utf8(step) {
        Ok(step) => step.contains("report") || step.contains('\\'),
        Err(_) => false,
    };
    if !is_report || first.starts_with('{') || Refusal::of_answer(first).is_some() {
        return Ok(0);
    }
    let mut room = Scratch::new(alloc);
    match read_again(alloc, step, &mut room)? {
        Some(document) => Ok(lines_of_report(&document.root(), first)),
        None => Ok(0),
    }
}

/// The text that a member of a step is.
fn text_in<'a>(step: &Tree<'_, 'a>, member: &str) -> Option<&'a str> {
    step.get(member)?.as_str()
}

/// How many lines follow the first one of the answer to a step as text: none, but for a report.
fn lines_of_report(step: &Tree<'_, '_>, first: &str) -> usize {
    if text_in(step, "do") != Some("report") {
        return 0;
    }
    match text_in(step, "what") {
        Some("one") => 4,
        Some("blame") => 0,
        _ => {
            let count = match first.rsplit_once(' ') {
                Some((_, count)) => count,
                None => first,
            };
            count.parse::<usize>().unwrap_or(0)
        }
    }
}

/// Whether a line of the output is the heading of a script's answers. No line of an answer is, as in a report the second
/// word of such a line would be no number.
fn is_heading(line: &str) -> bool {
    let number = match line.strip_prefix("{\"script\":") {
        Some(rest) => rest.strip_suffix("}"),
        None => line.strip_prefix("script "),
    };
    number.is_some_and(|number| number.parse::<u32>().is_ok())
}

/// A script whose answers are gone through.
#[derive(Drop)]
struct Walk<'a> {
    /// The lines that were not gone through yet, unless there are none.
    rest: Option<&'a [u8]>,
    /// Whether the script has more lines than are kept, and that is not told yet.
    is_cut: bool,
    /// The number of the line before.
    number: u64,
    /// How many lines are left of the answer to it.
    after: usize,
}

impl<'a> Walk<'a> {
    /// A walk through no script.
    fn none() -> Walk<'a> {
        Walk {
            rest: None,
            is_cut: false,
            number: 0,
            after: 0,
        }
    }

    fn new(script: &'a KeptScript) -> Walk<'a> {
        Walk {
            rest: Some(script.text()),
            is_cut: script.is_cut(),
            number: 0,
            after: 0,
        }
    }

    /// The next line, unless it is not kept whole.
    fn next_line(&mut self) -> Option<&'a [u8]> {
        let rest = self.rest?;
        self.number = self.number.saturating_add(1);
        match memchr(b'\n', rest) {
            Some(end) => {
                self.rest = Some(&rest[end + 1..]);
                Some(&rest[..end])
            }
            None => {
                self.rest = None;
                if self.is_cut { None } else { Some(rest) }
            }
        }
    }

    /// The next line that is answered.
    fn next_step(&mut self) -> Option<&'a [u8]> {
        for _ in 0..u64::MAX {
            match self.next_line()? {
                [] | [b'\r'] => {}
                line => return Some(line),
            }
        }
        None
    }

    /// Goes on by a line of the output, and tells of the step that it answers.
    fn hear(&mut self, alloc: Global, teller: &mut StepTeller<'_>, line: &str) {
        if self.after > 0 {
            self.after -= 1;
            return;
        }
        let front = front_of(line.as_bytes());
        let Some(step) = self.next_step() else {
            if self.is_cut && may_be_refusal(front) {
                self.is_cut = false;
                teller.tell_end(self.number);
            }
            return;
        };
        match lines_after(alloc, step, line) {
            Ok(after) => {
                self.after = after;
                teller.tell(self.number, step, front);
            }
            // (where memory is out nothing is told)
            Err(AllocError) => *self = Walk::none(),
        }
    }
}

/// The front of a line, as much as is looked at.
fn front_of(line: &[u8]) -> &[u8] {
    line.get(..MOST_KEPT).unwrap_or(line)
}

/// Whether a line of the output is a refusal. No line of a report is, as its second word would be no number.
fn is_refusal(line: &str) -> bool {
    Refusal::of_answer(line).is_some() || is_json_refusal(front_of(line.as_bytes()))
}

/// Tells of the refused steps of several scripts and of members that nothing reads in their steps, by the output for them.
/// The answer is whether a step was refused.
pub fn explained<'a>(
    alloc: Global,
    teller: &mut StepTeller<'a>,
    names: &[&'a str],
    scripts: &[KeptScript],
    output: &[u8],
) -> bool {
    let mut scripts = names.iter().zip(scripts);
    let mut walk = Walk::none();
    let mut is_refused = false;
    for line in output.split(|byte| *byte == b'\n') {
        // (what is printed is text)
        let line = str::from_utf8(line).unwrap_or("");
        if is_heading(line) {
            if let Some((name, script)) = scripts.next() {
                teller.begins(name);
                walk = Walk::new(script);
            }
        } else {
            is_refused = is_refused || is_refusal(line);
            walk.hear(alloc, teller, line);
        }
    }
    is_refused
}
