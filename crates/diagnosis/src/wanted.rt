//! What a member may be.
use crate::exception::is_exception;
use crate::operation::{OPERATIONS, operation_of};
use json_names::is_among;
use json_trees::Tree;
use std::fmt;

/// What a member may be.
#[derive(Clone, Copy)]
pub enum Wanted {
    Recording,
    Form,
    Wrap,
    Stages,
    Stage,
    Text,
    Operation,
    /// A number or null.
    Value,
    Exception,
    Names,
    Ticks,
    /// A count below 2^32.
    Count,
    OutcomeOrNull,
    TicksOrNull,
    Ends,
    End,
    Kind,
    Action,
    /// The operand of `arg`.
    Position,
    /// As many operands as the word has.
    Operands,
    Step,
    StepName,
    EditName,
    Edits,
    Edit,
    Report,
    /// A report's session, where it names a version too.
    SessionAlone,
    /// `takes`, in form 2.
    NoTakes,
}

/// The names of what an end does.
pub(crate) const KINDS: &[&str] = &[
    "complete",
    "completeExceptionally",
    "cancel",
    "orTimeout",
    "completeOnTimeout",
];

/// The names of edits.
pub(crate) const EDIT_NAMES: &[&str] = &[
    "pinResult",
    "pinMoment",
    "setTakes",
    "setTimes",
    "setAction",
    "setEnds",
    "add",
    "remove",
    "rewire",
];

/// The names of steps.
pub(crate) const STEP_NAMES: &[&str] = &[
    "open",
    "head",
    "undo",
    "close",
    "edits",
    "report",
    "pinResult",
    "pinMoment",
    "setTakes",
    "setTimes",
    "setAction",
    "setEnds",
    "add",
    "remove",
    "rewire",
];

/// The names of reports.
pub(crate) const REPORTS: &[&str] = &[
    "all",
    "one",
    "blame",
    "path",
    "sweep",
    "changes",
    "drift",
    "times",
    "recording",
];

/// The words that begin an expression.
pub(crate) const WORDS: &[&str] = &[
    "arg",
    "add",
    "sub",
    "mul",
    "div",
    "lt",
    "eq",
    "if",
    "isnull",
    "failed",
    "iswrapped",
    "causeis",
    "throw",
];

/// Whether a value has exactly one of the members of an outcome.
fn is_outcome(value: &Tree<'_, '_>) -> bool {
    matches!(
        (value.get("value"), value.get("bare"), value.get("wrapped")),
        (Some(_), None, None) | (None, Some(_), None) | (None, None, Some(_))
    )
}

impl Wanted {
    /// Whether a value is what is wanted, but for what stands in it.
    pub(crate) fn is_met_by(self, value: &Tree<'_, '_>) -> bool {
        match self {
            Wanted::Recording | Wanted::Stage | Wanted::End | Wanted::Step | Wanted::Edit => {
                value.is_object()
            }
            Wanted::Stages | Wanted::Names | Wanted::Ends | Wanted::Edits => value.is_array(),
            Wanted::Form => matches!(value.as_i64(), Some(1 | 2)),
            Wanted::Text => value.as_str().is_some(),
            Wanted::Value => value.is_null() || value.as_i64().is_some(),
            Wanted::Exception => value.as_str().is_some_and(is_exception),
            Wanted::Ticks => value.as_u64().is_some(),
            Wanted::TicksOrNull => value.is_null() || value.as_u64().is_some(),
            Wanted::Count => matches!(value.as_u64(), Some(0..=4_294_967_295)),
            Wanted::OutcomeOrNull => value.is_null() || is_outcome(value),
            Wanted::NoTakes | Wanted::SessionAlone => false,
            Wanted::Action | Wanted::Position | Wanted::Operands => true,
            Wanted::Operation
            | Wanted::Wrap
            | Wanted::Kind
            | Wanted::StepName
            | Wanted::EditName
            | Wanted::Report => self.has_name(value),
        }
    }

    /// Whether a value is one of the names that it may be.
    fn has_name(self, value: &Tree<'_, '_>) -> bool {
        match (self, value.as_str()) {
            // (of operations more have a name than are told)
            (Wanted::Operation, Some(name)) => operation_of(name).is_some(),
            (_, Some(name)) => is_among(name, self.names()),
            (_, None) => false,
        }
    }

    /// The names that it may be, where there are few.
    pub(crate) fn names(self) -> &'static [&'static str] {
        match self {
            Wanted::Wrap => &["computed", "literal"],
            Wanted::Operation => OPERATIONS,
            Wanted::Kind => KINDS,
            Wanted::StepName => STEP_NAMES,
            Wanted::EditName => EDIT_NAMES,
            Wanted::Report => REPORTS,
            Wanted::Action => WORDS,
            _ => &[],
        }
    }

    /// What is wanted, before the names.
    fn text(self) -> &'static str {
        match self {
            Wanted::Recording => "a recording is one JSON object with \"stages\"",
            Wanted::Form => "the form is 1 or 2",
            Wanted::Wrap => "the wrap mode is one of",
            Wanted::Stages => "it is an array of stages",
            Wanted::Stage => "a stage is an object",
            Wanted::Text => "it is a text",
            Wanted::Operation => "the operations are",
            Wanted::Value => "it is a whole number of 64 bits or null",
            Wanted::Exception =>
                "it is the name of an exception, 1 to 128 of A-Z a-z 0-9 . _ $, but no CompletionException",
            Wanted::Names => "it is an array of names of stages",
            Wanted::Ticks => "it is whole ticks, from 0",
            Wanted::Count => "it is a whole number from 0 to 4294967295",
            Wanted::OutcomeOrNull =>
                "it is null, or an object with exactly one of \"value\", \"bare\" and \"wrapped\"",
            Wanted::TicksOrNull => "it is null, or whole ticks, from 0",
            Wanted::Ends => "it is an array of ends",
            Wanted::End => "an end is an object with \"at\" and \"do\"",
            Wanted::Kind => "an end does one of",
            Wanted::Action =>
                "an expression is a number, null, or an array of operands behind one of",
            Wanted::Position => "the operand of arg is 0 or 1",
            Wanted::Operands =>
                "if has 3 operands, failed and iswrapped none, arg, isnull, causeis and throw 1, the others 2",
            Wanted::Step => "a step is one JSON object on a line",
            Wanted::StepName => "the steps are",
            Wanted::EditName => "the edits are",
            Wanted::Edits => "it is an array of edits",
            Wanted::Edit => "an edit is an object",
            Wanted::Report => "the reports are",
            Wanted::SessionAlone => "a report is of a session or of a version, not of both",
            Wanted::NoTakes => "form 2 has queued and runs in place of takes",
        }
    }
}

impl fmt::Display for Wanted {
    fn fmt<W: fmt::Write>(&self, f: &mut fmt::Formatter<W>) -> fmt::Result {
        f.write_str(self.text())?;
        let mut between = " ";
        for name in self.names() {
            f.write_str(between)?;
            f.write_str(name)?;
            between = ", ";
        }
        Ok(())
    }
}
