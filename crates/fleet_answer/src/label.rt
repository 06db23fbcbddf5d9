//! Names, as texts.
ghost use Rattle.std.specs.Prelude.{◌≡◌, ◌≢◌, IfOk, Err};
ghost use Rattle.std.specs.Str.{IsUtf8};
ghost use Rattle.fleet_answer.specs.declared.fault.AnswerFault.{AnswerFault};

use crate::fault::AnswerFault;
use fleet_summary::Name;
use std::alloc::Global;
use std::marker::Model;

/// A name that is a text. Contracts see its bytes.
#[derive(Drop)]
pub struct Label {
    text: String,
}

impl Model for Label {
    ghost use Rattle.std.specs.Prelude.{ℕ, List, string_bytes};

    ghost Value = { List ℕ };

    ghost view = { λ label. string_bytes label.text };
}

impl Label {
    /// A name, if it is a text.
    pub(crate) fn of(alloc: Global, name: &Name) -> Result<Label, AnswerFault>
        ensures label { IfOk result (λ label. label ≡ name.now) }
        ensures no_text { result ≡ Err AnswerFault.NotText → ¬ (IsUtf8 name.now) }
        ensures never_no_reply { result ≢ Err AnswerFault.NoReply }
    {
        match str::from_utf8(name.bytes()) {
            Ok(text) => Ok(Label {
                text: String::from_str(alloc, text)?,
            }),
            Err(_) => Err(AnswerFault::NotText),
        }
    }

    pub fn as_str(&self) -> &str
        ensures { result.now ≡ self.now }
    {
        self.text.as_str()
    }
}
