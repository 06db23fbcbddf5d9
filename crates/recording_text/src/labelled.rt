//! The text of a recording that bears labels, put together stage by stage.
ghost use Rattle.std.specs.Prelude.{◌≡◌, [], IfOk, OnErr, OnOk, length, map};
ghost use Rattle.recording_text.specs.Labels.{GainsStage, IsFinished, begun, plain_head, plain_label};

use crate::label::{Head, Label, labelled_head, labelled_text};
use crate::writing::line_break;
use stage_graph::Spec;
use std::alloc::{AllocError, Global};
use std::marker::Model;

/// The text of a recording that bears labels, as far as its stages are put. Contracts see it as its bytes, and whether a
/// stage stands in it.
#[derive(Drop)]
pub struct LabelledText {
    alloc: Global,
    bytes: Vec<u8>,
    has_stages: bool,
}

impl Model for LabelledText {
    ghost use Rattle.std.specs.Prelude.{ℕ, List, Bool};

    ghost Value = { List ℕ × Bool };

    ghost view = { λ text. (text.bytes.items, text.has_stages) };
}

impl LabelledText {
    /// The text before the stages.
    pub fn new(alloc: Global, head: Head<'_>) -> Result<LabelledText, AllocError>
        ensures { IfOk result (λ text. text ≡ begun (plain_head head.entry) []) }
    {
        let bytes = labelled_head(alloc, head)?;
        Ok(LabelledText {
            alloc,
            bytes,
            has_stages: false,
        })
    }

    /// Puts a stage at the end, on a line of its own.
    pub fn push(&mut self, stage: &Spec, labels: &[Label<'_>]) -> Result<(), AllocError>
        ensures ok { OnOk result (GainsStage self.old self.new (stage.now, map plain_label labels.now)) }
        ensures err { OnErr result (self.new ≡ self.old) }
    {
        let text = labelled_text(self.alloc, stage, labels)?;
        let length = self.bytes.len();
        self.bytes
            .extend_from_slice(line_break(self.has_stages).as_bytes())?;
        if let Err(fault) = self.bytes.extend_from_slice(text.as_slice()) {
            self.bytes.truncate(length);
            return Err(fault.into());
        }
        self.has_stages = true;
        Ok(())
    }

    /// How many bytes the text has, but for its end.
    pub fn len(&self) -> usize
        ensures { result ≡ length self.now.0 }
    {
        self.bytes.len()
    }

    /// The text, with its end.
    pub fn finish(self) -> Result<Vec<u8>, AllocError>
        ensures { IfOk result (λ text. IsFinished self text.items) }
    {
        let mut bytes = self.bytes;
        bytes.extend_from_slice(b"\n]}\n")?;
        Ok(bytes)
    }
}
