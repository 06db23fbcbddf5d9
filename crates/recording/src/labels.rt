//! What the labels of a recording tell.
ghost use Rattle.std.specs.Prelude.{◌≡◌, [], IfOk, codes, is_some, option_map, string_bytes, unwrap_or};
ghost use Rattle.recording.specs.Labels.{count_in, text_in};

use json_trees::Tree;
use std::alloc::{AllocError, Global};

/// What the labels of a recording tell.
#[derive(Drop)]
pub struct Told {
    /// What a tick is, by the label `unit`; empty where that is not told.
    pub unit: String,
    /// Whether it was made of a trace, by the label `trace`.
    pub is_imported: bool,
    /// The tick by which there was to be a reply, by the label `deadline`.
    pub deadline: Option<u64>,
}

/// The text of a member.
fn text_in<'a>(recording: &Tree<'_, 'a>, name: &str) -> Option<&'a str>
    ensures { option_map (λ text. text.now) result ≡ text_in name.now recording.now }
{
    recording.get(name)?.as_str()
}

/// The count that a member is.
fn count_in(recording: &Tree<'_, '_>, name: &str) -> Option<u64>
    ensures { result ≡ count_in name.now recording.now }
{
    recording.get(name)?.as_u64()
}

/// What the labels of a recording tell.
pub(crate) fn told_in(alloc: Global, recording: &Tree<'_, '_>) -> Result<Told, AllocError>
    ensures unit { IfOk result (λ told. string_bytes told.unit ≡ unwrap_or (text_in (codes "unit") recording.now) []) }
    ensures imported { IfOk result (λ told. told.is_imported ≡ is_some (text_in (codes "trace") recording.now)) }
    ensures deadline { IfOk result (λ told. told.deadline ≡ count_in (codes "deadline") recording.now) }
{
    let mut unit = String::new(alloc);
    if let Some(text) = text_in(recording, "unit") {
        unit.push_str(text)?;
    }
    Ok(Told {
        unit,
        is_imported: text_in(recording, "trace").is_some(),
        deadline: count_in(recording, "deadline"),
    })
}
