//! The text of the recording that a trace makes.
ghost use Rattle.std.specs.Prelude.{◌≡◌, [], IfErr, IfOk, OnOk, map, option_map, option_to_list, slice_get};
ghost use Rattle.recording_text.specs.Labels.{GainsStage, begun, plain_label};
ghost use Rattle.trace_import.specs.ClockLabels.{clock_labels, plain_clock};
ghost use Rattle.trace_import.specs.Gains.{GainStages, StaysTooLong};
ghost use Rattle.trace_import.specs.Imported.{IsTextOfReading, head_of};
ghost use Rattle.trace_import.specs.KeptActions.{AreActions};
ghost use Rattle.trace_import.specs.Specs.{id_label, labelled_stage, labelled_stages, labels_of};
ghost use Rattle.trace_relations.specs.Relations.{plain};
ghost use Rattle.trace_stages.specs.Naming.{plain_stage, plain_stages};

use crate::actions::Actions;
use crate::clock_labels::{ClockText, clock_texts, labels_of_clocks};
use crate::fault::ImportFault;
use crate::imported_stage::{Making, imported_spec};
use crate::options::Mapping;
use crate::reading::Reading;
use recording_text::{Head, Label, LabelGroup, LabelledText};
use std::alloc::{AllocError, Global};
use trace_spans::{Span, TextList};
use trace_stages::{ImportedStage, StageName};

/// The most bytes of a recording.
const LONGEST: usize = 67_108_864;

/// The id of a span under a name, if the span is one.
fn id_label<'a>(spans: &'a [Span], name: &'static str, place: usize) -> Option<Label<'a>>
    ensures { option_to_list (option_map plain_label result) ≡ id_label name.now (slice_get spans.now place) }
{
    let span = spans.get(place)?;
    Some(Label {
        name,
        text: span.id.as_str(),
    })
}

/// What a stage bears beside: that which ends when its span did the id of that, and own work that of the span whose it is.
fn label_of<'a>(spans: &'a [Span], name: StageName) -> Option<Label<'a>>
    ensures { option_to_list (option_map plain_label result) ≡ labels_of spans.now name }
{
    match name {
        StageName::Whole(place) => id_label(spans, "span", place),
        StageName::Work(place, _) => id_label(spans, "x-work-of", place),
        _ => None,
    }
}

/// Puts a stage at the end of a text.
fn push_stage(
    text: &mut LabelledText,
    making: Making<'_>,
    stage: &ImportedStage,
) -> Result<(), AllocError>
    requires { AreActions making.actions.now }
    ensures { OnOk result (GainsStage text.old text.new (labelled_stage making.entry.spans.now making.entry.names.now (plain_stage stage.now))) }
{
    let spec = imported_spec(making, stage)?;
    match label_of(making.spans, stage.name) {
        Some(label) => text.push(&spec, &[label]),
        None => text.push(&spec, &[]),
    }
}

/// Puts stages at the end of a text; gives up where it gets too long.
fn push_stages(
    text: &mut LabelledText,
    making: Making<'_>,
    stages: &[ImportedStage],
) -> Result<(), ImportFault>
    requires { AreActions making.actions.now }
    ensures ok { OnOk result (GainStages text.old text.new (labelled_stages making.entry.spans.now making.entry.names.now (plain_stages stages.now))) }
    ensures err { IfErr result (λ fault. StaysTooLong fault text.old (labelled_stages making.entry.spans.now making.entry.names.now (plain_stages stages.now))) }
{
    for stage in stages {
        push_stage(text, making, stage)?;
        if text.len() > LONGEST {
            return Err(ImportFault::TooLong);
        }
    }
    Ok(())
}

/// The text before the stages.
fn text_before(
    alloc: Global,
    mapping: Mapping,
    reading: &Reading<'_>,
    clocks: &[ClockText],
) -> Result<LabelledText, AllocError>
    ensures { map plain_clock clocks.now ≡ clock_labels mapping.as_told reading.now.trace.now.spans → IfOk result (λ text. text ≡ begun (head_of mapping reading.now.trace.now (plain reading.now.relations)) []) }
{
    let start = reading.relations.origin;
    let start = format!(in alloc; "{start}")?;
    let labels = [
        Label {
            name: "trace",
            text: reading.trace.id.as_str(),
        },
        Label {
            name: "unit",
            text: mapping.unit.text(),
        },
        Label {
            name: "start",
            text: start.as_str(),
        },
    ];
    let moved = labels_of_clocks(alloc, clocks)?;
    let head = Head {
        labels: &labels,
        group: LabelGroup {
            name: "clocks",
            labels: &moved,
        },
    };
    LabelledText::new(alloc, head)
}

/// The text of what was read.
pub(crate) fn text_of(
    alloc: Global,
    mapping: Mapping,
    reading: &Reading<'_>,
    names: &TextList,
) -> Result<Vec<u8>, ImportFault>
    ensures { IsTextOfReading mapping reading.now names.now result }
{
    let spans = reading.trace.spans.as_slice();
    let actions = Actions::new(alloc)?;
    let making = Making {
        alloc,
        spans,
        names,
        actions: &actions,
    };
    let clocks = clock_texts(alloc, spans, &reading.relations.moved)?;
    let mut text = text_before(alloc, mapping, reading, &clocks)?;
    push_stages(&mut text, making, &reading.stages.0)?;
    let bytes = text.finish()?;
    if bytes.len() > LONGEST {
        return Err(ImportFault::TooLong);
    }
    Ok(bytes)
}
