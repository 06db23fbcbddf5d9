//! Reports of a version, as text and as JSON.
ghost use Rattle.std.specs.Prelude.{◌≡◌};
ghost use Rattle.text_io.specs.Counted.{write_failures};

use crate::refusals::Window;
use crate::told::Told;
use crate::versions::Asked;
use crate::written::{push_written, room};
use level_pool::Runner;
use report_form::{Form, tell_comparison, tell_report, tell_sweep};
use report_rows::{Comparison, ReportFault, SweepAsked, What};
use std::alloc::Global;
use text_io::CountedWriter;
use version_store::StateRepresentation;

/// A report.
#[derive(Clone, Copy)]
enum Report {
    Of(What),
    Sweep(u32),
    Against(Comparison),
}

/// The report that a word and a number name.
fn report_named(word: &str, number: u32) -> Report {
    match word {
        "all" => Report::Of(What::All),
        "one" => Report::Of(What::One(number)),
        "blame" => Report::Of(What::Blame(number)),
        "path" => Report::Of(What::Path(number)),
        "changes" => Report::Of(What::Changes),
        "drift" => Report::Of(What::Drift),
        "times" => Report::Of(What::Times),
        "sweep" => Report::Sweep(number),
        "changes-against" => Report::Against(Comparison::Changes),
        _ => Report::Against(Comparison::Drift),
    }
}

/// The form that a group's name says.
fn form_named(word: &str) -> Form {
    match word {
        "json" => Form::Json { line: None },
        _ => Form::Text,
    }
}

/// The number of a refusal.
fn refusal_of(answer: Result<(), ReportFault>) -> Option<u32> {
    match answer {
        Ok(()) => None,
        Err(fault) => Some(fault.number()),
    }
}

/// Writes the report.
fn write<R: StateRepresentation, W: Runner>(
    alloc: Global,
    asked: &Asked<'_, R, W>,
    sink: &mut CountedWriter<Vec<u8>>,
) -> Result<(), ReportFault>
    requires { write_failures sink.old ≡ 0 }
{
    let (scene, last, form) = (asked.scene, asked.last, form_named(asked.scene.group));
    match report_named(scene.call, scene.number) {
        Report::Of(what) => tell_report(alloc, last, what, form, sink),
        Report::Sweep(place) => tell_sweep(
            alloc,
            last,
            place,
            SweepAsked::PLAIN,
            asked.runner,
            form,
            sink,
        ),
        Report::Against(comparison) => {
            tell_comparison(alloc, last, asked.first, comparison, form, sink)
        }
    }
}

/// The report that is asked for.
pub(crate) fn push_report<R: StateRepresentation, W: Runner>(
    window: &mut Window,
    text: &mut Told,
    asked: &Asked<'_, R, W>,
) -> bool {
    let Ok(mut sink) = room(window.alloc) else {
        return text.lose();
    };
    window.begin();
    let answer = write(window.alloc, asked, &mut sink);
    window.end();
    push_written(text, sink, refusal_of(answer))
}
