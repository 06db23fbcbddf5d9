//! Calls that write what they answer: scripts that are answered, reports of a recording as it is, and imports of traces.
ghost use Rattle.std.specs.Prelude.{◌≡◌, IfOk};
ghost use Rattle.stage_graph.specs.Walk.{IsRanked};
ghost use Rattle.text_io.specs.Counted.{read_failures, write_failures};

use crate::refusals::Window;
use crate::scene::Scene;
use crate::sources::graph_of;
use crate::told::Told;
use crate::turn::{Turn, shown};
use crate::written::{push_written, room};
use act_expr::Value;
use anyhow::Result;
use level_pool::Runner;
use recording_reports::{RecordingFault, StageReport, WholeReport, report_all, report_stage};
use report_form::{Form, Format};
use report_rows::{RescueTerms, SweepAsked};
use serve_script::{ServeFault, serve};
use stage_graph::Graph;
use std::alloc::Global;
use std::marker::PhantomData;
use text_io::{CountedReader, CountedWriter};
use trace_import::{AsTold, ImportFault, Mapping, Options, Unit, import, import_each};
use trace_spans::list_traces;
use version_store::StateRepresentation;

/// What is written, and of what.
#[derive(Drop)]
struct Writing<'a, R, W> {
    runner: &'a W,
    scene: Scene<'a>,
    script: &'a str,
    of: PhantomData<R>,
}

/// The script of the steps.
fn script(alloc: Global, scene: Scene<'_>) -> Result<String> {
    let mut script = String::new(alloc);
    for index in 0..scene.steps {
        script.push_str(scene.step_at(index))?;
        script.push_str("\n")?;
    }
    Ok(script)
}

/// The form of the answers.
fn format_named(word: &str) -> Format {
    match word {
        "json" => Format::Json,
        _ => Format::Text,
    }
}

/// The form of the report of all stages.
fn form_named(word: &str) -> Form {
    match word {
        "all-json" => Form::Json { line: None },
        _ => Form::Text,
    }
}

/// What is reported of a stage.
fn stage_report_named(word: &str) -> StageReport {
    match word {
        "explain" => StageReport::Explanation,
        "slack" => StageReport::Slack { within: Some(9) },
        "rescue" => StageReport::Rescue(RescueTerms {
            by: Some(9),
            value: Value::Null,
            most: Some(2),
        }),
        _ => StageReport::Sweep(SweepAsked {
            most: Some(2),
            ..SweepAsked::PLAIN
        }),
    }
}

/// The number of an import's refusal.
fn refusal_of_import<T>(answer: &Result<T, ImportFault>) -> Option<u32> {
    match answer {
        Ok(_) => None,
        Err(fault) => Some(fault.number()),
    }
}

/// The number of a report's refusal.
fn refusal_of_report(answer: &Result<(), RecordingFault>) -> Option<u32> {
    match answer {
        Ok(()) => None,
        Err(fault) => Some(fault.number()),
    }
}

/// The number by which a script's end is told.
fn refusal_of_script(answer: Result<(), ServeFault>) -> Option<u32> {
    match answer {
        Ok(()) => None,
        Err(ServeFault::Memory) => Some(90),
        Err(ServeFault::Write) => Some(40),
        Err(ServeFault::Read) => Some(41),
    }
}

/// How traces are imported.
fn mapping() -> Mapping {
    Mapping {
        unit: Unit::Microsecond,
        as_told: AsTold {
            clocks: false,
            calls: false,
        },
    }
}

/// Imports a trace; the number of the refusal.
fn imported_one(alloc: Global, trace: &str, sink: &mut CountedWriter<Vec<u8>>) -> Option<u32>
    requires { write_failures sink.old ≡ 0 }
{
    let options = Options {
        trace: None,
        mapping: mapping(),
    };
    let answer = import(alloc, trace.as_bytes(), options, sink);
    refusal_of_import(&answer)
}

/// Imports each trace of a file; the number of the refusal.
fn imported_each(alloc: Global, traces: &str, sink: &mut CountedWriter<Vec<u8>>) -> Option<u32>
    requires { write_failures sink.old ≡ 0 }
{
    let answer = import_each(alloc, traces.as_bytes(), mapping(), sink);
    refusal_of_import(&answer)
}

/// Lists the traces of a file; the number of the refusal.
fn listed(alloc: Global, traces: &str) -> Option<u32> {
    match list_traces(alloc, traces.as_bytes()) {
        Ok(_) => None,
        Err(fault) => Some(fault.number()),
    }
}

/// Imports a trace or each of a file, or lists them; the number of the refusal.
fn imported(alloc: Global, scene: Scene<'_>, sink: &mut CountedWriter<Vec<u8>>) -> Option<u32>
    requires { write_failures sink.old ≡ 0 }
{
    match scene.call {
        "each" => imported_each(alloc, scene.trace(), sink),
        "list" => listed(alloc, scene.trace()),
        _ => imported_one(alloc, scene.trace(), sink),
    }
}

impl<R: StateRepresentation, W: Runner> Writing<'_, R, W> {
    /// Answers the script; the number of the refusal.
    fn served(
        &self,
        alloc: Global,
        graph: Graph<R>,
        sink: &mut CountedWriter<Vec<u8>>,
    ) -> Option<u32>
        requires ranked { IsRanked graph.places }
        requires writes { write_failures sink.old ≡ 0 }
    {
        let format = format_named(self.scene.call);
        let mut source = CountedReader::new(self.script.as_bytes());
        refusal_of_script(serve(alloc, self.runner, &mut source, sink, graph, format))
    }

    /// Reports all stages, or the stage that the block names; the number of the refusal.
    fn reported(&self, alloc: Global, sink: &mut CountedWriter<Vec<u8>>) -> Option<u32>
        requires { write_failures sink.old ≡ 0 }
    {
        let (scene, runner) = (self.scene, self.runner);
        let recording = scene.recording().as_bytes();
        let answer = match scene.call {
            "all" | "all-json" => {
                report_all::<R, _>(
                    alloc,
                    recording,
                    WholeReport::All,
                    form_named(scene.call),
                    sink,
                )
            }
            word => {
                let (name, asked) = (scene.stages(), stage_report_named(word));
                report_stage::<R, W, _>(alloc, recording, name, asked, runner, Form::Text, sink)
            }
        };
        refusal_of_report(&answer)
    }

    /// The answers to the script of the recording.
    fn push_served(
        &self,
        window: &mut Window,
        text: &mut Told,
        mut sink: CountedWriter<Vec<u8>>,
        graph: Graph<R>,
    ) -> bool
        requires ranked { IsRanked graph.places }
        requires writes { write_failures sink ≡ 0 }
    {
        window.begin();
        let refusal = self.served(window.alloc, graph, &mut sink);
        window.end();
        push_written(text, sink, refusal)
    }

    /// The report, or the import.
    fn push_others(
        &self,
        window: &mut Window,
        text: &mut Told,
        mut sink: CountedWriter<Vec<u8>>,
    ) -> bool
        requires { write_failures sink ≡ 0 }
    {
        let (alloc, scene) = (window.alloc, self.scene);
        window.begin();
        let refusal = match scene.group {
            "import" => imported(alloc, scene, &mut sink),
            _ => self.reported(alloc, &mut sink),
        };
        window.end();
        push_written(text, sink, refusal)
    }

    /// The call.
    fn push_answer(&self, window: &mut Window, text: &mut Told) -> bool {
        let (alloc, scene) = (window.alloc, self.scene);
        let Ok(sink) = room(alloc) else {
            return text.lose();
        };
        if scene.group != "serve" {
            return self.push_others(window, text, sink);
        }
        match graph_of(alloc, scene.recording()) {
            Ok(graph) => self.push_served(window, text, sink, graph),
            Err(_) => text.lose(),
        }
    }

    fn show(&self, window: &mut Window, turn: &mut Turn) {
        shown!(
            turn,
            window,
            |text| text.push(""),
            |window, text| self.push_answer(window, text)
        )
    }
}

/// What is written.
pub(crate) fn show<R: StateRepresentation, W: Runner>(
    window: &mut Window,
    scene: Scene<'_>,
    turn: &mut Turn,
    runner: &W,
) -> Result<()> {
    let script = script(window.alloc, scene)?;
    let writing = Writing::<R, W> {
        runner,
        scene,
        script: script.as_str(),
        of: PhantomData,
    };
    writing.show(window, turn);
    Ok(())
}
