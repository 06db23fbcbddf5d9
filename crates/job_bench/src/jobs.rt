//! The jobs, each over inputs of its own.

ghost use Rattle.std.specs.Prelude.{◌≡◌, IfOk};
ghost use Rattle.stage_graph.specs.Walk.{IsRanked};
ghost use Rattle.text_io.specs.Counted.{write_failures};

use crate::changes::{first_rewires, join_edits, source_edits};
use crate::digest::Digest;
use crate::names::name;
use crate::recordings::{Plan, Shape, recording};
use crate::scripts::{Steps, great_edits, small_edits};
use crate::traces::{Form as TraceForm, trace};
use act_expr::Value;
use anyhow::{Result, bail};
use incident_page::{Frame, Heading, write_page};
use level_pool::Runner;
use recording::read_recording;
use report_form::{
    Form, Format, tell_differences, tell_report, tell_rescue, tell_slack, tell_sweep,
};
use report_rows::{Arisen, RescueTerms, SweepAsked, What};
use serve_script::serve;
use stage_graph::Graph;
use std::alloc::Global;
use text_io::{CountedReader, CountedWriter, Sink};
use trace_import::{AsTold, Mapping, Options, Unit, import};
use version_store::{StateRepresentation, Version};

/// A job.
#[derive(Clone, Copy, PartialEq, Eq)]
pub(crate) enum Job {
    /// Recordings are read, and all their stages reported, as text and as JSON.
    Report,
    /// What became of the ends and of the failures of recordings is reported, as text and as JSON.
    Ends,
    /// Scripts of small edits and their reports.
    Serve,
    /// Scripts of edits that touch every stage.
    Spread,
    /// Which stages are worth making faster; a chain, where each trial reaches all that comes after, is the awkward one.
    Sweep,
    /// How much longer stages may run; for each some of the trials that find it.
    Slack,
    /// Which single changes would have saved a reply; some for each stage.
    Rescue,
    /// In which stages two runs differ.
    Compare,
    /// A page that tells of a recording and of its last stage.
    Page,
    /// Traces are imported.
    Import,
    /// Scripts of small edits alone.
    Small,
    /// Scripts of edits of the one source of all hubs, for whose joins each hub is looked at.
    Hubs,
    /// Scripts that rewire what all stages wait for, each in many ways.
    Windows,
    /// A script that rewires, adds and removes joins, changes actions and ends, and makes lists of these edits.
    Joins,
}

impl Job {
    /// The job of a name.
    pub(crate) fn named(name: &str) -> Option<Job> {
        match name {
            "report" => Some(Job::Report),
            "ends" => Some(Job::Ends),
            "serve" => Some(Job::Serve),
            "spread" => Some(Job::Spread),
            "sweep" => Some(Job::Sweep),
            "slack" => Some(Job::Slack),
            "rescue" => Some(Job::Rescue),
            "compare" => Some(Job::Compare),
            "page" => Some(Job::Page),
            "import" => Some(Job::Import),
            "small" => Some(Job::Small),
            "hubs" => Some(Job::Hubs),
            "windows" => Some(Job::Windows),
            "joins" => Some(Job::Joins),
            _ => None,
        }
    }
}

/// How large the inputs are: a number of stages, spans, steps or edits is divided by this.
#[derive(Clone, Copy)]
pub(crate) struct Scale {
    pub divisor: u32,
}

impl Scale {
    fn of(self, size: u32) -> u32 {
        match size.checked_div(self.divisor) {
            Some(scaled) => scaled,
            None => size,
        }
    }
}

/// The graph of a recording.
fn read<R: StateRepresentation>(alloc: Global, text: &str) -> Result<Graph<R>>
    ensures { IfOk result (λ graph. IsRanked graph.places) }
{
    match read_recording(alloc, text.as_bytes()) {
        Ok(graph) => Ok(graph),
        Err(fault) => bail!("{fault}"),
    }
}

/// Version 0 of a recording.
fn loaded<R: StateRepresentation>(alloc: Global, text: &str) -> Result<Version<R>> {
    let graph = read(alloc, text)?;
    Ok(Version::load(alloc, graph)?)
}

/// What is written into a buffer.
type Written = CountedWriter<Vec<u8>>;

/// A buffer that nothing was written to.
fn unwritten(alloc: Global) -> Written
    ensures { write_failures result ≡ 0 }
{
    CountedWriter::new(Vec::new(alloc))
}

/// Takes into a digest what was written.
fn taken(digest: &mut Digest, written: Written) {
    let bytes = written.into_inner();
    digest.take(bytes.as_slice());
}

/// Takes in a report of a version.
fn report_in<R: StateRepresentation>(
    alloc: Global,
    version: &Version<R>,
    what: What,
    form: Form,
    digest: &mut Digest,
) -> Result<()> {
    let mut sink = unwritten(alloc);
    tell_report(alloc, version, what, form, &mut sink)?;
    taken(digest, sink);
    Ok(())
}

/// Takes in the reports of a recording.
fn reports<R: StateRepresentation>(alloc: Global, plan: &Plan, digest: &mut Digest) -> Result<()> {
    let text = recording(alloc, plan)?;
    let version = loaded::<R>(alloc, text.as_str())?;
    report_in(alloc, &version, What::All, Form::Text, digest)?;
    report_in(alloc, &version, What::Times, Form::Text, digest)?;
    report_in(
        alloc,
        &version,
        What::All,
        Form::Json { line: None },
        digest,
    )
}

/// Takes in what became of the ends and of the failures of a recording.
fn fates<R: StateRepresentation>(alloc: Global, plan: &Plan, digest: &mut Digest) -> Result<()> {
    let text = recording(alloc, plan)?;
    let version = loaded::<R>(alloc, text.as_str())?;
    for what in [What::Ends, What::Failures(Arisen::Anywhere)] {
        for form in [Form::Text, Form::Json { line: None }] {
            report_in(alloc, &version, what, form, digest)?;
        }
    }
    Ok(())
}

/// Takes in what a script is answered.
fn served<R: StateRepresentation, W: Runner>(
    alloc: Global,
    runner: &W,
    plan: &Plan,
    script: &str,
    format: Format,
    digest: &mut Digest,
) -> Result<()> {
    let text = recording(alloc, plan)?;
    let graph = read::<R>(alloc, text.as_str())?;
    let mut source = CountedReader::new(script.as_bytes());
    let mut sink = unwritten(alloc);
    serve(alloc, runner, &mut source, &mut sink, graph, format)?;
    taken(digest, sink);
    Ok(())
}

/// The place of the last stage of a recording.
fn last_of<R: StateRepresentation>(
    alloc: Global,
    plan: &Plan,
    version: &Version<R>,
) -> Result<u32> {
    let last = name(alloc, plan.seed, plan.stages.saturating_sub(1))?;
    match version.id_of(last.as_str()) {
        Ok(place) => Ok(place),
        Err(_) => bail!("no stage {last}"),
    }
}

/// Takes in the sweep of the last stage of a recording.
fn swept<R: StateRepresentation, W: Runner>(
    alloc: Global,
    runner: &W,
    plan: &Plan,
    digest: &mut Digest,
) -> Result<()> {
    let text = recording(alloc, plan)?;
    let version = loaded::<R>(alloc, text.as_str())?;
    let target = last_of(alloc, plan, &version)?;
    let mut sink = unwritten(alloc);
    let asked = SweepAsked::PLAIN;
    tell_sweep(
        alloc,
        &version,
        target,
        asked,
        runner,
        Form::Text,
        &mut sink,
    )?;
    taken(digest, sink);
    Ok(())
}

/// Takes in how much longer the stages of a recording may run before the last one completes otherwise.
fn slacks_in<R: StateRepresentation, W: Runner>(
    alloc: Global,
    runner: &W,
    plan: &Plan,
    digest: &mut Digest,
) -> Result<()> {
    let text = recording(alloc, plan)?;
    let version = loaded::<R>(alloc, text.as_str())?;
    let target = last_of(alloc, plan, &version)?;
    let mut sink = unwritten(alloc);
    tell_slack(alloc, &version, target, None, runner, Form::Text, &mut sink)?;
    taken(digest, sink);
    Ok(())
}

/// Takes in which single changes would make the last stage of a recording complete with a value at the first tick, which
/// none does, so that all are tried.
fn rescues_in<R: StateRepresentation, W: Runner>(
    alloc: Global,
    runner: &W,
    plan: &Plan,
    digest: &mut Digest,
) -> Result<()> {
    let text = recording(alloc, plan)?;
    let version = loaded::<R>(alloc, text.as_str())?;
    let target = last_of(alloc, plan, &version)?;
    let terms = RescueTerms {
        by: Some(0),
        value: Value::Num(1),
        most: None,
    };
    let mut sink = unwritten(alloc);
    tell_rescue(
        alloc,
        &version,
        target,
        terms,
        runner,
        Form::Text,
        &mut sink,
    )?;
    taken(digest, sink);
    Ok(())
}

/// Takes in in which stages two recordings differ, where they are compared for the last one.
fn compared<R: StateRepresentation>(
    alloc: Global,
    good: &Plan,
    bad: &Plan,
    digest: &mut Digest,
) -> Result<()> {
    let text = recording(alloc, good)?;
    let good_version = loaded::<R>(alloc, text.as_str())?;
    let text = recording(alloc, bad)?;
    let bad_version = loaded::<R>(alloc, text.as_str())?;
    let Some(in_good) = good_version.stage(last_of(alloc, good, &good_version)?) else {
        bail!("no last stage");
    };
    let Some(in_bad) = bad_version.stage(last_of(alloc, bad, &bad_version)?) else {
        bail!("no last stage");
    };
    let mut sink = unwritten(alloc);
    tell_differences(alloc, &in_good, &in_bad, Form::Text, &mut sink)?;
    taken(digest, sink);
    Ok(())
}

/// Takes in the data of the page of a recording, about its last stage.
fn paged<R: StateRepresentation, W: Runner>(
    alloc: Global,
    runner: &W,
    plan: &Plan,
    digest: &mut Digest,
) -> Result<()> {
    let text = recording(alloc, plan)?;
    let version = loaded::<R>(alloc, text.as_str())?;
    let target = last_of(alloc, plan, &version)?;
    if version.stage(target).is_none() {
        bail!("no last stage");
    }
    let made: Vec<Version<R>> = Vec::new(alloc);
    let frame = Frame { head: "", tail: "" };
    let heading = Heading {
        program: "",
        file: "-",
        script: None,
        recording: text.as_bytes(),
    };
    let mut sink = unwritten(alloc);
    write_page(
        alloc,
        frame,
        heading,
        &version,
        made.as_slice(),
        Some(target),
        runner,
        &mut sink,
    )?;
    taken(digest, sink);
    Ok(())
}

/// Takes in what is imported from a trace.
fn imported(
    alloc: Global,
    form: TraceForm,
    spans: u32,
    seed: u32,
    digest: &mut Digest,
) -> Result<()> {
    let text = trace(alloc, form, spans, seed)?;
    let mut sink = unwritten(alloc);
    let options = Options {
        trace: None,
        mapping: Mapping {
            unit: Unit::Microsecond,
            as_told: AsTold {
                clocks: false,
                calls: false,
            },
        },
    };
    import(alloc, text.as_bytes(), options, &mut sink)?;
    taken(digest, sink);
    Ok(())
}

/// What all recordings of a job are like, but for their numbers of stages.
fn plan(shape: Shape, stages: u32, seed: u32) -> Plan {
    Plan {
        shape,
        stages,
        seed,
    }
}

/// Runs the job `report`.
fn run_report<R: StateRepresentation>(
    alloc: Global,
    scale: Scale,
    seed: u32,
    digest: &mut Digest,
) -> Result<()> {
    reports::<R>(alloc, &plan(Shape::Mixed, scale.of(36_864), seed), digest)?;
    reports::<R>(alloc, &plan(Shape::Layers, scale.of(24_576), seed), digest)?;
    reports::<R>(alloc, &plan(Shape::Trees, scale.of(16_384), seed), digest)?;
    reports::<R>(alloc, &plan(Shape::Chain, scale.of(32_768), seed), digest)
}

/// Runs the job `ends`.
fn run_ends<R: StateRepresentation>(
    alloc: Global,
    scale: Scale,
    seed: u32,
    digest: &mut Digest,
) -> Result<()> {
    for shape in [Shape::Mixed, Shape::Layers, Shape::Trees] {
        fates::<R>(alloc, &plan(shape, scale.of(32_768), seed), digest)?;
    }
    Ok(())
}

/// Runs the job `serve`.
fn run_serve<R: StateRepresentation, W: Runner>(
    alloc: Global,
    runner: &W,
    scale: Scale,
    seed: u32,
    digest: &mut Digest,
) -> Result<()> {
    let mixed = plan(Shape::Mixed, scale.of(8_192), seed);
    let script = small_edits(alloc, &mixed, Steps::WithReports, scale.of(20_000))?;
    served::<R, W>(alloc, runner, &mixed, script.as_str(), Format::Text, digest)?;
    let trees = plan(Shape::Trees, scale.of(4_096), seed);
    let script = small_edits(alloc, &trees, Steps::WithReports, scale.of(20_000))?;
    served::<R, W>(alloc, runner, &trees, script.as_str(), Format::Json, digest)
}

/// Runs the job `spread`.
fn run_spread<R: StateRepresentation, W: Runner>(
    alloc: Global,
    runner: &W,
    scale: Scale,
    seed: u32,
    digest: &mut Digest,
) -> Result<()> {
    let layers = plan(Shape::Layers, scale.of(16_384), seed);
    let script = great_edits(alloc, &layers, 56)?;
    served::<R, W>(
        alloc,
        runner,
        &layers,
        script.as_str(),
        Format::Text,
        digest,
    )?;
    let chain = plan(Shape::Chain, scale.of(4_096), seed);
    let script = great_edits(alloc, &chain, 56)?;
    served::<R, W>(alloc, runner, &chain, script.as_str(), Format::Text, digest)
}

/// Runs the job `sweep`.
fn run_sweep<R: StateRepresentation, W: Runner>(
    alloc: Global,
    runner: &W,
    scale: Scale,
    seed: u32,
    digest: &mut Digest,
) -> Result<()> {
    swept::<R, W>(
        alloc,
        runner,
        &plan(Shape::Chain, scale.of(2_560), seed),
        digest,
    )?;
    swept::<R, W>(
        alloc,
        runner,
        &plan(Shape::Layers, scale.of(3_072), seed),
        digest,
    )?;
    swept::<R, W>(
        alloc,
        runner,
        &plan(Shape::Mixed, scale.of(4_096), seed),
        digest,
    )
}

/// Runs the job `slack`.
fn run_slack<R: StateRepresentation, W: Runner>(
    alloc: Global,
    runner: &W,
    scale: Scale,
    seed: u32,
    digest: &mut Digest,
) -> Result<()> {
    for shape in [Shape::Chain, Shape::Layers, Shape::Mixed] {
        slacks_in::<R, W>(alloc, runner, &plan(shape, scale.of(1_024), seed), digest)?;
    }
    Ok(())
}

/// Runs the job `rescue`.
fn run_rescue<R: StateRepresentation, W: Runner>(
    alloc: Global,
    runner: &W,
    scale: Scale,
    seed: u32,
    digest: &mut Digest,
) -> Result<()> {
    for shape in [Shape::Chain, Shape::Layers, Shape::Mixed] {
        rescues_in::<R, W>(alloc, runner, &plan(shape, scale.of(2_048), seed), digest)?;
    }
    Ok(())
}

/// Runs the job `compare`: the names of stages go by the seed, so that layers and mixed stages have the same ones.
fn run_compare<R: StateRepresentation>(
    alloc: Global,
    scale: Scale,
    seed: u32,
    digest: &mut Digest,
) -> Result<()> {
    let stages = scale.of(32_768);
    let layers = plan(Shape::Layers, stages, seed);
    let mixed = plan(Shape::Mixed, stages, seed);
    compared::<R>(alloc, &layers, &mixed, digest)?;
    compared::<R>(alloc, &mixed, &mixed, digest)?;
    Ok(())
}

/// Runs the job `page`.
fn run_page<R: StateRepresentation, W: Runner>(
    alloc: Global,
    runner: &W,
    scale: Scale,
    seed: u32,
    digest: &mut Digest,
) -> Result<()> {
    for shape in [Shape::Layers, Shape::Mixed] {
        paged::<R, W>(alloc, runner, &plan(shape, scale.of(2_048), seed), digest)?;
    }
    Ok(())
}

/// Runs the job `import`.
fn run_import(alloc: Global, scale: Scale, seed: u32, digest: &mut Digest) -> Result<()> {
    imported(alloc, TraceForm::Otlp, scale.of(22_000), seed, digest)?;
    imported(alloc, TraceForm::Jaeger, scale.of(16_000), seed, digest)?;
    imported(alloc, TraceForm::Otlp, scale.of(16_000), seed ^ 1, digest)
}

/// Runs the job `small`.
fn run_small<R: StateRepresentation, W: Runner>(
    alloc: Global,
    runner: &W,
    scale: Scale,
    seed: u32,
    digest: &mut Digest,
) -> Result<()> {
    for shape in [Shape::Mixed, Shape::Trees] {
        let edited = plan(shape, scale.of(4_096), seed);
        let script = small_edits(alloc, &edited, Steps::EditsAlone, scale.of(30_000))?;
        served::<R, W>(
            alloc,
            runner,
            &edited,
            script.as_str(),
            Format::Text,
            digest,
        )?;
    }
    Ok(())
}

/// Runs the job `hubs`.
fn run_hubs<R: StateRepresentation, W: Runner>(
    alloc: Global,
    runner: &W,
    scale: Scale,
    seed: u32,
    digest: &mut Digest,
) -> Result<()> {
    for hubs in [16, 64, 256, 512] {
        let hubbed = plan(
            Shape::Hubs(hubs),
            scale.of(1_001).saturating_add(hubs),
            seed,
        );
        let script = source_edits(alloc, &hubbed, 40)?;
        served::<R, W>(
            alloc,
            runner,
            &hubbed,
            script.as_str(),
            Format::Text,
            digest,
        )?;
    }
    Ok(())
}

/// Runs the job `windows`.
fn run_windows<R: StateRepresentation, W: Runner>(
    alloc: Global,
    runner: &W,
    scale: Scale,
    seed: u32,
    digest: &mut Digest,
) -> Result<()> {
    for width in [16, 64, 200] {
        let windowed = plan(Shape::Window(width), scale.of(1_000), seed);
        let script = first_rewires(alloc, &windowed, 32)?;
        served::<R, W>(
            alloc,
            runner,
            &windowed,
            script.as_str(),
            Format::Text,
            digest,
        )?;
    }
    Ok(())
}

/// Runs the job `joins`.
fn run_joins<R: StateRepresentation, W: Runner>(
    alloc: Global,
    runner: &W,
    scale: Scale,
    seed: u32,
    digest: &mut Digest,
) -> Result<()> {
    let joins = plan(Shape::Joins, scale.of(2_048), seed);
    let script = join_edits(alloc, &joins, scale.of(2_048))?;
    served::<R, W>(alloc, runner, &joins, script.as_str(), Format::Text, digest)
}

/// The digest of all results of a job.
pub(crate) fn run<R: StateRepresentation, W: Runner>(
    alloc: Global,
    runner: &W,
    job: Job,
    scale: Scale,
    seed: u32,
) -> Result<Digest> {
    let mut digest = Digest::new();
    match job {
        Job::Report => run_report::<R>(alloc, scale, seed, &mut digest)?,
        Job::Ends => run_ends::<R>(alloc, scale, seed, &mut digest)?,
        Job::Serve => run_serve::<R, W>(alloc, runner, scale, seed, &mut digest)?,
        Job::Spread => run_spread::<R, W>(alloc, runner, scale, seed, &mut digest)?,
        Job::Sweep => run_sweep::<R, W>(alloc, runner, scale, seed, &mut digest)?,
        Job::Slack => run_slack::<R, W>(alloc, runner, scale, seed, &mut digest)?,
        Job::Rescue => run_rescue::<R, W>(alloc, runner, scale, seed, &mut digest)?,
        Job::Compare => run_compare::<R>(alloc, scale, seed, &mut digest)?,
        Job::Page => run_page::<R, W>(alloc, runner, scale, seed, &mut digest)?,
        Job::Import => run_import(alloc, scale, seed, &mut digest)?,
        Job::Small => run_small::<R, W>(alloc, runner, scale, seed, &mut digest)?,
        Job::Hubs => run_hubs::<R, W>(alloc, runner, scale, seed, &mut digest)?,
        Job::Windows => run_windows::<R, W>(alloc, runner, scale, seed, &mut digest)?,
        Job::Joins => run_joins::<R, W>(alloc, runner, scale, seed, &mut digest)?,
    }
    Ok(digest)
}
