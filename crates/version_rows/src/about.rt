//! What is told of a stage where one points at its row.
ghost use Rattle.std.specs.Prelude.{◌≡◌, ◌++◌, OnOk, slice_get, string_bytes};
ghost use Rattle.version_rows.specs.Rows.{about_text, act_text, cause_text, cut_text, end_text, ended_text, index_text, own_text, run_text};

use propagate::StateRepresentation;
use stage_graph::{Act, Graph, Representation, Stage};
use stage_ops::Cause;
use std::alloc::AllocError;
use std::fmt::Write;
use timeline_svg::{Course, Run};
use version_store::StageView;

/// The outcome and the moment, the rank, what it waited for, and how long its own action was queued and ran by then.
pub(crate) fn push_about<R: StateRepresentation>(
    line: &mut String,
    view: &StageView<'_, R>,
    course: Course,
) -> Result<(), AllocError>
    ensures { OnOk result (string_bytes line.new ≡ string_bytes line.old ++ about_text view.now.version.now.graph view.now.place view.now.stage.now course) }
{
    let state = view.state();
    let rank = view.rank();
    let reason = view.reason();
    write!(line, "{state}\nrank {rank}\n")?;
    push_cause(line, view.version.graph(), view.stage, reason.cause)?;
    line.push_str("\n")?;
    push_own(line, course)
}

fn push_cause<R: Representation>(
    line: &mut String,
    graph: &Graph<R>,
    stage: &Stage,
    cause: Cause,
) -> Result<(), AllocError>
    ensures { OnOk result (string_bytes line.new ≡ string_bytes line.old ++ cause_text graph.now stage.now cause) }
{
    match cause {
        Cause::Created => {
            let created = stage.created;
            write!(line, "waited for its creation at {created}")
        }
        Cause::After(place) => {
            let source = graph.name_of(place);
            write!(line, "waited for {source}")
        }
        Cause::Inner(place) => {
            let inner = graph.name_of(place);
            write!(line, "took over {inner}")
        }
        Cause::Pinned => line.push_str("its moment is pinned"),
        Cause::Ended(index) => push_ended(line, stage, index),
        Cause::Waiting(place) => {
            let feed = graph.name_of(place);
            write!(line, "waits for {feed}")
        }
        Cause::Open => line.push_str("waits for no stage"),
    }
}

// Which end completed a stage.
fn push_ended(line: &mut String, stage: &Stage, index: usize) -> Result<(), AllocError>
    ensures { OnOk result (string_bytes line.new ≡ string_bytes line.old ++ ended_text index (slice_get stage.now.ends index)) }
{
    push_index(line, index)?;
    push_end(line, stage, index)
}

fn push_index(line: &mut String, index: usize) -> Result<(), AllocError>
    ensures { OnOk result (string_bytes line.new ≡ string_bytes line.old ++ index_text index) }
{
    write!(line, "completed by its end of index {index}")
}

// How the end of an index acts.
fn push_end(line: &mut String, stage: &Stage, index: usize) -> Result<(), AllocError>
    ensures { OnOk result (string_bytes line.new ≡ string_bytes line.old ++ end_text (slice_get stage.now.ends index)) }
{
    let Some(end) = stage.ends.as_slice().get(index) else {
        return Ok(());
    };
    push_act(line, end.act)
}

fn push_act(line: &mut String, act: Act) -> Result<(), AllocError>
    ensures { OnOk result (string_bytes line.new ≡ string_bytes line.old ++ act_text act) }
{
    match act {
        Act::Complete(_) => line.push_str(", complete"),
        Act::CompleteExceptionally(_) => line.push_str(", completeExceptionally"),
        Act::Cancel => line.push_str(", cancel"),
        Act::OrTimeout { delay } => write!(line, ", orTimeout with delay {delay}"),
        Act::CompleteOnTimeout { delay, .. } => {
            write!(line, ", completeOnTimeout with delay {delay}")
        }
    }
}

fn push_own(line: &mut String, course: Course) -> Result<(), AllocError>
    ensures { OnOk result (string_bytes line.new ≡ string_bytes line.old ++ own_text course) }
{
    match course {
        Course::Service | Course::Pending => line.push_str("queued 0, ran 0"),
        Course::Completed(run) => push_run(line, run),
    }
}

// How long an action was queued and ran, and whether it was cut off.
fn push_run(line: &mut String, run: Run) -> Result<(), AllocError>
    ensures { OnOk result (string_bytes line.new ≡ string_bytes line.old ++ run_text run) }
{
    let queued = run.started.saturating_sub(run.triggered);
    let ran = run.ended.saturating_sub(run.started);
    write!(line, "queued {queued}, ran {ran}")?;
    push_cut(line, run.completed, run.missed_end)
}

fn push_cut(line: &mut String, completed: u64, missed_end: Option<u64>) -> Result<(), AllocError>
    ensures { OnOk result (string_bytes line.new ≡ string_bytes line.old ++ cut_text completed missed_end) }
{
    let Some(end) = missed_end else {
        return Ok(());
    };
    let missed = end.saturating_sub(completed);
    write!(line, ", cut off {missed} before its end")
}
