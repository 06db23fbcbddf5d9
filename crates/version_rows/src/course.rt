//! When a stage did what.
ghost use Rattle.std.specs.Prelude.{◌≡◌};
ghost use Rattle.version_rows.specs.Courses.{course_at, has_failed, missed_end, own_ticks, run_of, since, start_of, with_action, without_action};

use act_expr::Outcome;
use propagate::StateRepresentation;
use stage_graph::Stage;
use stage_ops::{Done, Reason};
use timeline_svg::{Course, Run};
use version_store::StageView;

/// What became of a stage, and of its action.
pub(crate) fn course_at<R: StateRepresentation>(view: &StageView<'_, R>) -> Course
    ensures { result ≡ course_at view.now.version.now.graph view.now.place view.now.stage.now }
{
    match view.state().done {
        Some(done) => {
            let reason = view.reason();
            Course::Completed(run_of(view.stage, &done, &reason, view.action_start()))
        }
        None => Course::Pending,
    }
}

// The run of a stage whose action starts at a tick by its operation, if it does.
fn run_of(stage: &Stage, done: &Done, reason: &Reason, start: Option<u64>) -> Run
    ensures { result ≡ run_of stage.now done.now reason.now start }
{
    match start {
        Some(start) if start.saturating_sub(stage.queued) <= done.moment => {
            with_action(stage, done, reason, start)
        }
        _ => without_action(done, reason),
    }
}

// The action was queued and ran, as far as it came before the stage completed.
fn with_action(stage: &Stage, done: &Done, reason: &Reason, start: u64) -> Run
    ensures { result ≡ with_action stage.now done.now reason.now start }
{
    let completed = done.moment;
    let end = start.saturating_add(stage.runs);
    Run {
        triggered: start.saturating_sub(stage.queued),
        started: start.min(completed),
        ended: end.min(completed),
        missed_end: missed_end(end, completed),
        completed,
        since: since(done, reason),
        has_failed: has_failed(&done.outcome),
    }
}

// No action was triggered.
fn without_action(done: &Done, reason: &Reason) -> Run
    ensures { result ≡ without_action done.now reason.now }
{
    let completed = done.moment;
    Run {
        triggered: completed,
        started: completed,
        ended: completed,
        missed_end: None,
        completed,
        since: since(done, reason),
        has_failed: has_failed(&done.outcome),
    }
}

// The end of the action, where the stage completed before it.
fn missed_end(end: u64, completed: u64) -> Option<u64>
    ensures { result ≡ missed_end end completed }
{
    if completed < end { Some(end) } else { None }
}

// The tick of the cause of a completion.
fn since(done: &Done, reason: &Reason) -> u64
    ensures { result ≡ since done.now reason.now }
{
    done.moment
        .saturating_sub(reason.queued)
        .saturating_sub(reason.ran)
}

fn has_failed(outcome: &Outcome) -> bool
    ensures { result ≡ has_failed outcome.now }
{
    match outcome {
        Outcome::Value(_) => false,
        Outcome::Bare(_) | Outcome::Wrapped(_) => true,
    }
}

/// By which tick a row is ordered.
pub(crate) fn start_of(course: Course) -> u64
    ensures { result ≡ start_of course }
{
    match course {
        Course::Service | Course::Pending => u64::MAX,
        Course::Completed(run) => run.started,
    }
}

/// How many ticks the stage's own action was queued and ran until the stage completed.
pub(crate) fn own_ticks(course: Course) -> u64
    ensures { result ≡ own_ticks course }
{
    match course {
        Course::Service | Course::Pending => 0,
        Course::Completed(run) => run.ended.saturating_sub(run.triggered),
    }
}
