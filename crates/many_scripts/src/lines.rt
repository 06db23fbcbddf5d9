//! Answers the lines of a script.
ghost use Rattle.std.specs.Prelude.{◌≡◌, ◌+◌, ◌-◌, ◌^◌, ◌<◌, Some, Err, Result, OnOk};
ghost use Rattle.std.specs.Io.KnownBytes.{Appends};
ghost use Rattle.std.specs.Option.{option_map};
ghost use Rattle.recording.specs.Reads.{IsRead};
ghost use Rattle.recording.specs.StepOf.{step_of};
ghost use Rattle.recording.specs.declared.fault.Fault.{Fault};
ghost use Rattle.recording.specs.declared.step.Step.{Step};
ghost use Rattle.serve_script.specs.Faults.{failed_writes};
ghost use Rattle.script_lines.specs.Seen.{seen};
ghost use Rattle.serve_script.specs.Told.{fault_told};
ghost use Rattle.many_scripts.specs.Played.{IsLine, IsNamed};
ghost use Rattle.many_scripts.specs.Playing.{Answers, HasHeard};

use crate::access::Access;
use crate::answering::answer_step;
use desk::{Client, Naming};
use level_pool::Runner;
use recording::{Fault, StepReader};
use report_form::Form;
use script_lines::Line;
use serve_script::{AnswerFault, tell_fault};
use std::alloc::Global;
use std::sync::Wait;
use text_io::Sink;
use version_store::StateRepresentation;

/// Writes why a line has no step, unless memory ran out.
fn refuse<S: Sink>(alloc: Global, fault: Fault, form: Form, sink: &mut S) -> Result<(), AnswerFault>
    requires { S.failures sink.old < 2 ^ 64 - 1 }
    ensures ok { OnOk result (((meant : Result Step Fault) → IsRead (Err fault) meant → meant ≡ Err fault) × Appends (S.held sink.old) (S.held sink.new) (fault_told form fault)) }
    ensures failures { S.failures sink.new ≡ S.failures sink.old + failed_writes result }
{
    match fault {
        Fault::Memory => Err(AnswerFault::Memory),
        fault => tell_fault(alloc, &fault, form, sink),
    }
}

/// Executes the step in the bytes of a line.
fn answer_bytes<N: Naming, K: StateRepresentation, H: Wait + Drop, W: Runner, S: Sink>(
    access: &Access<'_, N, K, H, W>,
    client: &mut Client<N, K>,
    steps: &mut StepReader,
    bytes: &[u8],
    sink: &mut S,
) -> Result<(), AnswerFault>
    requires heard { HasHeard client.old }
    requires room { S.failures sink.old < 2 ^ 64 - 1 }
    ensures ok { OnOk result (Answers (λ known earlier. IsNamed access.now.form client.old.number known earlier (step_of bytes.now)) client.old client.new (S.held sink.old) (S.held sink.new)) }
    ensures failures { S.failures sink.new ≡ S.failures sink.old + failed_writes result }
{
    match steps.read(bytes) {
        Ok(step) => answer_step(access, client, step, sink),
        Err(fault) => refuse(access.alloc, fault, access.form, sink),
    }
}

/// Executes the step on a line, and writes the answer.
fn answer_line<N: Naming, K: StateRepresentation, H: Wait + Drop, W: Runner, S: Sink>(
    access: &Access<'_, N, K, H, W>,
    client: &mut Client<N, K>,
    steps: &mut StepReader,
    line: Line<'_>,
    sink: &mut S,
) -> Result<(), AnswerFault>
    requires heard { HasHeard client.old }
    requires room { S.failures sink.old < 2 ^ 64 - 1 }
    ensures ok { OnOk result (Answers (λ known earlier. IsLine access.now.form client.old.number known earlier (Some (seen line.entry))) client.old client.new (S.held sink.old) (S.held sink.new)) }
    ensures failures { S.failures sink.new ≡ S.failures sink.old + failed_writes result }
{
    match line {
        Line::Kept(bytes) => answer_bytes(access, client, steps, bytes, sink),
        Line::TooLong => tell_fault(access.alloc, &Fault::TooLong, access.form, sink),
    }
}

/// Answers the line in this form, if it is no blank one.
pub(crate) fn answer_any<N: Naming, K: StateRepresentation, H: Wait + Drop, W: Runner, S: Sink>(
    access: &Access<'_, N, K, H, W>,
    form: Form,
    client: &mut Client<N, K>,
    steps: &mut StepReader,
    line: Option<Line<'_>>,
    sink: &mut S,
) -> Result<(), AnswerFault>
    requires heard { HasHeard client.old }
    requires room { S.failures sink.old < 2 ^ 64 - 1 }
    ensures ok { OnOk result (Answers (λ known earlier. IsLine form client.old.number known earlier (option_map seen line.entry)) client.old client.new (S.held sink.old) (S.held sink.new)) }
    ensures failures { S.failures sink.new ≡ S.failures sink.old + failed_writes result }
{
    match line {
        Some(line) => answer_line(&access.in_form(form), client, steps, line, sink),
        None => Ok(()),
    }
}
