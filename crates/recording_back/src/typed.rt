//! What Rust's types say of the stages of a graph: their values are longs, and their exceptions have exception names.
ghost use Rattle.std.specs.Prelude.{◌<◌, ◌^◌, IfSome};
ghost use Rattle.stage_graph.specs.Plain.{stage_at};
ghost use Rattle.recording.specs.Written.{IsWellFormed};
ghost use Rattle.recording.specs.WrittenStages.{AreEnds, IsAct, IsOp, IsOutcome, IsValue};
ghost use Rattle.recording_back.specs.Packed.{AreTyped, HasTypes};

use act_expr::{Expr, Form, Outcome, Value};
use stage_graph::{Act, End, Graph, Op, Representation, Stage};

/// A count has 64 bits.
pub(crate) fn count_is_typed(count: &Option<u64>)
    ensures { IfSome count.now (λ n. n < 2 ^ 64) }
{
    if let Some(amount) = count {
        let _amount = *amount;
    }
}

fn value_is_typed(value: &Value)
    ensures { IsValue value.now }
{
    match value {
        Value::Null => {}
        Value::Num(amount) => {
            let _amount = *amount;
        }
    }
}

fn expression_is_typed(expression: &Expr)
    ensures { IsWellFormed expression.now }
{
    match expression.form() {
        Form::Literal(value) => value_is_typed(value),
        Form::Binary(_, left, right) => {
            expression_is_typed(left);
            expression_is_typed(right);
        }
        Form::If(condition, first, second) => {
            expression_is_typed(condition);
            expression_is_typed(first);
            expression_is_typed(second);
        }
        Form::IsNull(operand) => expression_is_typed(operand),
        Form::CauseIs(name) | Form::Throw(name) => {
            let _text = name.text();
        }
        Form::Argument(_) | Form::Failed | Form::IsWrapped => {}
    }
}

fn action_is_typed(action: &Option<Expr>)
    ensures { IfSome action.now IsWellFormed }
{
    if let Some(expression) = action {
        expression_is_typed(expression);
    }
}

fn pin_is_typed(pin: &Option<Outcome>)
    ensures { IfSome pin.now IsOutcome }
{
    match pin {
        Some(Outcome::Value(value)) => value_is_typed(value),
        Some(Outcome::Bare(name)) | Some(Outcome::Wrapped(name)) => {
            let _text = name.text();
        }
        None => {}
    }
}

fn act_is_typed(act: &Act)
    ensures { IsAct act.now }
{
    match act {
        Act::Complete(value) => value_is_typed(value),
        Act::CompleteExceptionally(name) => {
            let _text = name.text();
        }
        Act::CompleteOnTimeout { delay: _, value } => value_is_typed(value),
        Act::Cancel | Act::OrTimeout { .. } => {}
    }
}

fn ends_are_typed(ends: &[End])
    ensures { AreEnds ends.now }
{
    for end in ends {
        act_is_typed(&end.act);
    }
}

fn op_is_typed(op: &Op)
    ensures { IsOp op.now }
{
    match op {
        Op::Completed(value) => value_is_typed(value),
        Op::Failed(name) => {
            let _text = name.text();
        }
        _ => {}
    }
}

fn stage_is_typed(stage: &Stage)
    ensures { HasTypes stage.now }
{
    op_is_typed(&stage.op);
    action_is_typed(&stage.action);
    pin_is_typed(&stage.pin_result);
    ends_are_typed(stage.ends.as_slice());
}

/// The stage at a place, if one stands there.
fn place_is_typed<R: Representation>(graph: &Graph<R>, place: u32)
    ensures { IfSome (stage_at graph.now.places place) HasTypes }
{
    if let Some(stage) = graph.stage(place) {
        stage_is_typed(stage);
    }
}

/// All live stages of a graph.
pub(crate) fn stages_are_typed<R: Representation>(graph: &Graph<R>)
    ensures { AreTyped graph.now.places }
{
    for place in 0..graph.len() as u32 {
        place_is_typed(graph, place);
    }
}
