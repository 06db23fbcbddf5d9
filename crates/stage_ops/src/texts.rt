//! Completions, states and what `join` answers, as text.

use crate::state::{Done, Join, State};
use act_expr::Value;
use std::fmt;

impl fmt::Display for Done {
    ghost use Rattle.std.specs.Prelude.{Some};
    ghost use Rattle.stage_ops.specs.Texts.{done_text};

    ghost output = { λ done. Some (done_text done) };

    fn fmt<W: fmt::Write>(&self, f: &mut fmt::Formatter<W>) -> fmt::Result {
        let Done {
            outcome,
            moment,
            ..
        } = self;
        write!(f, "{outcome} at {moment}")
    }
}

impl fmt::Display for State {
    ghost use Rattle.std.specs.Prelude.{Some};
    ghost use Rattle.stage_ops.specs.Texts.{state_text};

    ghost output = { λ state. Some (state_text state) };

    fn fmt<W: fmt::Write>(&self, f: &mut fmt::Formatter<W>) -> fmt::Result {
        match &self.done {
            None => write!(f, "pending"),
            Some(done) => write!(f, "{done}"),
        }
    }
}

impl fmt::Display for Join {
    ghost use Rattle.std.specs.Prelude.{Some};
    ghost use Rattle.stage_ops.specs.Texts.{join_text};

    ghost output = { λ join. Some (join_text join) };

    fn fmt<W: fmt::Write>(&self, f: &mut fmt::Formatter<W>) -> fmt::Result {
        match self {
            Join::Waits => write!(f, "waits"),
            Join::Returns(Value::Null) => write!(f, "returns null"),
            Join::Returns(Value::Num(number)) => write!(f, "returns {number}"),
            Join::Cancelled => write!(f, "throws java.util.concurrent.CancellationException"),
            Join::Throws(name) => {
                let name = name.text();
                write!(
                    f,
                    "throws java.util.concurrent.CompletionException cause {name}"
                )
            }
        }
    }
}
