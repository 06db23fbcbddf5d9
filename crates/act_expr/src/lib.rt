//! Values, outcomes, and the expressions of recorded actions.
//!
//! A stage of a recorded run completes with an [`Outcome`]. Its action is recorded as an [`Expr`], whose
//! meaning is a function of what the action is handed.
#![tactic(auto)]

mod expr;
mod name;
mod outcome;

pub use expr::{Answer, Args, Expr, ExprFault, Failure, Form, Operator, Position, Thrown};
pub use name::ExName;
pub use outcome::{Mode, Outcome, Value};
