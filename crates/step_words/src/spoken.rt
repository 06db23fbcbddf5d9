//! What a line says.
ghost use Rattle.std.specs.Prelude.{◌≡◌, [], ◌∷◌, ◌++◌, IfOk, OnOk};

use crate::command::Command;
use change_words::Change;
use recording::Step;
use std::alloc::{AllocError, Global};
use std::marker::Model;

/// The session to which lines are said.
pub const SESSION: u32 = 1;

/// Steps of a script, in order.
#[derive(Drop)]
pub struct Steps {
    items: Vec<Step>,
}

impl Model for Steps {
    ghost use Rattle.std.specs.Prelude.{List};
    ghost use Rattle.recording.specs.declared.step.Step.{Step};

    ghost Value = { List Step };

    ghost use Rattle.std.specs.Coded.{codes};
    ghost use Rattle.act_expr.specs.ExpressionCode.{coded_expression};

    ghost coded = { Prim.hlevel (codes, coded_expression) };

    ghost view = { λ steps. steps.items.items };
}

impl Steps {
    /// No steps.
    pub(crate) fn new(alloc: Global) -> Steps
        ensures { result ≡ [] }
    {
        Steps {
            items: Vec::new(alloc),
        }
    }

    /// Adds a step at the end.
    pub(crate) fn push(&mut self, step: Step) -> Result<(), AllocError>
        ensures { OnOk result (self.new ≡ self.old ++ step ∷ []) }
    {
        self.items.push(step)?;
        Ok(())
    }

    /// One step.
    pub(crate) fn one(alloc: Global, step: Step) -> Result<Steps, AllocError>
        ensures { IfOk result (λ steps. steps ≡ step ∷ []) }
    {
        let mut steps = Steps::new(alloc);
        steps.push(step)?;
        Ok(steps)
    }

    /// The steps, in order.
    pub fn into_items(self) -> Vec<Step>
        ensures { result.items ≡ self }
    {
        self.items
    }
}

/// What a line says.
#[derive(Drop)]
pub enum Spoken {
    /// Nothing: the line is blank.
    Nothing,
    /// Steps are to be answered.
    Steps(Steps),
    /// What would come of a change is to be told.
    Trial(Change),
    /// What became of each end is to be told.
    Ends,
    /// Where failures arose is to be told.
    Failures,
    /// Which versions there are is to be told.
    Versions,
    /// The version is to be written as a recording.
    Save,
    /// What can be said is to be told, or of one command alone.
    Help(Option<Command>),
    /// The end.
    Quit,
}
