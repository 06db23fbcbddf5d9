//! What a report says.
ghost use Rattle.std.specs.Prelude.{◌≡◌};

use crate::head::Head;
use crate::rows::Rows;
use crate::source::Source;
use propagate::StateRepresentation;
use std::marker::Model;

/// What a report says. Contracts see its head, and the list of its rows.
#[derive(Drop)]
pub struct Said<'a, R: StateRepresentation> {
    /// What is said before the rows.
    pub head: Head<'a>,
    pub(crate) source: Source<'a, R>,
}

impl<'a, R: StateRepresentation> Model for Said<'a, R> {
    ghost use Rattle.std.specs.Coded.{codes};
    ghost use Rattle.act_expr.specs.ExpressionCode.{coded_expression};
    ghost use Rattle.report_rows.specs.Report.{Report};
    ghost use Rattle.report_rows.specs.Sources.{rows_left};

    ghost Value = { Report };

    ghost coded = { Prim.hlevel (codes, coded_expression) };

    ghost view = { λ said. record { head = said.head; rows = rows_left said.source 0 } };
}

impl<'a, R: StateRepresentation> Said<'a, R> {
    /// Its rows, from the first one on.
    #[inline(always)]
    pub fn rows(&self) -> Rows<'_, R>
        ensures { result ≡ self.now.rows }
    {
        Rows::of(&self.source)
    }
}
