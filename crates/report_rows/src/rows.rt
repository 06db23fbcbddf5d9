//! The rows of a report, made one after another.
ghost use Rattle.std.specs.Prelude.{◌≡◌, ◌∷◌, [], MatchOption, length};

use crate::row::Row;
use crate::source::Source;
use propagate::StateRepresentation;
use std::marker::Model;

/// The rows of a report that are left. Contracts see a list of them. None is made before it is taken.
#[derive(Drop)]
pub struct Rows<'a, R: StateRepresentation> {
    source: &'a Source<'a, R>,
    /// How many of what they are made of are done with.
    at: usize,
}

impl<'a, R: StateRepresentation> Model for Rows<'a, R> {
    ghost use Rattle.std.specs.Prelude.{List};
    ghost use Rattle.std.specs.Coded.{codes};
    ghost use Rattle.act_expr.specs.ExpressionCode.{coded_expression};
    ghost use Rattle.report_rows.specs.declared.row.Row.{Row};

    ghost Value = { List Row };

    ghost use Rattle.report_rows.specs.Sources.{rows_left};

    ghost view = { λ rows. rows_left rows.source.now rows.at };
}

impl<'a, R: StateRepresentation> Rows<'a, R> {
    ghost use Rattle.report_rows.specs.Sources.{rows_left};

    /// All rows of what they are made of.
    #[inline(always)]
    pub(crate) fn of(source: &'a Source<'a, R>) -> Rows<'a, R>
        ensures { result ≡ rows_left source.now 0 }
    {
        Rows { source, at: 0 }
    }

    /// The next row, and none at the end.
    #[inline(always)]
    pub fn next(&mut self) -> Option<Row<'a>>
        ensures { MatchOption result ((self.old ≡ []) × (self.new ≡ [])) (λ row. self.old ≡ row ∷ self.new) }
    {
        self.source.next(&mut self.at)
    }

    /// How many rows are left.
    pub fn count(&self) -> usize
        ensures { result ≡ length self.now }
    {
        self.source.count(self.at)
    }
}
