//! Names of stages, one after another.
ghost use Rattle.std.specs.Prelude.{◌≡◌, IfOk};
ghost use Rattle.report_rows.specs.Names.{bytes_of, names_at};

use stage_graph::{Graph, Representation};
use std::alloc::{AllocError, Global};
use std::marker::Model;

/// The names of stages, in order. Contracts see their bytes.
#[derive(Drop)]
pub struct Names<'a> {
    names: Vec<&'a str>,
}

impl<'a> Model for Names<'a> {
    ghost use Rattle.std.specs.Prelude.{List, ℕ};

    ghost Value = { List (List ℕ) };

    ghost use Rattle.report_rows.specs.Names.{bytes_of};

    ghost view = { λ names. bytes_of names.names.items };
}

impl<'a> Names<'a> {
    /// The names of the stages at these places.
    pub(crate) fn at<R: Representation>(
        alloc: Global,
        graph: &'a Graph<R>,
        places: &[u32],
    ) -> Result<Names<'a>, AllocError>
        ensures { IfOk result (λ names. names ≡ names_at graph.now places.now) }
    {
        let mut names = Vec::with_capacity(alloc, places.len())?;
        for place in places {
            names.push(graph.name_of(*place))?;
        }
        Ok(Names { names })
    }

    /// The names, in order.
    pub fn as_slice(&self) -> &[&'a str]
        ensures { bytes_of result.now ≡ self.now }
    {
        &self.names
    }

    /// The names, borrowed.
    #[inline(always)]
    pub(crate) fn lent(&self) -> LentNames<'_>
        ensures { result ≡ self.now }
    {
        LentNames { names: &self.names }
    }
}

/// The names of stages, in order, borrowed from what a report says. Contracts see their bytes.
#[derive(Drop)]
pub struct LentNames<'a> {
    names: &'a [&'a str],
}

impl<'a> Model for LentNames<'a> {
    ghost use Rattle.std.specs.Prelude.{List, ℕ};

    ghost Value = { List (List ℕ) };

    ghost use Rattle.report_rows.specs.Names.{bytes_of};

    ghost view = { λ names. bytes_of names.names.now };
}

impl<'a> LentNames<'a> {
    /// The names, in order.
    pub fn as_slice(&self) -> &'a [&'a str]
        ensures { bytes_of result.now ≡ self.now }
    {
        self.names
    }
}
