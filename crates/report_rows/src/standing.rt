//! What a stage is in a version.
ghost use Rattle.std.specs.Prelude.{◌≡◌};
ghost use Rattle.version_store.specs.Queries.{before};
ghost use Rattle.report_rows.specs.Standings.{standing_at, standing_before, standing_there};

use crate::against::kept_of;
use act_expr::Outcome;
use propagate::{KeptState, StateRepresentation};
use std::marker::Model;
use version_store::{StageView, Version};

/// What a stage is in a version.
#[derive(Clone, Copy, Debug, PartialEq, Eq)]
pub enum Standing {
    /// The version has no such stage.
    Absent,
    /// It has not completed.
    Pending,
    /// Its outcome, and the tick at which it completed.
    Completed(Outcome, u64),
}

/// What a stage is in a version, as the version keeps it, so that no name of an exception is copied before it is printed.
/// Contracts see what the stage is.
#[derive(Drop)]
pub struct KeptStanding<'a> {
    /// The state of the stage; none where the version has no such stage.
    kept: Option<&'a KeptState>,
}

impl<'a> Model for KeptStanding<'a> {
    ghost use Rattle.std.specs.Prelude.{option_copied};
    ghost use Rattle.report_rows.specs.declared.standing.Standing.{Standing};
    ghost use Rattle.report_rows.specs.Standings.{standing_in};

    ghost Value = { Standing };

    ghost view = { λ standing. standing_in (option_copied standing.kept) };
}

impl<'a> KeptStanding<'a> {
    /// What a stage is.
    #[inline(always)]
    pub(crate) fn of<R: StateRepresentation>(view: &StageView<'a, R>) -> KeptStanding<'a>
        ensures { result ≡ standing_at view.now.version.now.graph view.now.place }
    {
        KeptStanding {
            kept: Some(view.kept()),
        }
    }

    /// What a stage was in the parent.
    #[inline(always)]
    pub(crate) fn before<R: StateRepresentation>(view: &StageView<'a, R>) -> KeptStanding<'a>
        ensures { result ≡ standing_before (before view.now.version.now.origin view.now.place) }
    {
        KeptStanding {
            kept: view.kept_before(),
        }
    }

    /// What the stage of a name is in a version, which may lack it.
    #[inline(always)]
    pub(crate) fn there<R: StateRepresentation>(
        version: &'a Version<R>,
        name: &str,
    ) -> KeptStanding<'a>
        ensures { result ≡ standing_there version.now.graph name.now }
    {
        KeptStanding {
            kept: kept_of(version, name),
        }
    }

    /// A version has no such stage.
    #[inline(always)]
    pub(crate) fn absent() -> KeptStanding<'a>
        ensures { result ≡ Standing.Absent }
    {
        KeptStanding { kept: None }
    }

    /// The same, once more.
    #[inline(always)]
    pub(crate) fn again(&self) -> KeptStanding<'a>
        ensures { result ≡ self.now }
    {
        KeptStanding { kept: self.kept }
    }

    /// What the stage is, its outcome copied.
    #[inline(always)]
    pub fn standing(&self) -> Standing
        ensures { result ≡ self.now }
    {
        let Some(kept) = self.kept else {
            return Standing::Absent;
        };
        match kept.state().done {
            Some(done) => Standing::Completed(done.outcome, done.moment),
            None => Standing::Pending,
        }
    }
}
