//! The edits of one change, from the stage as it stands.
ghost use Rattle.std.specs.Prelude.{◌≡◌, ◌∷◌, ◌++◌, [], Ok, OnOk};
ghost use Rattle.stage_graph.specs.Sound.{IsLawful};
ghost use Rattle.stage_graph.specs.declared.edit.Edit.{Edit};
ghost use Rattle.stage_graph.specs.declared.edit.Edit.TheVariants.{SetEnds};
ghost use Rattle.change_words.specs.OwnEdits.{IsPushed, ends_edits, moment_edits, outcome_edits, own_before_ends, set_ends, times_edits};
ghost use Rattle.change_words.specs.Timeouts.{limited};

use crate::amount::amount_in;
use crate::assignment::TimeLimit;
use crate::change::Change;
use crate::timeouts::{LimitFault, limited};
use stage_graph::{Edit, Ends, Stage};
use std::alloc::{AllocError, Global};

/// Adds an edit at the end.
fn push(edits: &mut Vec<Edit>, edit: Edit) -> Result<(), AllocError>
    ensures { OnOk result (edits.new.items ≡ edits.old.items ++ edit ∷ []) }
{
    edits.push(edit)?;
    Ok(())
}

impl Change {
    /// Adds the edit of both times.
    fn push_times(&self, stage: &Stage, edits: &mut Vec<Edit>) -> Result<(), AllocError>
        requires { IsLawful stage.now }
        ensures { OnOk result (edits.new.items ≡ edits.old.items ++ times_edits self.now stage.now) }
    {
        if !self.sets_times() {
            return Ok(());
        }
        let name = self.name.again()?;
        let queued = amount_in(self.queued, stage.queued);
        let runs = amount_in(self.runs, stage.runs);
        push(edits, Edit::SetTimes { name, queued, runs })
    }

    /// Adds the edit that pins the outcome.
    fn push_outcome(&self, edits: &mut Vec<Edit>) -> Result<(), AllocError>
        ensures { OnOk result (edits.new.items ≡ edits.old.items ++ outcome_edits self.now) }
    {
        match self.outcome {
            Some(outcome) => {
                let name = self.name.again()?;
                let result = Some(outcome);
                push(edits, Edit::PinResult { name, result })
            }
            None => Ok(()),
        }
    }

    /// Adds the edit that pins the moment.
    fn push_moment(&self, edits: &mut Vec<Edit>) -> Result<(), AllocError>
        ensures { OnOk result (edits.new.items ≡ edits.old.items ++ moment_edits self.now) }
    {
        match self.moment {
            Some(tick) => {
                let name = self.name.again()?;
                let moment = Some(tick);
                push(edits, Edit::PinMoment { name, moment })
            }
            None => Ok(()),
        }
    }

    /// Adds the edits but that of the ends.
    fn push_before_ends(&self, stage: &Stage, edits: &mut Vec<Edit>) -> Result<(), AllocError>
        requires { IsLawful stage.now }
        ensures { OnOk result (edits.new.items ≡ edits.old.items ++ own_before_ends self.now stage.now) }
    {
        self.push_times(stage, edits)?;
        self.push_outcome(edits)?;
        self.push_moment(edits)
    }

    /// Adds the edit that sets the ends.
    fn push_ends(&self, ends: Ends, edits: &mut Vec<Edit>) -> Result<(), LimitFault>
        ensures { IsPushed result (Ok (SetEnds self.now.name ends ∷ [])) edits.old.items edits.new.items }
    {
        let name = self.name.again()?;
        push(edits, Edit::SetEnds { name, ends })?;
        Ok(())
    }

    /// Adds the edit that sets the ends of a stage to those with other timeouts, if they can have them.
    fn push_limited(
        &self,
        alloc: Global,
        limit: TimeLimit,
        stage: &Stage,
        edits: &mut Vec<Edit>,
    ) -> Result<(), LimitFault>
        ensures { IsPushed result (set_ends self.now.name (limited limit stage.now.ends)) edits.old.items edits.new.items }
    {
        match limited(alloc, limit, stage.ends.as_slice()) {
            Ok(ends) => self.push_ends(ends, edits),
            Err(fault) => Err(fault),
        }
    }

    /// Adds the edit of the ends.
    fn push_ends_edits(
        &self,
        alloc: Global,
        stage: &Stage,
        edits: &mut Vec<Edit>,
    ) -> Result<(), LimitFault>
        ensures { IsPushed result (ends_edits self.now stage.now) edits.old.items edits.new.items }
    {
        match self.limit {
            Some(limit) => self.push_limited(alloc, limit, stage, edits),
            None => Ok(()),
        }
    }

    /// Adds the edits that the change is of a stage, as it stands. Where its ends can't have the timeouts, the others are added.
    pub(crate) fn push_edits(
        &self,
        alloc: Global,
        stage: &Stage,
        edits: &mut Vec<Edit>,
    ) -> Result<(), LimitFault>
        requires { IsLawful stage.now }
        ensures { IsPushed result (ends_edits self.now stage.now) (edits.old.items ++ own_before_ends self.now stage.now) edits.new.items }
    {
        self.push_before_ends(stage, edits)?;
        self.push_ends_edits(alloc, stage, edits)
    }
}
