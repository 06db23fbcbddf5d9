//! What the rows of a report are made of.
ghost use Rattle.std.specs.Prelude.{◌≡◌, [], drop, length, map};
ghost use Rattle.report_rows.specs.Listings.{rows_at};
ghost use Rattle.report_rows.specs.Failures.{named_row};
ghost use Rattle.report_rows.specs.Next.{IsNext};
ghost use Rattle.report_rows.specs.Rows.{difference_row, end_row, rescue_row, slack_row, trial_row};
ghost use Rattle.report_rows.specs.Sources.{rows_left};

use crate::listing::{Listing, has_row, row_at};
use crate::named_failure::NamedFailure;
use crate::row::{Row, difference_row, end_row, rescue_row, slack_row, trial_row};
use propagate::StateRepresentation;
use reply_rescue::Rescue;
use run_comparison::Difference;
use stage_ends::EndFate;
use stage_graph::{Graph, Representation};
use stage_slack::Slack;
use std::alloc::Global;
use time_sweep::Trial;
use version_store::Version;

/// What the rows of a report are made of.
#[derive(Drop)]
pub(crate) enum Source<'a, R: StateRepresentation> {
    /// The stages at some places of a version; `against` is the version that two of the listings compare with.
    Stages {
        listing: Listing,
        version: &'a Version<R>,
        against: &'a Version<R>,
        places: Vec<u32>,
    },
    /// Trials of a stage of a version that completes at this tick.
    Trials {
        version: &'a Version<R>,
        tick: u64,
        trials: Vec<Trial>,
    },
    /// How much longer the actions of stages of a version may run.
    Slacks {
        version: &'a Version<R>,
        slacks: Vec<Slack>,
    },
    /// Changes of stages of a version by which a stage would have had a value.
    Rescues {
        version: &'a Version<R>,
        rescues: Vec<Rescue>,
    },
    /// In which stages two versions differ.
    Differences {
        good: &'a Version<R>,
        bad: &'a Version<R>,
        differences: Vec<Difference>,
    },
    /// What became of ends of a version's stages.
    Ends {
        version: &'a Version<R>,
        ends: Vec<EndFate>,
    },
    /// Exceptions that arose in stages.
    Failures {
        failures: Vec<NamedFailure<'a>>,
    },
}

impl<'a, R: StateRepresentation> Source<'a, R> {
    /// The stages at these places.
    pub(crate) fn of_stages(
        listing: Listing,
        version: &'a Version<R>,
        against: &'a Version<R>,
        places: Vec<u32>,
    ) -> Source<'a, R>
        ensures { rows_left result 0 ≡ rows_at listing version.now against.now places.items }
    {
        Source::Stages {
            listing,
            version,
            against,
            places,
        }
    }

    /// Of nothing, where a report has no rows.
    pub(crate) fn none(alloc: Global, version: &'a Version<R>) -> Source<'a, R>
        ensures { rows_left result 0 ≡ [] }
    {
        Source::of_stages(Listing::States, version, version, Vec::new(alloc))
    }

    /// These trials of a stage that completes at this tick.
    pub(crate) fn of_trials(version: &'a Version<R>, tick: u64, trials: Vec<Trial>) -> Source<'a, R>
        ensures { rows_left result 0 ≡ map (trial_row version.now.graph tick) trials.items }
    {
        Source::Trials {
            version,
            tick,
            trials,
        }
    }

    /// These slacks.
    pub(crate) fn of_slacks(version: &'a Version<R>, slacks: Vec<Slack>) -> Source<'a, R>
        ensures { rows_left result 0 ≡ map (slack_row version.now.graph) slacks.items }
    {
        Source::Slacks { version, slacks }
    }

    /// These rescues.
    pub(crate) fn of_rescues(version: &'a Version<R>, rescues: Vec<Rescue>) -> Source<'a, R>
        ensures { rows_left result 0 ≡ map (rescue_row version.now.graph) rescues.items }
    {
        Source::Rescues { version, rescues }
    }

    /// These stages in which two versions differ.
    pub(crate) fn of_differences(
        good: &'a Version<R>,
        bad: &'a Version<R>,
        differences: Vec<Difference>,
    ) -> Source<'a, R>
        ensures { rows_left result 0 ≡ map (difference_row good.now.graph bad.now.graph) differences.items }
    {
        Source::Differences {
            good,
            bad,
            differences,
        }
    }

    /// What became of these ends.
    pub(crate) fn of_ends(version: &'a Version<R>, ends: Vec<EndFate>) -> Source<'a, R>
        ensures { rows_left result 0 ≡ map (end_row version.now.graph) ends.items }
    {
        Source::Ends { version, ends }
    }

    /// These exceptions.
    pub(crate) fn of_failures(failures: Vec<NamedFailure<'a>>) -> Source<'a, R>
        ensures { rows_left result 0 ≡ map named_row failures.entry.items }
    {
        Source::Failures { failures }
    }

    /// The next row after so many of what they are made of; `at` is how many are done with then.
    #[inline(always)]
    pub(crate) fn next(&self, at: &mut usize) -> Option<Row<'_>>
        ensures { IsNext (rows_left self.now) at.old at.new result }
    {
        match self {
            Source::Stages {
                listing,
                version,
                against,
                places,
            } => next_stage(*listing, version, against, places, at),
            Source::Trials {
                version,
                tick,
                trials,
            } => next_trial(version.graph(), *tick, trials, at),
            Source::Slacks { version, slacks } => next_slack(version.graph(), slacks, at),
            Source::Rescues { version, rescues } => next_rescue(version.graph(), rescues, at),
            Source::Differences {
                good,
                bad,
                differences,
            } => next_difference(good, bad, differences, at),
            Source::Ends { version, ends } => next_end(version.graph(), ends, at),
            Source::Failures { failures } => next_failure(failures, at),
        }
    }

    /// How many rows there are after so many.
    pub(crate) fn count(&self, at: usize) -> usize
        ensures { result ≡ length (rows_left self.now at) }
    {
        match self {
            Source::Stages {
                listing,
                version,
                against,
                places,
            } => count_stages(*listing, version, against, places, at),
            Source::Trials { trials, .. } => trials.len().saturating_sub(at),
            Source::Slacks { slacks, .. } => slacks.len().saturating_sub(at),
            Source::Rescues { rescues, .. } => rescues.len().saturating_sub(at),
            Source::Differences { differences, .. } => differences.len().saturating_sub(at),
            Source::Ends { ends, .. } => ends.len().saturating_sub(at),
            Source::Failures { failures } => failures.len().saturating_sub(at),
        }
    }
}

// The first row of the stages at these places from one on; `at` is how many places are done with then.
#[inline(always)]
fn next_stage<'a, R: StateRepresentation>(
    listing: Listing,
    version: &'a Version<R>,
    against: &'a Version<R>,
    places: &[u32],
    at: &mut usize,
) -> Option<Row<'a>>
    ensures { IsNext (λ at. rows_at listing version.now against.now (drop at places.now)) at.old at.new result }
{
    let begin = *at;
    for index in begin..places.len() {
        match row_at(listing, version, against, places[index]) {
            Some(row) => {
                *at = index + 1;
                return Some(row);
            }
            None => {}
        }
    }
    *at = places.len().max(begin);
    None
}

// The row of the trial of this index; `at` is how many trials are done with then.
#[inline(always)]
fn next_trial<'a, R: Representation>(
    graph: &'a Graph<R>,
    tick: u64,
    trials: &'a [Trial],
    at: &mut usize,
) -> Option<Row<'a>>
    ensures { IsNext (λ at. map (trial_row graph.now tick) (drop at trials.now)) at.old at.new result }
{
    let trial = trials.get(*at)?;
    *at += 1;
    Some(trial_row(graph, tick, trial))
}

// The row of the slack of this index; `at` is how many slacks are done with then.
#[inline(always)]
fn next_slack<'a, R: Representation>(
    graph: &'a Graph<R>,
    slacks: &[Slack],
    at: &mut usize,
) -> Option<Row<'a>>
    ensures { IsNext (λ at. map (slack_row graph.now) (drop at slacks.now)) at.old at.new result }
{
    let slack = slacks.get(*at)?;
    *at += 1;
    Some(slack_row(graph, slack))
}

// The row of the rescue of this index; `at` is how many rescues are done with then.
#[inline(always)]
fn next_rescue<'a, R: Representation>(
    graph: &'a Graph<R>,
    rescues: &[Rescue],
    at: &mut usize,
) -> Option<Row<'a>>
    ensures { IsNext (λ at. map (rescue_row graph.now) (drop at rescues.now)) at.old at.new result }
{
    let rescue = rescues.get(*at)?;
    *at += 1;
    Some(rescue_row(graph, rescue))
}

// The row of the difference of this index; `at` is how many are done with then.
#[inline(always)]
fn next_difference<'a, R: StateRepresentation>(
    good: &'a Version<R>,
    bad: &'a Version<R>,
    differences: &[Difference],
    at: &mut usize,
) -> Option<Row<'a>>
    ensures { IsNext (λ at. map (difference_row good.now.graph bad.now.graph) (drop at differences.now)) at.old at.new result }
{
    let one = differences.get(*at)?;
    *at += 1;
    Some(difference_row(good, bad, one))
}

// The row of the end of this index; `at` is how many ends are done with then.
#[inline(always)]
fn next_end<'a, R: Representation>(
    graph: &'a Graph<R>,
    ends: &[EndFate],
    at: &mut usize,
) -> Option<Row<'a>>
    ensures { IsNext (λ at. map (end_row graph.now) (drop at ends.now)) at.old at.new result }
{
    let end = ends.get(*at)?;
    *at += 1;
    Some(end_row(graph, end))
}

// The row of the exception of this index; `at` is how many are done with then.
#[inline(always)]
fn next_failure<'a>(failures: &'a [NamedFailure<'_>], at: &mut usize) -> Option<Row<'a>>
    ensures { IsNext (λ at. map named_row (drop at failures.now)) at.old at.new result }
{
    let failure = failures.get(*at)?;
    *at += 1;
    Some(failure.row())
}

// How many stages have a row, of those at these places from one on.
fn count_stages<R: StateRepresentation>(
    listing: Listing,
    version: &Version<R>,
    against: &Version<R>,
    places: &[u32],
    at: usize,
) -> usize
    ensures { result ≡ length (rows_at listing version.now against.now (drop at places.now)) }
{
    let mut count = 0;
    for index in at..places.len() {
        if has_row(listing, version, against, places[index]) {
            count += 1;
        }
    }
    count
}
