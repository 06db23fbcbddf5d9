//! What it means that summaries are joined.
ghost use Rattle.fleet_summary.specs.Laws.{JoinsInAnyGroups, JoinsInEitherOrder, JoinsOfTraces, JoinsWithNone, SummariesInAnyOrder, SummariesOfAnySplit};

/// Summaries are joined in any order, and in any groups. That of no trace changes nothing.
pub fn each_order_of_joins_is_one()
    ensures order { JoinsInEitherOrder }
    ensures groups { JoinsInAnyGroups }
    ensures none { JoinsWithNone }
{}

/// However traces are split, and in whatever order, the join of the parts' summaries is the summary of all.
pub fn each_split_is_the_whole()
    ensures joins { JoinsOfTraces }
    ensures order { SummariesInAnyOrder }
    ensures split { SummariesOfAnySplit }
{}
