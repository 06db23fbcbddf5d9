//! What a report says before its rows.
use crate::names::Names;
use crate::standing::KeptStanding;
use crate::text::Text;
use act_expr::Mode;
use stage_graph::Op;
use stage_ops::Join;
use time_sweep::Haste;

/// What a report says before its rows: which report it is, and of which version.
#[derive(Drop)]
pub enum Head<'a> {
    /// Every live stage.
    All {
        version: u32,
        parent: Option<u32>,
        mode: Mode,
    },
    /// When every live stage ran.
    Times {
        version: u32,
    },
    /// One stage, its feeds, its dependents and what `join` answers. It has no rows.
    One {
        version: u32,
        name: Text<'a>,
        op: Op,
        rank: u32,
        standing: KeptStanding<'a>,
        sources: Names<'a>,
        inner: Names<'a>,
        dependents: Names<'a>,
        join: Join,
    },
    /// How a stage came by its exception. It has no rows.
    Blame {
        version: u32,
        name: Text<'a>,
        chain: Names<'a>,
    },
    /// Why a stage completed when it did, or why it is pending.
    Path {
        version: u32,
        name: Text<'a>,
        moment: Option<u64>,
    },
    /// What a stage was in the parent, and what it is here. It has no rows.
    Change {
        version: u32,
        name: Text<'a>,
        old: KeptStanding<'a>,
        new: KeptStanding<'a>,
    },
    /// The stages that the edits touched.
    Changes {
        version: u32,
        parent: Option<u32>,
    },
    /// The stages that complete at another moment than in the parent.
    Drift {
        version: u32,
        parent: Option<u32>,
    },
    /// The stages that differ from those of their names in another version.
    ChangesAgainst {
        version: u32,
        against: u32,
    },
    /// The stages that complete at another moment than those of their names in another version.
    DriftAgainst {
        version: u32,
        against: u32,
    },
    /// What became of the ends of stages.
    Ends {
        version: u32,
    },
    /// The exceptions that arose in stages.
    Failures {
        version: u32,
    },
    /// The stages that, if their action were faster, would make a stage complete sooner: if it were not queued and took no time,
    /// where no haste is told; and how many they are, whether or not all have a row.
    Sweep {
        version: u32,
        name: Text<'a>,
        moment: Option<u64>,
        haste: Option<Haste>,
        count: usize,
    },
    /// How much longer the actions of stages may run before a stage completes otherwise; how many have a row.
    Slack {
        version: u32,
        name: Text<'a>,
        moment: Option<u64>,
        count: usize,
    },
    /// The changes by which a stage would have had a value: what it is, the tick by which the value was to come, if one is
    /// given, how many changes were tried, and how many of them are rescues, whether or not all have a row.
    Rescue {
        version: u32,
        name: Text<'a>,
        standing: KeptStanding<'a>,
        by: Option<u64>,
        tried: usize,
        count: usize,
    },
    /// The stages in which a good run and a bad one differ, where they are compared for one stage: its name, and what it is in
    /// both.
    Differences {
        name: Text<'a>,
        good: KeptStanding<'a>,
        bad: KeptStanding<'a>,
    },
}
