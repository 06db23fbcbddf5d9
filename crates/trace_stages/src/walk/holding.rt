//! What a span has.
use crate::walk::stage_id::StageId;
use std::collections::HashSet;

/// From what a span begins that starts in another.
#[derive(Clone, Copy, PartialEq, Eq, Debug)]
pub struct Begin {
    pub span: usize,
    pub from: StageId,
}

/// Own work of a span, after what it had until then.
#[derive(Clone, Copy, PartialEq, Eq, Debug)]
pub struct OwnWork {
    pub after: StageId,
    /// The tick at which it ended.
    pub until: u64,
}

/// What a span that gave calls up would have had with their answers.
#[derive(Clone, Copy, PartialEq, Eq, Debug)]
pub struct Answer {
    pub stage: StageId,
    /// The tick at which the first of these calls started.
    pub since: u64,
    /// Whether one of these calls has not ended.
    pub is_open: bool,
}

/// What a span has, as far as the walk has come.
#[derive(Drop)]
pub struct Holding {
    pub has: StageId,
    /// The last tick at which something ended that it has, or will have.
    pub(crate) reached: u64,
    /// What it waits for and has ended since the last look: the stages that stand for that.
    pub(crate) ended: Vec<StageId>,
    /// What began from what it has.
    pub(crate) begun: HashSet<usize>,
    /// Whether one of those that ended began from what it has.
    pub(crate) is_used: bool,
    /// The sources of each of its joins.
    pub joins: Vec<Vec<StageId>>,
    /// Its own work, in order.
    pub works: Vec<OwnWork>,
    /// From what each span begins that started in it, in order.
    pub begins: Vec<Begin>,
    /// What it would have had, where it gave calls up.
    pub answer: Option<Answer>,
}
