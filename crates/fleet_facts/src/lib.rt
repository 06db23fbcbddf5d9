//! What the reply of a trace came to, for the sums of many traces: when it came, what it failed by, and what each group of the
//! trace's spans had to do with it. A group is tried as one what-if: how the reply would come if all work of the group took no
//! time.
#![tactic(auto)]

mod facts;
mod failing;
mod group_facts;
mod hurried;
mod on_path;

pub use facts::facts_of;
pub use failing::failure_at;
