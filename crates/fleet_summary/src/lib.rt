//! Sums of what the replies of many traces came to: how many there were, how long they took, where the time went and what
//! failed. Parts of the traces are summed apart, on many machines, and the summaries joined in any order.
#![tactic(auto)]

mod facts;
mod failures;
mod group;
mod group_by;
mod groups;
mod histogram;
mod laws;
mod name;
mod quantile;
mod replies;
mod steps;
mod summary;
#[cfg(test)]
mod tests;

pub use facts::{Failure, GroupFacts, TraceFacts};
pub use failures::FailureCounts;
pub use group::GroupCounts;
pub use group_by::GroupBy;
pub use groups::Groups;
pub use histogram::Histogram;
pub use laws::{each_order_of_joins_is_one, each_split_is_the_whole};
pub use name::Name;
pub use replies::Replies;
pub use steps::{STEPS, step_of, upper_end};
pub use summary::Summary;
