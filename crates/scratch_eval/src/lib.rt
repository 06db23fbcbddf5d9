//! Evaluation of a graph from scratch: the state of each stage, its rank, who is to blame, and its dependents.
#![tactic(auto)]

mod answers;
mod blame;
mod fault;
mod laws;
mod queries;
mod scratch;

pub use answers::{Answer, Answers};
pub use blame::{Failures, follow_blame};
pub use fault::QueryFault;
pub use laws::{
    chains_follow_blame, moments_follow_ranks, moments_follow_ranks_unqueued, one_answer,
    paths_add_up,
};
pub use queries::{chain, dependents_of};
pub use scratch::evaluate;
