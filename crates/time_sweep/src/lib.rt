//! Trials: how a target completes in the graph in which one stage has changed, or several, but for their names and their feeds.
//! A trial keeps nothing: it computes only the stages that the changed ones can reach, and of those only the ones that the target
//! can wait for, where these are soon found, over the states of the version.
//!
//! And by such trials, which stages are worth making faster: for each stage with an action, how the target would complete if
//! that action took no time, or less time. A runner makes parts of these trials beside each other.
#![tactic(auto)]

mod ancestors;
mod as_it_is;
mod changed;
mod changes;
mod completion;
mod handed;
mod hands_on;
mod haste;
mod known;
mod parts;
mod sooner;
mod standing;
mod sweep;
mod trial;
mod trial_start;
mod trials;
mod waits;

pub use as_it_is::completion_of;
pub use changes::Changes;
pub use haste::{Haste, Part};
pub use sweep::{sweep_of, values_of};
pub use trial::Trial;
pub use trial_start::TrialStart;
pub use waits::waited_for;
