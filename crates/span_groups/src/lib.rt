//! Groups of a trace's spans, by names, and to which of them each stage of the trace's recording counts. It knows names and
//! numbers, and neither traces nor graphs.
#![tactic(auto)]

mod grouping;
mod groups;
mod making;

pub use grouping::{Counted, Group, Grouping, counted_at, counts_to, works_for};
pub use making::{StageOf, grouping_of};
