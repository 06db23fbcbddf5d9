//! What a change of a group of spans makes of the reply of a trace. The group's own work is shared out to the stages that are that
//! work, and what is assigned besides times is assigned to the ends of the group's spans.
#![tactic(auto)]

mod changes;
mod pieces;
mod tried;

pub use changes::changes_of;
pub use tried::tried_facts;
