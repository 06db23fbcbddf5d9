//! What a summary of many replies answers: how many there were and how long they took, what each group of their traces' spans
//! had to do with that, the group by which most ticks would be gained first, and what failed. The same as text and as JSON.
#![tactic(auto)]

mod answer;
mod answering;
mod fault;
mod json_writing;
mod label;
mod names;
mod printing;
mod ranking;
mod row_making;
mod rows;
mod shares;
mod text_writing;
mod times;
mod tried;
mod values;
mod without;

pub use answer::Answer;
pub use answering::answer_of;
pub use fault::AnswerFault;
pub use label::Label;
pub use printing::{print_json, print_text};
pub use rows::{FailureRow, GroupRow, ReplyRow, TryRow};
pub use shares::{Share, Shares, Slowest};
pub use times::Times;
pub use tried::Tried;
