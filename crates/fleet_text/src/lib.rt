//! The text of a summary of a part of the traces: a JSON object, which is read back as the summary. The summaries of parts are
//! joined.
#![tactic(auto)]

mod basis;
mod fault;
mod histogram;
mod join_fault;
mod joining;
mod laws;
mod members;
mod naming;
mod order;
mod part;
mod read_fault;
mod reading;
mod reading_failures;
mod reading_groups;
mod reading_histogram;
#[cfg(test)]
mod tests;
mod values;
mod writing;

pub use basis::Basis;
pub use fault::WriteFault;
pub use join_fault::JoinFault;
pub use joining::join_parts;
pub use laws::{each_join_is_the_whole, each_json_is_of_one_summary, written_and_read};
pub use part::PartSummary;
pub use read_fault::ReadFault;
pub use reading::read_summary;
pub use writing::write_summary;
