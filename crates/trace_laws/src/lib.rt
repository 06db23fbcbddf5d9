//! What holds of the recordings that are made of traces: laws, and no code.
//!
//! - `accepted`: the text that an import writes is read as the stages of its trace, and none of these is refused: no two
//!   have one name, each source and each inner stage is a stage, and each has as many of them and as many ticks as it may.
//! - `faithful`: over the definitions alone, the stages of a trace wait for each other in no circle, and that of a span
//!   completes when the span ended, if it did, and fails exactly if that did. Its start, its own work, its limit and what
//!   its attempts came to have their ticks too; an answer completes no earlier than the span ended, or never, and a join at
//!   any tick, or never where the span was given up.
//! - `imports`: that what an import writes is read as a graph, and that the stages of this graph complete so; and that an
//!   exception has the name that its span tells, if that is one of an exception.
#![tactic(auto)]

mod accepted;
mod faithful;
mod imports;

pub use accepted::{each_import_is_loaded, each_import_is_read};
pub use faithful::{
    each_source_is_a_stage, each_span_has_its_stages, each_trace_is_faithful, no_trace_has_a_circle,
};
pub use imports::{each_exception_has_its_name, each_import_is_accepted, each_import_is_faithful};
