//! Objects of JSON that are put together member by member, and what is true of the text and the depth of such an object.
#![tactic(auto)]

mod object;

pub use object::Object;
