//! The tree of parents, gone through from its roots: each span is entered before its children and left after them.
//!
//! `visits_of` answers the visits in their order, as the definition `visits` says. It keeps what is to come in a list of
//! its own, so that nothing goes down the tree by recursion.

mod children;
mod touring;
mod visit;

pub(crate) use children::{all_children, children_at};
pub(crate) use touring::visits_of;
pub(crate) use visit::Visit;
