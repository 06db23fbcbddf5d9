//! How the states of a graph's places are stored.
use crate::kept::KeptState;
use rank_order::OrderRepresentation;
use share_tree::{Flat, Held, Keeps, Shared};
use stage_graph::{InFlat, InShared};
use std::marker::{Send, Sync};

/// The type of each list of a graph, of its order and of its states.
pub trait StateRepresentation: OrderRepresentation + Sync {
    type States: Keeps<Held<KeptState>> + Send + Sync;
}

impl StateRepresentation for InFlat {
    type States = Flat<Held<KeptState>>;
}

impl StateRepresentation for InShared {
    type States = Shared<Held<KeptState>>;
}
