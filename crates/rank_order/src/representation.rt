//! How an order's lists are stored, by the type parameter that selects the type of a graph's lists.
use share_tree::{Flat, Held, Keeps, Shared};
use stage_graph::{InFlat, InShared, Places, Representation};
use std::marker::{Send, Sync};

/// The type of each of an order's lists.
pub trait OrderRepresentation: Representation {
    /// The rank of each place.
    type Ranks: Keeps<u32> + Send + Sync;
    /// The dependents of each place.
    type Dependents: Keeps<Held<Places>> + Send + Sync;
}

impl OrderRepresentation for InFlat {
    type Ranks = Flat<u32>;

    type Dependents = Flat<Held<Places>>;
}

impl OrderRepresentation for InShared {
    type Ranks = Shared<u32>;

    type Dependents = Shared<Held<Places>>;
}
