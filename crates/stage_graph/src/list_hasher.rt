//! Hashers that begin with all names of a list.
ghost use Rattle.std.specs.Prelude.{◌≡◌};
ghost use Rattle.stage_graph.specs.Hashers.{after_names};

use crate::stage::Spec;
use std::hash::{BuildHasher, DefaultHasher, Hash};

/// Makes hashers that have taken in all names of a list, so that each of these names has a say in every hash.
#[derive(Drop)]
pub(crate) struct ListHasher {
    start: DefaultHasher,
}

impl ListHasher {
    /// The hashers of a list.
    pub(crate) fn of(specs: &[Spec]) -> ListHasher
        ensures { result.start ≡ after_names specs.now }
    {
        let mut start = DefaultHasher::new();
        for spec in specs {
            spec.name.as_str().hash(&mut start);
        }
        ListHasher { start }
    }
}

impl BuildHasher for ListHasher {
    type Hasher = DefaultHasher;

    ghost build_hasher = { λ hasher. hasher.start };

    fn build_hasher(&self) -> DefaultHasher {
        self.start
    }
}
