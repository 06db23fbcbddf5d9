//! How many workers there may be.
ghost use Rattle.std.specs.Prelude.{◌≡◌, ◌<◌, ◌≤◌};

use std::marker::Model;

/// A number of workers, 1 to 16.
#[derive(Clone, Copy, PartialEq, Eq, Debug)]
pub struct Workers {
    count: usize,
}

impl Model for Workers {
    ghost use Rattle.std.specs.Prelude.{ℕ, ◌<◌, ◌≤◌};

    ghost Value = { ℕ };

    ghost view = { λ workers. workers.count };

    ghost invariant = { λ workers. (0 < workers.count) × (workers.count ≤ 16) };

    ghost inverse = { λ count. record { count = count } };
}

impl Workers {
    /// This many workers.
    pub fn new(count: usize) -> Workers
        requires some { 0 < count }
        requires few { count ≤ 16 }
        ensures { result ≡ count }
    {
        Workers { count }
    }

    /// How many they are.
    pub fn count(self) -> usize
        ensures count { result ≡ self }
        ensures some { 0 < result }
        ensures few { result ≤ 16 }
    {
        self.count
    }
}
