//! Numbers that look random, the same for one seed at each run.
ghost use Rattle.std.specs.Prelude.{◌≤◌};

/// A row of numbers that a seed determines, by Sebastiano Vigna's splitmix64.
#[derive(Drop)]
pub(crate) struct Random {
    state: u64,
}

impl Random {
    pub(crate) fn new(seed: u32) -> Random {
        Random {
            state: u64::from(seed),
        }
    }

    /// The next number.
    pub(crate) fn next(&mut self) -> u64 {
        self.state = self.state.wrapping_add(0x9e37_79b9_7f4a_7c15);
        mixed(self.state)
    }

    /// The next number below a bound; 0 where the bound is 0.
    pub(crate) fn below(&mut self, bound: u32) -> u32
        ensures { result ≤ bound }
    {
        if bound == 0 {
            return 0;
        }
        (self.next() % u64::from(bound)) as u32
    }
}

/// The number that another one is mixed to.
pub(crate) fn mixed(number: u64) -> u64 {
    let first = (number ^ (number >> 30)).wrapping_mul(0xbf58_476d_1ce4_e5b9);
    let second = (first ^ (first >> 27)).wrapping_mul(0x94d0_49bb_1331_11eb);
    second ^ (second >> 31)
}
