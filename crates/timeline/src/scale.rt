//! The scale of a picture.
ghost use Rattle.std.specs.Prelude.{◌≡◌, ℕ, ◌+◌, ◌^◌, ◌<◌, ◌≤◌};

/// A span of ticks, drawn over a width in whole units from the left.
#[derive(Clone, Copy, Debug, PartialEq, Eq)]
pub struct Scale {
    /// The tick that stands at the left end.
    pub first: u64,
    /// The tick that stands at the right end, where it is another.
    pub last: u64,
    pub left: u32,
    pub width: u32,
    ghost ordered: { first ≤ last },
    ghost drawn: { 0 < width },
    ghost fits: { left + width < 2 ^ 32 },
}

/// What is drawn of the ticks from one to another.
#[derive(Clone, Copy, Debug, PartialEq, Eq)]
pub struct Bar {
    pub x: u32,
    pub width: u32,
}

impl Scale {
    ghost use Rattle.timeline.specs.Places.{IsWithin, bar_of, units_into, x_of};

    /// Where a tick stands. One outside of the span stands at the nearer end.
    pub fn x(&self, tick: u64) -> u32
        ensures value { result ≡ x_of self.now tick }
        ensures within { (self.now.left ≤ result) × (result ≤ self.now.left + self.now.width) }
        ensures monotone { (later : ℕ) → tick ≤ later → result ≤ x_of self.now later }
    {
        self.left + self.units_into(tick)
    }

    // How far from the left end a tick stands.
    fn units_into(&self, tick: u64) -> u32
        ensures value { result ≡ units_into self.now tick }
        ensures within { result ≤ self.now.width }
    {
        let from = self.first;
        let span = (self.last - from).max(1);
        let ticks = tick.max(from).min(self.last) - from;
        let units = u128::from(ticks) * u128::from(self.width) / u128::from(span);
        units as u32
    }

    /// The bar from one tick to another. It is at least one unit wide, and stands within the picture.
    pub fn bar(&self, from: u64, to: u64) -> Bar
        ensures value { result ≡ bar_of self.now from to }
        ensures seen { 1 ≤ result.width }
        ensures within { IsWithin self.now result }
        ensures begins { (result.x ≤ x_of self.now from) × (x_of self.now from ≤ result.x + 1) }
        ensures ends { x_of self.now to ≤ result.x + result.width }
    {
        let start = self.x(from);
        let end = self.x(to);
        Bar {
            x: start.min(self.left + self.width - 1),
            width: end.saturating_sub(start).max(1),
        }
    }
}
