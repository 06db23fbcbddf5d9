//! Places among others.
ghost use Rattle.std.specs.Prelude.{◌≡◌};
ghost use Rattle.rank_order.specs.Lists.{is_among};

/// Whether the place is one of these. Allocates nothing.
pub fn is_among(place: u32, places: &[u32]) -> bool
    ensures { result ≡ is_among place places.now }
{
    places.iter().any(|other| place == *other)
}
