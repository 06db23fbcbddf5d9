//! How many rows there is room for.
ghost use Rattle.std.specs.Prelude.{◌≡◌, ◌≤◌};
ghost use Rattle.version_rows.specs.Rooms.{most_rows};

/// What the rows are for, by which they are more or fewer.
#[derive(Clone, Copy, Debug, PartialEq, Eq)]
pub enum Room {
    /// A picture that is no higher than viewers take.
    Picture,
    /// Such a picture, in which the rows of a service stand together below its name. Each may be of a service of its own.
    Services,
    /// Trace events.
    Events,
}

impl Room {
    /// How many rows there are at most.
    pub(crate) fn most_rows(self) -> usize
        ensures value { result ≡ most_rows self }
        ensures few { result ≤ 2000 }
    {
        match self {
            Room::Picture => 200,
            Room::Services => 100,
            Room::Events => 2000,
        }
    }
}
