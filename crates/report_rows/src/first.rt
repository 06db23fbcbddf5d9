//! How many of a list are told.
ghost use Rattle.std.specs.Prelude.{◌≡◌};
ghost use Rattle.report_rows.specs.First.{first_of};

/// The first ones, up to this many, or all.
pub(crate) fn first_of<T: Drop>(most: Option<usize>, mut all: Vec<T>) -> Vec<T>
    ensures { result.items ≡ first_of most all.items }
{
    if let Some(most) = most {
        all.truncate(most);
    }
    all
}
