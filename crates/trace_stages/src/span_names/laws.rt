//! What holds of all names.
ghost use Rattle.trace_stages.specs.Apart.{NamesAreApart};

/// No two spans have one name, even with a dot and what isn't a number put after it.
pub fn names_are_apart()
    ensures { NamesAreApart }
{}
