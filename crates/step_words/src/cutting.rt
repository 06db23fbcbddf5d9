//! Where the first word of a text ends.
ghost use Rattle.std.specs.Prelude.{◌≡◌};
ghost use Rattle.step_words.specs.Cut.{first_word, other_words};

/// The first word of a text, and the others, without white space at their ends.
pub fn cut(text: &str) -> (&str, &str)
    ensures first { result.0.now ≡ first_word text.now }
    ensures others { result.1.now ≡ other_words text.now }
{
    match text.split_once(' ') {
        Some((word, others)) => (word, others.trim()),
        None => (text, ""),
    }
}
