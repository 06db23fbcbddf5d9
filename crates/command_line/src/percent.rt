//! Percentages, as words spell them.
ghost use Rattle.std.specs.Prelude.{◌≡◌};
ghost use Rattle.command_line.specs.Percents.{are_digits, hundredths_of, percent_in, within_most};

/// The most hundredths that may be left of a time that is to be shorter.
const MOST: u8 = 99;

/// Whether a text is digits, at least one.
fn are_digits(text: &str) -> bool
    ensures { result ≡ are_digits text.now }
{
    let bytes = text.as_bytes();
    0 < bytes.len() && bytes.iter().all(|byte| byte.is_ascii_digit())
}

/// The number, if it is no more than the most.
fn within_most(number: u8) -> Option<u8>
    ensures { result ≡ within_most number }
{
    if number <= MOST { Some(number) } else { None }
}

/// The number that digits spell, if it is no more than the most.
fn hundredths_of(digits: &str) -> Option<u8>
    ensures { result ≡ hundredths_of digits.now }
{
    if !are_digits(digits) {
        return None;
    }
    match digits.parse::<u8>() {
        Ok(number) => within_most(number),
        Err(_) => None,
    }
}

/// The hundredths that a word says: a whole number from 0 to 99, with `%` behind it.
pub(crate) fn percent_in(word: &str) -> Option<u8>
    ensures { result ≡ percent_in word.now }
{
    match word.strip_suffix('%') {
        Some(digits) => hundredths_of(digits),
        None => None,
    }
}
