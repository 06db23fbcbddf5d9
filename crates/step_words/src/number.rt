//! Numbers of versions.
ghost use Rattle.std.specs.Prelude.{◌≡◌};
ghost use Rattle.step_words.specs.Numbers.{are_digits, number_in};
ghost use Rattle.step_words.specs.Said.{IsSaid};

use crate::mistake::Mistake;

/// Whether a text is digits, at least one.
fn are_digits(text: &str) -> bool
    ensures { result ≡ are_digits text.now }
{
    let bytes = text.as_bytes();
    0 < bytes.len() && bytes.iter().all(|byte| byte.is_ascii_digit())
}

/// The number that digits spell, within 32 bits.
pub fn number_in(text: &str) -> Result<u32, Mistake>
    ensures { IsSaid result (number_in text.now) }
{
    if !are_digits(text) {
        return Err(Mistake::NoNumber);
    }
    match text.parse::<u32>() {
        Ok(number) => Ok(number),
        Err(_) => Err(Mistake::NoNumber),
    }
}
