//! Numbers, as digits spell them.
ghost use Rattle.std.specs.Prelude.{◌≡◌};
ghost use Rattle.change_words.specs.Numbers.{amount_of, are_digits, count_of, percent_in, share_in, signed_of, ticks_in, value_of, without_minus};

use crate::amount::{Amount, Percent};
use crate::fault::Wrong;
use act_expr::Value;

/// Whether a text is digits, at least one.
fn are_digits(text: &str) -> bool
    ensures { result ≡ are_digits text.now }
{
    let bytes = text.as_bytes();
    0 < bytes.len() && bytes.iter().all(|byte| byte.is_ascii_digit())
}

/// The number that digits spell.
pub(crate) fn count_of(text: &str) -> Result<u64, Wrong>
    ensures { result ≡ count_of text.now }
{
    if !are_digits(text) {
        return Err(Wrong::NoNumber);
    }
    match text.parse::<u64>() {
        Ok(number) => Ok(number),
        Err(_) => Err(Wrong::TooLarge),
    }
}

/// A text without a minus that it begins with.
fn without_minus(text: &str) -> &str
    ensures { result.now ≡ without_minus text.now }
{
    match text.strip_prefix('-') {
        Some(digits) => digits,
        None => text,
    }
}

/// The number that digits spell, before which a minus may stand.
fn signed_of(text: &str) -> Result<i64, Wrong>
    ensures { result ≡ signed_of text.now }
{
    if !are_digits(without_minus(text)) {
        return Err(Wrong::NoNumber);
    }
    match text.parse::<i64>() {
        Ok(number) => Ok(number),
        Err(_) => Err(Wrong::TooLarge),
    }
}

/// A number, or `null`.
pub fn value_of(text: &str) -> Result<Value, Wrong>
    ensures { result ≡ value_of text.now }
{
    if text == "null" {
        return Ok(Value::Null);
    }
    Ok(Value::Num(signed_of(text)?))
}

/// So many hundredths.
fn percent_in(digits: &str) -> Result<Percent, Wrong>
    ensures { result ≡ percent_in digits.now }
{
    match Percent::new(count_of(digits)?) {
        Some(percent) => Ok(percent),
        None => Err(Wrong::TooManyHundredths),
    }
}

/// So many hundredths of what it takes.
fn share_in(digits: &str) -> Result<Amount, Wrong>
    ensures { result ≡ share_in digits.now }
{
    Ok(Amount::Share(percent_in(digits)?))
}

/// So many ticks.
fn ticks_in(digits: &str) -> Result<Amount, Wrong>
    ensures { result ≡ ticks_in digits.now }
{
    Ok(Amount::Ticks(count_of(digits)?))
}

/// A number of ticks, or of hundredths, behind which `%` stands.
pub(crate) fn amount_of(text: &str) -> Result<Amount, Wrong>
    ensures { result ≡ amount_of text.now }
{
    match text.strip_suffix('%') {
        Some(digits) => share_in(digits),
        None => ticks_in(text),
    }
}
