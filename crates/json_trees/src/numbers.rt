//! JSON numbers, from their texts.
ghost use Rattle.std.specs.Str.Parse.{AllDigits};
ghost use Rattle.std.specs.Prelude.{◌≡◌, ◌<◌, ◌==◌, length, slice_index, IsTrue, Some, IfSome, is_some, option_map, true, false};
ghost use Rattle.fast_float.specs.Text.{minus, scan};
ghost use Rattle.serde_json.specs.Read.{number_of, number_from};
ghost use Rattle.serde_json.specs.Data.{unsigned};
ghost use Rattle.serde_json.specs.View.{number_view};

use fast_float::{Numeral, parse_u64};
use serde_json::Number;

/// So many digits are below 2^64, whichever they are.
const SURE_DIGITS: usize = 19;

/// What writes a minus zero in the fewest bytes.
pub(crate) const MINUS_ZERO: &str = "-0";

/// So many digits are below 2^32, whichever they are.
const FEW_DIGITS: usize = 9;

/// The integer that so few digits alone write that it has 64 bits, with no point and no exponent.
///
/// Most numbers are of this kind, and need no look for the parts of a numeral. A longer text is seldom one, and is not gone over
/// for it.
#[inline(always)]
fn plain_integer(digits: &[u8]) -> Option<u64>
    ensures { IfSome result (λ integer. number_from false (scan digits.now) ≡ Some (unsigned integer)) }
{
    // (`parse_u64` takes a plus too)
    if digits.is_empty() || digits.len() > SURE_DIGITS || digits[0] == b'+' {
        return None;
    }
    parse_u64(digits).ok()
}

/// The integer that a few digits alone write, as most numbers are written.
#[inline(always)]
pub(crate) fn short_integer(text: &str) -> Option<u32>
    ensures { IfSome result (λ integer. number_of text.now ≡ Some (unsigned integer)) }
{
    let digits = text.as_bytes();
    if digits.is_empty() || digits.len() > FEW_DIGITS {
        return None;
    }
    let mut integer = 0u32;
    'digits: for digit in digits {
        if *digit < b'0' || *digit > b'9' {
            return None;
        }
        integer = integer * 10 + (*digit - b'0') as u32;
    }
    Some(integer)
}

/// The number of these digits: an integer where they are one of 64 bits, and else the nearest float, if it is finite.
fn from_digits(digits: &[u8]) -> Option<Number>
    ensures { option_map number_view result ≡ number_from false (scan digits.now) }
{
    if let Some(integer) = plain_integer(digits) {
        return Some(Number::from(integer));
    }
    let numeral = Numeral::scan(digits);
    match numeral.to_u64() {
        Some(integer) => Some(Number::from(integer)),
        None => Number::from_f64(numeral.to_float::<f64>(false)),
    }
}

/// The number of a minus sign and these digits. Minus zero is a float.
fn from_negated(digits: &[u8]) -> Option<Number>
    ensures { option_map number_view result ≡ number_from true (scan digits.now) }
{
    let numeral = Numeral::scan(digits);
    match numeral.to_i64(true) {
        Some(integer) if integer < 0 => Some(Number::from(integer)),
        _ => Number::from_f64(numeral.to_float::<f64>(true)),
    }
}

/// Whether a minus sign comes first.
fn is_negated(text: &[u8]) -> bool
    ensures sign { result ≡ (slice_index text.now 0 == minus) }
    ensures some { IsTrue result → 0 < length text.now }
{
    !text.is_empty() && text[0] == b'-'
}

/// The number that a text writes, unless it is too large for a float.
pub(crate) fn number_of(text: &str) -> Option<Number>
    ensures { option_map number_view result ≡ number_of text.now }
{
    let text = text.as_bytes();
    if is_negated(text) {
        from_negated(&text[1..])
    } else {
        from_digits(text)
    }
}
