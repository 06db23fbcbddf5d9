//! The words of a text.
ghost use Rattle.std.specs.Prelude.{◌≡◌, ◌<◌, OnOk, string_bytes};
ghost use Rattle.std.specs.Str.{IsAscii};
ghost use Rattle.trace_stages.specs.Words.{cut, is_word_character, joined, with_letter, words_or};

use std::alloc::AllocError;

fn is_word_character(byte: u8) -> bool
    ensures { result ≡ is_word_character byte }
{
    byte.is_ascii_alphanumeric() || byte == b'_'
}

/// Puts a letter at the end of words, after a dash if it stands apart.
fn push_letter(words: &mut String, is_apart: bool, byte: u8) -> Result<(), AllocError>
    requires { byte < 128 }
    ensures { OnOk result (string_bytes words.new ≡ with_letter (string_bytes words.old) is_apart byte) }
{
    if is_apart {
        words.push('-')?;
    }
    words.push(byte as char)
}

/// The words of a text, joined by dashes, in the place of others.
fn joined(words: &mut String, text: &str) -> Result<(), AllocError>
    ensures bytes { OnOk result (string_bytes words.new ≡ joined text.now) }
    ensures ascii { OnOk result (IsAscii (string_bytes words.new)) }
{
    words.clear();
    let mut is_apart = false;
    for byte in text.as_bytes() {
        if is_word_character(*byte) {
            push_letter(words, is_apart, *byte)?;
            is_apart = false;
        } else {
            is_apart = !words.as_str().is_empty();
        }
    }
    Ok(())
}

/// Keeps no more characters of words than these, of which the last is no dash.
fn cut(words: &mut String, most: usize)
    requires { IsAscii (string_bytes words.old) }
    ensures { string_bytes words.new ≡ cut most (string_bytes words.old) }
{
    words.truncate(most);
    if words.as_bytes().last().copied() == Some(b'-') {
        words.truncate(words.len() - 1);
    }
}

/// So many characters of the words of a text, or what stands for none, in the place of other words.
///
/// The words of many texts are made one after another: in one place, only those ask for memory that are longer than all before.
#[tactic(auto, unfolding(crate::specs::Words::words_or))]
pub(crate) fn words_or(
    words: &mut String,
    none: &str,
    most: usize,
    text: &str,
) -> Result<(), AllocError>
    ensures { OnOk result (string_bytes words.new ≡ words_or none.now most text.now) }
{
    joined(words, text)?;
    cut(words, most);
    if words.is_empty() {
        words.push_str(none)?;
    }
    Ok(())
}
