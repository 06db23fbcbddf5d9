//! Text as it stands in XML.
ghost use Rattle.std.specs.Prelude.{◌≡◌, ◌++◌, ◌≤◌, IfOk, OnOk, string_bytes};
ghost use Rattle.std.specs.List.{flat_map};
ghost use Rattle.std.specs.Str.{chars};
ghost use Rattle.timeline_svg.specs.Escape.{cut, element_text, escaped, escaped_character};

use std::alloc::{AllocError, Global};

/// Puts a text at the end of another as it stands in XML, between tags or in quotes.
pub fn push_escaped(alloc: Global, line: &mut String, text: &str) -> Result<(), AllocError>
    ensures { OnOk result (string_bytes line.new ≡ string_bytes line.old ++ escaped text.now) }
{
    let characters = characters(alloc, text)?;
    push_characters(line, characters.as_slice())
}

/// An escaped text between two others that stand as they are.
pub(crate) fn push_element(
    alloc: Global,
    line: &mut String,
    before: &str,
    text: &str,
    behind: &str,
) -> Result<(), AllocError>
    ensures { OnOk result (string_bytes line.new ≡ string_bytes line.old ++ element_text before.now text.now behind.now) }
{
    line.push_str(before)?;
    push_escaped(alloc, line, text)?;
    line.push_str(behind)
}

/// An escaped text that is cut with an ellipsis where it has more than so many characters.
pub(crate) fn push_cut(
    alloc: Global,
    line: &mut String,
    text: &str,
    most: usize,
) -> Result<(), AllocError>
    ensures { OnOk result (string_bytes line.new ≡ string_bytes line.old ++ cut most text.now) }
{
    let characters = characters(alloc, text)?;
    let characters = characters.as_slice();
    if characters.len() <= most {
        return push_characters(line, characters);
    }
    push_characters(line, &characters[..most.saturating_sub(1)])?;
    line.push_str("…")
}

/// The characters of a text.
pub(crate) fn characters(alloc: Global, text: &str) -> Result<Vec<char>, AllocError>
    ensures { IfOk result (λ characters. characters.items ≡ chars text.now) }
{
    text.chars().collect(alloc)
}

fn push_characters(line: &mut String, characters: &[char]) -> Result<(), AllocError>
    ensures { OnOk result (string_bytes line.new ≡ string_bytes line.old ++ flat_map escaped_character characters.now) }
{
    for character in characters {
        push_character(line, *character)?;
    }
    Ok(())
}

// What XML has no character for stands as the replacement character.
fn push_character(line: &mut String, character: char) -> Result<(), AllocError>
    ensures { OnOk result (string_bytes line.new ≡ string_bytes line.old ++ escaped_character character) }
{
    match character {
        '&' => line.push_str("&amp;"),
        '<' => line.push_str("&lt;"),
        '>' => line.push_str("&gt;"),
        '"' => line.push_str("&quot;"),
        '\'' => line.push_str("&#39;"),
        '\n' => line.push('\n'),
        '\u{0}'..='\u{1f}' | '\u{7f}'..='\u{9f}' | '\u{fffe}' | '\u{ffff}' => line.push_str(
            "\u{fffd}",
        ),
        _ => line.push(character),
    }
}
