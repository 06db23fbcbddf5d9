//! Refusals as JSON: those that end the program, written; and those that answer steps, read.
use crate::fault::Fault;
use serde_json::{Map, Value};
use std::alloc::{AllocError, Global};
use std::fmt::Write;

/// The object of a refusal `refused NUMBER NAME`, which may end with `at PLACE`, with `in EDIT`, with the name of a member, or
/// with that of a file.
fn refusal(alloc: Global, text: &str) -> Result<Map<String, Value>, AllocError> {
    let mut members = Map::new(alloc);
    let words = text.strip_prefix("refused ").unwrap_or(text);
    let (number, rest) = words.split_once(' ').unwrap_or(("", words));
    let (name, detail) = rest.split_once(' ').unwrap_or((rest, ""));
    serde_json::put(
        &mut members,
        alloc,
        "reply",
        Value::try_from_str(alloc, "refused")?,
    )?;
    serde_json::put(
        &mut members,
        alloc,
        "name",
        Value::try_from_str(alloc, name)?,
    )?;
    if let Ok(number) = number.parse::<u64>() {
        serde_json::put(&mut members, alloc, "number", Value::from(number))?;
    }
    add_detail(&mut members, alloc, name, detail)?;
    Ok(members)
}

/// The number that stands behind a word.
fn number_behind(detail: &str, word: &str) -> Option<u64> {
    detail.strip_prefix(word)?.parse::<u64>().ok()
}

/// Adds what a refusal ends with, if it ends with something.
fn add_detail(
    members: &mut Map<String, Value>,
    alloc: Global,
    name: &str,
    detail: &str,
) -> Result<(), AllocError> {
    if detail.is_empty() {
        return Ok(());
    }
    if name == "BadSummary" {
        return serde_json::put(members, alloc, "file", Value::try_from_str(alloc, detail)?);
    }
    let place = number_behind(detail, "at ");
    let edit = number_behind(detail, "in ");
    match (place, edit) {
        (Some(place), _) => serde_json::put(members, alloc, "at", Value::from(place)),
        (None, Some(edit)) => serde_json::put(members, alloc, "edit", Value::from(edit)),
        (None, None) => serde_json::put(
            members,
            alloc,
            "member",
            Value::try_from_str(alloc, detail)?,
        ),
    }
}

/// Why the program ends early, as one JSON object without the end of a line.
pub fn fault_line(alloc: Global, fault: &Fault) -> Result<String, AllocError> {
    let text: String = format!(in alloc; "{fault}")?;
    let members = refusal(alloc, &text)?;
    Value::Object(members).to_string(alloc)
}

/// Adds a member of a refusal to its text, if it has one of the name.
fn push_member(
    text: &mut String,
    answer: &Value,
    name: &str,
    before: &str,
) -> Result<(), AllocError> {
    let Some(member) = answer.get(name) else {
        return Ok(());
    };
    match (member.as_str(), member.as_u64()) {
        (Some(word), _) => write!(text, "{before}{word}"),
        (None, Some(number)) => write!(text, "{before}{number}"),
        (None, None) => Ok(()),
    }
}

/// The text of a refusal that answers a step, where the answer is JSON and a refusal: `refused NUMBER NAME DETAIL in INDEX`.
pub(crate) fn text_of_refusal(alloc: Global, answer: &str) -> Option<String> {
    let answer = Value::from_slice(alloc, answer.as_bytes()).ok()?;
    if answer.get("reply")?.as_str()? != "refused" {
        return None;
    }
    let number = answer.get("number")?.as_u64()?;
    let name = answer.get("name")?.as_str()?;
    let mut text: String = format!(in alloc; "refused {number} {name}").ok()?;
    for detail in ["dependent", "member", "head", "version"] {
        push_member(&mut text, &answer, detail, " ").ok()?;
    }
    push_member(&mut text, &answer, "edit", " in ").ok()?;
    Some(text)
}
