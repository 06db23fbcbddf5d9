//! The names of exceptions, and where spans tell them.
ghost use Rattle.std.specs.Prelude.{◌≡◌, [], IfOk, map, option_and_then, option_map, string_bytes, take, unwrap_or};
ghost use Rattle.std.specs.Str.{chars, encode_utf8_all};
ghost use Rattle.trace_spans.specs.Exceptions.{exception_in, exception_in_event, exception_in_log, exception_in_tag, exception_name, is_name_character, kept, last_exception, tag_in, tag_text};
ghost use Rattle.trace_spans.specs.Members.{then_on, items_in, member_of};
ghost use Rattle.trace_spans.specs.Reads.{IsRead};

use crate::fault::Fault;
use crate::member::Member;
use crate::object::{found_items, item_object, items_or_none, member, text_or_empty};
use crate::tags::TagForm;
use crate::text::Text;
use json_trees::Tree;
use std::alloc::{AllocError, Global};

/// The most characters of an exception's name.
const MOST_CHARACTERS: usize = 128;

/// The exceptions that wrap others, and name none.
const COMPLETION_EXCEPTION: &str = "java.util.concurrent.CompletionException";

const EXECUTION_EXCEPTION: &str = "java.util.concurrent.ExecutionException";

fn is_name_character(letter: char) -> bool
    ensures { result ≡ is_name_character letter }
{
    letter.is_ascii_alphanumeric() || letter == '.' || letter == '_' || letter == '$'
}

/// The character that stands for one in a name.
fn kept(letter: char) -> char
    ensures { result ≡ kept letter }
{
    if is_name_character(letter) {
        letter
    } else {
        '_'
    }
}

/// The first 128 characters of a text, as they stand in a name.
fn kept_name(alloc: Global, text: &str) -> Result<String, AllocError>
    ensures { IfOk result (λ name. string_bytes name ≡ encode_utf8_all (map kept (take 128 (chars text.now)))) }
{
    text.chars()
        .take(MOST_CHARACTERS)
        .map(|letter| kept(letter))
        .collect(alloc)
}

/// The exception's name that a text is: other characters become `_`, and 128 are kept.
#[tactic(auto, unfolding(crate::specs::Exceptions::exception_name))]
pub(crate) fn exception_name(alloc: Global, text: &str) -> Result<Option<Text>, AllocError>
    ensures { IfOk result (λ name. name ≡ exception_name text.now) }
{
    let name = kept_name(alloc, text)?;
    if name.is_empty()
        || name.as_str() == COMPLETION_EXCEPTION
        || name.as_str() == EXECUTION_EXCEPTION
    {
        return Ok(None);
    }
    Ok(Some(Text::of(name)))
}

/// The value of a tag, where it is a text.
#[tactic(auto, unfolding(crate::specs::Exceptions::tag_text))]
pub(crate) fn tag_text<'a>(form: TagForm, tag: &Tree<'_, 'a>) -> Option<&'a str>
    ensures { option_map (λ t. t.now) result ≡ tag_text form tag.now }
{
    let value = member(tag, Member::Value)?;
    match form {
        TagForm::Otlp => member(&value, Member::StringValue)?.as_str(),
        TagForm::Jaeger => value.as_str(),
    }
}

/// The text that a tag is; without one it is empty.
pub(crate) fn text_of_tag<'a>(form: TagForm, tag: &Option<Tree<'_, 'a>>) -> &'a str
    ensures { result.now ≡ unwrap_or (option_and_then (tag_text form) tag.now) [] }
{
    match tag {
        Some(tag) => match tag_text(form, tag) {
            Some(text) => text,
            None => "",
        },
        None => "",
    }
}

/// The first tag with a key, in the list that a look-up found or not.
#[tactic(auto, unfolding(crate::specs::Exceptions::tag_in))]
pub(crate) fn found_tag_with_key<'t, 'a>(
    object: &Tree<'_, '_>,
    found: &Option<Tree<'t, 'a>>,
    list: Member,
    key: &str,
) -> Result<Option<Tree<'t, 'a>>, Fault>
    requires { found.now ≡ member_of list object.now }
    ensures { IsRead result (tag_in list key.now object.now) }
{
    let mut tags = found_items(object, found, list)?;
    while let Some(tag) = tags.next() {
        item_object(&tag, list)?;
        if text_or_empty(&tag, Member::Key)? == key {
            return Ok(Some(tag));
        }
    }
    Ok(None)
}

/// The first tag with a key.
pub(crate) fn tag_with_key<'t, 'a>(
    object: &Tree<'t, 'a>,
    list: Member,
    key: &str,
) -> Result<Option<Tree<'t, 'a>>, Fault>
    ensures { IsRead result (tag_in list key.now object.now) }
{
    found_tag_with_key(object, &member(object, list), list, key)
}

/// The exception's name in the tag with a key.
#[tactic(auto, unfolding(crate::specs::Exceptions::exception_in_tag))]
pub(crate) fn exception_in_tag(
    alloc: Global,
    form: TagForm,
    object: &Tree<'_, '_>,
    list: Member,
    key: &str,
) -> Result<Option<Text>, Fault>
    ensures { IsRead result (exception_in_tag form list key.now object.now) }
{
    let Some(tag) = tag_with_key(object, list, key)? else {
        return Ok(None);
    };
    match tag_text(form, &tag) {
        Some(text) => Ok(exception_name(alloc, text)?),
        None => Ok(None),
    }
}

/// The exception's name that a log tells.
#[tactic(auto, unfolding(crate::specs::Exceptions::exception_in_log))]
fn exception_in_log(alloc: Global, log: &Tree<'_, '_>) -> Result<Option<Text>, Fault>
    ensures { IsRead result (exception_in_log log.now) }
{
    match exception_in_tag(
        alloc,
        TagForm::Jaeger,
        log,
        Member::Fields,
        "exception.type",
    )? {
        Some(name) => Ok(Some(name)),
        None => exception_in_tag(alloc, TagForm::Jaeger, log, Member::Fields, "error.kind"),
    }
}

/// The exception's name that an event or a log tells.
#[tactic(auto, unfolding(crate::specs::Exceptions::exception_in_event))]
fn exception_in_event(
    alloc: Global,
    form: TagForm,
    event: &Tree<'_, '_>,
) -> Result<Option<Text>, Fault>
    ensures { IsRead result (exception_in_event form event.now) }
{
    match form {
        TagForm::Otlp => {
            exception_in_tag(alloc, form, event, Member::Attributes, "exception.type")
        }
        TagForm::Jaeger => exception_in_log(alloc, event),
    }
}

/// The exception's name that the last event with one tells.
fn last_exception(
    alloc: Global,
    form: TagForm,
    span: &Tree<'_, '_>,
    list: Member,
) -> Result<Option<Text>, Fault>
    ensures { IsRead result (then_on (items_in list span.now) (last_exception form list)) }
{
    let mut events = items_or_none(span, list)?;
    let mut last = None;
    while let Some(event) = events.next() {
        item_object(&event, list)?;
        if let Some(name) = exception_in_event(alloc, form, &event)? {
            last = Some(name);
        }
    }
    Ok(last)
}

/// The name of the exception with which a span failed: that of the last event with one, else that of its tag `error.type`.
#[tactic(auto, unfolding(crate::specs::Exceptions::exception_in))]
pub(crate) fn exception_of(
    alloc: Global,
    form: TagForm,
    span: &Tree<'_, '_>,
) -> Result<Option<Text>, Fault>
    ensures { IsRead result (exception_in form span.now) }
{
    let (events, tags) = match form {
        TagForm::Otlp => (Member::Events, Member::Attributes),
        TagForm::Jaeger => (Member::Logs, Member::Tags),
    };
    match last_exception(alloc, form, span, events)? {
        Some(name) => Ok(Some(name)),
        None => exception_in_tag(alloc, form, span, tags, "error.type"),
    }
}
