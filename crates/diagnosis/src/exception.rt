//! Names of exceptions, and what is meant by a text that is none.

/// The exception by which a stage holds another one.
const WRAPPER: &str = "java.util.concurrent.CompletionException";

fn is_exception_byte(byte: u8) -> bool {
    byte.is_ascii_alphanumeric() || matches!(byte, b'.' | b'_' | b'$')
}

/// Whether a text is the name of an exception that a stage may hold.
pub(crate) fn is_exception(text: &str) -> bool {
    let bytes = text.as_bytes();
    !bytes.is_empty()
        && bytes.len() <= 128
        && bytes.iter().all(|byte| is_exception_byte(*byte))
        && text != WRAPPER
}

/// Whether a text names the exception by which a stage holds another one.
pub(crate) fn is_wrapper(text: &str) -> bool {
    text == WRAPPER
}

/// What comes before a message, as `java.io.IOException` does in `java.io.IOException: reset`.
fn before_message(text: &str) -> &str {
    match text.split_once(": ") {
        Some((front, _)) => front,
        None => text,
    }
}

/// The exception in one that wraps it, as Java writes both: `java.io.IOException: reset` behind the wrapper's name.
fn inside_wrapper(text: &str) -> &str {
    match text.split_once(": ") {
        Some((WRAPPER, inside)) => inside,
        _ => text,
    }
}

/// The exception whose class a text begins with, before a message.
pub(crate) fn class_meant(text: &str) -> Option<&str> {
    let class = before_message(inside_wrapper(text));
    (class.len() < text.len() && is_exception(class)).then_some(class)
}
