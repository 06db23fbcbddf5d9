//! Why a file can't be read or written.
use crate::file_name::FileName;
use crate::voice::Voice;
use std::alloc::{AllocError, Global};
use std::io;

/// A reason without the system's number of it.
fn without_number(reason: &str) -> &str {
    match reason.split_once(" (os error ") {
        Some((message, _)) => message,
        None => reason,
    }
}

/// The system's reason why a file can't be read or written. Nothing where it is a pipe that nobody reads any more, since
/// whoever did has what was wanted, and where memory is out.
pub fn reason_of(alloc: Global, file: &str, error: io::Error) -> Option<String> {
    if error.kind() == io::ErrorKind::BrokenPipe {
        return None;
    }
    let reason = error.to_string(alloc).ok()?;
    let message = without_number(reason.as_str());
    let file = FileName(file);
    let text: Result<String, AllocError> = format!(in alloc; "{file}: {message}");
    text.ok()
}

/// Why a script can't be read: the system's reason, or else that it has too many bytes.
pub(crate) fn why_unread(
    voice: Voice<'_>,
    script: &str,
    error: Option<io::Error>,
) -> Option<String> {
    match error {
        Some(error) => voice.reason(script, error),
        None => voice.text_of(script, "it has more than 1073741823 bytes"),
    }
}
