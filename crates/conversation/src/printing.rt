//! What is printed beside answers.
use console::{Fault, Voice};

/// Prints a line or several.
pub(crate) fn print(rt: &HostRuntime, voice: Voice<'_>, text: &str) -> Result<(), Fault> {
    match rt.println(format_args!("{text}")) {
        Ok(()) => Ok(()),
        Err(error) => Err(Fault::Write(voice.reason("standard output", error))),
    }
}

/// Tells people an answer, with the ends of its lines.
pub(crate) fn tell_answer(rt: &HostRuntime, answer: &[u8]) {
    if let Ok(text) = str::from_utf8(answer) {
        // (where standard error can't be written nobody can be told)
        let _ = rt.eprint(format_args!("{text}"));
    }
}
