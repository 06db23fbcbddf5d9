//! The stage that is told of where none is named: the one that completes last.
use crate::voice::Voice;
use diagnosis::Quoted;
use std::alloc::{AllocError, Global};

/// Tells which stage that is; `word` is what would have named one.
pub fn tell_last_stage(voice: Voice<'_>, word: &str, name: &str) {
    let name = Quoted(name);
    voice.say_of_file(format_args!(
        "no {word} is given, so this is about stage {name}: of the stages on which no other waits it completes last"
    ));
}

/// That there is no such stage, so that one has to be named, by `word`: several complete last, or none completes.
pub fn why_no_last_stage(
    alloc: Global,
    voice: Voice<'_>,
    word: &str,
    some_complete: bool,
) -> Result<String, AllocError> {
    let file = voice.file();
    if some_complete {
        return format!(in alloc;
            "{file}: {word} is wanted: of the stages on which no other waits several complete last"
        );
    }
    format!(in alloc;
        "{file}: {word} is wanted: none of the stages on which no other waits completes"
    )
}
