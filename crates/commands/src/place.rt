//! Where the stage stands that is asked about: the one of a name, or the one that completes last.
use console::{Fault, Voice, tell_last_stage, why_no_last_stage, why_no_stage};
use tried_changes::last_stage;
use version_store::{StateRepresentation, Version};

/// Where the stage of a name stands.
pub(crate) fn place_named<K: StateRepresentation>(
    rt: &HostRuntime,
    voice: Voice<'_>,
    recording: &[u8],
    version: &Version<K>,
    name: &str,
) -> Result<u32, Fault> {
    match version.id_of(name) {
        Ok(place) => Ok(place),
        Err(_) => Err(Fault::NoStage(why_no_stage(rt.alloc(), voice, recording, name))),
    }
}

/// Where the stage stands that completes last, which people are told; `word` is what would have named one.
pub(crate) fn last_place<K: StateRepresentation>(
    rt: &HostRuntime,
    voice: Voice<'_>,
    version: &Version<K>,
    word: &str,
) -> Result<u32, Fault> {
    match last_stage(version) {
        Some(place) => {
            tell_last_stage(voice, word, version.graph().name_of(place));
            Ok(place)
        }
        None => {
            let why = why_no_last_stage(rt.alloc(), voice, word, some_complete(version))?;
            Err(Fault::Word(why))
        }
    }
}

/// Where the stage stands that is reported on: the one of the name, or where there is none the one that completes last.
pub(crate) fn place_of<K: StateRepresentation>(
    rt: &HostRuntime,
    voice: Voice<'_>,
    recording: &[u8],
    version: &Version<K>,
    stage: Option<&str>,
    word: &str,
) -> Result<u32, Fault> {
    match stage {
        Some(name) => place_named(rt, voice, recording, version, name),
        None => last_place(rt, voice, version, word),
    }
}

/// Whether a stage completes on which no other waits.
fn some_complete<K: StateRepresentation>(version: &Version<K>) -> bool {
    for place in 0..version.graph().len() as u32 {
        if let Some(stage) = version.stage(place) {
            if stage.dependents().is_empty() && stage.moment().is_some() {
                return true;
            }
        }
    }
    false
}
