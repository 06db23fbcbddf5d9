//! Recordings, and edits of them.
ghost use Rattle.std.specs.Prelude.{◌≡◌, IfOk};
ghost use Rattle.version_store.specs.Plain.{opening_version};

use recording::read_recording;
use share_tree::Held;
use stage_graph::{Edit, Edits, Name};
use std::alloc::{AllocError, Global};
use version_store::{StateRepresentation, Version};

/// Two stages, of which the second adds 1 to what the first gives.
pub(crate) const TWO_STAGES: &str = r#"{"stages":[{"name":"a","op":"async","takes":10,"action":4},
    {"name":"b","op":"thenApply","sources":["a"],"takes":5,"action":["add",["arg",0],1]}]}"#;

/// One stage.
pub(crate) const ONE_STAGE: &str = r#"{"stages":[{"name":"a","op":"completed","value":1}]}"#;

/// Stages that wait for one another in most ways.
pub(crate) const MANY_STAGES: &str = r#"{"stages":[{"name":"s0","op":"async","takes":3,"action":1},
    {"name":"s1","op":"async","takes":5,"action":["throw","X"]},
    {"name":"s2","op":"manual"},
    {"name":"s3","op":"thenApply","sources":["s0"],"takes":2,"action":["add",["arg",0],1]},
    {"name":"s4","op":"handle","sources":["s1"],"takes":1,"action":["failed"]},
    {"name":"s5","op":"thenCombine","sources":["s3","s4"],"takes":1,"action":["add",["arg",0],["arg",1]]},
    {"name":"s6","op":"applyToEither","sources":["s1","s3"],"takes":1,"action":["arg",0]},
    {"name":"s7","op":"thenCompose","sources":["s4"],"inner":["s3","s5"],"action":["arg",0]}]}"#;

/// Version 0 of a recording. One that is refused is answered as out of memory.
pub(crate) fn opened<K: StateRepresentation>(
    alloc: Global,
    recording: &str,
) -> Result<Version<K>, AllocError>
    ensures { IfOk result (λ version. version ≡ opening_version version.graph) }
{
    match read_recording::<K>(alloc, recording.as_bytes()) {
        Ok(graph) => Version::load(alloc, graph),
        Err(_) => Err(AllocError),
    }
}

/// The edit that sets how long a stage runs.
pub(crate) fn set_times(alloc: Global, stage: &str, runs: u64) -> Result<Held<Edits>, AllocError> {
    let edit = Edit::SetTimes {
        name: Name::new(alloc, stage)?,
        queued: 0,
        runs,
    };
    Held::new(alloc, Edits::one(alloc, edit)?)
}
