//! How a stage completes in a version as it is.
ghost use Rattle.std.specs.Prelude.{◌≡◌};
ghost use Rattle.time_sweep.specs.Sweep.{completion_of};

use propagate::StateRepresentation;
use stage_ops::Done;
use version_store::{NoStage, Version};

/// How the stage at a place completes in the version; none while it is pending, and where no stage stands there.
pub fn completion_of<R: StateRepresentation>(version: &Version<R>, place: u32) -> Option<Done>
    ensures { result ≡ completion_of version.now.graph place }
{
    match version.state(place) {
        Ok(state) => state.done,
        Err(NoStage) => None,
    }
}
