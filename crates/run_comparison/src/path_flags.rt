//! Which places are on the path of a stage.
ghost use Rattle.std.specs.Prelude.{length, IfOk};
ghost use Rattle.scratch_eval.specs.Path.{path};
ghost use Rattle.place_flags.specs.Flags.{AreFlags};

use place_flags::flags_of;
use propagate::StateRepresentation;
use std::alloc::{AllocError, Global};
use version_store::StageView;

/// For each place of a version whether it is on the path of a stage.
pub(crate) fn path_flags<R: StateRepresentation>(
    alloc: Global,
    view: &StageView<'_, R>,
) -> Result<Vec<bool>, AllocError>
    ensures { IfOk result (λ flags. AreFlags flags.items (length view.now.version.now.graph.places) (path view.now.version.now.graph view.now.place)) }
{
    let path = view.path(alloc)?;
    let count = view.version.graph().len();
    let flags = flags_of(alloc, count, path.as_slice())?;
    Ok(flags)
}
