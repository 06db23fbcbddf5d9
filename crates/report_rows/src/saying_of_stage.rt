//! What each report of one stage says.
ghost use Rattle.std.specs.Prelude.{◌≡◌, ◌↔◌, IfOk, None, Some};
ghost use Rattle.std.specs.Option.{option_map};
ghost use Rattle.stage_graph.specs.Plain.{stage_at};
ghost use Rattle.report_rows.specs.Said.{blame_said, change_said, one_said, path_said};

use crate::head::Head;
use crate::listing::Listing;
use crate::names::Names;
use crate::said::Said;
use crate::source::Source;
use crate::standing::KeptStanding;
use crate::text::Text;
use propagate::StateRepresentation;
use std::alloc::{AllocError, Global};
use version_store::{QueryFault, StageView, Version};

/// The stage, its feeds, its dependents and what `join` answers.
pub(crate) fn say_one<'a, R: StateRepresentation>(
    alloc: Global,
    version: &'a Version<R>,
    place: u32,
) -> Result<Said<'a, R>, QueryFault>
    ensures value { IfOk result (λ report. Some report ≡ option_map (one_said version.now place) (stage_at version.now.graph.places place)) }
    ensures no_stage { (result ≡ Err QueryFault.NoStage) ↔ (option_map (one_said version.now place) (stage_at version.now.graph.places place) ≡ None) }
{
    match version.stage(place) {
        Some(view) => Ok(say_one_of(alloc, &view)?),
        None => Err(QueryFault::NoStage),
    }
}

fn say_one_of<'a, R: StateRepresentation>(
    alloc: Global,
    view: &StageView<'a, R>,
) -> Result<Said<'a, R>, AllocError>
    ensures { IfOk result (λ said. said ≡ one_said view.now.version.now view.now.place view.now.stage.now) }
{
    let version = view.version;
    let stage = view.stage;
    let sources = Names::at(alloc, version.graph(), stage.sources.as_slice())?;
    let inner = Names::at(alloc, version.graph(), stage.inner.as_slice())?;
    let dependents = Names::at(alloc, version.graph(), view.dependents())?;
    Ok(Said {
        head: Head::One {
            version: version.number(),
            name: Text::new(stage.name.as_str()),
            op: stage.op,
            rank: view.rank(),
            standing: KeptStanding::of(view),
            sources,
            inner,
            dependents,
            join: view.join(),
        },
        source: Source::none(alloc, version),
    })
}

/// How the stage came by its exception.
pub(crate) fn say_blame<'a, R: StateRepresentation>(
    alloc: Global,
    version: &'a Version<R>,
    place: u32,
) -> Result<Said<'a, R>, QueryFault>
    ensures value { IfOk result (λ report. Some report ≡ option_map (blame_said version.now place) (stage_at version.now.graph.places place)) }
    ensures no_stage { (result ≡ Err QueryFault.NoStage) ↔ (option_map (blame_said version.now place) (stage_at version.now.graph.places place) ≡ None) }
{
    match version.stage(place) {
        Some(view) => Ok(say_blame_of(alloc, &view)?),
        None => Err(QueryFault::NoStage),
    }
}

fn say_blame_of<'a, R: StateRepresentation>(
    alloc: Global,
    view: &StageView<'a, R>,
) -> Result<Said<'a, R>, AllocError>
    ensures { IfOk result (λ said. said ≡ blame_said view.now.version.now view.now.place view.now.stage.now) }
{
    let version = view.version;
    let chain = view.blame(alloc)?;
    let names = Names::at(alloc, version.graph(), chain.as_slice())?;
    Ok(Said {
        head: Head::Blame {
            version: version.number(),
            name: Text::new(view.stage.name.as_str()),
            chain: names,
        },
        source: Source::none(alloc, version),
    })
}

/// Why the stage completed when it did, or why it is pending.
pub(crate) fn say_path<'a, R: StateRepresentation>(
    alloc: Global,
    version: &'a Version<R>,
    place: u32,
) -> Result<Said<'a, R>, QueryFault>
    ensures value { IfOk result (λ report. Some report ≡ option_map (path_said version.now place) (stage_at version.now.graph.places place)) }
    ensures no_stage { (result ≡ Err QueryFault.NoStage) ↔ (option_map (path_said version.now place) (stage_at version.now.graph.places place) ≡ None) }
{
    match version.stage(place) {
        Some(view) => Ok(say_path_of(alloc, &view)?),
        None => Err(QueryFault::NoStage),
    }
}

fn say_path_of<'a, R: StateRepresentation>(
    alloc: Global,
    view: &StageView<'a, R>,
) -> Result<Said<'a, R>, AllocError>
    ensures { IfOk result (λ said. said ≡ path_said view.now.version.now view.now.place view.now.stage.now) }
{
    let version = view.version;
    let path = view.path(alloc)?;
    let places = Vec::from_slice(alloc, path.as_slice())?;
    Ok(Said {
        head: Head::Path {
            version: version.number(),
            name: Text::new(view.stage.name.as_str()),
            moment: view.moment(),
        },
        source: Source::of_stages(Listing::Steps, version, version, places),
    })
}

/// What the stage was in the parent, and what it is here.
pub(crate) fn say_change<'a, R: StateRepresentation>(
    alloc: Global,
    version: &'a Version<R>,
    place: u32,
) -> Result<Said<'a, R>, QueryFault>
    ensures value { IfOk result (λ report. Some report ≡ option_map (change_said version.now place) (stage_at version.now.graph.places place)) }
    ensures no_stage { (result ≡ Err QueryFault.NoStage) ↔ (option_map (change_said version.now place) (stage_at version.now.graph.places place) ≡ None) }
{
    match version.stage(place) {
        Some(view) => Ok(say_change_of(alloc, &view)),
        None => Err(QueryFault::NoStage),
    }
}

fn say_change_of<'a, R: StateRepresentation>(alloc: Global, view: &StageView<'a, R>) -> Said<'a, R>
    ensures { result ≡ change_said view.now.version.now view.now.place view.now.stage.now }
{
    Said {
        head: Head::Change {
            version: view.version.number(),
            name: Text::new(view.stage.name.as_str()),
            old: KeptStanding::before(view),
            new: KeptStanding::of(view),
        },
        source: Source::none(alloc, view.version),
    }
}
