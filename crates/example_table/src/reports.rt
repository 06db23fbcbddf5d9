//! Reports of the last version of an example.
use crate::scene::Scene;
use anyhow::Result;
use level_pool::Runner;
use report_rows::{Comparison, Ending, SweepAsked, What};
use report_text::{compare, report, report_sweep};
use std::alloc::Global;
use text_io::CountedWriter;
use time_sweep::{Haste, Part};
use version_store::{NoStage, StateRepresentation, Version};

/// What is asked of a version by its words.
#[derive(Clone, Copy)]
enum Asked {
    Report(What),
    Sweep(u32, SweepAsked),
    Against(Comparison),
    Nothing,
}

/// Trials of actions that are not queued and run as long as they do.
const QUEUES: SweepAsked = SweepAsked {
    haste: Haste {
        part: Part::Queue,
        percent: 0,
    },
    ending: Ending::Any,
    most: None,
};

/// The first two trials of half the times that end with a value.
const HALVES: SweepAsked = SweepAsked {
    haste: Haste {
        part: Part::Both,
        percent: 50,
    },
    ending: Ending::Value,
    most: Some(2),
};

/// What words with a stage ask.
fn asked_of_stage<R: StateRepresentation>(
    version: &Version<R>,
    word: &str,
    stage: &str,
) -> Result<Asked, NoStage> {
    let place = version.id_of(stage)?;
    Ok(match word {
        "one" => Asked::Report(What::One(place)),
        "blame" => Asked::Report(What::Blame(place)),
        "path" => Asked::Report(What::Path(place)),
        "sweep" => Asked::Sweep(place, SweepAsked::PLAIN),
        "queues" => Asked::Sweep(place, QUEUES),
        "halves" => Asked::Sweep(place, HALVES),
        _ => Asked::Nothing,
    })
}

/// What words ask.
fn asked_by<R: StateRepresentation>(version: &Version<R>, words: &str) -> Result<Asked, NoStage> {
    match words {
        "all" => Ok(Asked::Report(What::All)),
        "changes" => Ok(Asked::Report(What::Changes)),
        "drift" => Ok(Asked::Report(What::Drift)),
        "times" => Ok(Asked::Report(What::Times)),
        "changes against" => Ok(Asked::Against(Comparison::Changes)),
        "drift against" => Ok(Asked::Against(Comparison::Drift)),
        _ => match words.split_once(" ") {
            Some((word, stage)) => asked_of_stage(version, word, stage),
            None => Ok(Asked::Nothing),
        },
    }
}

/// The bytes of a report.
fn reported<R: StateRepresentation>(
    alloc: Global,
    version: &Version<R>,
    what: What,
) -> Result<Vec<u8>> {
    let mut sink = CountedWriter::new(Vec::new(alloc));
    report(alloc, version, what, &mut sink)?;
    Ok(sink.into_inner())
}

/// The bytes of a sweep.
fn swept<R: StateRepresentation, W: Runner>(
    alloc: Global,
    runner: &W,
    version: &Version<R>,
    place: u32,
    asked: SweepAsked,
) -> Result<Vec<u8>> {
    let mut sink = CountedWriter::new(Vec::new(alloc));
    report_sweep(alloc, version, place, asked, runner, &mut sink)?;
    Ok(sink.into_inner())
}

/// The bytes of a comparison with the recording.
fn compared<R: StateRepresentation>(
    alloc: Global,
    scene: &Scene<R>,
    comparison: Comparison,
) -> Result<Vec<u8>> {
    let mut sink = CountedWriter::new(Vec::new(alloc));
    compare(alloc, &scene.last, &scene.first, comparison, &mut sink)?;
    Ok(sink.into_inner())
}

/// Tells a report, or that no stage has the name.
pub(crate) fn push_report<R: StateRepresentation, W: Runner>(
    alloc: Global,
    runner: &W,
    scene: &Scene<R>,
    words: &str,
    text: &mut String,
) -> Result<()> {
    let Ok(asked) = asked_by(&scene.last, words) else {
        text.push_str("refused 10 NoStage\n")?;
        return Ok(());
    };
    let bytes = match asked {
        Asked::Report(what) => reported(alloc, &scene.last, what)?,
        Asked::Sweep(place, asked) => swept(alloc, runner, &scene.last, place, asked)?,
        Asked::Against(comparison) => compared(alloc, scene, comparison)?,
        Asked::Nothing => Vec::new(alloc),
    };
    text.push_str(String::from_utf8(bytes)?.as_str())?;
    Ok(())
}
