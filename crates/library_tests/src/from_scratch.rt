//! Random lists of edits: each query of a drafted version answers as on the same graph evaluated from scratch.
ghost use Rattle.stage_graph.specs.Walk.{IsRanked};

use crate::replies::agree;
use crate::versions::{edited, held_edits, opened};
use level_pool::OneThread;
use share_tree::Held;
use stage_graph::{Edits, Fault, Graph};
use std::alloc::{AllocError, Global};
use std::process::Abort;
use std::test::Fail;
use std::thread::Threads;
use version_store::{Before, StateRepresentation, Version};

/// Numbers that look random, and are the same at each run.
#[derive(Drop)]
struct Numbers {
    state: u64,
}

impl Numbers {
    /// A number below a bound, which is not 0.
    fn below(&mut self, bound: u64) -> u64 {
        self.state = self
            .state
            .wrapping_mul(6_364_136_223_846_793_005)
            .wrapping_add(1_442_695_040_888_963_407);
        (self.state >> 33) % bound.max(1)
    }
}

/// Every way to depend on others, in ten stages.
const STAGES: &str = r#"{"stages":[{"name":"s0","op":"async","takes":3,"action":1},
    {"name":"s1","op":"async","takes":5,"action":["throw","X"]},
    {"name":"s2","op":"manual"},
    {"name":"s3","op":"thenApply","sources":["s0"],"takes":2,"action":["add",["arg",0],1]},
    {"name":"s4","op":"handle","sources":["s1"],"takes":1,"action":["failed"]},
    {"name":"s5","op":"thenCombine","sources":["s3","s4"],"takes":1,"action":["add",["arg",0],["arg",1]]},
    {"name":"s6","op":"applyToEither","sources":["s1","s3"],"takes":1,"action":["arg",0]},
    {"name":"s7","op":"thenCompose","sources":["s4"],"inner":["s3","s5"],"action":["arg",0]},
    {"name":"s8","op":"allOf","sources":["s5","s7"]},
    {"name":"s9","op":"whenComplete","sources":["s8"],"takes":4,"action":0}]}"#;

/// The name of a stage of the recording, or of one that an earlier turn may have added; some stand nowhere.
fn name(alloc: Global, numbers: &mut Numbers, turn: usize) -> Result<String, AllocError> {
    let number = numbers.below(14);
    if number < 10 {
        format!(in alloc; "s{number}")
    } else {
        let before = (turn as u64).saturating_sub(number - 10);
        format!(in alloc; "t{before}")
    }
}

/// The names of one source or of two.
fn sources(alloc: Global, numbers: &mut Numbers, turn: usize) -> Result<String, AllocError> {
    let first = name(alloc, numbers, turn)?;
    if numbers.below(2) != 0 {
        return format!(in alloc; "\"{first}\"");
    }
    let second = name(alloc, numbers, turn)?;
    format!(in alloc; "\"{first}\",\"{second}\"")
}

/// An edit that rewires a stage, without its session.
fn rewire(alloc: Global, numbers: &mut Numbers, turn: usize) -> Result<String, AllocError> {
    let stage = name(alloc, numbers, turn)?;
    let sources = sources(alloc, numbers, turn)?;
    format!(in alloc;
        "{{\"do\":\"rewire\",\"stage\":\"{stage}\",\"sources\":[{sources}],\"inner\":[]}}"
    )
}

/// What an edit says of a stage.
fn saying(alloc: Global, numbers: &mut Numbers) -> Result<String, AllocError> {
    let ticks = numbers.below(9);
    match numbers.below(6) {
        0 => format!(in alloc; "\"do\":\"setTimes\",\"queued\":2,\"runs\":{ticks}"),
        1 => format!(in alloc; "\"do\":\"setAction\",\"action\":{ticks}"),
        2 => format!(in alloc; "\"do\":\"pinMoment\",\"at\":{ticks}"),
        3 => format!(in alloc;
            "\"do\":\"setEnds\",\"ends\":[{{\"at\":{ticks},\"do\":\"cancel\"}}]"
        ),
        4 => String::from_str(alloc, r#""do":"pinResult","result":{"bare":"Y"}"#),
        _ => String::from_str(alloc, r#""do":"pinResult","result":null"#),
    }
}

/// An edit that says something else of a stage, without its session.
fn change(alloc: Global, numbers: &mut Numbers, turn: usize) -> Result<String, AllocError> {
    let stage = name(alloc, numbers, turn)?;
    let saying = saying(alloc, numbers)?;
    format!(in alloc; "{{{saying},\"stage\":\"{stage}\"}}")
}

/// An edit of any kind, without its session.
fn edit(alloc: Global, numbers: &mut Numbers, turn: usize) -> Result<String, AllocError> {
    let stage = name(alloc, numbers, turn)?;
    match numbers.below(9) {
        0 => format!(in alloc; "{{\"do\":\"remove\",\"stage\":\"{stage}\"}}"),
        1 => format!(in alloc;
            "{{\"do\":\"add\",\"new\":{{\"name\":\"t{turn}\",\"op\":\"thenApply\",\"sources\":[\"{stage}\"],\"action\":0}}}}"
        ),
        2 | 3 | 4 => rewire(alloc, numbers, turn),
        _ => change(alloc, numbers, turn),
    }
}

/// A step of one to three edits.
fn step(alloc: Global, numbers: &mut Numbers, turn: usize) -> Result<String, AllocError> {
    let mut edits = edit(alloc, numbers, turn)?;
    for _more in 0..numbers.below(3) {
        edits.push_str(",")?;
        edits.push_str(edit(alloc, numbers, turn)?.as_str())?;
    }
    format!(in alloc; "{{\"do\":\"edits\",\"session\":1,\"edits\":[{edits}]}}")
}

/// Whether both versions tell the same of what stands at a place.
fn is_same_at<R: StateRepresentation>(
    drafted: &Version<R>,
    loaded: &Version<R>,
    place: u32,
) -> bool {
    drafted.state(place) == loaded.state(place)
        && drafted.start(place) == loaded.start(place)
        && drafted.rank(place) == loaded.rank(place)
        && drafted.join(place) == loaded.join(place)
        && drafted.dependents(place) == loaded.dependents(place)
}

/// What stands at a place of a version, as a version made of it tells it.
fn before_of<R: StateRepresentation>(parent: &Version<R>, place: u32) -> Before {
    match (parent.outcome(place), parent.moment(place)) {
        (Ok(Some(outcome)), Ok(Some(moment))) => Before::Done(outcome, moment),
        (Ok(_), _) => Before::Pending,
        (Err(_), _) => Before::Absent,
    }
}

/// Whether a version tells what its parent's stage was, and has touched it if it came to something else.
fn tells_changes<R: StateRepresentation>(
    parent: &Version<R>,
    drafted: &Version<R>,
    place: u32,
) -> bool {
    let before = before_of(parent, place);
    drafted.before(place) == Ok(before)
        && (before_of(drafted, place) == before || drafted.touched().contains(&place))
}

/// Whether both versions blame the same stages for what a stage came to.
fn is_same_blame<R: StateRepresentation>(
    alloc: Global,
    drafted: &Version<R>,
    loaded: &Version<R>,
    place: u32,
) -> Result<bool, Fail> {
    let one = drafted.blame(alloc, place)?;
    let other = loaded.blame(alloc, place)?;
    Ok(one.as_slice() == other.as_slice())
}

/// A version answers each query as its graph does from scratch.
fn same_answers<R: StateRepresentation>(
    rt: &impl Abort,
    alloc: Global,
    parent: &Version<R>,
    drafted: &Version<R>,
    loaded: &Version<R>,
) -> Result<(), Fail> {
    assert!(rt; drafted.graph().same(loaded.graph()));
    for place in 0..drafted.graph().len() as u32 {
        assert!(rt; is_same_at(drafted, loaded, place));
        if drafted.rank(place).is_ok() {
            assert!(rt; is_same_blame(alloc, drafted, loaded, place)?);
            assert!(rt; tells_changes(parent, drafted, place));
        }
    }
    Ok(())
}

/// The version that edits make answers as the graph that they make does from scratch.
fn same_from_scratch<R: StateRepresentation>(
    rt: &impl Abort,
    alloc: Global,
    version: &Version<R>,
    edits: &Edits,
    drafted: &Version<R>,
) -> Result<(), Fail> {
    let graph = version.graph().apply(alloc, edits)?;
    let loaded = Version::load(alloc, graph)?;
    same_answers(rt, alloc, version, drafted, &loaded)
}

/// Whether both faults are the same, but for the cycle that is told.
fn is_same_fault(fault: &Fault, other: &Fault) -> bool {
    match (fault, other) {
        (Fault::Refused(refused), Fault::Refused(other)) => refused == other,
        _ => fault.number() == other.number(),
    }
}

/// Whether edits of a graph are refused by the same fault.
fn is_refused<R: StateRepresentation>(
    alloc: Global,
    graph: &Graph<R>,
    edits: &Edits,
    fault: &Fault,
) -> bool
    requires { IsRanked graph.now.places }
{
    match graph.apply(alloc, edits) {
        Ok(_) => false,
        Err(other) => is_same_fault(fault, &other),
    }
}

/// Whether edits are accepted; the version is then the one that they make, once it has been compared with its graph from
/// scratch. Where they are refused, they are by both ways alike.
fn is_accepted<R: StateRepresentation, H: Abort + Threads + Sync>(
    rt: &H,
    alloc: Global,
    version: &mut Version<R>,
    edits: &Held<Edits>,
) -> Result<bool, Fail> {
    match edited(alloc, &OneThread::new(rt), version, edits) {
        Ok(edited) => {
            same_from_scratch(rt, alloc, version, edits, &edited)?;
            agree(rt, alloc, &edited)?;
            *version = edited;
            Ok(true)
        }
        Err(fault) => {
            assert!(rt; is_refused(alloc, version.graph(), edits, &fault));
            Ok(false)
        }
    }
}

/// A random list of edits.
fn random_edits(alloc: Global, numbers: &mut Numbers, turn: usize) -> Result<Held<Edits>, Fail> {
    let step = step(alloc, numbers, turn)?;
    held_edits(alloc, step.as_str())
}

/// How many of so many random lists of edits are accepted, each on the version that the last accepted one made.
fn accepted<R: StateRepresentation, H: Abort + Threads + Sync>(
    rt: &H,
    alloc: Global,
    version: &mut Version<R>,
    lists: usize,
) -> Result<u32, Fail> {
    let mut numbers = Numbers { state: 7 };
    let mut accepted = 0u32;
    for turn in 0..lists {
        let edits = random_edits(alloc, &mut numbers, turn)?;
        if is_accepted(rt, alloc, version, &edits)? {
            accepted = accepted.saturating_add(1);
        }
    }
    Ok(accepted)
}

/// What holds of random lists of edits.
pub(crate) fn hold<R: StateRepresentation, H: Abort + Threads + Sync>(
    rt: &H,
    alloc: Global,
) -> Result<(), Fail> {
    let mut version: Version<R> = opened(alloc, STAGES)?;
    assert!(rt; accepted(rt, alloc, &mut version, 300)? > 50);
    Ok(())
}
