//! Lines of words: what they say to a session.
use change_words::MakingFault;
use recording::{Asked, Step, Subject, read_recording};
use stage_graph::{Edit, Graph, Representation};
use std::alloc::{AllocError, Global};
use std::process::Abort;
use std::test::Fail;
use step_words::{Mistake, Spoken, spoken_of};

/// Stages of which two begin alike, and one with the whole name of another.
const NAMES: &str = r#"{"stages":[{"name":"stock","op":"async","takes":20,"action":1},
    {"name":"stock-south","op":"thenApply","sources":["stock"],"takes":4,"action":["arg",0]},
    {"name":"reply","op":"thenApply","sources":["stock-south"],"takes":1,"action":["arg",0]}]}"#;

/// What a report is of.
fn subject_told(alloc: Global, subject: Subject) -> Result<String, AllocError> {
    match subject {
        Subject::Version(version) => format!(in alloc; "version {version}"),
        Subject::Head(session) => format!(in alloc; "head {session}"),
    }
}

/// A report that is asked for.
fn asked_told(alloc: Global, asked: &Asked) -> Result<String, AllocError> {
    match asked {
        Asked::All => format!(in alloc; "all"),
        Asked::One(name) => {
            let name = name.as_str();
            format!(in alloc; "one {name}")
        }
        Asked::Blame(name) => {
            let name = name.as_str();
            format!(in alloc; "blame {name}")
        }
        Asked::Path(name) => {
            let name = name.as_str();
            format!(in alloc; "path {name}")
        }
        Asked::Sweep(name) => {
            let name = name.as_str();
            format!(in alloc; "sweep {name}")
        }
        Asked::Changes(against) => format!(in alloc; "changes {against:?}"),
        Asked::Drift(against) => format!(in alloc; "drift {against:?}"),
        Asked::Times => format!(in alloc; "times"),
        Asked::Recording => format!(in alloc; "recording"),
    }
}

/// An edit, of those that the words of these tests make.
fn edit_told(alloc: Global, edit: &Edit) -> Result<String, AllocError> {
    match edit {
        Edit::PinResult { name, result } => {
            let name = name.as_str();
            format!(in alloc; " pin {name} {result:?}")
        }
        Edit::SetTimes { name, queued, runs } => {
            let name = name.as_str();
            format!(in alloc; " times {name} {queued} {runs}")
        }
        _ => format!(in alloc; " another edit"),
    }
}

/// Edits, one after the other.
fn edits_told(alloc: Global, edits: &[Edit]) -> Result<String, AllocError> {
    let mut text = String::new(alloc);
    for edit in edits {
        text.push_str(edit_told(alloc, edit)?.as_str())?;
    }
    Ok(text)
}

/// A step.
fn step_told(alloc: Global, step: &Step) -> Result<String, AllocError> {
    match step {
        Step::Open { session, version } => format!(in alloc; "open {session} {version};"),
        Step::Head { session } => format!(in alloc; "head {session};"),
        Step::Undo { session } => format!(in alloc; "undo {session};"),
        Step::Close { session } => format!(in alloc; "close {session};"),
        Step::Change {
            session,
            base,
            edits,
            listed,
        } => {
            let edits = edits_told(alloc, edits.as_slice())?;
            format!(in alloc; "change {session} {base:?} {listed}{edits};")
        }
        Step::Report { subject, asked } => {
            let subject = subject_told(alloc, *subject)?;
            let asked = asked_told(alloc, asked)?;
            format!(in alloc; "{subject} {asked};")
        }
    }
}

/// Steps, one after the other.
fn steps_told(alloc: Global, steps: &[Step]) -> Result<String, AllocError> {
    let mut text = String::new(alloc);
    for step in steps {
        text.push_str(step_told(alloc, step)?.as_str())?;
    }
    Ok(text)
}

/// What is said.
fn spoken_told(alloc: Global, spoken: Spoken) -> Result<String, AllocError> {
    match spoken {
        Spoken::Nothing => format!(in alloc; "nothing"),
        Spoken::Steps(steps) => steps_told(alloc, steps.into_items().as_slice()),
        Spoken::Trial(change) => {
            let name = change.name.as_str();
            format!(in alloc; "try {name}")
        }
        Spoken::Ends => format!(in alloc; "ends"),
        Spoken::Failures => format!(in alloc; "failures"),
        Spoken::Versions => format!(in alloc; "versions"),
        Spoken::Save => format!(in alloc; "save"),
        Spoken::Help(command) => format!(in alloc; "help {command:?}"),
        Spoken::Quit => format!(in alloc; "quit"),
    }
}

/// Why a line says nothing.
fn mistake_told(alloc: Global, mistake: Mistake) -> Result<String, AllocError> {
    match mistake {
        Mistake::NoCommand => format!(in alloc; "no command"),
        Mistake::Missing => format!(in alloc; "missing"),
        Mistake::TooMany => format!(in alloc; "too many"),
        Mistake::NoStage => format!(in alloc; "no stage"),
        Mistake::SeveralStages => format!(in alloc; "several stages"),
        Mistake::NoNumber => format!(in alloc; "no number"),
        Mistake::NoChange => format!(in alloc; "no change"),
        Mistake::NotMade(MakingFault::Memory) => Err(AllocError),
        Mistake::NotMade(fault) => format!(in alloc; "{fault}"),
        Mistake::NoStep(fault) => format!(in alloc; "{fault}"),
        Mistake::Memory => Err(AllocError),
    }
}

/// What a line says of a graph.
fn told<R: Representation>(
    alloc: Global,
    graph: &Graph<R>,
    line: &str,
) -> Result<String, AllocError> {
    match spoken_of(alloc, graph, line) {
        Ok(spoken) => spoken_told(alloc, spoken),
        Err(mistake) => mistake_told(alloc, mistake),
    }
}

/// Each line says what stands beside it.
fn all_said<R: Representation>(
    rt: &impl Abort,
    alloc: Global,
    rows: &[(&str, &str)],
) -> Result<(), Fail> {
    let graph = read_recording::<R>(alloc, NAMES.as_bytes())?;
    for (line, wanted) in rows {
        let found = told(alloc, &graph, line)?;
        assert!(rt; found.as_str() == *wanted);
    }
    Ok(())
}

/// Lines that say steps.
fn steps_said<R: Representation>(rt: &impl Abort, alloc: Global) -> Result<(), Fail> {
    let rows = [
        ("why reply", "head 1 path reply;"),
        ("  blame r \t", "head 1 blame reply;"),
        ("sweep stock", "head 1 sweep stock;"),
        ("stages", "head 1 all;"),
        ("stages stock", "head 1 one stock;head 1 one stock-south;"),
        ("drift", "head 1 drift None;"),
        (
            "diff 0 12",
            "version 12 changes Some(0);version 12 drift Some(0);",
        ),
        ("set stock runs=50%", "change 1 None true times stock 0 10;"),
        (
            "pin stock-  gives=7",
            "change 1 None true pin stock-south Some(Value(Num(7)));",
        ),
        ("undo", "undo 1;"),
        (r#"{"do":"close","session":3}"#, "close 3;"),
    ];
    all_said::<R>(rt, alloc, &rows)
}

/// Lines that say none.
fn others_said<R: Representation>(rt: &impl Abort, alloc: Global) -> Result<(), Fail> {
    let rows = [
        ("", "nothing"),
        ("try rep gives=1", "try reply"),
        ("help set", "help Some(Set)"),
        ("help", "help None"),
        ("save", "save"),
        ("quit", "quit"),
        ("Why reply", "no command"),
        ("why", "missing"),
        ("undo 1", "too many"),
        ("why repli", "no stage"),
        ("why sto", "several stages"),
        ("diff 0 4294967296", "no number"),
        ("diff 0", "no number"),
        ("set stock", "no change"),
        ("set stock runs=1099511627777", "refused 15 Limit in 0"),
        ("set stock limit=3", "refused 22 NotOneTimeout in 0"),
        ("{", "refused 70 JSON"),
    ];
    all_said::<R>(rt, alloc, &rows)
}

/// What holds of lines of words.
pub(crate) fn hold<R: Representation, H: Abort>(rt: &H, alloc: Global) -> Result<(), Fail> {
    steps_said::<R>(rt, alloc)?;
    others_said::<R>(rt, alloc)
}
