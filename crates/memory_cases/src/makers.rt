//! What is made of texts: graphs, versions, steps and lists of edits.
use crate::refusals::Window;
use crate::scene::Scene;
use crate::sources::graph_of;
use crate::texts::{push_edits, push_graph, push_made, push_version};
use crate::told::Told;
use crate::turn::{Turn, shown};
use act_expr::Mode;
use anyhow::Result;
use recording::{Fault as ReadingFault, Step, read_recording, read_step};
use stage_graph::{Edit, Edits, Ends, Graph, ListSize, Name, NameList, Op, Spec, Specs};
use std::alloc::{AllocError, Global};
use std::marker::PhantomData;
use version_store::{StateRepresentation, Version};

/// What is made, and of what.
#[derive(Drop)]
struct Making<'a, R> {
    scene: Scene<'a>,
    specs: Specs,
    of: PhantomData<R>,
}

/// So many edits.
fn edits(alloc: Global, count: u32) -> Result<Vec<Edit>, AllocError> {
    let mut items = Vec::new(alloc);
    for _turn in 0..count {
        items.push(Edit::Remove(Name::new(alloc, "a")?))?;
    }
    Ok(items)
}

/// A stage of a name that waits for another one, or for none where that has no name.
fn stage(alloc: Global, name: &str, source: &str) -> Result<Spec, AllocError> {
    let mut sources = NameList::new(alloc);
    if !source.is_empty() {
        sources.push(Name::new(alloc, source)?)?;
    }
    Ok(Spec {
        name: Name::new(alloc, name)?,
        op: Op::AllOf,
        sources,
        inner: NameList::new(alloc),
        created: 0,
        queued: 0,
        runs: 1,
        action: None,
        pin_result: None,
        pin_moment: None,
        ends: Ends::new(alloc),
    })
}

/// The stages that a text names, each with the one that it waits for, if there is one: `a b<a c<b`.
fn stages(alloc: Global, text: &str) -> Result<Specs, AllocError> {
    let mut specs = Specs::new(alloc);
    for word in text.split(" ") {
        let (name, source) = word.split_once("<").unwrap_or((word, ""));
        specs.push(stage(alloc, name, source)?)?;
    }
    Ok(specs)
}

/// Tells why a text wasn't read, and whether it is that memory ran out.
fn push_unread(text: &mut Told, fault: &ReadingFault) -> bool {
    match fault {
        ReadingFault::Memory => return true,
        ReadingFault::Cycle(path) => text.push_numbers(path.as_slice()),
        _ => text.push_number(fault.number()),
    }
    false
}

/// Tells a graph that was read, or why it wasn't.
fn push_read<R: StateRepresentation>(
    alloc: Global,
    text: &mut Told,
    answer: &Result<Graph<R>, ReadingFault>,
) -> bool {
    match answer {
        Ok(graph) => push_graph(alloc, text, graph),
        Err(fault) => return push_unread(text, fault),
    }
    false
}

/// Tells a version, unless memory ran out.
fn push_given<R: StateRepresentation>(
    alloc: Global,
    text: &mut Told,
    answer: &Result<Version<R>, AllocError>,
) -> bool {
    match answer {
        Ok(version) => push_version(alloc, text, version),
        Err(_) => return true,
    }
    false
}

/// Tells a step, or why it wasn't read.
fn push_step(text: &mut Told, answer: &Result<Step, ReadingFault>) -> bool {
    match answer {
        Ok(Step::Open { session, version }) => text.push_numbers(&[*session, *version]),
        Ok(Step::Change { edits, .. }) => push_edits(text, edits),
        Ok(_) => text.push("another step"),
        Err(fault) => return push_unread(text, fault),
    }
    false
}

/// Tells a list of edits, or that there is none.
fn push_list(text: &mut Told, answer: &Result<Edits, ListSize>) {
    match answer {
        Ok(edits) => push_edits(text, edits),
        Err(_) => text.push("refused 21 ListSize"),
    }
}

impl<R: StateRepresentation> Making<'_, R> {
    /// The graph that the recording names.
    fn push_read(&self, window: &mut Window, text: &mut Told) -> bool {
        let alloc = window.alloc;
        window.begin();
        let graph: Result<Graph<R>, _> = read_recording(alloc, self.scene.recording().as_bytes());
        window.end();
        push_read(alloc, text, &graph)
    }

    /// Version 0 of the recording.
    fn push_opened(&self, window: &mut Window, text: &mut Told) -> bool {
        let alloc = window.alloc;
        let Ok(graph) = graph_of::<R>(alloc, self.scene.recording()) else {
            return text.lose();
        };
        window.begin();
        let version = Version::load(alloc, graph);
        window.end();
        push_given(alloc, text, &version)
    }

    /// The graph of the stages.
    fn push_loaded(&self, window: &mut Window, text: &mut Told) -> bool {
        let alloc = window.alloc;
        window.begin();
        let graph: Result<Graph<R>, _> = Graph::load(alloc, Mode::Computed, &self.specs);
        window.end();
        push_made(alloc, text, &graph)
    }

    /// The step.
    fn push_step(&self, window: &mut Window, text: &mut Told) -> bool {
        window.begin();
        let step = read_step(window.alloc, self.scene.step().as_bytes());
        window.end();
        push_step(text, &step)
    }

    /// A list of so many edits.
    fn push_edits(&self, window: &mut Window, text: &mut Told) -> bool {
        let Ok(items) = edits(window.alloc, self.scene.number) else {
            return text.lose();
        };
        window.begin();
        let list = Edits::new(items);
        window.end();
        push_list(text, &list);
        false
    }

    /// The call.
    fn push_answer(&self, window: &mut Window, text: &mut Told) -> bool {
        match self.scene.call {
            "read" => self.push_read(window, text),
            "open" => self.push_opened(window, text),
            "step" => self.push_step(window, text),
            "edits" => self.push_edits(window, text),
            _ => self.push_loaded(window, text),
        }
    }

    fn show(&self, window: &mut Window, turn: &mut Turn) {
        shown!(
            turn,
            window,
            |text| text.push(""),
            |window, text| self.push_answer(window, text)
        )
    }
}

/// What is made, of nothing that could change.
pub(crate) fn show<R: StateRepresentation>(
    window: &mut Window,
    scene: Scene<'_>,
    turn: &mut Turn,
) -> Result<()> {
    let making = Making::<R> {
        scene,
        specs: stages(window.alloc, scene.stages())?,
        of: PhantomData,
    };
    making.show(window, turn);
    Ok(())
}
