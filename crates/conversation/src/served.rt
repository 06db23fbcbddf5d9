//! The versions, and the session to which lines are said, as the server of scripts holds them.
ghost use Rattle.std.specs.Prelude.{◌≡◌};
ghost use Rattle.stage_graph.specs.Walk.{IsRanked};

use console::{Fault, flushed};
use level_pool::Runner;
use recording::Step;
use report_form::Form;
use serve_script::{AnswerFault, Server};
use session_core::{Event, Reply};
use stage_graph::Graph;
use std::alloc::{AllocError, Global};
use step_words::SESSION;
use text_io::Sink;
use version_store::{StateRepresentation, Version};

/// The versions, and the session to which lines are said.
#[derive(Drop)]
pub(crate) struct Served<'a, K: StateRepresentation, W> {
    server: Server<'a, K, W>,
}

/// The end of what a step was answered.
fn answered(end: Result<(), AnswerFault>) -> Result<(), Fault> {
    match end {
        Ok(()) => Ok(()),
        Err(AnswerFault::Write) => Err(Fault::Write(None)),
        Err(AnswerFault::Memory) => Err(Fault::Memory),
    }
}

impl<'a, K: StateRepresentation, W: Runner> Served<'a, K, W> {
    /// The graph as version 0, and no session.
    pub(crate) fn new(
        alloc: Global,
        graph: Graph<K>,
        runner: &'a W,
    ) -> Result<Served<'a, K, W>, AllocError>
        requires { IsRanked graph.places }
    {
        Ok(Served {
            server: Server::new(alloc, graph, runner)?,
        })
    }

    /// The number of the version at which the session stands, if it is open.
    pub(crate) fn standing(&mut self) -> Result<Option<u32>, AllocError> {
        match self.server.take(&Event::Head { session: SESSION })? {
            Reply::At(number) => Ok(Some(number)),
            _ => Ok(None),
        }
    }

    /// The version of a number, if there is one.
    pub(crate) fn version(&self, number: u32) -> Option<&Version<K>> {
        match self.server.table().version(number) {
            Ok(version) => Some(version),
            Err(_) => None,
        }
    }

    /// The version that was made last.
    pub(crate) fn last(&self) -> &Version<K> {
        self.server.table().last()
    }

    /// The version of a number, or where there is none the last one.
    pub(crate) fn version_or_last(&self, number: u32) -> &Version<K> {
        match self.version(number) {
            Some(version) => version,
            None => self.last(),
        }
    }

    /// Answers a step, as the server of scripts does.
    pub(crate) fn answer<S: Sink>(&mut self, step: Step, sink: &mut S) -> Result<(), Fault>
        requires { S.failures sink.old ≡ 0 }
    {
        let end = self.server.answer_step(step, Form::Text, sink);
        flushed(sink, answered(end))
    }
}
