//! Answers the lines of a script.
ghost use Rattle.std.specs.Prelude.{◌≡◌, ◌+◌, ◌-◌, ◌^◌, ◌<◌, Some, Err, Result, IfOk, OnOk, OnErr};
ghost use Rattle.std.specs.Io.KnownBytes.{Appends};
ghost use Rattle.text_io.specs.Sink.{AppendsPrefix};
ghost use Rattle.script_lines.specs.Seen.{seen};
ghost use Rattle.stage_graph.specs.Walk.{IsRanked};
ghost use Rattle.serve_script.specs.Faults.{failed_writes};
ghost use Rattle.recording.specs.Reads.{IsRead};
ghost use Rattle.recording.specs.StepOf.{step_of};
ghost use Rattle.recording.specs.declared.fault.Fault.{Fault};
ghost use Rattle.recording.specs.declared.step.Step.{Step};
ghost use Rattle.session_core.specs.Machine.{step};
ghost use Rattle.serve_script.specs.Answers.{IsAnswered, answer_change, answer_event, answer_head, answer_named, answer_report, answer_stand, answer_line, answer_step, last_version, opening_state};
ghost use Rattle.serve_script.specs.Told.{reply_told};
ghost use Rattle.serve_script.specs.Replies.{base_in};

use crate::asking::answer_report;
use crate::fault::AnswerFault;
use crate::reply::base_of;
use crate::telling::{tell_fault, tell_reply};
use level_pool::Runner;
use recording::{Asked, Fault, Step, StepReader, Subject};
use report_form::Form;
use script_lines::Line;
use session_core::{Event, Reply, Table};
use share_tree::{Again, Held};
use stage_graph::{Edits, Graph};
use std::alloc::{AllocError, Global};
use std::marker::Model;
use text_io::Sink;
use version_store::{StateRepresentation, Version};

/// The most versions that a table may have.
const MOST_VERSIONS: u32 = 65_536;

/// Versions and sessions, and the replies to lines about them. Contracts see the state of the versions and sessions.
#[derive(Drop)]
pub struct Server<'a, R: StateRepresentation, W> {
    alloc: Global,
    runner: &'a W,
    table: Table<R>,
    steps: StepReader,
}

impl<'a, R: StateRepresentation, W> Model for Server<'a, R, W> {
    ghost use Rattle.std.specs.Coded.{codes};
    ghost use Rattle.act_expr.specs.ExpressionCode.{coded_expression};
    ghost use Rattle.session_core.specs.Machine.{State};

    ghost Value = { State };

    ghost coded = { Prim.hlevel (codes, coded_expression) };

    ghost view = { λ server. server.table.state };
}

impl<'a, R: StateRepresentation, W: Runner> Server<'a, R, W> {
    /// A server with the graph as version 0, and no session.
    pub fn new(
        alloc: Global,
        graph: Graph<R>,
        runner: &'a W,
    ) -> Result<Server<'a, R, W>, AllocError>
        requires { IsRanked graph.places }
        ensures { IfOk result (λ server. server ≡ opening_state graph) }
    {
        let version = Version::load(alloc, graph)?;
        Ok(Server {
            alloc,
            runner,
            table: Table::new(alloc, version, MOST_VERSIONS)?,
            steps: StepReader::new(alloc),
        })
    }

    /// The reply to an event.
    pub fn take(&mut self, event: &Event) -> Result<Reply, AllocError>
        ensures { IfOk result (λ reply. step self.old event.now ≡ Some (reply, self.new)) }
    {
        match self.table.take(self.alloc, event, self.runner) {
            Reply::Memory => Err(AllocError),
            reply => Ok(reply),
        }
    }

    /// Processes an event, and writes its reply.
    fn answer_event<S: Sink>(
        &mut self,
        event: Event,
        listed: bool,
        form: Form,
        sink: &mut S,
    ) -> Result<(), AnswerFault>
        requires { S.failures sink.old < 2 ^ 64 - 1 }
        ensures ok { OnOk result (IsAnswered (answer_event form self.old event listed) self.new (S.held sink.old) (S.held sink.new)) }
        ensures err { OnErr result (AppendsPrefix (S.held sink.old) (S.held sink.new) (answer_event form self.old event listed).0) }
        ensures failures { S.failures sink.new ≡ S.failures sink.old + failed_writes result }
    {
        let reply = self.take(&event)?;
        self.write_reply(&event, listed, reply, form, sink)
    }

    /// Processes edits of the version at which a session stands, and writes the reply.
    fn answer_head<S: Sink>(
        &mut self,
        session: u32,
        edits: Edits,
        listed: bool,
        form: Form,
        sink: &mut S,
    ) -> Result<(), AnswerFault>
        requires { S.failures sink.old < 2 ^ 64 - 1 }
        ensures ok { OnOk result (IsAnswered (answer_head form self.old session edits listed) self.new (S.held sink.old) (S.held sink.new)) }
        ensures err { OnErr result (AppendsPrefix (S.held sink.old) (S.held sink.new) (answer_head form self.old session edits listed).0) }
        ensures failures { S.failures sink.new ≡ S.failures sink.old + failed_writes result }
    {
        let event = Event::Head { session };
        match self.take(&event)? {
            Reply::At(base) => {
                let edit = Held::new(self.alloc, edits)?;
                let event = Event::Commit {
                    session,
                    base,
                    edit,
                };
                self.answer_event(event, listed, form, sink)
            }
            reply => self.write_reply(&event, listed, reply, form, sink),
        }
    }

    fn write_reply<S: Sink>(
        &self,
        event: &Event,
        listed: bool,
        reply: Reply,
        form: Form,
        sink: &mut S,
    ) -> Result<(), AnswerFault>
        requires { S.failures sink.old < 2 ^ 64 - 1 }
        ensures ok { OnOk result (Appends (S.held sink.old) (S.held sink.new) (reply_told form (base_in self.now event.now) event.now listed reply)) }
        ensures err { OnErr result (AppendsPrefix (S.held sink.old) (S.held sink.new) (reply_told form (base_in self.now event.now) event.now listed reply)) }
        ensures failures { S.failures sink.new ≡ S.failures sink.old + failed_writes result }
    {
        let base = base_of(&self.table, event);
        tell_reply(self.alloc, base, event, listed, reply, form, sink)
    }

    /// Processes edits of a version or of the session's head, and writes the reply.
    fn answer_change<S: Sink>(
        &mut self,
        session: u32,
        base: Option<u32>,
        edits: Edits,
        listed: bool,
        form: Form,
        sink: &mut S,
    ) -> Result<(), AnswerFault>
        requires { S.failures sink.old < 2 ^ 64 - 1 }
        ensures ok { OnOk result (IsAnswered (answer_change form self.old session base edits listed) self.new (S.held sink.old) (S.held sink.new)) }
        ensures err { OnErr result (AppendsPrefix (S.held sink.old) (S.held sink.new) (answer_change form self.old session base edits listed).0) }
        ensures failures { S.failures sink.new ≡ S.failures sink.old + failed_writes result }
    {
        match base {
            Some(base) => {
                let edit = Held::new(self.alloc, edits)?;
                let event = Event::Commit {
                    session,
                    base,
                    edit,
                };
                self.answer_event(event, listed, form, sink)
            }
            None => self.answer_head(session, edits, listed, form, sink),
        }
    }

    /// Asks at which version a session stands, and writes a report of it, or the refusal.
    fn answer_stand<S: Sink>(
        &mut self,
        session: u32,
        asked: &Asked,
        form: Form,
        sink: &mut S,
    ) -> Result<(), AnswerFault>
        requires { S.failures sink.old < 2 ^ 64 - 1 }
        ensures ok { OnOk result (IsAnswered (answer_stand form self.old session asked.now) self.new (S.held sink.old) (S.held sink.new)) }
        ensures err { OnErr result (AppendsPrefix (S.held sink.old) (S.held sink.new) (answer_stand form self.old session asked.now).0) }
        ensures failures { S.failures sink.new ≡ S.failures sink.old + failed_writes result }
    {
        let event = Event::Head { session };
        match self.take(&event)? {
            Reply::At(version) => answer_report(
                self.alloc,
                &self.table,
                version,
                asked,
                self.runner,
                form,
                sink,
            ),
            reply => self.write_reply(&event, false, reply, form, sink),
        }
    }

    /// Writes a report of a version, or of the version at which a session stands.
    fn answer_subject<S: Sink>(
        &mut self,
        subject: Subject,
        asked: &Asked,
        form: Form,
        sink: &mut S,
    ) -> Result<(), AnswerFault>
        requires { S.failures sink.old < 2 ^ 64 - 1 }
        ensures ok { OnOk result (IsAnswered (answer_report form self.old subject asked.now) self.new (S.held sink.old) (S.held sink.new)) }
        ensures err { OnErr result (AppendsPrefix (S.held sink.old) (S.held sink.new) (answer_report form self.old subject asked.now).0) }
        ensures failures { S.failures sink.new ≡ S.failures sink.old + failed_writes result }
    {
        match subject {
            Subject::Version(version) => answer_report(
                self.alloc,
                &self.table,
                version,
                asked,
                self.runner,
                form,
                sink,
            ),
            Subject::Head(session) => self.answer_stand(session, asked, form, sink),
        }
    }

    /// Executes a step, and writes the reply or the report.
    pub fn answer_step<S: Sink>(
        &mut self,
        asked: Step,
        form: Form,
        sink: &mut S,
    ) -> Result<(), AnswerFault>
        requires { S.failures sink.old < 2 ^ 64 - 1 }
        ensures ok { OnOk result (IsAnswered (answer_step form self.old asked) self.new (S.held sink.old) (S.held sink.new)) }
        ensures err { OnErr result (AppendsPrefix (S.held sink.old) (S.held sink.new) (answer_step form self.old asked).0) }
        ensures failures { S.failures sink.new ≡ S.failures sink.old + failed_writes result }
    {
        match asked {
            Step::Open { session, version } => {
                self.answer_event(Event::Open { session, version }, false, form, sink)
            }
            Step::Head { session } => self.answer_event(Event::Head { session }, false, form, sink),
            Step::Undo { session } => self.answer_event(Event::Undo { session }, false, form, sink),
            Step::Close { session } => self.answer_event(
                Event::Close { session },
                false,
                form,
                sink,
            ),
            Step::Change {
                session,
                base,
                edits,
                listed,
            } => self.answer_change(session, base, edits, listed, form, sink),
            Step::Report { subject, asked } => self.answer_subject(subject, &asked, form, sink),
        }
    }

    /// Writes why a line has no step, unless memory ran out.
    fn refuse<S: Sink>(&self, fault: Fault, form: Form, sink: &mut S) -> Result<(), AnswerFault>
        requires { S.failures sink.old < 2 ^ 64 - 1 }
        ensures ok { (meant : Result Step Fault) → IsRead (Err fault) meant → OnOk result (IsAnswered (answer_named form self.now meant) self.now (S.held sink.old) (S.held sink.new)) }
        ensures err { (meant : Result Step Fault) → IsRead (Err fault) meant → OnErr result (AppendsPrefix (S.held sink.old) (S.held sink.new) (answer_named form self.now meant).0) }
        ensures failures { S.failures sink.new ≡ S.failures sink.old + failed_writes result }
    {
        match fault {
            Fault::Memory => Err(AnswerFault::Memory),
            fault => tell_fault(self.alloc, &fault, form, sink),
        }
    }

    /// Executes the step in the bytes of a line.
    fn answer_bytes<S: Sink>(
        &mut self,
        bytes: &[u8],
        form: Form,
        sink: &mut S,
    ) -> Result<(), AnswerFault>
        requires { S.failures sink.old < 2 ^ 64 - 1 }
        ensures ok { OnOk result (IsAnswered (answer_named form self.old (step_of bytes.now)) self.new (S.held sink.old) (S.held sink.new)) }
        ensures err { OnErr result (AppendsPrefix (S.held sink.old) (S.held sink.new) (answer_named form self.old (step_of bytes.now)).0) }
        ensures failures { S.failures sink.new ≡ S.failures sink.old + failed_writes result }
    {
        match self.steps.read(bytes) {
            Ok(step) => self.answer_step(step, form, sink),
            Err(fault) => self.refuse(fault, form, sink),
        }
    }

    /// The versions and the sessions.
    pub fn table(&self) -> &Table<R>
        ensures { result.now.state ≡ self.now }
    {
        &self.table
    }

    /// The version that was made last.
    pub(crate) fn last(&self) -> Result<Version<R>, AllocError>
        ensures { IfOk result (λ version. last_version self.now ≡ Some version) }
    {
        self.table.last().again()
    }

    /// The versions and the sessions.
    pub(crate) fn into_table(self) -> Table<R>
        ensures { result.state ≡ self.entry }
    {
        let Server { table, .. } = self;
        table
    }

    /// Executes the step on a line, and writes the answer.
    pub(crate) fn answer<S: Sink>(
        &mut self,
        line: Line<'_>,
        form: Form,
        sink: &mut S,
    ) -> Result<(), AnswerFault>
        requires { S.failures sink.old < 2 ^ 64 - 1 }
        ensures ok { OnOk result (IsAnswered (answer_line form self.old (Some (seen line.entry))) self.new (S.held sink.old) (S.held sink.new)) }
        ensures err { OnErr result (AppendsPrefix (S.held sink.old) (S.held sink.new) (answer_line form self.old (Some (seen line.entry))).0) }
        ensures failures { S.failures sink.new ≡ S.failures sink.old + failed_writes result }
    {
        match line {
            Line::Kept(bytes) => self.answer_bytes(bytes, form, sink),
            Line::TooLong => tell_fault(self.alloc, &Fault::TooLong, form, sink),
        }
    }
}
