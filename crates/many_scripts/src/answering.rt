//! Answers the steps of a script.
ghost use Rattle.std.specs.Prelude.{◌≡◌, ◌+◌, ◌-◌, ◌^◌, ◌<◌, false, None, Some, OnOk};
ghost use Rattle.std.specs.Io.KnownBytes.{Appends};
ghost use Rattle.serve_script.specs.Faults.{failed_writes};
ghost use Rattle.recording.specs.declared.step.Subject.TheVariants.{Version as Numbered, Head as Stand};
ghost use Rattle.serve_script.specs.Told.{reply_told};
ghost use Rattle.many_scripts.specs.Played.{IsBooked, IsChange, IsCommit, IsReport, IsReportAgainst, IsReportOf, IsStep};
ghost use Rattle.many_scripts.specs.Playing.{Answers, HasHeard, IsAskedAlone};

use crate::access::Access;
use crate::events::{book, commit};
use desk::{Client, Desk, Known, Naming, ReadFault};
use level_pool::Runner;
use recording::{Asked, Step, Subject};
use serve_script::{AnswerFault, against_in, tell_no_version, tell_reply, write_asked};
use session_core::{Event, Reply, TableFault};
use share_tree::Held;
use stage_graph::Edits;
use std::sync::Wait;
use text_io::Sink;
use version_store::{StateRepresentation, Version};

/// No version of a desk.
fn no_version<N: Naming, K: StateRepresentation, H: Wait + Drop>(
    _desk: &Desk<N, K, H>,
) -> Option<&Version<K>>
    ensures { result ≡ None }
{
    None
}

/// Writes the reply to an event that edits no version.
fn write_lone_reply<N: Naming, K: StateRepresentation, H: Wait + Drop, W, S: Sink>(
    access: &Access<'_, N, K, H, W>,
    event: &Event,
    listed: bool,
    reply: Reply,
    sink: &mut S,
) -> Result<(), AnswerFault>
    requires { S.failures sink.old < 2 ^ 64 - 1 }
    ensures ok { OnOk result (Appends (S.held sink.old) (S.held sink.new) (reply_told access.now.form None event.now listed reply)) }
    ensures failures { S.failures sink.new ≡ S.failures sink.old + failed_writes result }
{
    let base = no_version(access.desk);
    tell_reply(access.alloc, base, event, listed, reply, access.form, sink)
}

/// Asks the desk for an event that is no commit, and writes its reply.
fn answer_event<N: Naming, K: StateRepresentation, H: Wait + Drop, W, S: Sink>(
    access: &Access<'_, N, K, H, W>,
    client: &mut Client<N, K>,
    event: &Event,
    sink: &mut S,
) -> Result<(), AnswerFault>
    requires alone { IsAskedAlone event.now }
    requires heard { HasHeard client.old }
    requires room { S.failures sink.old < 2 ^ 64 - 1 }
    ensures ok { OnOk result (Answers (λ seen earlier. IsBooked access.now.form client.old.number None event.now false) client.old client.new (S.held sink.old) (S.held sink.new)) }
    ensures failures { S.failures sink.new ≡ S.failures sink.old + failed_writes result }
{
    let reply = book(access, client, event)?;
    write_lone_reply(access, event, false, reply, sink)
}

/// Asks the desk for edits of a version, and writes the reply.
fn answer_commit<N: Naming, K: StateRepresentation, H: Wait + Drop, W: Runner, S: Sink>(
    access: &Access<'_, N, K, H, W>,
    client: &mut Client<N, K>,
    session: u32,
    base: &Known<N, K>,
    edits: Edits,
    listed: bool,
    sink: &mut S,
) -> Result<(), AnswerFault>
    requires heard { HasHeard client.old }
    requires room { S.failures sink.old < 2 ^ 64 - 1 }
    ensures ok { OnOk result (Answers (λ seen earlier. IsCommit access.now.form client.old.number session base.now.number edits listed base.now) client.old client.new (S.held sink.old) (S.held sink.new)) }
    ensures failures { S.failures sink.new ≡ S.failures sink.old + failed_writes result }
{
    let edit = Held::new(access.alloc, edits)?;
    let reply = commit(access, client, session, base, &edit)?;
    let event = Event::Commit {
        session,
        base: base.number(),
        edit,
    };
    tell_reply(
        access.alloc,
        Some(&**base),
        &event,
        listed,
        reply,
        access.form,
        sink,
    )
}

/// Asks the desk for edits of the version of a number, and writes the reply.
fn answer_at<N: Naming, K: StateRepresentation, H: Wait + Drop, W: Runner, S: Sink>(
    access: &Access<'_, N, K, H, W>,
    client: &mut Client<N, K>,
    session: u32,
    number: u32,
    edits: Edits,
    listed: bool,
    sink: &mut S,
) -> Result<(), AnswerFault>
    requires heard { HasHeard client.old }
    requires room { S.failures sink.old < 2 ^ 64 - 1 }
    ensures ok { OnOk result (Answers (λ seen earlier. IsChange access.now.form client.old.number seen earlier session (Some number) edits listed) client.old client.new (S.held sink.old) (S.held sink.new)) }
    ensures failures { S.failures sink.new ≡ S.failures sink.old + failed_writes result }
{
    match client.version(number) {
        Ok(base) => answer_commit(access, client, session, &base, edits, listed, sink),
        Err(ReadFault::NoVersion) => tell_no_version(access.alloc, access.form, sink),
        Err(ReadFault::Memory) => Err(AnswerFault::Memory),
    }
}

/// Asks the desk for edits of the version at which a session stands, and writes the reply.
fn answer_head<N: Naming, K: StateRepresentation, H: Wait + Drop, W: Runner, S: Sink>(
    access: &Access<'_, N, K, H, W>,
    client: &mut Client<N, K>,
    session: u32,
    edits: Edits,
    listed: bool,
    sink: &mut S,
) -> Result<(), AnswerFault>
    requires heard { HasHeard client.old }
    requires room { S.failures sink.old < 2 ^ 64 - 1 }
    ensures ok { OnOk result (Answers (λ seen earlier. IsChange access.now.form client.old.number seen earlier session None edits listed) client.old client.new (S.held sink.old) (S.held sink.new)) }
    ensures failures { S.failures sink.new ≡ S.failures sink.old + failed_writes result }
{
    match access.desk.snapshot(access.rt, client, session) {
        Ok(base) => answer_commit(access, client, session, &base, edits, listed, sink),
        Err(TableFault::Refused(refusal)) => {
            let event = Event::Head { session };
            let reply = Reply::Refused(refusal);
            write_lone_reply(access, &event, listed, reply, sink)
        }
        Err(TableFault::Memory) => Err(AnswerFault::Memory),
    }
}

/// Asks the desk for edits of a version or of the session's head, and writes the reply.
fn answer_change<N: Naming, K: StateRepresentation, H: Wait + Drop, W: Runner, S: Sink>(
    access: &Access<'_, N, K, H, W>,
    client: &mut Client<N, K>,
    session: u32,
    base: Option<u32>,
    edits: Edits,
    listed: bool,
    sink: &mut S,
) -> Result<(), AnswerFault>
    requires heard { HasHeard client.old }
    requires room { S.failures sink.old < 2 ^ 64 - 1 }
    ensures ok { OnOk result (Answers (λ seen earlier. IsChange access.now.form client.old.number seen earlier session base edits listed) client.old client.new (S.held sink.old) (S.held sink.new)) }
    ensures failures { S.failures sink.new ≡ S.failures sink.old + failed_writes result }
{
    match base {
        Some(number) => answer_at(access, client, session, number, edits, listed, sink),
        None => answer_head(access, client, session, edits, listed, sink),
    }
}

/// Writes the report of a version, without a comparison, or compared with the version of a number.
fn answer_of<N: Naming, K: StateRepresentation, H: Wait + Drop, W: Runner, S: Sink>(
    access: &Access<'_, N, K, H, W>,
    client: &mut Client<N, K>,
    version: &Version<K>,
    asked: &Asked,
    sink: &mut S,
) -> Result<(), AnswerFault>
    requires heard { HasHeard client.old }
    requires room { S.failures sink.old < 2 ^ 64 - 1 }
    ensures ok { OnOk result (Answers (λ seen earlier. IsReportOf access.now.form seen earlier version.now asked.now) client.old client.new (S.held sink.old) (S.held sink.new)) }
    ensures failures { S.failures sink.new ≡ S.failures sink.old + failed_writes result }
{
    match against_in(asked) {
        None => {
            let against = no_version(access.desk);
            write_asked(
                access.alloc,
                version,
                against,
                asked,
                access.runner,
                access.form,
                sink,
            )
        }
        Some(number) => answer_against(access, client, version, number, asked, sink),
    }
}

/// Writes the report of a version, compared with the version of a number, or that there is no such version.
fn answer_against<N: Naming, K: StateRepresentation, H: Wait + Drop, W: Runner, S: Sink>(
    access: &Access<'_, N, K, H, W>,
    client: &mut Client<N, K>,
    version: &Version<K>,
    number: u32,
    asked: &Asked,
    sink: &mut S,
) -> Result<(), AnswerFault>
    requires heard { HasHeard client.old }
    requires room { S.failures sink.old < 2 ^ 64 - 1 }
    ensures ok { OnOk result (Answers (λ seen earlier. IsReportAgainst access.now.form seen earlier version.now asked.now (Some number)) client.old client.new (S.held sink.old) (S.held sink.new)) }
    ensures failures { S.failures sink.new ≡ S.failures sink.old + failed_writes result }
{
    match client.version(number) {
        Ok(against) => write_asked(
            access.alloc,
            version,
            Some(&*against),
            asked,
            access.runner,
            access.form,
            sink,
        ),
        Err(ReadFault::NoVersion) => tell_no_version(access.alloc, access.form, sink),
        Err(ReadFault::Memory) => Err(AnswerFault::Memory),
    }
}

/// Writes a report of the version of a number, or that there is no such version.
fn answer_version<N: Naming, K: StateRepresentation, H: Wait + Drop, W: Runner, S: Sink>(
    access: &Access<'_, N, K, H, W>,
    client: &mut Client<N, K>,
    number: u32,
    asked: &Asked,
    sink: &mut S,
) -> Result<(), AnswerFault>
    requires heard { HasHeard client.old }
    requires room { S.failures sink.old < 2 ^ 64 - 1 }
    ensures ok { OnOk result (Answers (λ seen earlier. IsReport access.now.form client.old.number seen earlier (Numbered number) asked.now) client.old client.new (S.held sink.old) (S.held sink.new)) }
    ensures failures { S.failures sink.new ≡ S.failures sink.old + failed_writes result }
{
    match client.version(number) {
        Ok(version) => answer_of(access, client, &version, asked, sink),
        Err(ReadFault::NoVersion) => tell_no_version(access.alloc, access.form, sink),
        Err(ReadFault::Memory) => Err(AnswerFault::Memory),
    }
}

/// Asks at which version a session stands, and writes a report of it, or the refusal.
fn answer_stand<N: Naming, K: StateRepresentation, H: Wait + Drop, W: Runner, S: Sink>(
    access: &Access<'_, N, K, H, W>,
    client: &mut Client<N, K>,
    session: u32,
    asked: &Asked,
    sink: &mut S,
) -> Result<(), AnswerFault>
    requires heard { HasHeard client.old }
    requires room { S.failures sink.old < 2 ^ 64 - 1 }
    ensures ok { OnOk result (Answers (λ seen earlier. IsReport access.now.form client.old.number seen earlier (Stand session) asked.now) client.old client.new (S.held sink.old) (S.held sink.new)) }
    ensures failures { S.failures sink.new ≡ S.failures sink.old + failed_writes result }
{
    match access.desk.snapshot(access.rt, client, session) {
        Ok(version) => answer_of(access, client, &version, asked, sink),
        Err(TableFault::Refused(refusal)) => {
            let event = Event::Head { session };
            let reply = Reply::Refused(refusal);
            write_lone_reply(access, &event, false, reply, sink)
        }
        Err(TableFault::Memory) => Err(AnswerFault::Memory),
    }
}

/// Writes a report of a version, or of the version at which a session stands.
fn answer_report<N: Naming, K: StateRepresentation, H: Wait + Drop, W: Runner, S: Sink>(
    access: &Access<'_, N, K, H, W>,
    client: &mut Client<N, K>,
    subject: Subject,
    asked: &Asked,
    sink: &mut S,
) -> Result<(), AnswerFault>
    requires heard { HasHeard client.old }
    requires room { S.failures sink.old < 2 ^ 64 - 1 }
    ensures ok { OnOk result (Answers (λ seen earlier. IsReport access.now.form client.old.number seen earlier subject asked.now) client.old client.new (S.held sink.old) (S.held sink.new)) }
    ensures failures { S.failures sink.new ≡ S.failures sink.old + failed_writes result }
{
    match subject {
        Subject::Version(number) => answer_version(access, client, number, asked, sink),
        Subject::Head(session) => answer_stand(access, client, session, asked, sink),
    }
}

/// Executes a step, and writes the reply or the report.
pub(crate) fn answer_step<N: Naming, K: StateRepresentation, H: Wait + Drop, W: Runner, S: Sink>(
    access: &Access<'_, N, K, H, W>,
    client: &mut Client<N, K>,
    step: Step,
    sink: &mut S,
) -> Result<(), AnswerFault>
    requires heard { HasHeard client.old }
    requires room { S.failures sink.old < 2 ^ 64 - 1 }
    ensures ok { OnOk result (Answers (λ seen earlier. IsStep access.now.form client.old.number seen earlier step) client.old client.new (S.held sink.old) (S.held sink.new)) }
    ensures failures { S.failures sink.new ≡ S.failures sink.old + failed_writes result }
{
    match step {
        Step::Open { session, version } => {
            answer_event(access, client, &Event::Open { session, version }, sink)
        }
        Step::Head { session } => answer_event(access, client, &Event::Head { session }, sink),
        Step::Undo { session } => answer_event(access, client, &Event::Undo { session }, sink),
        Step::Close { session } => answer_event(access, client, &Event::Close { session }, sink),
        Step::Change {
            session,
            base,
            edits,
            listed,
        } => answer_change(access, client, session, base, edits, listed, sink),
        Step::Report { subject, asked } => answer_report(access, client, subject, &asked, sink),
    }
}
