//! Several scripts at once.
ghost use Rattle.std.specs.Prelude.{◌≡◌, ◌≢◌, ◌⊎◌, ◌≤◌, ◌<◌, ◌+◌, ◌-◌, ◌^◌, ◌++◌, ◌∷◌, [], All, Err, OnOk, IfOk, IfErr, IsOkAnd, length, vec_len};
ghost use Rattle.std.specs.Io.KnownBytes.{Appends};
ghost use Rattle.text_io.specs.Sink.{AppendsPrefix};
ghost use Rattle.stage_graph.specs.Walk.{IsRanked};
ghost use Rattle.version_store.specs.Plain.{opening_version};
ghost use Rattle.session_core.specs.Log.{opening_of};
ghost use Rattle.session_core.specs.TableView.{TableView};
ghost use Rattle.serve_script.specs.Answers.{opening_state};
ghost use Rattle.desk.specs.Clients.{AreNew};
ghost use Rattle.desk.specs.Closing.{IsClosed};
ghost use Rattle.many_scripts.specs.Faults.{failed_writes_of_many};
ghost use Rattle.many_scripts.specs.Gathered.{IsWhole};
ghost use Rattle.many_scripts.specs.Outputs.{log_line};
ghost use Rattle.many_scripts.specs.Scripts.{EndsBy, IsOutputOf, EndsManyBy, Writes};
ghost use Rattle.many_scripts.specs.declared.fault.ManyFault.{ManyFault};

use crate::fault::ManyFault;
use crate::gathering::{Ended, ended_by};
use crate::headings::log_line;
use desk::{Client, CloseFault, Desk, Naming, NewArchive, start};
use level_pool::Workers;
use report_form::Format;
use stage_graph::{Graph, InShared};
use std::alloc::{AllocError, Global};
use std::marker::Brand;
use std::sync::Wait;
use std::sync::ledger::Blank;
use std::thread::Threads;
use text_io::{Sink, Source};
use version_store::{StateRepresentation, Version};

/// The most versions that a desk may have.
const MOST_VERSIONS: u32 = 65_536;

/// Closes the desk, and returns how many entries its log has.
fn entries_of_closed<N: Naming, K: StateRepresentation, H: Wait + Drop>(
    desk: Desk<N, K, H>,
    clients: Vec<Client<N, K>>,
) -> Result<usize, ManyFault>
    requires { N.clients ≡ N.parts }
    ensures ok { IfOk result (λ count. (log : TableView) × IsClosed log clients.items × (opening_of log.state ≡ N.opening) × (count ≡ length log.history)) }
    ensures err { IfErr result (λ fault. (fault ≢ ManyFault.Read) × (fault ≢ ManyFault.Write)) }
{
    match desk.close(clients) {
        Ok(log) => Ok(log.entries().len()),
        Err((CloseFault::Missing, _, _)) => Err(ManyFault::Missing),
        Err((CloseFault::Torn, _, _)) => Err(ManyFault::Torn),
    }
}

/// The texts with the last line, which has the number of the log's entries.
fn with_log_line(
    alloc: Global,
    format: Format,
    texts: Vec<u8>,
    entries: usize,
) -> Result<Vec<u8>, AllocError>
    ensures { IfOk result (λ whole. whole.items ≡ texts.items ++ log_line format entries) }
{
    let line = log_line(alloc, format, entries)?;
    let mut whole = texts;
    whole.extend_from_slice(&line)?;
    Ok(whole)
}

/// A desk that begins with a graph, and its clients.
fn begun<N: Naming, K: StateRepresentation, H: Wait + Drop>(
    rt: H,
    alloc: Global,
    blank: Blank,
    archive: NewArchive<K>,
    graph: Graph<K>,
    clients: u32,
) -> Result<(Desk<N, K, H>, Vec<Client<N, K>>), AllocError>
    requires ranked { IsRanked graph.places }
    requires clients { (1 ≤ clients) × (clients ≤ 64) × (blank.parts ≡ clients) × (N.clients ≡ clients) }
    requires name { blank.name ≡ N.name }
    requires parts { blank.parts ≡ N.parts }
    requires book { archive.seen.book ≡ N.book }
    requires opening { N.opening ≡ opening_state graph }
    ensures { IfOk result (λ started. AreNew (opening_version graph ∷ []) clients started.1.items) }
{
    let first = Version::load(alloc, graph)?;
    start(rt, alloc, blank, archive, first, clients, MOST_VERSIONS)
}

/// The output once the desk of the clients is closed, if all scripts were played.
fn output_of<N: Naming, K: StateRepresentation, H: Wait + Drop>(
    alloc: Global,
    format: Format,
    desk: Desk<N, K, H>,
    gathered: Result<Ended<Client<N, K>>, ManyFault>,
) -> Result<Vec<u8>, ManyFault>
    requires { N.clients ≡ N.parts }
    ensures ok { IfOk result (λ output. IsOkAnd gathered (λ ended. IsWhole format N.opening ended.clients.items ended.texts.items output.items)) }
    ensures err { IfErr result (λ fault. (gathered ≡ Err fault) ⊎ ((fault ≢ ManyFault.Read) × (fault ≢ ManyFault.Write))) }
{
    let ended = gathered?;
    let Ended { clients, texts } = ended;
    let count = entries_of_closed(desk, clients)?;
    Ok(with_log_line(alloc, format, texts, count)?)
}

/// The output for the scripts, by the clients of the desk that has this name.
fn played<
    N: Naming + Send + Sync,
    H: Threads + Wait + Copy + Drop + Send + Sync,
    R: Source + Send + Drop,
>(
    rt: H,
    alloc: Global,
    blank: Blank,
    archive: NewArchive<InShared>,
    workers: Workers,
    scripts: Vec<R>,
    graph: Graph<InShared>,
    format: Format,
) -> Result<Vec<u8>, ManyFault>
    requires ranked { IsRanked graph.places }
    requires scripts { (1 ≤ vec_len scripts) × (vec_len scripts ≤ 64) }
    requires reads { All (λ script. R.failures script < 2 ^ 64 - 1) scripts.items }
    requires name { blank.name ≡ N.name }
    requires parts { (blank.parts ≡ N.parts) × (blank.parts ≡ vec_len scripts) × (N.clients ≡ vec_len scripts) }
    requires book { archive.seen.book ≡ N.book }
    requires opening { N.opening ≡ opening_state graph }
    ensures ok { IfOk result (λ output. IsOutputOf format R.remaining R.failures graph scripts.items output.items) }
    ensures err { IfErr result (EndsBy R.remaining R.failures scripts.items) }
{
    let count = scripts.len() as u32;
    let (desk, clients) = begun::<N, InShared, H>(rt, alloc, blank, archive, graph, count)?;
    let ended = ended_by(&rt, alloc, &desk, workers, format, clients, scripts);
    output_of(alloc, format, desk, ended)
}

/// The output for the scripts, by the clients of a new desk.
fn by_new_desk<H: Threads + Wait + Copy + Drop + Send + Sync, R: Source + Send + Drop>(
    rt: H,
    alloc: Global,
    workers: Workers,
    scripts: Vec<R>,
    graph: Graph<InShared>,
    format: Format,
) -> Result<Vec<u8>, ManyFault>
    requires ranked { IsRanked graph.places }
    requires scripts { (1 ≤ vec_len scripts) × (vec_len scripts ≤ 64) }
    requires reads { All (λ script. R.failures script < 2 ^ 64 - 1) scripts.items }
    ensures ok { IfOk result (λ output. IsOutputOf format R.remaining R.failures graph scripts.items output.items) }
    ensures err { IfErr result (EndsBy R.remaining R.failures scripts.items) }
{
    let blank = Blank::new(scripts.len() as u64);
    let archive = NewArchive::new();
    played::<Brand, H, R>(rt, alloc, blank, archive, workers, scripts, graph, format)
}

/// Answers several scripts, each by a client of its own in a thread of its own, about one recording: version 0 has the
/// graph, and 65,536 versions are allowed. When all have ended, each script's lines are written in the order of the
/// scripts, and then how many entries the log of their desk has.
///
/// Errors: `Read` where a read of a script failed or 1,073,741,824 bytes of it were read, `Write` where a write or a
/// flush failed or took nothing, `Missing` and `Torn` where the desk isn't closed, `Memory`. At any fault but `Write`
/// nothing is written.
pub fn many<H: Threads + Wait + Copy + Drop + Send + Sync, R: Source + Send + Drop, S: Sink>(
    rt: H,
    alloc: Global,
    scripts: Vec<R>,
    sink: &mut S,
    graph: Graph<InShared>,
    workers: usize,
    format: Format,
) -> Result<(), ManyFault>
    requires ranked { IsRanked graph.places }
    requires scripts { (1 ≤ vec_len scripts) × (vec_len scripts ≤ 64) }
    requires workers { (1 ≤ workers) × (workers ≤ 16) }
    requires reads { All (λ script. R.failures script < 2 ^ 64 - 1) scripts.items }
    requires writes { S.failures sink.old < 2 ^ 64 - 1 }
    ensures ok { OnOk result (Writes format R.remaining R.failures graph scripts.items (S.held sink.old) (S.held sink.new)) }
    ensures err { IfErr result (EndsManyBy format R.remaining R.failures graph scripts.items (S.held sink.old) (S.held sink.new)) }
    ensures failures { S.failures sink.new ≡ S.failures sink.old + failed_writes_of_many result }
{
    let output = by_new_desk(rt, alloc, Workers::new(workers), scripts, graph, format)?;
    write_output(&output, sink)
}

/// Writes the output.
fn write_output<S: Sink>(output: &[u8], sink: &mut S) -> Result<(), ManyFault>
    requires { S.failures sink.old < 2 ^ 64 - 1 }
    ensures ok { OnOk result (Appends (S.held sink.old) (S.held sink.new) output.now) }
    ensures err { IfErr result (λ fault. (fault ≡ ManyFault.Write) × AppendsPrefix (S.held sink.old) (S.held sink.new) output.now) }
    ensures failures { S.failures sink.new ≡ S.failures sink.old + failed_writes_of_many result }
{
    match sink.write(output) {
        Ok(()) => match sink.flush() {
            Ok(()) => Ok(()),
            Err(_) => Err(ManyFault::Write),
        },
        Err(_) => Err(ManyFault::Write),
    }
}
