//! What a closed desk's log tells goes together with the machine, and each version with evaluation from scratch.
ghost use Rattle.std.specs.Prelude.{◌≡◌};

use crate::closing::log_of;
use crate::stages::{MANY_STAGES, opened};
use crate::steps::Script;
use crate::walks::all_agree;
use desk::{Client, CloseFault, Desk, Known, Log, Naming, ReadFault};
use level_pool::OneThread;
use scratch_eval::{Answers, evaluate};
use session_core::{Entry, Table};
use stage_ops::{JavaOps, Meter};
use std::alloc::{AllocError, Global};
use std::sync::Wait;
use std::thread::Threads;
use version_store::{StateRepresentation, Version};

/// The marker of this run's meters.
#[derive(Drop)]
struct Soaked;

/// The most versions.
pub(crate) const MOST: u32 = 400;

/// The least versions that the clients come to.
const LEAST: usize = 200;

/// Whether the machine answers each entry's event as the log has it.
fn replays<K: StateRepresentation, H: Threads + Sync>(
    rt: &H,
    alloc: Global,
    table: &mut Table<K>,
    log: &[Entry],
) -> bool {
    let runner = OneThread::new(rt);
    let mut same = true;
    for entry in log {
        let reply = table.take(alloc, &entry.event, &runner);
        same = same && reply.same(entry.reply);
    }
    same
}

/// Whether a version tells of a place what evaluation from scratch does.
fn tells<K: StateRepresentation>(version: &Version<K>, answers: &Answers, place: u32) -> bool {
    version.state(place).ok() == answers.state(place).ok()
        && version.rank(place).ok() == answers.rank(place).ok()
}

/// Whether a version tells of each place what its graph does from scratch.
fn is_from_scratch<K: StateRepresentation>(alloc: Global, version: &Version<K>) -> bool {
    let graph = version.graph();
    let mut meter = Meter::new(Soaked);
    let Ok(answers) = evaluate(alloc, graph, &JavaOps, &mut meter) else {
        return false;
    };
    let mut same = true;
    for place in 0..graph.len() as u32 {
        same = same && tells(version, &answers, place);
    }
    same
}

/// Whether a version that a client read is the machine's of its number, and its graph's from scratch.
fn is_of_machine<K: StateRepresentation>(
    alloc: Global,
    read: &Version<K>,
    table: &Table<K>,
) -> bool {
    match table.version(read.number()) {
        Ok(version) => {
            read.parent() == version.parent()
                && read.graph().same(version.graph())
                && is_from_scratch(alloc, read)
        }
        Err(_) => false,
    }
}

/// Whether the versions that a client read are all of the machine's.
fn are_of_machine<N: Naming, K: StateRepresentation>(
    alloc: Global,
    versions: &[Known<N, K>],
    table: &Table<K>,
) -> bool {
    let mut same = true;
    let mut count = 0u32;
    for known in versions {
        count = count.saturating_add(1);
        same = same && is_of_machine(alloc, known, table);
    }
    same && table.version(count).is_err()
}

/// A version that is read is added, if there is one.
fn add_read<V: Drop>(
    versions: &mut Vec<V>,
    read: Result<V, ReadFault>,
) -> Result<bool, AllocError> {
    match read {
        Ok(known) => {
            versions.push(known)?;
            Ok(true)
        }
        Err(ReadFault::NoVersion) => Ok(false),
        Err(ReadFault::Memory) => Err(AllocError),
    }
}

/// Adds all versions that are published, as a client reads them.
fn read_all<N: Naming, K: StateRepresentation>(
    client: &mut Client<N, K>,
    versions: &mut Vec<Known<N, K>>,
) -> Result<(), AllocError> {
    for number in 0..MOST {
        if !add_read(versions, client.version(number))? {
            return Ok(());
        }
    }
    Ok(())
}

/// All versions that are published, as the first client reads them.
fn versions_of<N: Naming, K: StateRepresentation>(
    alloc: Global,
    clients: &mut [Client<N, K>],
) -> Result<Vec<Known<N, K>>, AllocError> {
    let mut versions = Vec::new(alloc);
    if let Some(client) = clients.first_mut() {
        read_all(client, &mut versions)?;
    }
    Ok(versions)
}

/// What is told of a log, with the walks of the clients and the versions that one of them read, by the machine at version 0.
fn text_of_log<N: Naming, K: StateRepresentation, H: Threads + Sync>(
    rt: &H,
    alloc: Global,
    table: &mut Table<K>,
    log: &[Entry],
    scripts: &[Script],
    versions: &[Known<N, K>],
) -> &'static str {
    if !all_agree(scripts, log) {
        "calls of a client are not the log's"
    } else if !replays(rt, alloc, table, log) {
        "the machine does not answer as the log has it"
    } else if versions.len() <= LEAST {
        "there are few versions"
    } else if !are_of_machine(alloc, versions, table) {
        "a version is not the machine's, or not its graph's from scratch"
    } else {
        "each client's calls are the log's, and the machine answers as the log has it; more than 200 versions are read back, \
        each the machine's and its graph's from scratch"
    }
}

/// What is told of a log, by a new machine.
fn text_by_machine<N: Naming, K: StateRepresentation, H: Threads + Sync>(
    rt: &H,
    alloc: Global,
    log: &[Entry],
    scripts: &[Script],
    versions: &[Known<N, K>],
) -> Result<&'static str, AllocError> {
    let first = opened::<K>(alloc, MANY_STAGES)?;
    match Table::new(alloc, first, MOST) {
        Ok(mut table) => Ok(text_of_log(rt, alloc, &mut table, log, scripts, versions)),
        Err(fault) => Err(fault),
    }
}

/// What is told of walks on a desk that is closed, of which the versions were read before.
fn text_of_closed<N: Naming, K: StateRepresentation, H: Threads + Sync>(
    rt: &H,
    alloc: Global,
    log: Result<Log<K>, CloseFault>,
    scripts: &[Script],
    versions: Result<Vec<Known<N, K>>, AllocError>,
) -> Result<&'static str, AllocError> {
    let versions = versions?;
    match log {
        Ok(log) => text_by_machine(rt, alloc, log.entries(), scripts, &versions),
        Err(_) => Ok("not closed"),
    }
}

/// What is told of walks on a desk, of which the first client reads the versions.
pub(crate) fn text_of_walks<N: Naming, K: StateRepresentation, H: Threads + Wait + Drop + Sync>(
    rt: &H,
    alloc: Global,
    desk: Desk<N, K, H>,
    clients: Vec<Client<N, K>>,
    scripts: &[Script],
) -> Result<String, AllocError>
    requires { N.clients ≡ N.parts }
{
    let mut clients = clients;
    let versions = versions_of(alloc, &mut clients);
    let told = text_of_closed(rt, alloc, log_of(desk, clients), scripts, versions)?;
    String::from_str(alloc, told)
}
