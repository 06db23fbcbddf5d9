//! How desks are closed, and what is told of that.
ghost use Rattle.std.specs.Prelude.{◌≡◌};

use desk::{Client, CloseFault, Desk, Log, Naming};
use std::alloc::{AllocError, Global};
use std::sync::Wait;
use version_store::StateRepresentation;

/// The fault of a close that is refused, where desk and clients are dropped.
fn fault_of<D: Drop, C: Drop>(refused: (CloseFault, D, C)) -> CloseFault {
    let (fault, _, _) = refused;
    fault
}

/// The log of a desk that is closed.
pub(crate) fn log_of<N: Naming, K: StateRepresentation, H: Wait + Drop>(
    desk: Desk<N, K, H>,
    clients: Vec<Client<N, K>>,
) -> Result<Log<K>, CloseFault>
    requires { N.clients ≡ N.parts }
{
    match desk.close(clients) {
        Ok(log) => Ok(log),
        Err(refused) => Err(fault_of(refused)),
    }
}

/// How many entries a log has.
fn count_of<K: StateRepresentation>(log: Result<Log<K>, CloseFault>) -> Result<usize, CloseFault> {
    match log {
        Ok(log) => Ok(log.entries().len()),
        Err(fault) => Err(fault),
    }
}

/// What is told of a desk that is closed with so many entries, or is not.
fn text_of_entries(
    alloc: Global,
    entries: Result<usize, CloseFault>,
) -> Result<String, AllocError> {
    match entries {
        Ok(count) => format!(in alloc; "closed with {count} entries"),
        Err(fault) => format!(in alloc; "not closed, by {}", fault.number()),
    }
}

/// What is told of a desk that is closed.
pub(crate) fn text_of_close<N: Naming, K: StateRepresentation, H: Wait + Drop>(
    alloc: Global,
    desk: Desk<N, K, H>,
    clients: Vec<Client<N, K>>,
) -> Result<String, AllocError>
    requires { N.clients ≡ N.parts }
{
    text_of_entries(alloc, count_of(log_of(desk, clients)))
}

/// The last client joins the others again.
fn join<C: Drop>(clients: &mut Vec<C>, last: Option<C>) -> Result<(), AllocError> {
    if let Some(last) = last {
        clients.push(last)?;
    }
    Ok(())
}

/// What is told of a desk that came back with its clients from a close, by this fault, and is closed with the last one too.
fn text_of_second_close<N: Naming, K: StateRepresentation, H: Wait + Drop>(
    alloc: Global,
    fault: CloseFault,
    desk: Desk<N, K, H>,
    clients: Vec<Client<N, K>>,
    last: Option<Client<N, K>>,
) -> Result<String, AllocError>
    requires { N.clients ≡ N.parts }
{
    let mut clients = clients;
    let count = clients.len();
    let joined = join(&mut clients, last);
    let entries = count_of(log_of(desk, clients));
    joined?;
    text_of_both(alloc, fault, count, entries)
}

/// What is told of a close that was refused by a fault, with so many clients, and of the next one.
fn text_of_both(
    alloc: Global,
    fault: CloseFault,
    count: usize,
    entries: Result<usize, CloseFault>,
) -> Result<String, AllocError> {
    let end = text_of_entries(alloc, entries)?;
    let number = fault.number();
    format!(in alloc;
        "without its last client not closed, by {number}, and desk and {count} client come back; {end}"
    )
}

/// What is told of a desk that is closed too early, where its log and its last client are dropped.
fn text_of_early_close<N: Naming, K: StateRepresentation>(
    alloc: Global,
    _log: Log<K>,
    _last: Option<Client<N, K>>,
) -> Result<String, AllocError> {
    String::from_str(alloc, "closed without its last client")
}

/// What is told of a desk that was to be closed without its last client.
fn text_of_first_close<N: Naming, K: StateRepresentation, H: Wait + Drop>(
    alloc: Global,
    closed: Result<Log<K>, (CloseFault, Desk<N, K, H>, Vec<Client<N, K>>)>,
    last: Option<Client<N, K>>,
) -> Result<String, AllocError>
    requires { N.clients ≡ N.parts }
{
    match closed {
        Ok(log) => text_of_early_close(alloc, log, last),
        Err((fault, desk, clients)) => text_of_second_close(alloc, fault, desk, clients, last),
    }
}

/// What is told of a desk that is closed without its last client, and then with all of them.
pub(crate) fn text_of_closes<N: Naming, K: StateRepresentation, H: Wait + Drop>(
    alloc: Global,
    desk: Desk<N, K, H>,
    clients: Vec<Client<N, K>>,
) -> Result<String, AllocError>
    requires { N.clients ≡ N.parts }
{
    let mut clients = clients;
    let last = clients.pop();
    text_of_first_close(alloc, desk.close(clients), last)
}
