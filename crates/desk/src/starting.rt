//! Starting a desk.
ghost use Rattle.std.specs.Prelude.{◌≡◌, ◌≤◌, ◌^◌, [], ◌∷◌, Some, IfOk, OnOk, slice_get};
ghost use Rattle.std.specs.Arc.{arc_value};
ghost use Rattle.left_right.specs.Handles.{published as shown};
ghost use Rattle.version_store.specs.Plain.{opening_version};
ghost use Rattle.session_core.specs.Machine.{opening};
ghost use Rattle.desk.specs.Clients.{AreNew};
ghost use Rattle.desk.specs.Shelving.{IsShelved};

use crate::client::Client;
use crate::desk::Desk;
use crate::front::{Archive, Front, NewArchive};
use crate::known::Known;
use crate::name::Naming;
use crate::publishing::longer_front;
use crate::shared::Shared;
use crate::shelf::{Count, Reader, Shelf, Shelved, first_shelf};
use left_right::WriteHandle;
use session_core::Table;
use share_tree::Again;
use std::alloc::{AllocError, Global};
use std::sync::ledger::{Blank, Share};
use std::sync::{Arc, Wait};
use version_store::{StateRepresentation, Version};

/// Starts a desk with a first version, and its clients with the numbers from 1 on. On an error nothing is returned.
pub fn start<N: Naming, R: StateRepresentation, W: Wait + Drop>(
    rt: W,
    alloc: Global,
    blank: Blank,
    archive: NewArchive<R>,
    first: Version<R>,
    clients: u32,
    most: u32,
) -> Result<(Desk<N, R, W>, Vec<Client<N, R>>), AllocError>
    requires name { blank.name ≡ N.name }
    requires parts { blank.parts ≡ N.parts }
    requires book { archive.seen.book ≡ N.book }
    requires clients { (1 ≤ clients) × (clients ≤ 64) × (blank.parts ≡ clients) × (N.clients ≡ clients) }
    requires first { first ≡ opening_version first.graph }
    requires most { (1 ≤ most) × (most ≤ 2 ^ 16) }
    requires opening { N.opening ≡ opening first most }
    ensures clients { IfOk result (λ started. AreNew (first ∷ []) clients started.1.items) }
{
    let (archive, front) = archive.named::<N>();
    let Opening {
        front,
        shelf,
        last,
        published,
    } = opening_of(rt, alloc, &archive, &front, &first, clients)?;
    let table = Table::new(alloc, first, most)?;
    let (entries, mut rest) = blank.open::<N>();
    let started = make_clients(alloc, &mut rest, &front, &shelf, &published, clients)?;
    let shared = Shared {
        table,
        front,
        entries,
        rest,
        shelf,
        last,
        published,
    };
    Ok((Desk::new(archive, shared, clients as usize), started))
}

/// What readers of a new desk share: the list of its first version, the shelf on which that lies, and how many are published.
#[derive(Drop)]
struct Opening<N: Naming, R: StateRepresentation, W: Wait + Drop> {
    front: Front<N, R>,
    shelf: Arc<Shelf<N, R>>,
    last: Shelved<N, R>,
    published: WriteHandle<Count, u64, W>,
}

/// The first version in the archive and on a new shelf, where readers see it.
fn opening_of<N: Naming, R: StateRepresentation, W: Wait + Drop>(
    rt: W,
    alloc: Global,
    archive: &Archive<N, R>,
    empty: &Front<N, R>,
    first: &Version<R>,
    clients: u32,
) -> Result<Opening<N, R, W>, AllocError>
    requires empty { empty.now ≡ [] }
    requires number { first.now.number ≡ 0 }
    requires clients { (1 ≤ clients) × (clients ≤ 64) }
    ensures front { IfOk result (λ opening. opening.front ≡ first.now ∷ []) }
    ensures last { IfOk result (λ opening. IsShelved (arc_value opening.shelf) opening.last first.now) }
    ensures published { IfOk result (λ opening. (shown opening.published).0 ≡ 1) }
{
    let front = longer_front(archive, empty, first)?;
    let (shelf, last) = first_shelf(&rt, alloc, Known::new(first.again()?, &front))?;
    Ok(Opening {
        front,
        shelf,
        last,
        published: WriteHandle::new(alloc, rt, Count(1), Count(1), clients as usize)?,
    })
}

/// This many clients, each with a part of the share.
fn make_clients<N: Naming, R: StateRepresentation, W: Wait + Drop>(
    alloc: Global,
    rest: &mut Share<N>,
    front: &Front<N, R>,
    shelf: &Arc<Shelf<N, R>>,
    published: &WriteHandle<Count, u64, W>,
    count: u32,
) -> Result<Vec<Client<N, R>>, AllocError>
    requires parts { rest.old.parts ≡ count }
    requires amount { rest.old.amount ≡ 0 }
    ensures new { IfOk result (λ clients. AreNew front.now count clients.items) }
    ensures rest { OnOk result ((rest.new.parts ≡ 0) × (rest.new.amount ≡ 0)) }
{
    let mut clients = Vec::new(alloc);
    for index in 0..count {
        let reader = Reader {
            count: published.handle()?,
            shelf: Arc::try_clone(shelf)?,
        };
        let client = Client {
            number: index + 1,
            calls: Vec::new(alloc),
            share: rest.split_off(1, 0),
            front: front.again(),
            reader,
        };
        clients.push(client)?;
    }
    Ok(clients)
}
