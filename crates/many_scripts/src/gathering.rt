//! The clients with their scripts, in threads of their own, and their results.
ghost use Rattle.std.specs.Prelude.{◌≡◌, ◌<◌, ◌-◌, ◌^◌, ◌⊎◌, ◌++◌, ◌∷◌, [], map, All, Contains, Err, IfOk, IfErr, IsOkAnd, MatchResult, vec_len};
ghost use Rattle.std.specs.List.{AllZip};
ghost use Rattle.many_scripts.specs.Gathered.{AreGathered, ArePlayed, AreSeats, with_client};
ghost use Rattle.many_scripts.specs.Playing.{HasHeard};
ghost use Rattle.many_scripts.specs.Scripts.{EndsBy, EndsReading, IsPlay, IsReady};
ghost use Rattle.many_scripts.specs.declared.fault.ManyFault.{ManyFault};

use crate::fault::ManyFault;
use crate::seats::{Seat, play_by_workers};
use desk::{Client, Desk, Naming};
use level_pool::Workers;
use report_form::Format;
use stage_graph::InShared;
use std::alloc::{AllocError, Global};
use std::sync::Wait;
use std::thread::{self, Threads};
use text_io::Source;

/// Each client with its script, all of which are answered in this format.
fn seats_of<'a, N: Naming, H: Wait + Drop, R: Drop>(
    rt: &'a H,
    alloc: Global,
    desk: &'a Desk<N, InShared, H>,
    workers: Workers,
    format: Format,
    clients: Vec<Client<N, InShared>>,
    scripts: Vec<R>,
) -> Result<Vec<Seat<'a, N, H, R>>, AllocError>
    requires { vec_len clients ≡ vec_len scripts }
    ensures seats { IfOk result (λ seats. AreSeats seats.items (λ seat. seat.client) (λ seat. seat.source) clients.items scripts.items) }
    ensures format { IfOk result (λ seats. map (λ seat. seat.format) seats.items ≡ map (λ client. format) clients.items) }
{
    let mut seats = Vec::with_capacity(alloc, clients.len())?;
    let mut sources = scripts.into_iter();
    for client in clients {
        let Some(source) = sources.next() else {
            unreachable!()
        };
        seats.push_reserved(Seat {
            rt,
            alloc,
            desk,
            workers,
            format,
            client,
            source,
            text: Ok(Vec::new(alloc)),
        });
    }
    Ok(seats)
}

/// Each client answers its script, in a thread of its own if one can be started.
fn play_all<N: Naming + Send + Sync, H: Threads + Wait + Drop + Send + Sync, R: Source + Send>(
    rt: &H,
    seats: &mut [Seat<'_, N, H, R>],
)
    requires ready { All (λ seat. IsReady R.failures seat.client seat.source) seats.old }
    ensures { AllZip (λ before after. MatchResult after.text (λ text. IsPlay before.format R.remaining R.failures before.client before.source after.client text.items) (EndsReading R.remaining R.failures before.source)) seats.old seats.new }
{
    let threads = seats.len().max(1);
    thread::for_each_mut(
        rt,
        seats,
        threads,
        &|_, seat: &mut Seat<'_, N, H, R>|
            requires { IsReady R.failures seat.now.client seat.now.source }
            ensures { MatchResult seat.exit.now.text (λ text. IsPlay seat.entry.now.format R.remaining R.failures seat.entry.now.client seat.entry.now.source seat.exit.now.client text.items) (EndsReading R.remaining R.failures seat.entry.now.source) }
        {
            seat.text = play_by_workers(
                seat.rt,
                seat.alloc,
                seat.desk,
                seat.workers,
                seat.format,
                &mut seat.client,
                &mut seat.source,
            );
        },
    );
}

/// The clients that have ended, and the texts of their scripts one after the other.
#[derive(Drop)]
pub(crate) struct Ended<C> {
    pub(crate) clients: Vec<C>,
    pub(crate) texts: Vec<u8>,
}

/// Adds a client with the text of its script.
fn add_client<C: Drop>(
    client: C,
    mut text: Vec<u8>,
    clients: &mut Vec<C>,
    output: &mut Vec<u8>,
) -> Result<(), AllocError>
    ensures clients { IfOk result (λ _. clients.new.items ≡ clients.old.items ++ client ∷ []) }
    ensures output { IfOk result (λ _. output.new.items ≡ output.old.items ++ text.items) }
{
    output.append(&mut text)?;
    clients.reserve(1)?;
    clients.push_reserved(client);
    Ok(())
}

/// The clients that have ended with one more, if all scripts were played.
fn with_one_more<C: Drop>(
    gathered: Result<Ended<C>, ManyFault>,
    client: C,
    text: Result<Vec<u8>, ManyFault>,
) -> Result<Ended<C>, ManyFault>
    ensures ok { IfOk result (λ after. IsOkAnd gathered (λ before. (after.clients.items ≡ before.clients.items ++ client ∷ []) × IsOkAnd text (λ told. after.texts.items ≡ before.texts.items ++ told.items))) }
    ensures err { IfErr result (λ fault. (fault ≡ ManyFault.Memory) ⊎ ((gathered ≡ Err fault) ⊎ (text ≡ Err fault))) }
{
    let text = text?;
    let ended = gathered?;
    let Ended {
        mut clients,
        mut texts,
    } = ended;
    add_client(client, text, &mut clients, &mut texts)?;
    Ok(Ended { clients, texts })
}

/// The clients, and the texts of their scripts one after the other, if all were played.
fn gather<N: Naming, H: Wait + Drop, R: Drop>(
    alloc: Global,
    seats: Vec<Seat<'_, N, H, R>>,
) -> Result<Ended<Client<N, InShared>>, ManyFault>
    ensures ok { IfOk result (λ ended. AreGathered (map (λ seat. with_client seat.client seat.text) seats.entry.items) (λ played. played.0) (λ played. played.1.items) ended.clients.items ended.texts.items) }
    ensures err { IfErr result (λ fault. (fault ≡ ManyFault.Memory) ⊎ Contains (map (λ seat. with_client seat.client seat.text) seats.entry.items) (Err fault)) }
{
    let clients = Vec::new(alloc);
    let texts = Vec::new(alloc);
    let mut gathered = Ok(Ended { clients, texts });
    for seat in seats {
        let Seat { client, text, .. } = seat;
        gathered = with_one_more(gathered, client, text);
    }
    gathered
}

/// The clients once each has answered its script, in threads of their own if these can be started.
pub(crate) fn ended_by<
    N: Naming + Send + Sync,
    H: Threads + Wait + Drop + Send + Sync,
    R: Source + Send + Drop,
>(
    rt: &H,
    alloc: Global,
    desk: &Desk<N, InShared, H>,
    workers: Workers,
    format: Format,
    clients: Vec<Client<N, InShared>>,
    scripts: Vec<R>,
) -> Result<Ended<Client<N, InShared>>, ManyFault>
    requires len { vec_len clients ≡ vec_len scripts }
    requires heard { All HasHeard clients.items }
    requires new { All (λ client. client.calls ≡ []) clients.items }
    requires reads { All (λ script. R.failures script < 2 ^ 64 - 1) scripts.items }
    ensures ok { IfOk result (λ ended. ArePlayed format R.remaining R.failures clients.items scripts.items ended.clients.items ended.texts.items) }
    ensures err { IfErr result (EndsBy R.remaining R.failures scripts.items) }
{
    let mut seats = seats_of(rt, alloc, desk, workers, format, clients, scripts)?;
    play_all(rt, &mut seats);
    gather(alloc, seats)
}
