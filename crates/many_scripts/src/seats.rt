//! A client with its script, which it answers in a thread of its own.
ghost use Rattle.std.specs.Prelude.{◌≡◌, ◌-◌, ◌^◌, ◌<◌, [], IfOk, IfErr};
ghost use Rattle.many_scripts.specs.Playing.{HasHeard};
ghost use Rattle.many_scripts.specs.Scripts.{EndsReading, IsPlay, IsReady};

use crate::access::Access;
use crate::fault::ManyFault;
use crate::headings::script_line;
use crate::playing::play;
use desk::{Client, Desk, Naming};
use level_pool::{NoGate, OneThread, Runner, Scoped, Workers};
use report_form::Format;
use script_lines::LineReader;
use serve_script::ServeFault;
use stage_graph::InShared;
use std::alloc::Global;
use std::sync::Wait;
use std::thread::Threads;
use text_io::{CountedWriter, Source};
use version_store::StateRepresentation;

/// A client with its script, and the text for it.
#[derive(Drop)]
pub(crate) struct Seat<'a, N: Naming, H: Wait + Drop, R> {
    pub(crate) rt: &'a H,
    pub(crate) alloc: Global,
    pub(crate) desk: &'a Desk<N, InShared, H>,
    pub(crate) workers: Workers,
    pub(crate) format: Format,
    pub(crate) client: Client<N, InShared>,
    pub(crate) source: R,
    pub(crate) text: Result<Vec<u8>, ManyFault>,
}

/// What a new client writes for its script in this format, where this many workers compute its levels.
pub(crate) fn play_by_workers<
    N: Naming,
    K: StateRepresentation,
    H: Threads + Wait + Drop + Sync,
    R: Source,
>(
    rt: &H,
    alloc: Global,
    desk: &Desk<N, K, H>,
    workers: Workers,
    format: Format,
    client: &mut Client<N, K>,
    source: &mut R,
) -> Result<Vec<u8>, ManyFault>
    requires { IsReady R.failures client.old source.old }
    ensures ok { IfOk result (λ text. IsPlay format R.remaining R.failures client.old source.old client.new text.items) }
    ensures err { IfErr result (EndsReading R.remaining R.failures source.old) }
{
    let count = workers.count();
    if count == 1 {
        let runner = &OneThread::new(rt);
        play_alone(
            &Access {
                rt,
                alloc,
                desk,
                runner,
                form: format.form(None),
            },
            format,
            client,
            source,
        )
    } else {
        let runner = &Scoped::new(rt, count, NoGate);
        play_alone(
            &Access {
                rt,
                alloc,
                desk,
                runner,
                form: format.form(None),
            },
            format,
            client,
            source,
        )
    }
}

/// What a new client writes for its script.
fn play_alone<N: Naming, K: StateRepresentation, H: Wait + Drop, W: Runner, R: Source>(
    access: &Access<'_, N, K, H, W>,
    format: Format,
    client: &mut Client<N, K>,
    source: &mut R,
) -> Result<Vec<u8>, ManyFault>
    requires heard { HasHeard client.old }
    requires new { client.old.calls ≡ [] }
    requires reads { R.failures source.old < 2 ^ 64 - 1 }
    ensures ok { IfOk result (λ text. IsPlay format R.remaining R.failures client.old source.old client.new text.items) }
    ensures err { IfErr result (EndsReading R.remaining R.failures source.old) }
{
    let mut sink = CountedWriter::new(script_line(access.alloc, format, client.number())?);
    let mut reader = LineReader::new(access.alloc)?;
    match play(access, format, client, &mut reader, source, &mut sink) {
        Ok(()) => Ok(sink.into_inner()),
        Err(ServeFault::Read) => Err(ManyFault::Read),
        Err(ServeFault::Write) | Err(ServeFault::Memory) => Err(ManyFault::Memory),
    }
}
