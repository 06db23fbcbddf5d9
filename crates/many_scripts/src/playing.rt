//! A client's loop over its script.
ghost use Rattle.std.specs.Prelude.{◌≡◌, ◌+◌, ◌-◌, ◌^◌, ◌<◌, [], OnOk, IfErr};
ghost use Rattle.serve_script.specs.Faults.{failed_writes_of_serve, is_read_fault};
ghost use Rattle.script_lines.specs.LineReader.{StopsReading};
ghost use Rattle.many_scripts.specs.Playing.{HasHeard, PlaysScript};

use crate::access::Access;
use crate::lines::answer_any;
use desk::{Client, Naming};
use level_pool::Runner;
use recording::StepReader;
use report_form::Format;
use script_lines::LineReader;
use serve_script::ServeFault;
use std::sync::Wait;
use text_io::{Sink, Source};
use version_store::StateRepresentation;

/// Reads a script to its end, and answers its lines as they come.
pub(crate) fn play<
    N: Naming,
    K: StateRepresentation,
    H: Wait + Drop,
    W: Runner,
    R: Source,
    S: Sink,
>(
    access: &Access<'_, N, K, H, W>,
    format: Format,
    client: &mut Client<N, K>,
    reader: &mut LineReader,
    source: &mut R,
    sink: &mut S,
) -> Result<(), ServeFault>
    requires heard { HasHeard client.old }
    requires nothing { reader.old.waiting ≡ [] }
    requires count { reader.old.left < 2 ^ 64 - 1 }
    requires reads { R.failures source.old < 2 ^ 64 - 1 }
    requires writes { S.failures sink.old < 2 ^ 64 - 1 }
    ensures ok { OnOk result (PlaysScript format reader.old.left client.old client.new (R.remaining source.old) (R.remaining source.new)
        (R.failures source.old) (R.failures source.new) (S.held sink.old) (S.held sink.new)) }
    ensures err { IfErr result (λ fault. StopsReading (is_read_fault fault) reader.old.left (R.remaining source.old) (R.remaining source.new)
        (R.failures source.old) (R.failures source.new)) }
    ensures failures { S.failures sink.new ≡ S.failures sink.old + failed_writes_of_serve result }
{
    let mut steps = StepReader::new(access.alloc);
    let mut number = 1;
    while reader.advance(source)? {
        answer_any(
            access,
            format.form(Some(number)),
            client,
            &mut steps,
            reader.line(),
            sink,
        )?;
        number += 1;
    }
    answer_any(
        access,
        format.form(Some(number)),
        client,
        &mut steps,
        reader.line(),
        sink,
    )?;
    Ok(())
}
