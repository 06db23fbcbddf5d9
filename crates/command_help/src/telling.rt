//! What `clap` says in place of an answer.
ghost use Rattle.std.specs.Prelude.{◌≡◌, ◌≢◌, ◌↔◌, Err, IfOk, IsOk};
ghost use Rattle.std.specs.Process.{exit_status};
ghost use Rattle.clap.specs.Values.{kind_of};
ghost use Rattle.clap.specs.declared.error.kind.ErrorKind.TheVariants.{OutOfMemory};
ghost use Rattle.command_help.specs.Told.{told_status};
ghost use Rattle.command_help.specs.declared.telling.ToldFault.TheVariants.{Memory};

use clap::error::ErrorKind;
use std::io;
use std::process::ExitCode;
use thiserror::Error;

/// Why nothing is said.
#[derive(Clone, Copy, Debug, Error)]
pub enum ToldFault {
    /// The command line was not read, since memory ran out.
    #[error("refused 90 Memory")]
    Memory,
    /// Standard output can't be written, for this reason.
    #[error("refused 40 WriteFault")]
    Write(io::Error),
}

/// Prints what `clap` says in place of an answer: help or the version that was asked for, or what is wrong with the command
/// line. The answer is the exit status. A mistake of the command line has its status where standard error can't be written
/// too, as nobody can be told then. Where memory ran out there is nothing to print, and it is the only fault then.
pub fn told(rt: &HostRuntime, error: &clap::Error) -> Result<ExitCode, ToldFault>
    ensures memory { (result ≡ Err Memory) ↔ (kind_of error.now ≡ OutOfMemory) }
    ensures status { IfOk result (λ code. exit_status code ≡ told_status (kind_of error.now)) }
    ensures mistake { kind_of error.now ≢ OutOfMemory → told_status (kind_of error.now) ≡ 2 → IsOk result }
{
    if error.kind() == ErrorKind::OutOfMemory {
        return Err(ToldFault::Memory);
    }
    let printed = error.print(rt);
    if error.use_stderr() {
        return Ok(ExitCode::from(2));
    }
    match printed {
        Ok(()) => Ok(ExitCode::from(0)),
        Err(error) => Err(ToldFault::Write(error)),
    }
}
