//! Refusals that end the program.
use crate::format::format_of;
use command_line::Manner;
use console::{Fault, fault_line, reason_of};
use report_form::Format;
use std::io;
use std::process::ExitCode;

/// Prints why the program ends early, as answers are printed; where memory for that is out, as text.
fn print_refusal(rt: &HostRuntime, format: Format, fault: &Fault) -> io::Result<()> {
    let line = match format {
        Format::Text => None,
        Format::Json => fault_line(rt.alloc(), fault).ok(),
    };
    match line {
        Some(line) => rt.println(format_args!("{line}")),
        None => rt.println(format_args!("{fault}")),
    }
}

/// Says something to people.
fn say(rt: &HostRuntime, what: Option<&str>) {
    if let Some(what) = what {
        let _ = rt.eprintln(format_args!("whatif: {what}"));
    }
}

/// Prints why the program ends early, but for a fault of writing and for what was told already, and tells people of it;
/// the answer is its exit status, or that of a fault of writing where it can't be printed.
pub fn refuse(rt: &HostRuntime, manner: Manner, fault: &Fault) -> ExitCode {
    let printed = match fault {
        Fault::Write(_) | Fault::Strict | Fault::Step | Fault::Word(_) => Ok(()),
        Fault::CommandLine => {
            // (where standard error can't be written nobody can be told)
            let _ = rt.eprintln(format_args!("{fault}"));
            Ok(())
        }
        _ => print_refusal(rt, format_of(manner), fault),
    };
    say(rt, fault.why());
    match printed {
        Ok(()) => ExitCode::from(fault.status()),
        Err(error) => {
            if !manner.is_quiet {
                say(
                    rt,
                    reason_of(rt.alloc(), "standard output", error).as_deref(),
                );
            }
            ExitCode::from(Fault::Write(None).status())
        }
    }
}
