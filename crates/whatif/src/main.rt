//! `whatif`: a what-if debugger for recorded runs of asynchronous Java services.
#![tactic(auto)]

mod at_once;
mod fault;

use at_once::run_many;
use command_help::told;
use command_line::{Command, CommandLine, Manner, WordsFault, parsed, without_help_of_help};
use commands::{
    RescueWords, refuse, run_compare, run_draw, run_export, run_fleet, run_import, run_new,
    run_page, run_report, run_report_stage, run_rescue, run_serve, run_try, swept_as,
};
use console::{Fault, run_check};
use conversation::run_console;
use level_pool::{OneThread, Runner};
use recording_reports::{StageReport, WholeReport};
use stage_graph::InShared;
use std::io::ErrorKind;
use std::process::ExitCode;
use std::sync::Wait;
use std::thread::Threads;
use version_store::StateRepresentation;

fn main(rt: HostRuntime) -> ExitCode {
    match run::<InShared, _, _>(&rt, rt, &OneThread::new(&rt)) {
        Ok(code) => code,
        Err(fault) => refuse(&rt, Manner::plain(), &fault),
    }
}

/// Answers the command line; graphs and versions keep their lists as `K` says. What ends an answer early is told in the
/// manner that the command line asks for.
fn run<K: StateRepresentation, H: Threads + Wait + Copy + Drop + Send + Sync, W: Runner>(
    rt: &HostRuntime,
    threads: H,
    runner: &W,
) -> Result<ExitCode, Fault> {
    let words = words(rt)?;
    match parsed(rt.alloc(), words.as_slice()) {
        Ok(CommandLine { command, manner }) => {
            match answer::<K, _, _>(rt, threads, runner, manner, command) {
                Ok(code) => Ok(code),
                Err(fault) => Ok(refuse(rt, manner, &fault)),
            }
        }
        Err(WordsFault::Told(error)) => match told(rt, &error) {
            Ok(code) => Ok(code),
            Err(fault) => Err(Fault::of_told(rt.alloc(), fault)),
        },
        Err(WordsFault::Missing) => Err(Fault::CommandLine),
    }
}

/// Does what the command line asks for, in the manner that it asks for.
fn answer<'a, K: StateRepresentation, H: Threads + Wait + Copy + Drop + Send + Sync, W: Runner>(
    rt: &'a HostRuntime,
    threads: H,
    runner: &W,
    manner: Manner,
    command: Command<'a>,
) -> Result<ExitCode, Fault> {
    match command {
        Command::Report { recording } => {
            run_report::<K>(rt, manner, recording, WholeReport::All)?
        }
        Command::Explain { recording, stage } => {
            let asked = StageReport::Explanation;
            run_report_stage::<K, _>(rt, threads, manner, recording, stage, asked)?
        }
        Command::Sweep {
            recording,
            stage,
            sweep,
        } => {
            let asked = StageReport::Sweep(swept_as(sweep));
            run_report_stage::<K, _>(rt, threads, manner, recording, stage, asked)?
        }
        Command::Slack {
            recording,
            stage,
            within,
        } => {
            let asked = StageReport::Slack { within };
            run_report_stage::<K, _>(rt, threads, manner, recording, stage, asked)?
        }
        Command::Rescue {
            recording,
            stage,
            by,
            value,
            most,
        } => {
            let words = RescueWords { by, value, most };
            run_rescue::<K, _>(rt, threads, manner, recording, stage, words)?
        }
        Command::Ends { recording } => {
            run_report::<K>(rt, manner, recording, WholeReport::Ends)?
        }
        Command::Failures { recording, origin } => match origin {
            None => run_report::<K>(rt, manner, recording, WholeReport::Failures)?,
            Some(_) => {
                let asked = StageReport::Failure;
                run_report_stage::<K, _>(rt, threads, manner, recording, origin, asked)?
            }
        },
        Command::Try { recording, trial } => {
            run_try::<K, _>(rt, runner, manner, recording, &trial)?
        }
        Command::Compare { good, bad, stage } => { run_compare::<K>(rt, manner, good, bad, stage)? }
        Command::Draw { recording, picture } => {
            run_draw::<K, _>(rt, runner, manner, recording, picture)?
        }
        Command::Page {
            recording,
            script,
            stage,
        } => run_page::<K, _, _>(rt, threads, runner, manner, recording, script, stage)?,
        Command::Check { recording } => return run_check(rt, manner, recording),
        Command::Serve { recording } => run_serve::<K, _>(rt, runner, manner, recording)?,
        Command::Console { recording, printed } => {
            run_console::<K, _>(rt, runner, manner, recording, printed)?
        }
        Command::Export { recording, script } => {
            run_export::<K, _>(rt, runner, manner, recording, script)?
        }
        Command::Many { recording, scripts } => run_many(rt, threads, manner, recording, &scripts)?,
        Command::Import {
            trace,
            wanted,
            mapping,
        } => return run_import(rt, manner, trace, wanted, mapping),
        Command::Fleet { fleet } => run_fleet::<K, _>(rt, &threads, manner, &fleet)?,
        Command::New { form } => run_new(rt, manner, form)?,
    }
    Ok(ExitCode::SUCCESS)
}

/// The words of the command line.
fn words(rt: &HostRuntime) -> Result<Vec<String>, Fault> {
    match std::env::args(rt) {
        Ok(words) => {
            let mut words = words.collect(rt.alloc())?;
            without_help_of_help(&mut words);
            Ok(words)
        }
        Err(error) if error.kind() == ErrorKind::OutOfMemory => Err(Fault::Memory),
        Err(_) => Err(Fault::CommandLine),
    }
}
