//! The planner over the real outside: what `downward` does with its words, and how it ends.
//!
//! The words of the command line go to the top call, over the current folder and standard output.
//! The exit status is the report's code; 40 where memory was wanting; 35 where the words can't be
//! had.
#![tactic(auto)]

ghost use Rattle.std.specs.Prelude.{◌≡◌, [], IfOk, OnErr, drop, map, string_bytes};
ghost use Rattle.std.specs.Process.{exit_status};
ghost use Rattle.run_report.specs.declared.report.Ended.{Ended as TheEnded};
ghost use Rattle.driver_run.specs.Runs.{IsRun};
ghost use Rattle.program.specs.Status.{status_of};

use driver_run::{Ended, run};
use host_real::{RealClock, RealHost, RealSink};
use lama_host::{Clock, Host, Sink};
use std::alloc::Global;
use std::process::{ExitCode, Processes};
use std::rt::{Clock as SystemClock, Env, Files};
use std::{env, io};

/// The words of this process, the program's name first.
fn args(rt: &(impl Env + AllocGlobal)) -> io::Result<Vec<String>> {
    Ok(env::args(rt)?.collect(rt.alloc())?)
}

/// The words behind the program's name.
fn behind_name(args: &[String]) -> &[String]
    ensures { result.now ≡ drop 1 args.now }
{
    if args.is_empty() { args } else { &args[1..] }
}

/// The exit code of a run: the report's, or 40.
fn exit(ended: &Ended) -> ExitCode
    ensures { exit_status result ≡ status_of ended.now }
{
    match ended {
        Ended::Done(report) => ExitCode::from(report.code),
        Ended::NoMemory => ExitCode::from(40),
    }
}

/// Runs the planner on the words behind the program's name, all of them and as they are. Where the
/// words can't be had, nothing is done, and the exit code is 35.
fn plan<H: Host, C: Clock, O: Sink>(
    alloc: Global,
    args: io::Result<Vec<String>>,
    host: &mut H,
    clock: &mut C,
    out: &mut O,
) -> ExitCode
    requires { (H.told host.old).busy ≡ [] }
    ensures lost { OnErr args ((exit_status result ≡ 35)
        × (host.new ≡ host.old) × (clock.new ≡ clock.old)) }
    ensures run { IfOk args (λ args. (ended : TheEnded) × (exit_status result ≡ status_of ended)
        × IsRun (map string_bytes (drop 1 args.items)) (H.told host.old) (H.told host.new)
        (C.last clock.old) (C.last clock.new) (C.answers clock.old) (C.answers clock.new) ended) }
    ensures quiet { out.new ≡ out.old }
{
    match args {
        Err(_) => ExitCode::from(35),
        Ok(args) => {
            let ended = run(alloc, behind_name(&args), host, clock, out);
            exit(&ended)
        }
    }
}

/// Runs the planner on the words of this process, over the current folder and standard output.
pub fn start<R: AllocGlobal + Env + Files + Processes + SystemClock + Print>(rt: &R) -> ExitCode {
    let args = args(rt);
    let mut host = RealHost::new(rt.alloc(), rt);
    let mut clock = RealClock::new(rt);
    let mut out = RealSink::new(rt);
    plan(rt.alloc(), args, &mut host, &mut clock, &mut out)
}
