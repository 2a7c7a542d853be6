//! The planner as a program: `downward [--alias NAME | --search CONFIG] [--bound N] TASK`.
#![tactic(auto)]

use program::start;
use std::process::ExitCode;

fn main(rt: HostRuntime) -> ExitCode {
    start(&rt)
}
