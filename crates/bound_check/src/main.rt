//! What `downward` does with more words than a task's name, and that its exit status is the run's:
//! `--bound 2 three_places.sas` leaves no plan, since the cheapest costs 2, and ends with 12.
#![tactic(auto)]

use program::start;
use std::process::ExitCode;

fn main(rt: HostRuntime) -> ExitCode {
    start(&rt)
}
