//! The top call: a command line and a folder go in, plan files and a report come out.
#![tactic(auto)]

mod aims;
mod entry;
mod phases;
mod progress;
mod running;
mod task_file;
mod words;

pub use candidates::{Candidate, Found, ReadError, Whole, read_whole};
pub use run_report::{Ended, EntryEnd, Input, Opt, Outcome, Past, Report, Why, WordsFault};
pub use running::run;
