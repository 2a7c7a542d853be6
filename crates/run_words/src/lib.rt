//! The words of the command line: the request that they make, or what is wrong with them.
#![tactic(auto)]

mod checks;
mod command;
mod faults;
mod line;
mod names;
mod request;
mod values;

pub use checks::read;
pub use faults::{Asked, Opt, WordsError, WordsFault};
pub use request::{Chosen, Request};
