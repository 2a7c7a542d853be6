//! Exit codes: those of the parts of a run, as sets, and the one code of the whole run.
#![tactic(auto)]

mod combined;
mod parts;
mod sets;

pub use combined::combine;
pub use parts::{Part, norm};
pub use sets::Codes;
