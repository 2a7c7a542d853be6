//! The phases of a configuration, one after another.
//!
//! `specs/Ends` says how each of them ends, `specs/Following` which one follows, and
//! `specs/Searches` what it asks of its search.
#![tactic(auto)]

mod ends;
mod phases;
mod searches;

pub use ends::{Begun, PhaseEnd};
pub use phase_guide::{PhaseGuide, guide};
pub use phases::Iterated;
