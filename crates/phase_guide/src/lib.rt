//! The guide of a phase of a configuration: the additive estimate, FF and the landmark estimate, as
//! far as the phase goes by them.
//!
//! `specs/Fits` says which answers fit which path, and `specs/Guides` for what a guide is made.
#![tactic(auto)]

mod answers;
mod guiding;
mod kinds;
mod making;
mod preferring;
mod relaxing;

pub use guiding::PhaseGuide;
pub use making::guide;
