//! The plan files of a base in a folder: clearing them, keeping a plan, and sealing, after which
//! the folder holds just the plans.
//!
//! Each call states the steps that the folder passes. What they leave follows from the steps by the
//! laws of `specs/Laws.antt`, and what stands meanwhile by `specs/Moments.antt`.
//!
//! No call takes memory, and none goes on after a call of the folder that failed.
#![tactic(auto)]

mod clearing;
mod comparing;
mod families;
mod keeping;
mod sealing;
mod text;

pub use clearing::{clear, clear_child};
pub use families::FamilyFile;
pub use keeping::keep;
pub use sealing::seal;
