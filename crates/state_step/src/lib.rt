//! States of a task: the initial one, steps by operators, and runs of plans.
//!
//! `specs/` has what else callers need: where an operator is applicable, how a run ends, and the
//! laws that tie these to steps and plans.
#![tactic(auto)]

mod effects;
mod runs;
mod stepper;
mod tables;

pub use runs::RunEnd;
pub use stepper::Stepper;
