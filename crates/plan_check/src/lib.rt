//! The judge of plan files: whether any bytes are a plan of a task, and if not, why.
//!
//! `specs/Verdicts.antt` says which verdict bytes get. Several operators may have one name; a file
//! is good where some choice of operators with its names is a plan of the stated cost.
#![tactic(auto)]

mod alone;
mod candidates;
mod choosing;
mod judging;
mod layers;
mod names;
mod picking;
mod refusals;
mod setup;
mod tracing;
mod verdicts;
mod walker;
mod widening;

pub use judging::judge;
pub use verdicts::{PlanFault, Verdict};
