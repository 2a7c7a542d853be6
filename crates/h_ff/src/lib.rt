//! The FF estimate of a state: what a relaxed plan costs, its operators, and those of them that are
//! applicable.
#![tactic(auto)]

mod ff;
mod flags;
mod keep;
mod operators;
mod plan;

pub use ff::Ff;
