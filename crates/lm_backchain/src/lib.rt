//! Landmarks by backchaining: facts, and small sets of facts, of which each plan makes one true,
//! and orders between them that hold in each plan.
//!
//! `specs/Landmarks` says what landmarks and their orders are, and `specs/Backchain` by which rules
//! they are found.
#![tactic(auto)]

mod backchaining;
mod facts;
mod firsts;
mod givers;
mod growing;
mod natural;
mod nodes;
mod singles;
mod taking_back;

pub use backchaining::landmarks;
