//! Lazy best-first search of one phase, with several guides and preferred operators, after Richter and
//! Westphal, "The LAMA Planner" (2010).
//!
//! `specs/Ends` says what an answer means, by the log that `search_log` speaks of.
#![tactic(auto)]

mod end;
mod entries;
mod machine;
mod outcomes;
mod paths;
mod phase;
mod rows;
mod searching;
mod shape;
mod states;
mod steps;

pub use end::SearchEnd;
pub use searching::search;
