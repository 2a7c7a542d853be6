//! What a phase of a search does, as its log tells it: which logs are lawful, how they end, what
//! they show, and when the clock is asked.
//!
//! `specs/` has the definitions. What they come to stands in `log_laws`. The search itself stands in
//! a crate above, and owes that its log is lawful.
#![tactic(auto)]

mod columns;
mod log;
mod setting;
mod space;
mod turns;

pub use log::Log;
pub use setting::{LimitHit, Setting, Stop};
pub use space::Space;
pub use turns::{Pop, PopResult, VisitAt};
