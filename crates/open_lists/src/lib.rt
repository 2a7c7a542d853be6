//! Open lists that take turns: a pop takes from the list of least counter the oldest entry of least
//! key (Richter and Westphal 2010, alternation of open lists with boosts).
#![tactic(auto)]

mod entry;
mod list;
mod lists;
mod map;
mod picks;
mod queue;
mod queues;
mod runs;

pub use entry::{Entry, Popped};
pub use lists::OpenLists;
