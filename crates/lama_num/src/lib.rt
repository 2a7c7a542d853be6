//! The bottom of the planner: decimal numbers, estimates, names of plan files, lists as contracts
//! see them, and the one answer that every call may give.
#![tactic(auto)]

mod bounds;
mod copies;
mod decimals;
mod equality;
mod estimates;
mod list;
mod memory;
mod names;
mod rows;

pub use bounds::is_below;
pub use copies::{Duplicate, duplicate_items};
pub use decimals::read_decimal;
pub use equality::{Same, same_items};
pub use estimates::{Estimate, LARGEST_ESTIMATE};
pub use list::Seq;
pub use memory::NoMemory;
pub use names::{MOST_PLANS, NameBuf};
pub use rows::Rows;
