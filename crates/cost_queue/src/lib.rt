//! Numbers that wait, each under a price; one that waits under the least price comes first.
#![tactic(auto)]

mod chains;
mod entry;
mod link;
mod queue;

pub use entry::Entry;
pub use queue::CostQueue;
