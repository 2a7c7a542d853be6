//! Random tasks for tests, and the plainest search of them.
#![tactic(auto)]

mod breadth_first;
mod tasks;

pub use breadth_first::{Found, after, is_goal, reached, start};
pub use rand_pcg::Pcg32;
pub use tasks::random_task;
