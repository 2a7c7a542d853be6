//! Tasks that are made, and the canonical texts of tasks.
//!
//! `specs/Delivery.antt` has the task that is made for a number of packages, and
//! `specs/Printed.antt` the lines of a task's canonical text. What is printed is read back as the
//! same task.
#![tactic(auto)]

mod delivery;
mod law;
mod lines;
mod printing;
mod waiting;

pub use delivery::generate;
pub use law::names_that_are_read;
pub use printing::print;
