//! Plan files: what is written for a plan, and what is read of any bytes.
//!
//! `specs/` says what the text of a plan is, and what the lines of a text are: steps, and then the
//! cost. The one is read back as the other.
#![tactic(auto)]

mod faults;
mod forms;
mod law;
mod reading;
mod writing;

pub use faults::{PlanTextError, PlanTextFault};
pub use law::written_is_read_back;
pub use reading::{MOST_PLAN_BYTES, PlanLines, lines};
pub use writing::write;
