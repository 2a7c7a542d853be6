//! The outside of the planner, as traits: a folder of files, children, a clock, and what takes
//! bytes.
//!
//! A contract sees of a folder what it tells (`specs/Folder.antt`): what it holds, what it has
//! held, how often a call failed, and which children run. A real folder tells no content; one in
//! memory tells all.
//!
//! What is said of the steps of a folder, whoever takes them, stands in `specs/Steps.antt`, and
//! its laws in `specs/StepLaws.antt`.
#![tactic(auto)]

mod children;
mod files;
mod time;

pub use children::{ChildEnd, Host, Limits};
pub use files::{Failed, Folder, Piece};
pub use time::{Clock, Sink};
