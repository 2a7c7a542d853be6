//! Which landmarks are accepted along a path, and what that says of its last state.
#![tactic(auto)]

mod making;
mod status;
mod table;

pub use status::Status;
