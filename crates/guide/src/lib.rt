//! What guides a search: estimates of states, dead states and preferred operators.
#![tactic(auto)]

mod blind;
mod guide;
mod seen;

pub use blind::Blind;
pub use guide::Guide;
pub use seen::Seen;
