//! Candidates for plans: reading whole files, judging the plan files that a child left, and keeping
//! plans.
#![tactic(auto)]

mod collecting;
mod judging;
mod keeping;
mod offers;
mod reading;

pub use collecting::collect;
pub use keeping::keep_candidate;
pub use offers::{Candidate, Found};
pub use reading::{ReadError, Whole, read_whole};
