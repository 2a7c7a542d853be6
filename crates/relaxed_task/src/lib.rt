//! The delete relaxation of a task: unary operators, and facts by number.
#![tactic(auto)]

mod conditions;
mod making;
mod relaxation;
mod unary;

pub use relaxation::{Lists, Relaxed};
pub use unary::Unary;
