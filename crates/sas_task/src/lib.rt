//! Planning tasks in finite-domain variables: their parts, when they are well formed, and what
//! their operators do.
//!
//! `specs/` has the definitions that every other crate speaks of: well-formed parts, settled
//! states, steps, runs, plans and their costs.
#![tactic(auto)]

mod checking;
mod conditions;
mod contents;
mod facts;
mod limits;
mod order;
mod plans;
mod refusals;
mod rules;
mod tables;
mod task;

pub use checking::{accepted, check, is_good_rule};
pub use conditions::{all_hold, holds, is_derived};
pub use contents::{CostKind, Effect, Fact, Operator, Parts, Rule, Variable};
pub use limits::{
    HIGHEST_COST, HIGHEST_LAYER, LONGEST_NAME, MOST_FACTS, MOST_LISTED, MOST_OPERATORS, MOST_RULES,
    MOST_VARIABLES,
};
pub use plans::Kept;
pub use refusals::{TaskError, What};
pub use task::Task;
