//! Small tasks for tests, as texts in the translator's output format, and parts of others.
#![tactic(auto)]

mod carrying;
mod four_values;
mod parts;
mod reading;
mod texts;

pub use carrying::gripper;
pub use four_values::moves;
pub use parts::{effect, fact, facts, giving, operator, rule, variable};
pub use reading::{read_task, task, task_of};
pub use texts::{
    at_the_goal, cut_short, door, free_moves, no_operator, one_name, risen_cost, rivals,
    same_names, swap, three_places, two_conditions, two_layers, wide_derived,
};
