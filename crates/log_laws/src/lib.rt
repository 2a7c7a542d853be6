//! What lawful logs of a search come to: their plans are plans, what they exhaust has no plan, and
//! they keep to the room of a phase.
//!
//! `search_log` has the definitions. The contract of each function here is a theorem about them.
#![tactic(auto)]

mod example;
mod theorems;

pub use example::rivals_have_no_plan;
pub use theorems::{
    goal_visits_have_plans, late_answers_end_logs, limits_are_below_the_room,
    logs_keep_to_the_room, logs_with_nothing_left_are_exhausted,
    no_cheaper_plan_leaves_an_exact_space, no_plan_leaves_an_exhausted_space,
};
