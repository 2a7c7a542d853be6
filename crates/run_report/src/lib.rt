//! What the report of a run tells.
#![tactic(auto)]

mod law;
mod report;

pub use law::{
    a_run_is_told, a_run_with_room_is_complete, a_turn_begins, a_turn_ends, a_turn_offers,
    one_more_phase, one_more_plan, phases_go_in_order, the_only_turn_ends_the_run,
};
pub use report::{Ended, EntryEnd, Input, Opt, Outcome, Past, Report, Why, WordsFault};
