// What becomes of the entries that are taken.
ghost use Rattle.std.specs.Prelude.{◌≡◌};
ghost use Rattle.lazy_search.specs.Outcomes.{pop_by as the_pop, outcome_of as the_outcome};
ghost use Rattle.lazy_search.specs.Outcomes.{turned_by as the_turned};

use crate::steps::Turned;
use open_lists::Popped;
use search_log::{Pop, PopResult};

pub(crate) fn pop_by(popped: Popped, outcome: PopResult) -> Pop
    ensures { result ≡ the_pop popped outcome }
{
    Pop {
        list: popped.list,
        parent: popped.entry.parent,
        op: popped.entry.op,
        result: outcome,
    }
}

/// What becomes of an entry whose state is visited.
pub(crate) fn outcome_of(again: bool, dead: bool, goal: bool) -> PopResult
    ensures { result ≡ the_outcome again dead goal }
{
    if dead {
        PopResult::Dead
    } else if again {
        PopResult::Again
    } else if goal {
        PopResult::Goal
    } else {
        PopResult::Visited
    }
}

/// How a turn went that visits a state.
pub(crate) fn turned_by(outcome: PopResult) -> Turned
    ensures { result ≡ the_turned outcome }
{
    match outcome {
        PopResult::Goal => Turned::AtGoal,
        PopResult::Full => Turned::AtFull,
        _ => Turned::Done,
    }
}
