// Which best supporters of an order are needed, and their operators.
ghost use Rattle.std.specs.Prelude.{◌≡◌, ◌+◌, ◌<◌, ◌≤◌, ◌∷◌, [], ℕ, List, length, IsTrue};
ghost use Rattle.std.specs.Prelude.{vec_len, vec_capacity};
ghost use Rattle.relaxed_task.specs.declared.unary.Unary.{Unary as TheUnary};
ghost use Rattle.relaxed_task.specs.Numbers.{is_unary_below, over_numbers};
ghost use Rattle.relaxed_task.specs.Relaxing.{kept};
ghost use Rattle.h_add.specs.Orders.{chosen, are_places};
ghost use Rattle.h_ff.specs.Orders.{IsPlanned, ops_of};
ghost use Rattle.h_ff.specs.RelaxedPlans.{AreEachOnce};

use crate::flags::flag_all;
use relaxed_task::{Relaxed, Unary};

/// Keeps the last of an order that was not looked at, if what it gives is marked.
fn keep_last(unary: &Unary, marks: &mut [bool], operators: &mut Vec<u32>)
    requires facts { IsTrue (is_unary_below (length marks.old) unary.now) }
    requires room { vec_len operators.old < vec_capacity operators.old }
    ensures kept { (goals : List ℕ) (after : List TheUnary) →
        IsPlanned goals after marks.old operators.old.items →
        IsPlanned goals (unary.now ∷ after) marks.new operators.new.items }
    ensures few { vec_len operators.new ≤ vec_len operators.old + 1 }
    ensures room { vec_capacity operators.old ≤ vec_capacity operators.new }
{
    if marks[unary.gives as usize] {
        flag_all(marks, &unary.conds);
        if let Some(op) = unary.op {
            operators.push_reserved(op);
        }
    }
}

/// The operators of what is needed of an order of best supporters to reach the goal facts,
/// ascending, each once.
pub fn find(relaxed: &Relaxed, order: &[u32], marks: &mut [bool], operators: &mut Vec<u32>)
    requires marks { length marks.old ≡ relaxed.now.facts }
    requires places { IsTrue (are_places (length relaxed.now.unaries) order.now) }
    requires empty { operators.old.items ≡ [] }
    requires room { length order.now ≤ vec_capacity operators.old }
    ensures operators { AreEachOnce
        (ops_of (kept over_numbers relaxed.now.goals (chosen relaxed.now.unaries order.now)))
        operators.new.items }
    ensures marks { length marks.new ≡ length marks.old }
    ensures few { vec_len operators.new ≤ length order.now }
    ensures room { vec_capacity operators.old ≤ vec_capacity operators.new }
{
    let unaries = relaxed.unary();
    marks.fill(false);
    flag_all(marks, relaxed.goals());
    for k in (0..order.len()).rev() {
        keep_last(&unaries[order[k] as usize], marks, operators);
    }
    operators.sort_unstable();
    operators.dedup();
}
