// What operators cost, and which of them are applicable.
ghost use Rattle.std.specs.Prelude.{◌≡◌, ◌≤◌, [], filter, length, vec_capacity};
ghost use Rattle.state_step.specs.Steps.{is_applicable as applicable};
ghost use Rattle.h_ff.specs.RelaxedPlans.{cost_of};

use lama_num::LARGEST_ESTIMATE;
use sas_task::{CostKind, Task, all_hold};

/// What operators cost together, at most 1,000,000,000.
pub fn cost(task: &Task, kind: CostKind, ops: &[u32]) -> u32
    ensures { result ≡ cost_of task.now kind ops.now }
{
    let mut sum = 0u32;
    for op in ops {
        sum = sum
            .saturating_add(task.adjusted_cost(*op, kind))
            .min(LARGEST_ESTIMATE);
    }
    sum
}

fn is_applicable(task: &Task, state: &[u32], op: u32) -> bool
    requires { length state.now ≡ length task.now.variables }
    ensures { result ≡ applicable task.now state.now op }
{
    let operators = &task.parts().operators;
    if (op as usize) < operators.len() {
        all_hold(state, &operators[op as usize].pre)
    } else {
        false
    }
}

/// Finds those operators that are applicable.
pub fn prefer(task: &Task, state: &[u32], ops: &[u32], preferred: &mut Vec<u32>)
    requires state { length state.now ≡ length task.now.variables }
    requires empty { preferred.old.items ≡ [] }
    requires room { length ops.now ≤ vec_capacity preferred.old }
    ensures preferred { preferred.new.items ≡ filter (applicable task.now state.now) ops.now }
    ensures room { vec_capacity preferred.old ≤ vec_capacity preferred.new }
{
    for op in ops {
        if is_applicable(task, state, *op) {
            preferred.push_reserved(*op);
        }
    }
}
