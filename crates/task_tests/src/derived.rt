// Derived variables: what they are in the initial state, and what they become after an operator.
ghost use Rattle.std.specs.Prelude.{◌≡◌, length};
ghost use Rattle.state_step.specs.Stepper.{IsFor};

use lama_num::NoMemory;
use sas_task::Task;
use state_step::Stepper;
use std::alloc::Global;
use test_tasks::{read_task, two_layers};

/// Makes the initial state, and the state behind the first operator, where it is applicable there.
fn make_states(stepper: &mut Stepper, task: &Task, first: &mut [u32], next: &mut [u32])
    requires same_task { IsFor stepper.old task.now }
    requires first_long { length first.old ≡ length task.now.variables }
    requires next_long { length next.old ≡ length task.now.variables }
{
    stepper.initial(task, first);
    if !task.parts().operators.is_empty() && stepper.applicable(task, first, 0) {
        stepper.apply_into(task, first, 0, next);
    }
}

/// Whether a task has these values in the one state and in the other.
fn has_states(
    alloc: Global,
    stepper: &mut Stepper,
    task: &Task,
    initial: &[u32],
    after: &[u32],
) -> Result<bool, NoMemory>
    requires { IsFor stepper.old task.now }
{
    let variables = task.parts().variables.len();
    let mut first = vec![in alloc; 7; variables]?;
    let mut next = vec![in alloc; 7; variables]?;
    make_states(stepper, task, &mut first, &mut next);
    Ok(first.as_slice() == initial && next.as_slice() == after)
}

fn has_states_in(alloc: Global, task: &Task, initial: &[u32], after: &[u32]) -> Option<bool> {
    match Stepper::new(alloc, task) {
        Ok(mut stepper) => has_states(alloc, &mut stepper, task, initial, after).ok(),
        Err(NoMemory) => None,
    }
}

fn has_states_of(alloc: Global, text: &str, initial: &[u32], after: &[u32]) -> Option<bool> {
    match read_task(alloc, text) {
        Some(task) => has_states_in(alloc, &task, initial, after),
        None => None,
    }
}

#[test]
fn derived_variables_follow(rt: HostRuntime) {
    let follow = has_states_of(rt.alloc(), two_layers(), &[0, 0, 1], &[1, 1, 0]);
    assert!(rt; follow == Some(true));
}
