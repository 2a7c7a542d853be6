// States that are settled.
ghost use Rattle.std.specs.Prelude.{◌≡◌, length};
ghost use Rattle.axiom_eval.specs.Axioms.{IsFor};

use axiom_eval::Axioms;
use bench_tasks::{Failure, layered};
use lama_num::NoMemory;
use sas_task::Task;
use std::alloc::Global;

/// Changes the first of the values.
fn turn(values: &mut [u32]) {
    if !values.is_empty() {
        values[0] = u32::from(values[0] == 0);
    }
}

fn ones(values: &[u32]) -> u64 {
    let mut ones = 0u64;
    for value in values {
        ones = ones.wrapping_add(u64::from(*value == 1));
    }
    ones
}

/// Settles so many states, of which each next one differs in the first value.
fn settle(axioms: &mut Axioms, task: &Task, values: &mut [u32], rounds: u32)
    requires same_task { IsFor axioms.old task.now }
    requires long { length values.old ≡ length task.now.variables }
{
    for _ in 0..rounds {
        turn(values);
        axioms.settle(task, values);
    }
}

/// How many variables are 1 in the last state.
fn settled(alloc: Global, axioms: &mut Axioms, task: &Task, rounds: u32) -> Result<u64, NoMemory>
    requires { IsFor axioms.old task.now }
{
    let mut values = vec![in alloc; 1; task.parts().variables.len()]?;
    settle(axioms, task, &mut values, rounds);
    Ok(ones(&values))
}

fn settled_in(alloc: Global, task: &Task, rounds: u32) -> Result<u64, NoMemory> {
    match Axioms::new(alloc, task) {
        Ok(mut axioms) => settled(alloc, &mut axioms, task, rounds),
        Err(NoMemory) => Err(NoMemory),
    }
}

/// Settles so many states of a task with so many layers; the values that aren't derived begin as 1.
/// Tells how many variables are 1 in the last.
pub fn settle_layers(alloc: Global, layers: u32, rounds: u32) -> Result<u64, Failure> {
    match layered(alloc, layers) {
        Ok(task) => Ok(settled_in(alloc, &task, rounds)?),
        Err(error) => Err(error),
    }
}
