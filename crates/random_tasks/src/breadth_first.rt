// All states that can be reached, breadth first, each with the operators on the way to it.
use lama_num::NoMemory;
use sas_task::Task;
use state_step::Stepper;
use std::alloc::Global;

/// More states than a random task has.
const MANY: usize = 100;

/// A state that was reached, and the operators on the way to it.
#[derive(Drop)]
pub struct Found {
    pub state: Vec<u32>,
    pub ops: Vec<u32>,
}

/// The state that a task starts in.
pub fn start(alloc: Global, task: &Task) -> Result<Vec<u32>, NoMemory> {
    let mut stepper = Stepper::new(alloc, task)?;
    let mut state = vec![in alloc; 0; task.parts().variables.len()]?;
    stepper.initial(task, &mut state);
    Ok(state)
}

/// The state behind an operator, where it can be taken.
pub fn after(
    alloc: Global,
    task: &Task,
    state: &[u32],
    op: u32,
) -> Result<Option<Vec<u32>>, NoMemory> {
    let parts = task.parts();
    if op as usize >= parts.operators.len() || state.len() != parts.variables.len() {
        return Ok(None);
    }
    let mut stepper = Stepper::new(alloc, task)?;
    if !stepper.applicable(task, state, op) {
        return Ok(None);
    }
    let mut next = vec![in alloc; 0; state.len()]?;
    stepper.apply_into(task, state, op, &mut next);
    Ok(Some(next))
}

/// Whether the goal holds.
pub fn is_goal(task: &Task, state: &[u32]) -> bool {
    task.parts()
        .goal
        .as_slice()
        .iter()
        .all(|fact| state.get(fact.var as usize) == Some(&fact.val))
}

fn is_known(found: &[Found], state: &[u32]) -> bool {
    found.iter().any(|one| one.state.as_slice() == state)
}

fn take(
    alloc: Global,
    task: &Task,
    found: &mut Vec<Found>,
    at: usize,
    op: u32,
) -> Result<(), NoMemory> {
    let Some(from) = found.get(at) else {
        return Ok(());
    };
    let Some(state) = after(alloc, task, &from.state, op)? else {
        return Ok(());
    };
    let mut ops = from.ops.clone()?;
    ops.push(op)?;
    if !is_known(found, &state) {
        found.push(Found { state, ops })?;
    }
    Ok(())
}

fn expand(alloc: Global, task: &Task, found: &mut Vec<Found>, at: usize) -> Result<(), NoMemory> {
    for op in 0..task.parts().operators.len() {
        take(alloc, task, found, at, op as u32)?;
    }
    Ok(())
}

/// All states that can be reached, the start first, behind goals too.
pub fn reached(alloc: Global, task: &Task) -> Result<Vec<Found>, NoMemory> {
    let mut found = Vec::new(alloc);
    found.push(Found {
        state: start(alloc, task)?,
        ops: Vec::new(alloc),
    })?;
    for at in 0..MANY {
        expand(alloc, task, &mut found, at)?;
    }
    Ok(found)
}
