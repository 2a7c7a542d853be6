// What an evaluator answers, as plain numbers, by functions that promise nothing, so that the proof
// of a test has nothing to carry. Each big value is given up in one place.
use h_add::Add;
use lama_num::{Estimate, NoMemory};
use sas_task::{CostKind, Fact, Task};
use std::alloc::{AllocError, Global};
use test_tasks::fact;

/// In place of an infinite estimate.
pub const NEVER: u32 = 4_294_967_295;

/// The largest estimate.
pub const MOST: u32 = 1_000_000_000;

fn plain(estimate: Estimate) -> u32 {
    match estimate {
        Estimate::Finite(cost) => cost,
        Estimate::Infinite => NEVER,
    }
}

fn narrow(number: usize) -> u32 {
    number.min(4_294_967_295) as u32
}

/// Adds what the facts of a variable cost.
fn push_variable(
    answers: &mut Vec<u32>,
    add: &Add,
    var: u32,
    values: u32,
) -> Result<(), AllocError> {
    for val in 0..values {
        answers.push(plain(add.value(fact(var, val))))?;
    }
    Ok(())
}

/// Adds what all facts cost, then the goal's value, and 1 where the state is dead.
fn push_all(answers: &mut Vec<u32>, add: &Add, task: &Task) -> Result<(), AllocError> {
    for (var, variable) in task.parts().variables.as_slice().iter().enumerate() {
        push_variable(answers, add, narrow(var), narrow(variable.values.len()))?;
    }
    answers.push(plain(add.goal_value()))?;
    answers.push(u32::from(add.is_dead()))?;
    Ok(())
}

fn push_evaluated(
    answers: &mut Vec<u32>,
    add: &mut Add,
    task: &Task,
    state: &[u32],
) -> Result<(), AllocError> {
    add.evaluate(state);
    push_all(answers, add, task)
}

fn push_without(
    answers: &mut Vec<u32>,
    add: &mut Add,
    task: &Task,
    state: &[u32],
    without: &[Fact],
) -> Result<(), AllocError> {
    add.evaluate_without(state, without);
    push_all(answers, add, task)
}

/// Adds how many facts and goal facts there are, and the best supporters in order.
fn push_order(answers: &mut Vec<u32>, add: &mut Add, state: &[u32]) -> Result<(), AllocError> {
    add.evaluate(state);
    answers.push(narrow(add.costs().len()))?;
    answers.push(narrow(add.relaxed().goals().len()))?;
    for place in add.order() {
        answers.push(*place)?;
    }
    Ok(())
}

fn evaluated(
    alloc: Global,
    add: &mut Add,
    task: &Task,
    state: &[u32],
) -> Result<Vec<u32>, NoMemory> {
    let mut answers = Vec::new(alloc);
    push_evaluated(&mut answers, add, task, state)?;
    answers.push(plain(add.evaluate_goal(state)))?;
    Ok(answers)
}

fn told(alloc: Global, task: &Task, kind: CostKind, state: &[u32]) -> Result<Vec<u32>, NoMemory> {
    let mut add = Add::new(alloc, task, kind)?;
    evaluated(alloc, &mut add, task, state)
}

/// The answers of a state, and after these the goal's value alone.
pub fn answers(
    alloc: Global,
    task: Task,
    kind: CostKind,
    state: &[u32],
) -> Result<Vec<u32>, NoMemory> {
    told(alloc, &task, kind, state)
}

fn ordered(alloc: Global, add: &mut Add, state: &[u32]) -> Result<Vec<u32>, NoMemory> {
    let mut answers = Vec::new(alloc);
    push_order(&mut answers, add, state)?;
    Ok(answers)
}

fn order_told(alloc: Global, task: &Task, state: &[u32]) -> Result<Vec<u32>, NoMemory> {
    let mut add = Add::new(alloc, task, CostKind::Normal)?;
    ordered(alloc, &mut add, state)
}

/// How many facts and goal facts an evaluator has, and the best supporters of what is reached from
/// a state, in order.
pub fn order(alloc: Global, task: Task, state: &[u32]) -> Result<Vec<u32>, NoMemory> {
    order_told(alloc, &task, state)
}

fn evaluated_without(
    alloc: Global,
    add: &mut Add,
    task: &Task,
    state: &[u32],
    without: &[Fact],
) -> Result<Vec<u32>, NoMemory> {
    let mut answers = Vec::new(alloc);
    push_without(&mut answers, add, task, state, without)?;
    push_evaluated(&mut answers, add, task, state)?;
    Ok(answers)
}

fn told_without(
    alloc: Global,
    task: &Task,
    state: &[u32],
    without: &[Fact],
) -> Result<Vec<u32>, NoMemory> {
    let mut add = Add::new(alloc, task, CostKind::Normal)?;
    evaluated_without(alloc, &mut add, task, state, without)
}

/// The answers of a state without some facts, and after these those with all facts.
pub fn answers_without(
    alloc: Global,
    task: Task,
    state: &[u32],
    without: &[Fact],
) -> Result<Vec<u32>, NoMemory> {
    told_without(alloc, &task, state, without)
}
