// A task with layers of rules.
use crate::failing::Failure;
use crate::making::task;
use lama_num::Seq;
use sas_task::{Parts, Rule, Task, Variable};
use std::alloc::{AllocError, Global};
use test_tasks::{fact, rule, variable};

/// How many variables a layer has.
const WIDTH: u32 = 100;

/// Variables of two values: first those that aren't derived, and then layer by layer.
fn variables(alloc: Global, end: u32) -> Result<Seq<Variable>, AllocError> {
    let mut variables = Seq::new(alloc);
    for var in 0..end {
        variables.push(variable(alloc, (var / WIDTH).checked_sub(1), 2)?)?;
    }
    Ok(variables)
}

/// What isn't derived is 1, and what is derived isn't given.
fn init(alloc: Global, end: u32) -> Result<Seq<u32>, AllocError> {
    let mut init = Seq::new(alloc);
    for var in 0..end {
        init.push(u32::from(var < WIDTH))?;
    }
    Ok(init)
}

/// A derived variable is given where the one below it is, and the next one of its layer.
fn rule_for(alloc: Global, var: u32) -> Result<Rule, AllocError> {
    let next = var.saturating_add(1);
    let below = fact(var.saturating_sub(WIDTH), 1);
    if next % WIDTH == 0 {
        rule(alloc, &[below], fact(var, 1))
    } else {
        rule(alloc, &[below, fact(next, 1)], fact(var, 1))
    }
}

fn rules(alloc: Global, end: u32) -> Result<Seq<Rule>, AllocError> {
    let mut rules = Seq::new(alloc);
    for var in WIDTH..end {
        rules.push(rule_for(alloc, var)?)?;
    }
    Ok(rules)
}

fn parts(alloc: Global, end: u32) -> Result<Parts, AllocError> {
    let variables = variables(alloc, end)?;
    let init = init(alloc, end)?;
    let rules = rules(alloc, end)?;
    Ok(Parts {
        metric: false,
        variables,
        groups: Seq::new(alloc),
        init,
        goal: Seq::new(alloc),
        operators: Seq::new(alloc),
        rules,
    })
}

/// The task with so many layers. Its rules stand in the order in which none but the last of a layer
/// can be taken at once.
pub fn layered(alloc: Global, layers: u32) -> Result<Task, Failure> {
    let end = layers.saturating_add(1).saturating_mul(WIDTH);
    task(parts(alloc, end))
}
