// A task whose states are words of bits.
use crate::failing::Failure;
use crate::making::task;
use lama_num::Seq;
use sas_task::{Parts, Task, Variable};
use std::alloc::{AllocError, Global};
use test_tasks::variable;

/// Variables of two values.
fn variables(alloc: Global, end: u32) -> Result<Seq<Variable>, AllocError> {
    let mut variables = Seq::new(alloc);
    for _ in 0..end {
        variables.push(variable(alloc, None, 2)?)?;
    }
    Ok(variables)
}

/// All of them 0.
fn init(alloc: Global, end: u32) -> Result<Seq<u32>, AllocError> {
    let mut init = Seq::new(alloc);
    for _ in 0..end {
        init.push(0)?;
    }
    Ok(init)
}

fn parts(alloc: Global, end: u32) -> Result<Parts, AllocError> {
    let variables = variables(alloc, end)?;
    let init = init(alloc, end)?;
    Ok(Parts {
        metric: false,
        variables,
        groups: Seq::new(alloc),
        init,
        goal: Seq::new(alloc),
        operators: Seq::new(alloc),
        rules: Seq::new(alloc),
    })
}

/// The task with as many variables of two values as there are bits in so many words.
pub fn bits(alloc: Global, words: u32) -> Result<Task, Failure> {
    task(parts(alloc, words.saturating_mul(64)))
}
