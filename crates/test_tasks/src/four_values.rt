// A task of one variable of four values.
use crate::parts::{fact, facts, giving, variable};
use crate::reading::task_of;
use lama_num::Seq;
use sas_task::{Fact, Operator, Parts, Task};
use std::alloc::{AllocError, Global};
use std::test::Fail;

fn add_operator(
    alloc: Global,
    operators: &mut Seq<Operator>,
    from: Fact,
    to: Fact,
    cost: u32,
) -> Result<(), AllocError> {
    let operator = giving(alloc, &[from], to, cost)?;
    operators.push(operator)
}

fn operators(alloc: Global, free: u32, on: u32) -> Result<Seq<Operator>, AllocError> {
    let mut operators = Seq::new(alloc);
    add_operator(alloc, &mut operators, fact(0, 0), fact(0, 1), free)?;
    add_operator(alloc, &mut operators, fact(0, 1), fact(0, 0), free)?;
    add_operator(alloc, &mut operators, fact(0, 1), fact(0, 2), on)?;
    add_operator(alloc, &mut operators, fact(0, 1), fact(0, 2), on)?;
    Ok(operators)
}

fn parts(alloc: Global, free: u32, on: u32, goal: u32) -> Result<Parts, AllocError> {
    let mut variables = Seq::new(alloc);
    variables.push(variable(alloc, None, 4)?)?;
    let mut init = Seq::new(alloc);
    init.push(0)?;
    let goal = facts(alloc, &[fact(0, goal)])?;
    Ok(Parts {
        metric: true,
        variables,
        groups: Seq::new(alloc),
        init,
        goal,
        operators: operators(alloc, free, on)?,
        rules: Seq::new(alloc),
    })
}

/// The variable moves between its first two values at a cost, and on to the third at another, in
/// two ways. Nothing gives the last.
pub fn moves(alloc: Global, free: u32, on: u32, goal: u32) -> Result<Task, Fail> {
    match task_of(parts(alloc, free, on, goal)?) {
        Some(task) => Ok(task),
        None => Err(Fail::from("refused")),
    }
}
