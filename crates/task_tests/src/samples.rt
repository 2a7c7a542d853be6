// A task of x and y with three values and of d and e, which are derived.
use lama_num::Seq;
use sas_task::{Fact, Operator, Parts, Rule, TaskError, Variable, check};
use std::alloc::{AllocError, Global};
use test_tasks::{effect, operator, rule, variable};

fn text(alloc: Global, bytes: &[u8]) -> Result<Seq<u8>, AllocError> {
    let mut text = Seq::new(alloc);
    for byte in bytes {
        text.push(*byte)?;
    }
    Ok(text)
}

fn variables(alloc: Global) -> Result<Seq<Variable>, AllocError> {
    let mut x = variable(alloc, None, 1)?;
    x.values.push(text(alloc, b"Atom at(ball, room)")?)?;
    x.values.push(text(alloc, b"Atom free")?)?;
    let mut variables = Seq::new(alloc);
    variables.push(x)?;
    variables.push(variable(alloc, Some(0), 2)?)?;
    variables.push(variable(alloc, Some(1), 2)?)?;
    variables.push(variable(alloc, None, 3)?)?;
    Ok(variables)
}

/// An operator that changes x and then y.
fn operators(alloc: Global, pre: &[Fact], cost: u32) -> Result<Seq<Operator>, AllocError> {
    let mut effects = Seq::new(alloc);
    effects.push(effect(alloc, &[], Fact { var: 0, val: 2 })?)?;
    effects.push(effect(alloc, &[], Fact { var: 3, val: 2 })?)?;
    let mut operators = Seq::new(alloc);
    operators.push(operator(alloc, pre, effects, cost)?)?;
    Ok(operators)
}

/// A rule whose condition is that e holds.
fn rules(alloc: Global, head: Fact) -> Result<Seq<Rule>, AllocError> {
    let mut rules = Seq::new(alloc);
    rules.push(rule(alloc, &[Fact { var: 2, val: 1 }], head)?)?;
    Ok(rules)
}

fn init(alloc: Global) -> Result<Seq<u32>, AllocError> {
    let mut init = Seq::new(alloc);
    for _ in 0..4 {
        init.push(0)?;
    }
    Ok(init)
}

/// By the operator's preconditions and cost, and the rule's head.
pub fn parts(alloc: Global, pre: &[Fact], cost: u32, head: Fact) -> Result<Parts, AllocError> {
    Ok(Parts {
        metric: cost > 2,
        variables: variables(alloc)?,
        groups: Seq::new(alloc),
        init: init(alloc)?,
        goal: Seq::new(alloc),
        operators: operators(alloc, pre, cost)?,
        rules: rules(alloc, head)?,
    })
}

/// The cause for which such parts are refused.
pub fn refusal(alloc: Global, cost: u32, head: Fact) -> Result<Option<TaskError>, AllocError> {
    match check(parts(alloc, &[], cost, head)?) {
        Ok(_) => Ok(None),
        Err(error) => Ok(Some(error)),
    }
}
