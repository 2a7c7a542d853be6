// Parts of tasks without names.
use lama_num::Seq;
use sas_task::{Effect, Fact, Operator, Rule, Variable};
use std::alloc::{AllocError, Global};

pub fn fact(var: u32, val: u32) -> Fact {
    Fact { var, val }
}

pub fn facts(alloc: Global, facts: &[Fact]) -> Result<Seq<Fact>, AllocError> {
    Ok(Seq::from(Vec::from_slice(alloc, facts)?))
}

/// A variable with so many values.
pub fn variable(alloc: Global, layer: Option<u32>, range: u32) -> Result<Variable, AllocError> {
    let mut values = Seq::new(alloc);
    for _ in 0..range {
        values.push(Seq::new(alloc))?;
    }
    Ok(Variable {
        name: Seq::new(alloc),
        layer,
        values,
    })
}

/// An effect under conditions.
pub fn effect(alloc: Global, conds: &[Fact], fact: Fact) -> Result<Effect, AllocError> {
    let conds = facts(alloc, conds)?;
    Ok(Effect { conds, fact })
}

/// An operator.
pub fn operator(
    alloc: Global,
    pre: &[Fact],
    effects: Seq<Effect>,
    cost: u32,
) -> Result<Operator, AllocError> {
    let pre = facts(alloc, pre)?;
    Ok(Operator {
        name: Seq::new(alloc),
        pre,
        effects,
        cost,
    })
}

/// An operator with one effect, which has no conditions.
pub fn giving(alloc: Global, pre: &[Fact], fact: Fact, cost: u32) -> Result<Operator, AllocError> {
    let mut effects = Seq::new(alloc);
    effects.push(effect(alloc, &[], fact)?)?;
    operator(alloc, pre, effects, cost)
}

pub fn rule(alloc: Global, conds: &[Fact], head: Fact) -> Result<Rule, AllocError> {
    let conds = facts(alloc, conds)?;
    Ok(Rule { conds, head })
}
