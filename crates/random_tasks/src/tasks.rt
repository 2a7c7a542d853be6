// Random tasks.
use lama_num::Seq;
use rand_core::utils::NextWord;
use rand_pcg::Pcg32;
use sas_task::{Effect, Fact, Operator, Parts, Rule, Task, Variable, check};
use std::alloc::{AllocError, Global};
use std::test::Fail;
use test_tasks::{effect, fact, rule};

/// The variables that operators write; the one behind them is derived.
const WRITTEN: u32 = 3;

const RANGE: u32 = 4;

fn below(dice: &mut Pcg32, end: u32) -> u32 {
    dice.next_word() % end.max(1)
}

fn name(alloc: Global, dice: &mut Pcg32) -> Result<Seq<u8>, AllocError> {
    let names: [&[u8]; 4] = [b"a", b"b c", b"-1", b"end_operator"];
    let text = names[(dice.next_word() % 4) as usize];
    Ok(Seq::from(Vec::from_slice(alloc, text)?))
}

/// At most one value of each variable that operators write.
fn any_facts(alloc: Global, dice: &mut Pcg32) -> Result<Vec<Fact>, AllocError> {
    let mut facts = Vec::new(alloc);
    for var in 0..WRITTEN {
        if below(dice, 2) == 0 {
            facts.push(fact(var, below(dice, RANGE)))?;
        }
    }
    Ok(facts)
}

/// The same, and perhaps a value of the derived variable.
fn any_conditions(alloc: Global, dice: &mut Pcg32) -> Result<Vec<Fact>, AllocError> {
    let mut facts = any_facts(alloc, dice)?;
    if below(dice, 4) == 0 {
        facts.push(fact(WRITTEN, below(dice, 2)))?;
    }
    Ok(facts)
}

fn any_effects(alloc: Global, dice: &mut Pcg32) -> Result<Seq<Effect>, AllocError> {
    let mut effects = Seq::new(alloc);
    for given in any_facts(alloc, dice)?.as_slice() {
        let conds = any_conditions(alloc, dice)?;
        effects.push(effect(alloc, &conds, *given)?)?;
    }
    Ok(effects)
}

/// One cost in three is 0.
fn any_cost(dice: &mut Pcg32) -> u32 {
    if below(dice, 3) == 0 {
        0
    } else {
        below(dice, 1000)
    }
}

fn any_operator(alloc: Global, dice: &mut Pcg32) -> Result<Operator, AllocError> {
    let pre = any_conditions(alloc, dice)?;
    Ok(Operator {
        name: name(alloc, dice)?,
        pre: Seq::from(pre),
        effects: any_effects(alloc, dice)?,
        cost: any_cost(dice),
    })
}

fn any_operators(alloc: Global, dice: &mut Pcg32) -> Result<Seq<Operator>, AllocError> {
    let mut operators = Seq::new(alloc);
    for _ in 0..below(dice, 6) {
        operators.push(any_operator(alloc, dice)?)?;
    }
    Ok(operators)
}

fn any_rules(alloc: Global, dice: &mut Pcg32) -> Result<Seq<Rule>, AllocError> {
    let mut rules = Seq::new(alloc);
    for _ in 0..below(dice, 3) {
        let conds = any_facts(alloc, dice)?;
        rules.push(rule(alloc, &conds, fact(WRITTEN, 1))?)?;
    }
    Ok(rules)
}

fn variable(
    alloc: Global,
    dice: &mut Pcg32,
    layer: Option<u32>,
    range: u32,
) -> Result<Variable, AllocError> {
    let mut values = Seq::new(alloc);
    for _ in 0..range {
        values.push(name(alloc, dice)?)?;
    }
    Ok(Variable {
        name: name(alloc, dice)?,
        layer,
        values,
    })
}

fn variables(alloc: Global, dice: &mut Pcg32) -> Result<Seq<Variable>, AllocError> {
    let mut variables = Seq::new(alloc);
    for _ in 0..WRITTEN {
        variables.push(variable(alloc, dice, None, RANGE)?)?;
    }
    variables.push(variable(alloc, dice, Some(0), 2)?)?;
    Ok(variables)
}

fn any_groups(alloc: Global, dice: &mut Pcg32) -> Result<Seq<Seq<Fact>>, AllocError> {
    let mut groups = Seq::new(alloc);
    for _ in 0..below(dice, 3) {
        groups.push(Seq::from(any_facts(alloc, dice)?))?;
    }
    Ok(groups)
}

fn any_parts(alloc: Global, dice: &mut Pcg32) -> Result<Parts, AllocError> {
    let init = [
        below(dice, RANGE),
        below(dice, RANGE),
        below(dice, RANGE),
        0,
    ];
    Ok(Parts {
        metric: true,
        variables: variables(alloc, dice)?,
        groups: any_groups(alloc, dice)?,
        init: Seq::from(Vec::from_slice(alloc, &init)?),
        goal: Seq::from(any_conditions(alloc, dice)?),
        operators: any_operators(alloc, dice)?,
        rules: any_rules(alloc, dice)?,
    })
}

/// A task with at most 64 states, five operators, some of which may cost nothing, conditional
/// effects, and at most two rules for a derived variable.
pub fn random_task(alloc: Global, dice: &mut Pcg32) -> Result<Task, Fail> {
    Ok(check(any_parts(alloc, dice)?)?)
}
