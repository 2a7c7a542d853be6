// Making the relaxation of a task.
ghost use Rattle.std.specs.Prelude.{◌≡◌, ◌+◌, ◌≤◌, ◌<◌, ◌++◌, ◌^◌, ℕ, [], length, map, slice_index};
ghost use Rattle.std.specs.Prelude.{IsTrue, IfOk, OnOk, List, Some, false};
ghost use Rattle.std.specs.List.{list_all};
ghost use Rattle.sas_task.specs.WellFormed.{fact_count, is_derived as derived};
ghost use Rattle.sas_task.specs.States.{IsState};
ghost use Rattle.sas_task.specs.Runs.{end_of, is_goal};
ghost use Rattle.relaxed_task.specs.Facts.{default_facts, distinct_facts};
ghost use Rattle.relaxed_task.specs.Numbers.{numbers_of, numbered_unaries};
ghost use Rattle.relaxed_task.specs.Reached.{IsDead};
ghost use Rattle.relaxed_task.specs.Relaxations.{IsOffsets, IsRelaxed};
ghost use Rattle.relaxed_task.specs.Making.{AreMarked, have_numbers, effect_has_numbers};
ghost use Rattle.relaxed_task.specs.Making.{operator_has_numbers, rule_has_numbers};
ghost use Rattle.relaxed_task.specs.Making.{effect_by, rule_by, operators_by, defaults_by};
ghost use Rattle.sas_task.specs.declared.limits.TheConstants.{MOST_FACTS};

use crate::conditions::{conditions, number};
use crate::relaxation::{Lists, Relaxed};
use crate::unary::Unary;
use lama_num::{NoMemory, Seq};
use sas_task::{CostKind, Effect, Fact, Operator, Rule, Task, Variable};
use std::alloc::{AllocError, Global};

/// How many facts there are.
fn count_facts(variables: &[Variable]) -> u32
    requires { fact_count variables.now ≤ MOST_FACTS }
    ensures { result ≡ fact_count variables.now }
{
    let mut count: usize = 0;
    for variable in variables {
        count += variable.values.len();
    }
    count as u32
}

/// Where the facts of each variable begin.
fn make_offsets(alloc: Global, variables: &[Variable]) -> Result<Vec<u32>, AllocError>
    requires { fact_count variables.now ≤ MOST_FACTS }
    ensures { IfOk result (λ offsets. IsOffsets variables.now offsets.items) }
{
    let mut offsets = Vec::with_capacity(alloc, variables.len())?;
    let mut start: usize = 0;
    for variable in variables {
        offsets.push(start as u32)?;
        start += variable.values.len();
    }
    Ok(offsets)
}

/// What an effect of an operator gives.
fn make_effect(
    alloc: Global,
    offsets: &[u32],
    marks: &mut [bool],
    op: u32,
    cost: u32,
    pre: &[Fact],
    effect: &Effect,
) -> Result<Unary, AllocError>
    requires few { length marks.old ≤ MOST_FACTS }
    requires pre { IsTrue (have_numbers offsets.now (length marks.old) pre.now) }
    requires effect { IsTrue (effect_has_numbers offsets.now (length marks.old) effect.now) }
    requires clear { AreMarked marks.old [] }
    ensures unary { IfOk result
        (λ unary. unary ≡ effect_by offsets.now op cost pre.now effect.now) }
    ensures clear { OnOk result (AreMarked marks.new []) }
    ensures long { length marks.new ≡ length marks.old }
{
    let conds = conditions(alloc, offsets, marks, pre, &effect.conds)?;
    Ok(Unary {
        op: Some(op),
        conds,
        gives: number(offsets, effect.fact),
        cost,
    })
}

/// What a rule gives.
fn make_rule(
    alloc: Global,
    offsets: &[u32],
    marks: &mut [bool],
    rule: &Rule,
) -> Result<Unary, AllocError>
    requires few { length marks.old ≤ MOST_FACTS }
    requires rule { IsTrue (rule_has_numbers offsets.now (length marks.old) rule.now) }
    requires clear { AreMarked marks.old [] }
    ensures unary { IfOk result (λ unary. unary ≡ rule_by offsets.now rule.now) }
    ensures clear { OnOk result (AreMarked marks.new []) }
    ensures long { length marks.new ≡ length marks.old }
{
    let conds = conditions(alloc, offsets, marks, &rule.conds, &[])?;
    Ok(Unary {
        op: None,
        conds,
        gives: number(offsets, rule.head),
        cost: 0,
    })
}

/// Adds what the effects of an operator give.
fn add_effects(
    alloc: Global,
    offsets: &[u32],
    marks: &mut [bool],
    op: u32,
    cost: u32,
    operator: &Operator,
    unaries: &mut Vec<Unary>,
) -> Result<(), AllocError>
    requires few { length marks.old ≤ MOST_FACTS }
    requires operator { IsTrue (operator_has_numbers offsets.now (length marks.old) operator.now) }
    requires clear { AreMarked marks.old [] }
    ensures unaries { OnOk result (unaries.new.items ≡ unaries.old.items
        ++ map (effect_by offsets.now op cost operator.now.pre) operator.now.effects) }
    ensures clear { OnOk result (AreMarked marks.new []) }
    ensures long { length marks.new ≡ length marks.old }
{
    for effect in operator.effects.as_slice() {
        let unary = make_effect(alloc, offsets, marks, op, cost, &operator.pre, effect)?;
        unaries.push(unary)?;
    }
    Ok(())
}

/// Adds what the operators of a task give.
fn add_operators(
    alloc: Global,
    task: &Task,
    kind: CostKind,
    offsets: &[u32],
    marks: &mut [bool],
    unaries: &mut Vec<Unary>,
) -> Result<(), AllocError>
    requires few { length marks.old ≤ MOST_FACTS }
    requires operators { IsTrue
        (list_all (operator_has_numbers offsets.now (length marks.old)) task.now.operators) }
    requires clear { AreMarked marks.old [] }
    ensures unaries { OnOk result (unaries.new.items ≡ unaries.old.items
        ++ operators_by task.now kind offsets.now task.now.operators) }
    ensures clear { OnOk result (AreMarked marks.new []) }
    ensures long { length marks.new ≡ length marks.old }
{
    for (op, operator) in task.parts().operators.iter().enumerate() {
        let cost = task.adjusted_cost(op as u32, kind);
        add_effects(alloc, offsets, marks, op as u32, cost, operator, unaries)?;
    }
    Ok(())
}

/// Adds what rules give.
fn add_rules(
    alloc: Global,
    offsets: &[u32],
    marks: &mut [bool],
    rules: &[Rule],
    unaries: &mut Vec<Unary>,
) -> Result<(), AllocError>
    requires few { length marks.old ≤ MOST_FACTS }
    requires rules { IsTrue (list_all (rule_has_numbers offsets.now (length marks.old)) rules.now) }
    requires clear { AreMarked marks.old [] }
    ensures unaries { OnOk result
        (unaries.new.items ≡ unaries.old.items ++ map (rule_by offsets.now) rules.now) }
    ensures clear { OnOk result (AreMarked marks.new []) }
    ensures long { length marks.new ≡ length marks.old }
{
    for rule in rules {
        unaries.push(make_rule(alloc, offsets, marks, rule)?)?;
    }
    Ok(())
}

fn is_derived(variables: &[Variable], var: usize) -> bool
    ensures { result ≡ derived variables.now var }
{
    match variables.get(var) {
        Some(variable) => variable.layer.is_some(),
        None => false,
    }
}

/// The default facts of derived variables among variables with these initial values.
fn make_defaults(
    alloc: Global,
    offsets: &[u32],
    variables: &[Variable],
    init: &[u32],
) -> Result<Vec<u32>, AllocError>
    requires long { length init.now ≤ length offsets.now }
    requires few { length offsets.now < 2 ^ 32 }
    requires small { (var : ℕ) → var < length init.now →
        slice_index offsets.now var + slice_index init.now var < 2 ^ 32 }
    ensures { IfOk result
        (λ defaults. defaults.items ≡ defaults_by offsets.now variables.now init.now) }
{
    let mut defaults = Vec::new(alloc);
    for (var, value) in init.iter().enumerate() {
        if is_derived(variables, var) {
            let fact = Fact {
                var: var as u32,
                val: *value,
            };
            defaults.push(number(offsets, fact))?;
        }
    }
    Ok(defaults)
}

/// What the operators of a task give, and then what its rules give.
fn make_unaries(
    alloc: Global,
    task: &Task,
    kind: CostKind,
    offsets: &[u32],
    marks: &mut [bool],
) -> Result<Vec<Unary>, AllocError>
    requires offsets { IsOffsets task.now.variables offsets.now }
    requires marks { length marks.old ≡ fact_count task.now.variables }
    requires clear { AreMarked marks.old [] }
    ensures unaries { IfOk result (λ unaries. unaries.items ≡ numbered_unaries task.now kind) }
    ensures clear { OnOk result (AreMarked marks.new []) }
    ensures long { length marks.new ≡ length marks.old }
{
    let parts = task.parts();
    let mut unaries = Vec::new(alloc);
    add_operators(alloc, task, kind, offsets, marks, &mut unaries)?;
    add_rules(alloc, offsets, marks, &parts.rules, &mut unaries)?;
    Ok(unaries)
}

/// The default facts of derived variables.
fn find_defaults(alloc: Global, task: &Task, offsets: &[u32]) -> Result<Vec<u32>, AllocError>
    requires { IsOffsets task.now.variables offsets.now }
    ensures { IfOk result (λ defaults.
        defaults.items ≡ numbers_of task.now.variables (default_facts task.now)) }
{
    let parts = task.parts();
    let defaults = make_defaults(alloc, offsets, &parts.variables, &parts.init)?;
    Ok(defaults)
}

/// The goal facts, each once.
fn find_goals(
    alloc: Global,
    task: &Task,
    offsets: &[u32],
    marks: &mut [bool],
) -> Result<Seq<u32>, AllocError>
    requires offsets { IsOffsets task.now.variables offsets.now }
    requires marks { length marks.old ≡ fact_count task.now.variables }
    requires clear { AreMarked marks.old [] }
    ensures { IfOk result (λ goals.
        goals ≡ numbers_of task.now.variables (distinct_facts task.now.goal)) }
{
    let parts = task.parts();
    let goals = conditions(alloc, offsets, marks, &parts.goal, &[])?;
    Ok(goals)
}

impl Relaxed {
    /// The relaxation of a task, with operators that cost what a kind of cost says.
    ///
    /// It takes time linear in the facts and the unary operators that it makes. The second clause
    /// says what a relaxation is good for: from a state where some goal fact isn't reached, no list
    /// of operators leads to the goal.
    pub fn new(alloc: Global, task: &Task, kind: CostKind) -> Result<Relaxed, NoMemory>
        ensures relaxation { IfOk result (λ relaxed. IsRelaxed task.now kind relaxed) }
        ensures dead_ends { OnOk result ((state ops last : List ℕ) →
            IsState task.now.variables state → IsDead task.now state →
            end_of task.now state ops ≡ Some last → is_goal task.now last ≡ false) }
    {
        let parts = task.parts();
        let facts = count_facts(&parts.variables);
        let offsets = make_offsets(alloc, &parts.variables)?;
        let mut marks = vec![in alloc; false; facts as usize]?;
        let unaries = make_unaries(alloc, task, kind, &offsets, &mut marks)?;
        let defaults = find_defaults(alloc, task, &offsets)?;
        let goals = find_goals(alloc, task, &offsets, &mut marks)?;
        Ok(Relaxed::from_lists(Lists {
            offsets: Seq::from(offsets),
            facts,
            unaries: Seq::from(unaries),
            defaults: Seq::from(defaults),
            goals,
        }))
    }
}
