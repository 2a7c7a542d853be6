// Possible first achievers.
ghost use Rattle.std.specs.Prelude.{◌≡◌, ◌<◌, ◌+◌, ◌++◌, ◌∷◌, [], ◌↔◌, ℕ, List, length};
ghost use Rattle.std.specs.Prelude.{slice_get, Some};
ghost use Rattle.std.specs.Prelude.{IsTrue, IfOk, OnOk};
ghost use Rattle.std.specs.Bool.{OnTrue, OnFalse};
ghost use Rattle.std.specs.List.{list_all};
ghost use Rattle.sas_task.specs.Runs.{start_of};
ghost use Rattle.sas_task.specs.WellFormed.{is_fact};
ghost use Rattle.sas_task.specs.declared.contents.Fact.{Fact as TheFact};
ghost use Rattle.sas_task.specs.declared.contents.Operator.{Operator as TheOperator};
ghost use Rattle.sas_task.specs.declared.contents.Parts.{Parts};
ghost use Rattle.relaxed_task.specs.Reached.{IsReached};
ghost use Rattle.lm_backchain.specs.Backchain.{conditions_of};
ghost use Rattle.lm_backchain.specs.Firsts.{Knows, AreReached, Achieves, HasFirsts, AreFirsts};
ghost use Rattle.lm_backchain.specs.Givers.{AreGivers};

use crate::facts::has;
use h_add::Add;
use lama_num::{Estimate, NoMemory, Seq};
use sas_task::{Effect, Fact, Operator, Task};
use std::alloc::{AllocError, Global};

/// Whether a fact is reached, after the initial state was evaluated without a node's facts.
fn is_reached(add: &Add, fact: Fact) -> bool
    ensures { (parts : Parts) (node : List TheFact) → Knows parts node add.now →
        IsTrue (is_fact parts.variables fact) →
        (IsTrue result ↔ IsReached parts (start_of parts) node fact) }
{
    match add.value(fact) {
        Estimate::Finite(_) => true,
        Estimate::Infinite => false,
    }
}

fn all_reached(add: &Add, facts: &[Fact]) -> bool
    ensures { (parts : Parts) (node : List TheFact) → Knows parts node add.now →
        IsTrue (list_all (is_fact parts.variables) facts.now) →
        (IsTrue result ↔ AreReached parts node facts.now) }
{
    for fact in facts {
        if !is_reached(add, *fact) {
            return false;
        }
    }
    true
}

fn achieves(add: &Add, node: &[Fact], operator: &Operator, effect: &Effect) -> bool
    ensures { (parts : Parts) → Knows parts node.now add.now →
        IsTrue (list_all (is_fact parts.variables) (conditions_of operator.now effect.now)) →
        (IsTrue result ↔ Achieves parts node.now operator.now effect.now) }
{
    if !has(node, effect.fact) {
        return false;
    }
    if !all_reached(add, &operator.pre) {
        return false;
    }
    all_reached(add, &effect.conds)
}

fn conditions(alloc: Global, operator: &Operator, effect: &Effect) -> Result<Seq<Fact>, AllocError>
    ensures { IfOk result (λ conds. conds ≡ conditions_of operator.now effect.now) }
{
    let mut conds = Vec::from_slice(alloc, &operator.pre)?;
    conds.extend_from_slice(&effect.conds)?;
    Ok(Seq::from(conds))
}

/// Adds the conditions of an effect of an operator, by their numbers, if it may be first.
fn add_first(
    task: &Task,
    add: &Add,
    node: &[Fact],
    op: usize,
    place: usize,
    firsts: &mut Vec<Seq<Fact>>,
) -> Result<(), AllocError>
    requires knows { Knows task.now node.now add.now }
    requires op { op < length task.now.operators }
    requires place { (operator : TheOperator) → slice_get task.now.operators op ≡ Some operator →
        place < length operator.effects }
    ensures { OnOk result ((done : List ℕ) → HasFirsts task.now node.now done op place
        firsts.old.items → HasFirsts task.now node.now done op (place + 1) firsts.new.items) }
{
    let operator = &task.parts().operators[op];
    let effect = &operator.effects[place];
    if achieves(add, node, operator, effect) {
        firsts.push(conditions(*firsts.allocator(), operator, effect)?)?;
    }
    Ok(())
}

fn add_firsts(
    task: &Task,
    add: &Add,
    node: &[Fact],
    op: usize,
    firsts: &mut Vec<Seq<Fact>>,
) -> Result<(), AllocError>
    requires knows { Knows task.now node.now add.now }
    requires op { op < length task.now.operators }
    ensures { OnOk result ((done : List ℕ) → HasFirsts task.now node.now done op 0 firsts.old.items
        → (next : ℕ) → HasFirsts task.now node.now (done ++ op ∷ []) next 0 firsts.new.items) }
{
    let effects = task.parts().operators[op].effects.len();
    for place in 0..effects {
        add_first(task, add, node, op, place, firsts)?;
    }
    Ok(())
}

/// The conditions of the possible first achievers of a node, of the operators that give one of its
/// facts, after the initial state was evaluated without them.
pub fn firsts_of(
    alloc: Global,
    task: &Task,
    add: &Add,
    node: &[Fact],
    ops: &[u32],
) -> Result<Vec<Seq<Fact>>, NoMemory>
    requires knows { Knows task.now node.now add.now }
    requires ops { AreGivers task.now node.now ops.now }
    ensures { IfOk result (λ firsts. AreFirsts task.now node.now firsts.items) }
{
    let mut firsts = Vec::new(alloc);
    for op in ops {
        add_firsts(task, add, node, *op as usize, &mut firsts)?;
    }
    Ok(firsts)
}
