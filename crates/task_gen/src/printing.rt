// The canonical text of a task.
ghost use Rattle.std.specs.Prelude.{◌≡◌, ◌<◌, ◌++◌, [], ◌∷◌, map, flat_map, length, decimal};
ghost use Rattle.std.specs.Prelude.{◌≤◌, ℕ, IfOk, OnOk, IsTrue, Some, slice_get};
ghost use Rattle.std.specs.VecDeque.{deque_items};
ghost use Rattle.std.specs.List.{zip};
ghost use Rattle.text_lines.specs.Texts.{text_of};
ghost use Rattle.sas_task.specs.WellFormed.{IsWellFormed};
ghost use Rattle.sas_task.specs.declared.contents.Operator.{Operator as TheOperator};
ghost use Rattle.sas_task.specs.declared.contents.Rule.{Rule as TheRule};
ghost use Rattle.sas_reader.specs.Reading.{most_bytes};
ghost use Rattle.task_gen.specs.Printed.{counted, version_lines, metric_lines, variable_lines};
ghost use Rattle.task_gen.specs.Printed.{fact_words, fact_lines, group_lines, state_lines};
ghost use Rattle.task_gen.specs.Printed.{goal_lines};
ghost use Rattle.task_gen.specs.Printed.{number_or_none, behind_blanks, effect_line};
ghost use Rattle.task_gen.specs.Printed.{operator_lines, head_line, rule_lines, task_text};
ghost use Rattle.task_gen.specs.ReadBack.{has_line_names, IsReadBack};
ghost use Rattle.task_gen.specs.Waiting.{Waits, CanWait};

use crate::lines::{
    push_count, push_facts, push_line, push_next, push_number, push_number_or_none,
};
use crate::waiting::{Standing, nothing_waits, stand};
use lama_num::{NoMemory, Seq};
use sas_task::{Effect, Fact, Operator, Parts, Rule, Task, Variable};
use std::alloc::{AllocError, Global};
use std::collections::VecDeque;

#[tactic(auto, using(crate::proofs::Grown::growing))]
fn push_opening(text: &mut Vec<u8>, metric: bool) -> Result<(), AllocError>
    ensures { OnOk result (text.new.items
        ≡ text.old.items ++ text_of (version_lines ++ metric_lines metric)) }
{
    text.extend_from_slice(b"begin_version\n3\nend_version\nbegin_metric\n")?;
    push_line(text, if metric { b"1" } else { b"0" })?;
    push_line(text, b"end_metric")
}

#[tactic(auto, using(crate::proofs::Grown::growing))]
fn push_layer(text: &mut Vec<u8>, layer: Option<u32>) -> Result<(), AllocError>
    ensures { OnOk result (text.new.items
        ≡ text.old.items ++ text_of (number_or_none layer ∷ [])) }
{
    push_number_or_none(text, layer)?;
    text.push(b'\n')?;
    Ok(())
}

#[tactic(auto, using(crate::proofs::Grown::growing))]
fn push_names(text: &mut Vec<u8>, names: &[Seq<u8>]) -> Result<(), AllocError>
    ensures { OnOk result (text.new.items ≡ text.old.items ++ text_of names.now) }
{
    for name in names {
        push_line(text, name)?;
    }
    Ok(())
}

#[tactic(auto, using(crate::proofs::Grown::growing))]
fn push_variable(text: &mut Vec<u8>, variable: &Variable) -> Result<(), AllocError>
    ensures { OnOk result (text.new.items
        ≡ text.old.items ++ text_of (variable_lines variable.now)) }
{
    push_line(text, b"begin_variable")?;
    push_line(text, &variable.name)?;
    push_layer(text, variable.layer)?;
    push_count(text, variable.values.len() as u64)?;
    push_names(text, &variable.values)?;
    push_line(text, b"end_variable")
}

#[tactic(auto, using(crate::proofs::Grown::growing))]
fn push_variables(text: &mut Vec<u8>, variables: &[Variable]) -> Result<(), AllocError>
    ensures { OnOk result (text.new.items
        ≡ text.old.items ++ text_of (counted variable_lines variables.now)) }
{
    push_count(text, variables.len() as u64)?;
    for variable in variables {
        push_variable(text, variable)?;
    }
    Ok(())
}

#[tactic(auto, using(crate::proofs::Grown::growing), unfolding(crate::specs::Printed::group_lines))]
fn push_group(text: &mut Vec<u8>, group: &[Fact]) -> Result<(), AllocError>
    ensures { OnOk result (text.new.items ≡ text.old.items ++ text_of (group_lines group.now)) }
{
    push_line(text, b"begin_mutex_group")?;
    push_facts(text, group)?;
    push_line(text, b"end_mutex_group")
}

#[tactic(auto, using(crate::proofs::Grown::growing))]
fn push_groups(text: &mut Vec<u8>, groups: &[Seq<Fact>]) -> Result<(), AllocError>
    ensures { OnOk result (text.new.items
        ≡ text.old.items ++ text_of (counted group_lines groups.now)) }
{
    push_count(text, groups.len() as u64)?;
    for group in groups {
        push_group(text, group)?;
    }
    Ok(())
}

#[tactic(auto, using(crate::proofs::Grown::growing))]
fn push_values(text: &mut Vec<u8>, init: &[u32]) -> Result<(), AllocError>
    ensures { OnOk result (text.new.items ≡ text.old.items ++ text_of (map decimal init.now)) }
{
    for value in init {
        push_count(text, u64::from(*value))?;
    }
    Ok(())
}

#[tactic(auto, using(crate::proofs::Grown::growing), unfolding(crate::specs::Printed::state_lines))]
fn push_state(text: &mut Vec<u8>, init: &[u32]) -> Result<(), AllocError>
    ensures { OnOk result (text.new.items ≡ text.old.items ++ text_of (state_lines init.now)) }
{
    push_line(text, b"begin_state")?;
    push_values(text, init)?;
    push_line(text, b"end_state")
}

#[tactic(auto, using(crate::proofs::Grown::growing), unfolding(crate::specs::Printed::goal_lines))]
fn push_goal(text: &mut Vec<u8>, goal: &[Fact]) -> Result<(), AllocError>
    ensures { OnOk result (text.new.items ≡ text.old.items ++ text_of (goal_lines goal.now)) }
{
    push_line(text, b"begin_goal")?;
    push_facts(text, goal)?;
    push_line(text, b"end_goal")
}

// operators

/// Adds conditions, each number behind a blank.
#[tactic(auto, using(crate::proofs::Grown::growing))]
fn push_conditions(text: &mut Vec<u8>, conds: &[Fact]) -> Result<(), AllocError>
    ensures { OnOk result (text.new.items
        ≡ text.old.items ++ behind_blanks (flat_map fact_words conds.now)) }
{
    for fact in conds {
        push_next(text, u64::from(fact.var))?;
        push_next(text, u64::from(fact.val))?;
    }
    Ok(())
}

#[tactic(auto, using(crate::proofs::Grown::growing, crate::proofs::Grown::effect_line_is))]
fn push_effect(text: &mut Vec<u8>, effect: &Effect, old: Option<u32>) -> Result<(), AllocError>
    ensures { OnOk result (text.new.items
        ≡ text.old.items ++ text_of (effect_line old effect.now ∷ [])) }
{
    push_number(text, effect.conds.len() as u64)?;
    push_conditions(text, &effect.conds)?;
    push_next(text, u64::from(effect.fact.var))?;
    text.push(b' ')?;
    push_number_or_none(text, old)?;
    push_next(text, u64::from(effect.fact.val))?;
    text.push(b'\n')?;
    Ok(())
}

/// Adds effects, each with the value that its variable has to have before.
#[tactic(auto, using(crate::proofs::Grown::growing))]
fn push_effects(
    text: &mut Vec<u8>,
    effects: &[Effect],
    olds: &[Option<u32>],
) -> Result<(), AllocError>
    requires { length olds.now ≡ length effects.now }
    ensures { OnOk result (text.new.items
        ≡ text.old.items ++ text_of (map (λ p. effect_line p.0 p.1) (zip olds.now effects.now))) }
{
    for (place, effect) in effects.iter().enumerate() {
        push_effect(text, effect, olds[place])?;
    }
    Ok(())
}

/// Adds preconditions that stand for no effect, and effects with the values that others need.
#[tactic(auto, using(crate::proofs::Grown::growing))]
fn push_changes(
    text: &mut Vec<u8>,
    standing: &Standing,
    effects: &[Effect],
) -> Result<(), AllocError>
    requires { length standing.now.olds.items ≡ length effects.now }
    ensures { OnOk result (text.new.items ≡ text.old.items
        ++ text_of (fact_lines standing.now.prevail.items ++ decimal (length effects.now)
        ∷ map (λ p. effect_line p.0 p.1) (zip standing.now.olds.items effects.now))) }
{
    push_facts(text, &standing.prevail)?;
    push_count(text, effects.len() as u64)?;
    push_effects(text, effects, &standing.olds)
}

fn push_operator(
    alloc: Global,
    text: &mut Vec<u8>,
    waiting: &mut [VecDeque<Fact>],
    operator: &Operator,
) -> Result<(), AllocError>
    requires none { Waits deque_items waiting.old [] }
    requires fits { CanWait (length waiting.old) operator.now }
    ensures text { OnOk result (text.new.items
        ≡ text.old.items ++ text_of (operator_lines operator.now)) }
    ensures waiting { OnOk result (Waits deque_items waiting.new []) }
{
    let standing = stand(alloc, waiting, operator)?;
    push_line(text, b"begin_operator")?;
    push_line(text, &operator.name)?;
    push_changes(text, &standing, &operator.effects)?;
    push_count(text, u64::from(operator.cost))?;
    push_line(text, b"end_operator")
}

fn push_operators(
    alloc: Global,
    text: &mut Vec<u8>,
    waiting: &mut [VecDeque<Fact>],
    operators: &[Operator],
) -> Result<(), AllocError>
    requires none { Waits deque_items waiting.old [] }
    requires fits { (i : ℕ) (o : TheOperator) →
        slice_get operators.now i ≡ Some o → CanWait (length waiting.old) o }
    ensures { OnOk result (text.new.items
        ≡ text.old.items ++ text_of (counted operator_lines operators.now)) }
{
    push_count(text, operators.len() as u64)?;
    for operator in operators {
        push_operator(alloc, text, waiting, operator)?;
    }
    Ok(())
}

// rules

/// Adds a head with its default.
#[tactic(auto, using(crate::proofs::Grown::growing))]
fn push_head(text: &mut Vec<u8>, init: &[u32], head: Fact) -> Result<(), AllocError>
    requires { head.var < length init.now }
    ensures { OnOk result (text.new.items
        ≡ text.old.items ++ text_of (head_line init.now head ∷ [])) }
{
    push_number(text, u64::from(head.var))?;
    push_next(text, u64::from(init[head.var as usize]))?;
    push_next(text, u64::from(head.val))?;
    text.push(b'\n')?;
    Ok(())
}

fn push_rule(text: &mut Vec<u8>, init: &[u32], rule: &Rule) -> Result<(), AllocError>
    requires { rule.now.head.var < length init.now }
    ensures { OnOk result (text.new.items
        ≡ text.old.items ++ text_of (rule_lines init.now rule.now)) }
{
    push_line(text, b"begin_rule")?;
    push_facts(text, &rule.conds)?;
    push_head(text, init, rule.head)?;
    push_line(text, b"end_rule")
}

#[tactic(auto, using(crate::proofs::Grown::growing))]
fn push_rules(text: &mut Vec<u8>, init: &[u32], rules: &[Rule]) -> Result<(), AllocError>
    requires { (i : ℕ) (r : TheRule) →
        slice_get rules.now i ≡ Some r → r.head.var < length init.now }
    ensures { OnOk result (text.new.items
        ≡ text.old.items ++ text_of (counted (rule_lines init.now) rules.now)) }
{
    push_count(text, rules.len() as u64)?;
    for rule in rules {
        push_rule(text, init, rule)?;
    }
    Ok(())
}

fn push_task(alloc: Global, text: &mut Vec<u8>, parts: &Parts) -> Result<(), AllocError>
    requires { IsWellFormed parts.now }
    ensures { OnOk result (text.new.items ≡ text.old.items ++ task_text parts.now) }
{
    let mut waiting = nothing_waits(alloc, parts.variables.len())?;
    push_opening(text, parts.metric)?;
    push_variables(text, &parts.variables)?;
    push_groups(text, &parts.groups)?;
    push_state(text, &parts.init)?;
    push_goal(text, &parts.goal)?;
    push_operators(alloc, text, &mut waiting, &parts.operators)?;
    push_rules(text, &parts.init, &parts.rules)
}

/// The canonical text of a task, in the translator's output format, version 3.
///
/// One blank stands between numbers and no other blank anywhere but in names, and a line feed ends
/// each line. A precondition stands as the old value of the first effect on its variable that has
/// none yet, and has a line of its own where there is no such effect.
pub fn print(alloc: Global, task: &Task) -> Result<Vec<u8>, NoMemory>
    ensures text { IfOk result (λ text. text.items ≡ task_text task.now) }
    // Where lines can hold the names of the task, and the text isn't too long, it is read back.
    ensures read_back { IfOk result (λ text. IsTrue (has_line_names task.now) →
        length text.items ≤ most_bytes → IsReadBack task.now text.items) }
{
    let mut text = Vec::new(alloc);
    push_task(alloc, &mut text, task.parts())?;
    Ok(text)
}
