// Readers of one line each that speak of facts.
ghost use Rattle.std.specs.Prelude.{◌≡◌, IfOk, map, option_map, option_to_list};
ghost use Rattle.std.specs.List.{list_all};
ghost use Rattle.lama_num.specs.Gives.{Gives};
ghost use Rattle.sas_task.specs.WellFormed.{is_fact, is_derived as derived_test};
ghost use Rattle.sas_reader.specs.Formats.{FactIn, EffectIn, HeadIn};
ghost use Rattle.sas_reader.specs.Reading.{AreVariables, where_true, as_fact, fact_line, is_change};
ghost use Rattle.sas_reader.specs.Reading.{old_fact, new_fact, effect_line, is_head, headed};
ghost use Rattle.sas_reader.specs.Reading.{head_line};
ghost use Rattle.sas_reader.specs.Walks.{fault_of, next};

use crate::faults::{SasError, SasFault};
use crate::fields::{at_most, wanted};
use crate::numbers::{Change, Head, Pair, effect_numbers, one_head, one_pair};
use lama_num::Seq;
use sas_task::{Effect, Fact, MOST_LISTED, Rule, Variable, What, is_good_rule};
use std::alloc::{AllocError, Global};
use text_lines::Cursor;

/// A pair as a fact, where the variable is there and has the value.

fn fact_of(variables: &[Variable], pair: Pair) -> Option<Fact>
    requires { AreVariables variables.now }
    ensures { result ≡ where_true (is_fact variables.now (as_fact pair)) (as_fact pair) }
{
    match variables.get(pair.var as usize) {
        Some(variable) if pair.val < variable.values.len() as u64 => Some(Fact {
            var: pair.var as u32,
            val: pair.val as u32,
        }),
        _ => None,
    }
}

/// A line as a fact.
#[tactic(auto, unfolding(crate::specs::Reading::fact_line))]
fn line_as_fact(variables: &[Variable], line: u64, text: &[u8]) -> Result<Fact, SasFault>
    requires { AreVariables variables.now }
    ensures { result ≡ fact_line variables.now line text.now }
{
    match one_pair(text) {
        None => Err(SasFault::BadNumber { line }),
        Some(pair) => match fact_of(variables, pair) {
            None => Err(SasFault::BadFact { line }),
            Some(fact) => Ok(fact),
        },
    }
}

/// One fact.
#[tactic(auto, unfolding(crate::specs::Walks::next_by))]
pub fn read_fact(cursor: &mut Cursor, variables: &[Variable]) -> Result<Fact, SasError>
    requires { AreVariables variables.now }
    ensures { Gives fault_of (λ fact. (fact, cursor.new)) result
        (next (FactIn variables.now) cursor.old) }
{
    let line = cursor.line();
    let text = wanted(cursor)?;
    Ok(line_as_fact(variables, line, text)?)
}

/// Pairs as facts, where all of them are.

fn facts_of(
    alloc: Global,
    variables: &[Variable],
    pairs: &[Pair],
) -> Result<Option<Vec<Fact>>, AllocError>
    requires { AreVariables variables.now }
    ensures { IfOk result (λ found. option_map (λ facts. facts.items) found
        ≡ where_true (list_all (is_fact variables.now) (map as_fact pairs.now))
        (map as_fact pairs.now)) }
{
    let mut facts = Vec::with_capacity(alloc, pairs.len())?;
    for pair in pairs {
        match fact_of(variables, *pair) {
            Some(fact) => facts.push(fact)?,
            None => return Ok(None),
        }
    }
    Ok(Some(facts))
}

fn is_derived(variables: &[Variable], var: u64) -> bool
    ensures { result ≡ derived_test variables.now var }
{
    match variables.get(var as usize) {
        Some(variable) => variable.layer.is_some(),
        None => false,
    }
}

/// What an effect needs of its variable, where that may be needed.
fn old_fact_of(variables: &[Variable], change: Change) -> Option<Option<Fact>>
    requires { AreVariables variables.now }
    ensures { result ≡ where_true
        (list_all (is_fact variables.now) (option_to_list (old_fact change))) (old_fact change) }
{
    match change.old {
        None => Some(None),
        Some(val) => {
            let old = Pair {
                var: change.var,
                val,
            };
            Some(Some(fact_of(variables, old)?))
        }
    }
}

/// What an effect needs of its variable and what it gives, where it may change that variable.
fn facts_of_change(variables: &[Variable], change: Change) -> Option<(Option<Fact>, Fact)>
    requires { AreVariables variables.now }
    ensures { result ≡ where_true (is_change variables.now change)
        (old_fact change, new_fact change) }
{
    if is_derived(variables, change.var) {
        return None;
    }
    let pre = old_fact_of(variables, change)?;
    let new = Pair {
        var: change.var,
        val: change.new,
    };
    Some((pre, fact_of(variables, new)?))
}

/// An effect, and what it needs of its variable.
#[derive(Drop)]
pub struct Effected {
    pub pre: Option<Fact>,
    pub effect: Effect,
}

/// A line as an effect.
#[tactic(auto, unfolding(crate::specs::Reading::effect_line))]
fn line_as_effect(
    alloc: Global,
    variables: &[Variable],
    line: u64,
    text: &[u8],
) -> Result<Effected, SasError>
    requires { AreVariables variables.now }
    ensures { Gives fault_of (λ e. (e.pre, e.effect)) result
        (effect_line variables.now line text.now) }
{
    let numbers = match effect_numbers(alloc, text)? {
        Some(numbers) => numbers,
        None => return Err(SasError::Bad(SasFault::BadNumber { line })),
    };
    at_most(What::Conditions, MOST_LISTED, numbers.conds.len() as u64)?;
    let conds = match facts_of(alloc, variables, &numbers.conds)? {
        Some(conds) => conds,
        None => return Err(SasError::Bad(SasFault::BadFact { line })),
    };
    match facts_of_change(variables, numbers.change) {
        Some((pre, fact)) => Ok(Effected {
            pre,
            effect: Effect {
                conds: Seq::from(conds),
                fact,
            },
        }),
        None => Err(SasError::Bad(SasFault::BadFact { line })),
    }
}

/// One effect with its conditions.
#[tactic(auto, unfolding(crate::specs::Walks::next_by))]
pub fn read_effect(
    alloc: Global,
    cursor: &mut Cursor,
    variables: &[Variable],
) -> Result<Effected, SasError>
    requires { AreVariables variables.now }
    ensures { Gives fault_of (λ e. ((e.pre, e.effect), cursor.new)) result
        (next (EffectIn variables.now) cursor.old) }
{
    let line = cursor.line();
    let text = wanted(cursor)?;
    line_as_effect(alloc, variables, line, text)
}

/// The new fact of a head, where the old one is a fact too.
fn head_of(variables: &[Variable], head: Head) -> Option<Fact>
    requires { AreVariables variables.now }
    ensures { result ≡ where_true (is_head variables.now head)
        (record { var = head.var; val = head.new }) }
{
    let old = Pair {
        var: head.var,
        val: head.old,
    };
    fact_of(variables, old)?;
    let new = Pair {
        var: head.var,
        val: head.new,
    };
    fact_of(variables, new)
}

/// A line as the head of a rule with these conditions.
#[tactic(auto, unfolding(crate::specs::Reading::head_line))]
fn line_as_rule(
    variables: &[Variable],
    init: &[u32],
    conds: Seq<Fact>,
    line: u64,
    text: &[u8],
) -> Result<Rule, SasFault>
    requires { AreVariables variables.now }
    ensures { result ≡ head_line variables.now init.now conds line text.now }
{
    let head = match one_head(text) {
        Some(head) => head,
        None => return Err(SasFault::BadNumber { line }),
    };
    let rule = match head_of(variables, head) {
        Some(head) => Rule { conds, head },
        None => return Err(SasFault::BadFact { line }),
    };
    if is_good_rule(variables, init, &rule) {
        Ok(rule)
    } else {
        Err(SasFault::BadRule { line })
    }
}

/// The rule with these conditions, by the line of its head.
#[tactic(auto, unfolding(crate::specs::Walks::next_by))]
pub fn read_head(
    cursor: &mut Cursor,
    variables: &[Variable],
    init: &[u32],
    conds: Seq<Fact>,
) -> Result<Rule, SasError>
    requires { AreVariables variables.now }
    ensures { Gives fault_of (λ rule. (rule, cursor.new)) result
        (next (HeadIn variables.now init.now conds) cursor.old) }
{
    let line = cursor.line();
    let text = wanted(cursor)?;
    Ok(line_as_rule(variables, init, conds, line, text)?)
}
