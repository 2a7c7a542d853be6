// Readers of operators and rules.
ghost use Rattle.std.specs.Prelude.{◌≡◌, ◌≤◌, ◌++◌, [], OnOk, option_to_list, if◌then◌else◌};
ghost use Rattle.lama_num.specs.Gives.{Gives};
ghost use Rattle.sas_reader.specs.Formats.{EffectIn, line, times};
ghost use Rattle.sas_reader.specs.Reading.{AreVariables};
ghost use Rattle.sas_reader.specs.TaskText.{changes as the_changes, operator as the_operator};
ghost use Rattle.sas_reader.specs.TaskText.{operators as the_operators, rule as the_rule};
ghost use Rattle.sas_reader.specs.TaskText.{rules as the_rules};
ghost use Rattle.sas_reader.specs.Walks.{fault_of, walk, changed};

use crate::conditions::read_facts;
use crate::facts::{read_effect, read_head};
use crate::faults::SasError;
use crate::fields::{read_begin, read_count, read_end, read_name};
use crate::sections::Section;
use lama_num::Seq;
use sas_task::{
    Effect, Fact, HIGHEST_COST, MOST_LISTED, MOST_OPERATORS, MOST_RULES, Operator, Rule, Variable,
    What,
};
use std::alloc::{AllocError, Global};
use text_lines::Cursor;

/// What an operator needs and what it gives.
#[derive(Drop)]
struct Changes {
    pre: Vec<Fact>,
    effects: Vec<Effect>,
}

fn push_some(pre: &mut Vec<Fact>, fact: Option<Fact>) -> Result<(), AllocError>
    ensures { OnOk result (pre.new.items ≡ pre.old.items ++ option_to_list fact) }
{
    if let Some(fact) = fact {
        pre.push(fact)?;
    }
    Ok(())
}

#[tactic(auto, using(crate::proofs::Parts::changes_none))]
fn read_effects(
    alloc: Global,
    cursor: &mut Cursor,
    variables: &[Variable],
    count: u64,
    mut pre: Vec<Fact>,
) -> Result<Changes, SasError>
    requires { AreVariables variables.now }
    ensures { Gives fault_of (λ c. ((c.pre.items, c.effects.items), cursor.new)) result
        (changed pre.items [] (walk (times count (line (EffectIn variables.now))) cursor.old)) }
{
    let mut effects = Vec::new(alloc);
    for _i in 0..count {
        match read_effect(alloc, cursor, variables) {
            Ok(effected) => {
                push_some(&mut pre, effected.pre)?;
                effects.push(effected.effect)?;
            }
            Err(e) => return Err(e),
        }
    }
    Ok(Changes { pre, effects })
}

#[tactic(auto, using(crate::proofs::FormatWalks::walk_on), unfolding(crate::specs::TaskText::changes))]
fn read_changes(
    alloc: Global,
    cursor: &mut Cursor,
    variables: &[Variable],
) -> Result<Changes, SasError>
    requires { AreVariables variables.now }
    ensures { Gives fault_of (λ c. ((c.pre.items, c.effects.items), cursor.new)) result
        (walk (the_changes variables.now) cursor.old) }
{
    let prevail = read_facts(alloc, cursor, What::Conditions, variables)?;
    let count = read_count(cursor, What::Effects, MOST_LISTED)?;
    read_effects(alloc, cursor, variables, count, prevail)
}

/// Without a metric every operator costs 1.
fn charged(metric: bool, cost: u32) -> u32
    ensures { result ≡ (if metric then cost else 1) }
{
    if metric { cost } else { 1 }
}

#[tactic(auto, using(crate::proofs::FormatWalks::walk_on), unfolding(crate::specs::TaskText::operator))]
fn read_operator(
    alloc: Global,
    cursor: &mut Cursor,
    metric: bool,
    variables: &[Variable],
) -> Result<Operator, SasError>
    requires { AreVariables variables.now }
    ensures { Gives fault_of (λ o. (o, cursor.new)) result
        (walk (the_operator metric variables.now) cursor.old) }
{
    read_begin(cursor, Section::Operator)?;
    let name = read_name(alloc, cursor)?;
    let changes = read_changes(alloc, cursor, variables)?;
    let cost = read_count(cursor, What::Cost, HIGHEST_COST as usize)?;
    read_end(cursor, Section::Operator)?;
    Ok(Operator {
        name,
        pre: Seq::from(changes.pre),
        effects: Seq::from(changes.effects),
        cost: charged(metric, cost as u32),
    })
}

#[tactic(auto, using(crate::proofs::FormatWalks::loops))]
fn read_so_many_operators(
    alloc: Global,
    cursor: &mut Cursor,
    metric: bool,
    variables: &[Variable],
    count: u64,
) -> Result<Vec<Operator>, SasError>
    requires { AreVariables variables.now }
    ensures { Gives fault_of (λ os. (os.items, cursor.new)) result
        (walk (times count (the_operator metric variables.now)) cursor.old) }
{
    let mut operators = Vec::new(alloc);
    for _i in 0..count {
        match read_operator(alloc, cursor, metric, variables) {
            Ok(operator) => operators.push(operator)?,
            Err(e) => return Err(e),
        }
    }
    Ok(operators)
}

/// The operators.
#[tactic(auto, unfolding(crate::specs::TaskText::operators))]
pub fn read_operators(
    alloc: Global,
    cursor: &mut Cursor,
    metric: bool,
    variables: &[Variable],
) -> Result<Seq<Operator>, SasError>
    requires { AreVariables variables.now }
    ensures { Gives fault_of (λ os. (os, cursor.new)) result
        (walk (the_operators metric variables.now) cursor.old) }
{
    let count = read_count(cursor, What::Operators, MOST_OPERATORS)?;
    let operators = read_so_many_operators(alloc, cursor, metric, variables, count)?;
    Ok(Seq::from(operators))
}

#[tactic(auto, using(crate::proofs::FormatWalks::walk_on), unfolding(crate::specs::TaskText::rule))]
fn read_rule(
    alloc: Global,
    cursor: &mut Cursor,
    variables: &[Variable],
    init: &[u32],
) -> Result<Rule, SasError>
    requires { AreVariables variables.now }
    ensures { Gives fault_of (λ r. (r, cursor.new)) result
        (walk (the_rule variables.now init.now) cursor.old) }
{
    read_begin(cursor, Section::Rule)?;
    let conds = read_facts(alloc, cursor, What::Conditions, variables)?;
    let rule = read_head(cursor, variables, init, Seq::from(conds))?;
    read_end(cursor, Section::Rule)?;
    Ok(rule)
}

#[tactic(auto, using(crate::proofs::FormatWalks::loops))]
fn read_so_many_rules(
    alloc: Global,
    cursor: &mut Cursor,
    variables: &[Variable],
    init: &[u32],
    count: u64,
) -> Result<Vec<Rule>, SasError>
    requires { AreVariables variables.now }
    ensures { Gives fault_of (λ rs. (rs.items, cursor.new)) result
        (walk (times count (the_rule variables.now init.now)) cursor.old) }
{
    let mut rules = Vec::new(alloc);
    for _i in 0..count {
        match read_rule(alloc, cursor, variables, init) {
            Ok(rule) => rules.push(rule)?,
            Err(e) => return Err(e),
        }
    }
    Ok(rules)
}

/// The rules.
#[tactic(auto, unfolding(crate::specs::TaskText::rules))]
pub fn read_rules(
    alloc: Global,
    cursor: &mut Cursor,
    variables: &[Variable],
    init: &[u32],
) -> Result<Seq<Rule>, SasError>
    requires { AreVariables variables.now }
    ensures { Gives fault_of (λ rs. (rs, cursor.new)) result
        (walk (the_rules variables.now init.now) cursor.old) }
{
    let count = read_count(cursor, What::Rules, MOST_RULES)?;
    let rules = read_so_many_rules(alloc, cursor, variables, init, count)?;
    Ok(Seq::from(rules))
}
