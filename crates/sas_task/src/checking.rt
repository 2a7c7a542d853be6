// The check of a task's parts.
ghost use Rattle.std.specs.Prelude.{◌≡◌, ◌≤◌, ◌<◌, ◌&&◌, length, option_map, take, drop, filter};
ghost use Rattle.std.specs.Prelude.{nat_lt, not, position, IfSome, None, Some, if◌then◌else◌};
ghost use Rattle.std.specs.List.{list_all, zip};
ghost use Rattle.sas_task.specs.Limits.{most_variables, most_rules, most_listed};
ghost use Rattle.sas_task.specs.WellFormed.{is_fact as fact_test, starts};
ghost use Rattle.sas_task.specs.WellFormed.{is_default as default_test};
ghost use Rattle.sas_task.specs.Costs.{is_unit_cost};
ghost use Rattle.sas_task.specs.Refusals.{wide_derived, bad_fact, bad_cost, bad_rule};
ghost use Rattle.sas_task.specs.Refusals.{is_sound_effect as sound_effect};
ghost use Rattle.sas_task.specs.Refusals.{is_sound_operator as sound_operator};
ghost use Rattle.sas_task.specs.Refusals.{is_sound_rule as sound_rule, is_sound as sound};
ghost use Rattle.sas_task.specs.Refusals.{is_wide as wide, is_good_rule as good_rule, causes};
ghost use Rattle.sas_task.specs.Refusals.{first_cause, too_large, condition_counts, refusal_of};
ghost use Rattle.sas_task.specs.Refusals.{canonical_parts, unless};
ghost use Rattle.sas_task.specs.declared.refusals.What.TheVariants.{Conditions};

use crate::conditions::{are_facts, is_derived, is_fact};
use crate::contents::{Effect, Fact, Operator, Parts, Rule, Variable};
use crate::limits::{
    MOST_FACTS, MOST_LISTED, MOST_OPERATORS, MOST_RULES, MOST_VARIABLES, above, costs_above,
    effects_above, fact_count, first_of, layers_above, lists_above, names_above, ranges_above,
    refuse, rule_conditions_above,
};
use crate::order::{order_operators, put_in_order};
use crate::refusals::{TaskError, What};
use crate::rules::{is_default, is_layered_rule};
use crate::task::{Task, each_costs_one};
use lama_num::Seq;

// sizes

/// Refuses what there is too much of, up to the operators.
fn refuse_sizes_before_effects(parts: &Parts) -> Result<(), TaskError>
    ensures { result ≡ unless (first_cause (take 8 (causes parts.now))) tt }
{
    refuse(
        What::Variables,
        above(MOST_VARIABLES, parts.variables.len()),
    )?;
    refuse(What::Range, ranges_above(&parts.variables))?;
    refuse(What::Layer, layers_above(&parts.variables))?;
    refuse(What::Facts, above(MOST_FACTS, fact_count(&parts.variables)))?;
    refuse(What::Groups, above(MOST_LISTED, parts.groups.len()))?;
    refuse(What::GroupFacts, lists_above(&parts.groups, MOST_LISTED))?;
    refuse(What::Goals, above(MOST_LISTED, parts.goal.len()))?;
    refuse(
        What::Operators,
        above(MOST_OPERATORS, parts.operators.len()),
    )
}

/// Refuses what there is too much of, from the effects on.
fn refuse_sizes_from_effects(parts: &Parts) -> Result<(), TaskError>
    ensures { result ≡ unless (first_cause (take 4 (drop 9 (causes parts.now)))) tt }
{
    refuse(What::Effects, effects_above(&parts.operators))?;
    refuse(What::Rules, above(MOST_RULES, parts.rules.len()))?;
    refuse(What::Cost, costs_above(&parts.operators))?;
    refuse(What::Name, names_above(&parts.variables, &parts.operators))
}

// derived variables

fn is_wide(variable: &Variable) -> bool
    ensures { result ≡ wide variable.now }
{
    variable.layer.is_some() && variable.values.len() != 2
}

fn first_wide(variables: &[Variable]) -> Option<usize>
    ensures place { result ≡ position wide variables.now }
    ensures within { IfSome result (λ place. place < length variables.now) }
{
    variables.iter().position(is_wide)
}

fn refuse_wide(variables: &[Variable]) -> Result<(), TaskError>
    requires { length variables.now ≤ most_variables }
    ensures { result ≡ unless (wide_derived variables.now) tt }
{
    match first_wide(variables) {
        Some(var) => Err(TaskError::WideDerived { var: var as u32 }),
        None => Ok(()),
    }
}

// facts

fn is_sound_effect(variables: &[Variable], effect: &Effect) -> bool
    ensures { result ≡ sound_effect variables.now effect.now }
{
    are_facts(variables, &effect.conds)
        && is_fact(variables, effect.fact)
        && !is_derived(variables, effect.fact.var)
}

fn are_sound_effects(variables: &[Variable], effects: &[Effect]) -> bool
    ensures { result ≡ list_all (sound_effect variables.now) effects.now }
{
    effects
        .iter()
        .all(|effect| is_sound_effect(variables, effect))
}

fn is_sound_operator(variables: &[Variable], operator: &Operator) -> bool
    ensures { result ≡ sound_operator variables.now operator.now }
{
    are_facts(variables, &operator.pre) && are_sound_effects(variables, &operator.effects)
}

fn are_sound_operators(variables: &[Variable], operators: &[Operator]) -> bool
    ensures { result ≡ list_all (sound_operator variables.now) operators.now }
{
    operators
        .iter()
        .all(|operator| is_sound_operator(variables, operator))
}

fn is_sound_rule(variables: &[Variable], rule: &Rule) -> bool
    ensures { result ≡ sound_rule variables.now rule.now }
{
    are_facts(variables, &rule.conds) && is_fact(variables, rule.head)
}

fn are_sound_rules(variables: &[Variable], rules: &[Rule]) -> bool
    ensures { result ≡ list_all (sound_rule variables.now) rules.now }
{
    rules.iter().all(|rule| is_sound_rule(variables, rule))
}

fn are_sound_groups(variables: &[Variable], groups: &[Seq<Fact>]) -> bool
    ensures { result ≡ list_all (λ group. list_all (fact_test variables.now) group) groups.now }
{
    groups.iter().all(|group| are_facts(variables, group))
}

fn has_value(variable: &Variable) -> bool
    ensures { result ≡ nat_lt 0 (length variable.now.values) }
{
    !variable.values.is_empty()
}

fn have_values(variables: &[Variable]) -> bool
    ensures { result ≡ list_all (λ v. nat_lt 0 (length v.values)) variables.now }
{
    variables.iter().all(has_value)
}

fn are_values(variables: &[Variable], init: &[u32]) -> bool
    ensures { result ≡ list_all (λ p. nat_lt p.0 (length p.1.values)) (zip init.now variables.now) }
{
    init.iter().zip(variables).all(|(value, variable)| (*value as usize) < variable.values.len())
}

fn is_start(variables: &[Variable], init: &[u32]) -> bool
    ensures { result ≡ starts variables.now init.now }
{
    init.len() == variables.len() && are_values(variables, init)
}

fn is_sound(parts: &Parts) -> bool
    ensures { result ≡ sound parts.now }
{
    have_values(&parts.variables)
        && are_sound_groups(&parts.variables, &parts.groups)
        && is_start(&parts.variables, &parts.init)
        && are_facts(&parts.variables, &parts.goal)
        && are_sound_operators(&parts.variables, &parts.operators)
        && are_sound_rules(&parts.variables, &parts.rules)
}

fn refuse_unsound(parts: &Parts) -> Result<(), TaskError>
    ensures { result ≡ unless (bad_fact parts.now) tt }
{
    if is_sound(parts) {
        Ok(())
    } else {
        Err(TaskError::BadFact)
    }
}

// costs and rules

fn refuse_costs(parts: &Parts) -> Result<(), TaskError>
    ensures { result ≡ unless (bad_cost parts.now) tt }
{
    if parts.metric || each_costs_one(&parts.operators) {
        Ok(())
    } else {
        Err(TaskError::BadCost)
    }
}

/// Whether a rule's head is of a derived variable and, where it isn't a default, the conditions lie
/// in its layer or below.
pub fn is_good_rule(variables: &[Variable], init: &[u32], rule: &Rule) -> bool
    ensures { result ≡ good_rule variables.now init.now rule.now }
{
    if is_default(init, rule.head) {
        is_derived(variables, rule.head.var)
    } else {
        is_layered_rule(variables, init, rule)
    }
}

fn first_bad_rule(variables: &[Variable], init: &[u32], rules: &[Rule]) -> Option<usize>
    ensures place { result ≡ position (λ r. not (good_rule variables.now init.now r)) rules.now }
    ensures within { IfSome result (λ place. place < length rules.now) }
{
    rules
        .iter()
        .position(|rule| !is_good_rule(variables, init, rule))
}

fn refuse_rules(parts: &Parts) -> Result<(), TaskError>
    requires { length parts.now.rules ≤ most_rules }
    ensures { result ≡ unless (bad_rule parts.now) tt }
{
    match first_bad_rule(&parts.variables, &parts.init, &parts.rules) {
        Some(rule) => Err(TaskError::BadRule { rule: rule as u32 }),
        None => Ok(()),
    }
}

fn keep_rules(init: &[u32], rules: &mut Vec<Rule>)
    ensures { rules.new.items ≡ filter (λ r. not (default_test init.now r.head)) rules.old.items }
{
    rules.retain(|rule| !is_default(init, rule.head));
}

/// Refuses parts for any cause from the number of effects on.
fn refuse_others(parts: &Parts) -> Result<(), TaskError>
    requires { length parts.now.variables ≤ most_variables }
    ensures { result ≡ unless (first_cause (drop 9 (causes parts.now))) tt }
{
    refuse_sizes_from_effects(parts)?;
    refuse_wide(&parts.variables)?;
    refuse_unsound(parts)?;
    refuse_costs(parts)?;
    refuse_rules(parts)
}

/// The task with parts that nothing refuses: what `check` makes of them, without its tests. It is
/// for those who made the tests as the parts came, as the reader of texts.
pub fn accepted(parts: Parts) -> Task
    requires { refusal_of parts ≡ None }
    ensures { result ≡ canonical_parts parts }
{
    let mut operators = parts.operators.into_vec();
    put_in_order(&mut operators);
    let mut rules = parts.rules.into_vec();
    keep_rules(&parts.init, &mut rules);
    Task::new(Parts {
        metric: parts.metric,
        variables: parts.variables,
        groups: parts.groups,
        init: parts.init,
        goal: parts.goal,
        operators: Seq::from(operators),
        rules: Seq::from(rules),
    })
}

/// What is made of parts: preconditions are in order, and rules that give a default are left out.
/// Refuses a number of conditions that is above the limit.
#[tactic(auto, using(crate::proofs::Above::above_append))]
fn canonical(parts: Parts) -> Result<Parts, TaskError>
    ensures { result
        ≡ unless (too_large Conditions most_listed (condition_counts parts)) (canonical_parts parts) }
{
    let mut operators = parts.operators.into_vec();
    let conditions = order_operators(&mut operators);
    refuse(
        What::Conditions,
        first_of(conditions, rule_conditions_above(&parts.rules)),
    )?;
    let mut rules = parts.rules.into_vec();
    keep_rules(&parts.init, &mut rules);
    Ok(Parts {
        metric: parts.metric,
        variables: parts.variables,
        groups: parts.groups,
        init: parts.init,
        goal: parts.goal,
        operators: Seq::from(operators),
        rules: Seq::from(rules),
    })
}

/// The task with these parts. Rules that give a variable its default are left out, and the
/// preconditions of each operator are put into the order of the canonical task text. Takes no
/// memory that its answer would depend on, and drops the parts where it refuses them.
///
/// Where an operator has many preconditions, they are ordered by tables, in time that grows with
/// their number times its logarithm; with no memory for tables, with the square of their number.
pub fn check(parts: Parts) -> Result<Task, TaskError>
    ensures { result ≡ unless (refusal_of parts) (canonical_parts parts) }
{
    refuse_sizes_before_effects(&parts)?;
    let others = refuse_others(&parts);
    let ordered = canonical(parts)?;
    others?;
    Ok(Task::new(ordered))
}
