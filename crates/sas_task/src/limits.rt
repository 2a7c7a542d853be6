// The first of some quantities that is above its limit.
ghost use Rattle.std.specs.Prelude.{◌≡◌, ◌≤◌, ◌<◌, ◌∷◌, ◌++◌, [], None, length, map, flat_map};
ghost use Rattle.std.specs.Prelude.{filter_map, option_map};
ghost use Rattle.std.specs.Option.{option_or};
ghost use Rattle.sas_task.specs.Limits.{most_variables, most_listed, highest_layer, highest_cost};
ghost use Rattle.sas_task.specs.Limits.{longest_name};
ghost use Rattle.sas_task.specs.WellFormed.{fact_count as the_fact_count};
ghost use Rattle.sas_task.specs.Refusals.{above as the_above, names_of, unless};

use crate::contents::{Effect, Operator, Rule, Variable};
use crate::refusals::{TaskError, What};
use lama_num::Seq;

/// The most variables, and the most values of one.
pub const MOST_VARIABLES: usize = 1_048_576;

/// The most values of all variables together.
pub const MOST_FACTS: usize = 4_194_304;

/// The most operators.
pub const MOST_OPERATORS: usize = 4_194_304;

/// The most rules.
pub const MOST_RULES: usize = 4_194_304;

/// The most values of one variable, mutex groups, effects of one operator, and facts of one list.
pub const MOST_LISTED: usize = 1_048_576;

/// The highest number of an axiom layer.
pub const HIGHEST_LAYER: u32 = 1_048_576;

/// The highest cost of an operator.
pub const HIGHEST_COST: u32 = 2_147_483_647;

/// The most bytes of a name.
pub const LONGEST_NAME: usize = 4096;

/// Refuses a quantity that has a count above its limit.
pub fn refuse(what: What, count: Option<usize>) -> Result<(), TaskError>
    ensures { result ≡ unless (option_map (λ n. TaskError.TooLarge what n) count) tt }
{
    match count {
        Some(count) => Err(TaskError::TooLarge {
            what,
            count: count as u64,
        }),
        None => Ok(()),
    }
}

/// A count, if it is above the limit.
pub fn above(most: usize, count: usize) -> Option<usize>
    ensures { result ≡ the_above most (count ∷ []) }
{
    if count > most { Some(count) } else { None }
}

/// The first of two counts, if it is there, else the second.
pub fn first_of(first: Option<usize>, second: Option<usize>) -> Option<usize>
    ensures { result ≡ option_or first second }
{
    first.or(second)
}

/// The first range that is above the limit.
pub fn ranges_above(variables: &[Variable]) -> Option<usize>
    ensures { result ≡ the_above most_listed (map (λ v. length v.values) variables.now) }
{
    for variable in variables {
        if variable.values.len() > MOST_LISTED {
            return Some(variable.values.len());
        }
    }
    None
}

/// The first axiom layer that is above the limit.
pub fn layers_above(variables: &[Variable]) -> Option<usize>
    ensures { result ≡ the_above highest_layer (filter_map (λ v. v.layer) variables.now) }
{
    for variable in variables {
        match variable.layer {
            Some(layer) if layer > HIGHEST_LAYER => return Some(layer as usize),
            _ => {}
        }
    }
    None
}

/// The number of facts, of variables that are few and have few values each.
pub fn fact_count(variables: &[Variable]) -> usize
    requires few { length variables.now ≤ most_variables }
    requires small { the_above most_listed (map (λ v. length v.values) variables.now) ≡ None }
    ensures { result ≡ the_fact_count variables.now }
{
    let mut facts = 0;
    for variable in variables {
        facts += variable.values.len();
    }
    facts
}

/// The first list that is too long.
pub fn lists_above<T>(lists: &[Seq<T>], most: usize) -> Option<usize>
    ensures { result ≡ the_above most (map (λ list. length list) lists.now) }
{
    for list in lists {
        if list.len() > most {
            return Some(list.len());
        }
    }
    None
}

/// The first count of conditions of an effect that is above the limit.
pub fn effect_conditions_above(effects: &[Effect]) -> Option<usize>
    ensures { result ≡ the_above most_listed (map (λ e. length e.conds) effects.now) }
{
    for effect in effects {
        if effect.conds.len() > MOST_LISTED {
            return Some(effect.conds.len());
        }
    }
    None
}

/// The first count of conditions of a rule that is above the limit.
pub fn rule_conditions_above(rules: &[Rule]) -> Option<usize>
    ensures { result ≡ the_above most_listed (map (λ r. length r.conds) rules.now) }
{
    for rule in rules {
        if rule.conds.len() > MOST_LISTED {
            return Some(rule.conds.len());
        }
    }
    None
}

/// The first count of effects of an operator that is above the limit.
pub fn effects_above(operators: &[Operator]) -> Option<usize>
    ensures { result ≡ the_above most_listed (map (λ o. length o.effects) operators.now) }
{
    for operator in operators {
        if operator.effects.len() > MOST_LISTED {
            return Some(operator.effects.len());
        }
    }
    None
}

/// The first cost that is above the limit.
pub fn costs_above(operators: &[Operator]) -> Option<usize>
    ensures { result ≡ the_above highest_cost (map (λ o. o.cost) operators.now) }
{
    for operator in operators {
        if operator.cost > HIGHEST_COST {
            return Some(operator.cost as usize);
        }
    }
    None
}

fn variable_name_above(variable: &Variable) -> Option<usize>
    ensures { result ≡ the_above longest_name (names_of variable.now) }
{
    if variable.name.len() > LONGEST_NAME {
        return Some(variable.name.len());
    }
    lists_above(&variable.values, LONGEST_NAME)
}

fn variable_names_above(variables: &[Variable]) -> Option<usize>
    ensures { result ≡ the_above longest_name (flat_map names_of variables.now) }
{
    for variable in variables {
        let longest = variable_name_above(variable);
        if longest.is_some() {
            return longest;
        }
    }
    None
}

fn operator_names_above(operators: &[Operator]) -> Option<usize>
    ensures { result ≡ the_above longest_name (map (λ o. length o.name) operators.now) }
{
    for operator in operators {
        if operator.name.len() > LONGEST_NAME {
            return Some(operator.name.len());
        }
    }
    None
}

/// The first length of a name that is above the limit.
#[tactic(auto, using(crate::proofs::Above::above_append))]
pub fn names_above(variables: &[Variable], operators: &[Operator]) -> Option<usize>
    ensures { result ≡ the_above longest_name
        (flat_map names_of variables.now ++ map (λ o. length o.name) operators.now) }
{
    first_of(
        variable_names_above(variables),
        operator_names_above(operators),
    )
}
