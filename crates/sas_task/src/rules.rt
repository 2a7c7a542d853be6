// Tests of axiom rules.
ghost use Rattle.std.specs.Prelude.{◌≡◌, ◌<◌, length};
ghost use Rattle.std.specs.List.{list_all};
ghost use Rattle.sas_task.specs.WellFormed.{is_default as default_test};
ghost use Rattle.sas_task.specs.WellFormed.{is_layered_below as below_test};
ghost use Rattle.sas_task.specs.WellFormed.{is_layered_rule as layered_test};

use crate::conditions::layer_of;
use crate::contents::{Fact, Rule, Variable};

/// Whether a fact is the default of its variable.
pub fn is_default(init: &[u32], fact: Fact) -> bool
    ensures { result ≡ default_test init.now fact }
{
    match init.get(fact.var as usize) {
        Some(value) => fact.val == *value,
        None => fact.val == 0,
    }
}

fn is_layered_below(variables: &[Variable], init: &[u32], layer: u32, fact: Fact) -> bool
    ensures { result ≡ below_test variables.now init.now layer fact }
{
    match layer_of(variables, fact.var) {
        None => true,
        Some(own) => {
            if is_default(init, fact) {
                own < layer
            } else {
                own <= layer
            }
        }
    }
}

fn are_layered_below(variables: &[Variable], init: &[u32], layer: u32, facts: &[Fact]) -> bool
    ensures { result ≡ list_all (below_test variables.now init.now layer) facts.now }
{
    facts
        .iter()
        .all(|fact| is_layered_below(variables, init, layer, *fact))
}

/// Whether the head is of a derived variable, and the conditions lie in its layer or below.
pub fn is_layered_rule(variables: &[Variable], init: &[u32], rule: &Rule) -> bool
    ensures { result ≡ layered_test variables.now init.now rule.now }
{
    match layer_of(variables, rule.head.var) {
        None => false,
        Some(layer) => are_layered_below(variables, init, layer, &rule.conds),
    }
}
