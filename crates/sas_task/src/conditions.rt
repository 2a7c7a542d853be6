// Tests of facts.
ghost use Rattle.std.specs.Prelude.{◌≡◌, ◌<◌, length, IsTrue};
ghost use Rattle.std.specs.List.{list_all};
ghost use Rattle.sas_task.specs.WellFormed.{layer_of as the_layer, is_derived as derived};
ghost use Rattle.sas_task.specs.WellFormed.{is_fact as fact_test};
ghost use Rattle.sas_task.specs.States.{holds as fact_holds, all_hold as facts_hold};
ghost use Rattle.sas_task.specs.Within.{is_within};

use crate::contents::{Fact, Variable};

/// The layer of a variable that is derived.
pub fn layer_of(variables: &[Variable], var: u32) -> Option<u32>
    ensures { result ≡ the_layer variables.now var }
{
    match variables.get(var as usize) {
        Some(variable) => variable.layer,
        None => None,
    }
}

/// Whether a variable is derived.
pub fn is_derived(variables: &[Variable], var: u32) -> bool
    ensures { result ≡ derived variables.now var }
{
    layer_of(variables, var).is_some()
}

/// Whether the variable is there and has the value.
pub fn is_fact(variables: &[Variable], fact: Fact) -> bool
    ensures { result ≡ fact_test variables.now fact }
{
    match variables.get(fact.var as usize) {
        Some(variable) => (fact.val as usize) < variable.values.len(),
        None => false,
    }
}

/// Whether each of these is a fact of the variables.
pub fn are_facts(variables: &[Variable], facts: &[Fact]) -> bool
    ensures { result ≡ list_all (fact_test variables.now) facts.now }
{
    facts.iter().all(|fact| is_fact(variables, *fact))
}

/// Whether a fact holds in a state.
pub fn holds(state: &[u32], fact: Fact) -> bool
    requires { fact.var < length state.now }
    ensures { result ≡ fact_holds state.now fact }
{
    state[fact.var as usize] == fact.val
}

/// Whether all facts hold in a state.
pub fn all_hold(state: &[u32], facts: &[Fact]) -> bool
    requires { IsTrue (list_all (is_within (length state.now)) facts.now) }
    ensures { result ≡ facts_hold state.now facts.now }
{
    for fact in facts {
        if !holds(state, *fact) {
            return false;
        }
    }
    true
}
