// Settling a state: derived variables get their defaults, and then what the rules give, layer by
// layer upwards.
ghost use Rattle.std.specs.Prelude.{◌≡◌, ◌≤◌, [], length, vec_capacity};
ghost use Rattle.sas_task.specs.WellFormed.{IsWellFormed};
ghost use Rattle.sas_task.specs.States.{reset, settled_below, top_of};
ghost use Rattle.axiom_eval.specs.Rules.{AreRules};
ghost use Rattle.axiom_eval.specs.Defaults.{AreDerived};

use crate::layers::settle_layer;
use crate::tables::{Derived, Rules};
use sas_task::Parts;

/// Gives derived variables their defaults.
pub fn reset_derived(parts: &Parts, derived: &[Derived], values: &mut [u32])
    requires derived { AreDerived parts.now derived.now }
    requires long { length values.old ≡ length parts.now.variables }
    ensures { values.new ≡ reset parts.now values.old }
{
    for variable in derived {
        values[variable.var as usize] = variable.default;
    }
}

/// Settles the layers that have rules, upwards.
pub fn settle_layers(parts: &Parts, rules: &Rules, values: &mut [u32], waiting: &mut Vec<u32>)
    requires formed { IsWellFormed parts.now }
    requires rules { AreRules parts.now rules.now }
    requires long { length values.old ≡ length parts.now.variables }
    requires room { length parts.now.variables ≤ vec_capacity waiting.old }
    requires none { waiting.old.items ≡ [] }
    ensures values { values.new ≡ settled_below parts.now (top_of parts.now.variables) values.old }
    ensures room { length parts.now.variables ≤ vec_capacity waiting.new }
    ensures none { waiting.new.items ≡ [] }
{
    let mut place = 0;
    while place < rules.heads.len() {
        place = settle_layer(parts, rules, place, values, waiting);
    }
}
