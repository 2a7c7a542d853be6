// Settling one layer: its rules are tried once, and again where a variable of the layer in their
// conditions was given.
ghost use Rattle.std.specs.Prelude.{◌≡◌, ◌<◌, ◌≤◌, ◌+◌, ◌++◌, ◌∷◌, [], ℕ, List, length, IsTrue};
ghost use Rattle.std.specs.Prelude.{Bool, false, nat_le, nat_eq, nat_lt, ◌&&◌, slice_set, vec_len};
ghost use Rattle.std.specs.Prelude.{vec_capacity, if◌then◌else◌};
ghost use Rattle.sas_task.specs.WellFormed.{IsWellFormed};
ghost use Rattle.sas_task.specs.States.{rounds_of, size_of};
ghost use Rattle.axiom_eval.specs.Layers.{open_of};
ghost use Rattle.axiom_eval.specs.Rules.{AreRules, AreWithin, is_due, is_watching, layer_at};
ghost use Rattle.axiom_eval.specs.Rules.{given_at};
ghost use Rattle.axiom_eval.specs.Settling.{IsHearing, IsBetween};

use crate::tables::Rules;
use sas_task::{Parts, all_hold};

/// Whether a rule would change the values.
fn is_due_at(rules: &Rules, place: usize, values: &[u32]) -> bool
    requires place { place < length rules.now.heads }
    requires within { AreWithin (length values.now) rules.now }
    ensures { result ≡ is_due rules.now place values.now }
{
    let head = rules.heads[place].fact;
    values[head.var as usize] != head.val && all_hold(values, rules.conds.row(place))
}

/// Gives the head of a rule that is due; its variable waits to be looked at.
fn try_rule(rules: &Rules, place: usize, values: &mut [u32], waiting: &mut Vec<u32>)
    requires place { place < length rules.now.heads }
    requires within { AreWithin (length values.old) rules.now }
    requires room { IsTrue (is_due rules.now place values.old) →
        vec_len waiting.old < vec_capacity waiting.old }
    ensures values { values.new ≡
        (if is_due rules.now place values.old
        then slice_set values.old (given_at rules.now place).var (given_at rules.now place).val
        else values.old) }
    ensures waiting { waiting.new.items ≡ (if is_due rules.now place values.old
        then waiting.old.items ++ (given_at rules.now place).var ∷ [] else waiting.old.items) }
    ensures room { vec_capacity waiting.old ≤ vec_capacity waiting.new }
{
    if is_due_at(rules, place, values) {
        let head = rules.heads[place].fact;
        values[head.var as usize] = head.val;
        waiting.push_reserved(head.var);
    }
}

fn is_in(rules: &Rules, place: usize, layer: u32) -> bool
    requires { place < length rules.now.heads }
    ensures { result ≡ nat_eq (layer_at rules.now place) layer }
{
    rules.heads[place].layer == layer
}

/// Tries the rules of a layer, which begin at a place, and says where they end.
fn try_rules_of(
    parts: &Parts,
    rules: &Rules,
    layer: u32,
    from: usize,
    values: &mut [u32],
    waiting: &mut Vec<u32>,
) -> usize
    requires formed { IsWellFormed parts.now }
    requires rules { AreRules parts.now rules.now }
    requires from { from < length rules.now.heads }
    requires first { layer_at rules.now from ≡ layer }
    requires room { length parts.now.variables ≤ vec_capacity waiting.old }
    requires hearing { IsHearing parts.now rules.now layer values.old waiting.old.items
        (λ place. nat_le from place) }
    ensures hearing { IsHearing parts.now rules.now layer values.new waiting.new.items
        (λ place. false) }
    ensures between { (start : List ℕ) → IsBetween parts.now layer start values.old →
        IsBetween parts.now layer start values.new }
    ensures room { length parts.now.variables ≤ vec_capacity waiting.new }
    ensures within { result ≤ length rules.now.heads }
    ensures those { (place : ℕ) → from ≤ place → place < result → layer_at rules.now place ≡ layer }
    ensures onwards { from < result }
    ensures end { result < length rules.now.heads → layer < layer_at rules.now result }
{
    for place in from..rules.heads.len() {
        if !is_in(rules, place, layer) {
            return place;
        }
        try_rule(rules, place, values, waiting);
    }
    rules.heads.len()
}

/// Tries the rules of a layer that watch a variable.
fn try_watchers_of(
    parts: &Parts,
    rules: &Rules,
    layer: u32,
    var: u32,
    values: &mut [u32],
    waiting: &mut Vec<u32>,
)
    requires formed { IsWellFormed parts.now }
    requires rules { AreRules parts.now rules.now }
    requires var { var < length parts.now.variables }
    requires room { length parts.now.variables ≤ vec_capacity waiting.old }
    requires hearing { IsHearing parts.now rules.now layer values.old waiting.old.items
        (is_watching rules.now var) }
    ensures hearing { IsHearing parts.now rules.now layer values.new waiting.new.items
        (λ place. false) }
    ensures between { (start : List ℕ) → IsBetween parts.now layer start values.old →
        IsBetween parts.now layer start values.new }
    ensures room { length parts.now.variables ≤ vec_capacity waiting.new }
    ensures left { length waiting.new.items + open_of parts.now layer values.new ≡
        length waiting.old.items + open_of parts.now layer values.old }
{
    let watching = rules.watchers.row(var as usize);
    for place in watching {
        if is_in(rules, *place as usize, layer) {
            try_rule(rules, *place as usize, values, waiting);
        }
    }
}

/// Looks at the variables that were given until none waits.
fn propagate(parts: &Parts, rules: &Rules, layer: u32, values: &mut [u32], waiting: &mut Vec<u32>)
    requires formed { IsWellFormed parts.now }
    requires rules { AreRules parts.now rules.now }
    requires room { length parts.now.variables ≤ vec_capacity waiting.old }
    requires hearing { IsHearing parts.now rules.now layer values.old waiting.old.items
        (λ place. false) }
    ensures hearing { IsHearing parts.now rules.now layer values.new [] (λ place. false) }
    ensures between { (start : List ℕ) → IsBetween parts.now layer start values.old →
        IsBetween parts.now layer start values.new }
    ensures room { length parts.now.variables ≤ vec_capacity waiting.new }
    ensures none { waiting.new.items ≡ [] }
{
    while let Some(var) = waiting.pop() {
        try_watchers_of(parts, rules, layer, var, values, waiting);
    }
}

/// Settles the layer of the rule at a place, where its rules begin, and says where they end.
pub fn settle_layer(
    parts: &Parts,
    rules: &Rules,
    from: usize,
    values: &mut [u32],
    waiting: &mut Vec<u32>,
) -> usize
    requires formed { IsWellFormed parts.now }
    requires rules { AreRules parts.now rules.now }
    requires from { from < length rules.now.heads }
    requires first { (place : ℕ) → place < from →
        layer_at rules.now place < layer_at rules.now from }
    requires long { length values.old ≡ length parts.now.variables }
    requires room { length parts.now.variables ≤ vec_capacity waiting.old }
    requires none { waiting.old.items ≡ [] }
    ensures values { values.new ≡ rounds_of parts.now (layer_at rules.now from)
        (size_of parts.now.variables (layer_at rules.now from)) values.old }
    ensures room { length parts.now.variables ≤ vec_capacity waiting.new }
    ensures none { waiting.new.items ≡ [] }
    ensures onwards { from < result }
    ensures within { result ≤ length rules.now.heads }
    ensures those { (place : ℕ) → from ≤ place → place < result →
        layer_at rules.now place ≡ layer_at rules.now from }
    ensures end { result < length rules.now.heads →
        layer_at rules.now from < layer_at rules.now result }
{
    let layer = rules.heads[from].layer;
    let end = try_rules_of(parts, rules, layer, from, values, waiting);
    propagate(parts, rules, layer, values, waiting);
    end
}
