// The flat tables of a task.
ghost use Rattle.std.specs.Prelude.{◌≡◌, ◌<◌, ◌^◌, ◌∷◌, ◌++◌, [], ℕ, length, map, IfOk, OnOk};
ghost use Rattle.std.specs.Prelude.{IsTrue, Some, slice_set, replicate, if◌then◌else◌};
ghost use Rattle.std.specs.List.{list_all};
ghost use Rattle.std.specs.List.Sorted.{IsPermutation, IsNonDecreasingBy};
ghost use Rattle.lama_num.specs.Rows.{row_at};
ghost use Rattle.sas_task.specs.WellFormed.{IsWellFormed, layer_of};
ghost use Rattle.sas_task.specs.Within.{is_within};
ghost use Rattle.sas_task.specs.States.{is_layer};
ghost use Rattle.axiom_eval.specs.Rules.{AreRules};
ghost use Rattle.axiom_eval.specs.Defaults.{AreDerived};
ghost use Rattle.axiom_eval.specs.Building.{AreSlots, AddsWatcher, AreWatchers, head_of};
ghost use Rattle.axiom_eval.specs.Building.{conds_of as the_conds_of, is_rule_below};

use crate::tables::{Derived, Head, Rules};
use lama_num::{NoMemory, Rows, Seq};
use sas_task::{Fact, Parts, Rule, Variable};
use std::alloc::{AllocError, Global};

/// The derived variables of a task.
pub fn derived_of(alloc: Global, parts: &Parts) -> Result<Vec<Derived>, AllocError>
    requires { IsWellFormed parts.now }
    ensures { IfOk result (λ derived. AreDerived parts.now derived.items) }
{
    let mut derived = Vec::new(alloc);
    for (i, variable) in parts.variables.iter().enumerate() {
        if variable.layer.is_some() {
            derived.push(Derived {
                var: i as u32,
                default: parts.init[i],
            })?;
        }
    }
    Ok(derived)
}

/// A rule by its number, with its layer.
#[derive(Clone, Copy)]
pub struct Slot {
    pub layer: u32,
    pub rule: u32,
}

/// The layer of a rule's head.
fn layer_of_rule(variables: &[Variable], rule: &Rule) -> u32
    ensures { (layer : ℕ) → layer_of variables.now rule.now.head.var ≡ Some layer → result ≡ layer }
{
    match variables.get(rule.head.var as usize) {
        Some(variable) => variable.layer.unwrap_or(0),
        None => 0,
    }
}

fn slots_of(alloc: Global, parts: &Parts) -> Result<Vec<Slot>, AllocError>
    requires { IsWellFormed parts.now }
    ensures { IfOk result (λ slots. AreSlots parts.now slots.items) }
{
    let mut slots = Vec::with_capacity(alloc, parts.rules.len())?;
    for (i, rule) in parts.rules.iter().enumerate() {
        let layer = layer_of_rule(&parts.variables, rule);
        slots.push(Slot {
            layer,
            rule: i as u32,
        })?;
    }
    Ok(slots)
}

fn order_by_layer(slots: &mut Vec<Slot>)
    ensures order { IsNonDecreasingBy (λ s. s.layer) slots.new.items }
    ensures same { IsPermutation slots.old.items slots.new.items }
{
    slots.sort_unstable_by_key(|slot| slot.layer);
}

fn heads_of(alloc: Global, rules: &[Rule], slots: &[Slot]) -> Result<Vec<Head>, AllocError>
    requires { IsTrue (list_all (is_rule_below (length rules.now)) slots.now) }
    ensures { IfOk result (λ heads. heads.items ≡ map (head_of rules.now) slots.now) }
{
    let mut heads = Vec::with_capacity(alloc, slots.len())?;
    for slot in slots {
        let fact = rules[slot.rule as usize].head;
        heads.push(Head {
            layer: slot.layer,
            fact,
        })?;
    }
    Ok(heads)
}

fn conds_of(alloc: Global, rules: &[Rule], slots: &[Slot]) -> Result<Rows<Fact>, NoMemory>
    requires { IsTrue (list_all (is_rule_below (length rules.now)) slots.now) }
    ensures { IfOk result (λ rows. rows ≡ map (the_conds_of rules.now) slots.now) }
{
    let mut rows = Rows::new(alloc);
    for slot in slots {
        match rows.push(&rules[slot.rule as usize].conds) {
            Ok(()) => {}
            Err(e) => return Err(e),
        }
    }
    Ok(rows)
}

fn is_of_layer(variables: &[Variable], var: u32, layer: u32) -> bool
    ensures { result ≡ is_layer (layer_of variables.now var) layer }
{
    match variables.get(var as usize) {
        Some(variable) => variable.layer == Some(layer),
        None => false,
    }
}

/// Adds a place to the list of a variable.
fn add_to(lists: &mut Vec<Seq<u32>>, var: usize, place: u32) -> Result<(), AllocError>
    requires { var < length lists.old.items }
    ensures { OnOk result (lists.new.items ≡
        slice_set lists.old.items var (row_at lists.old.items var ++ place ∷ [])) }
{
    lists[var].push(place)
}

/// Adds a place to the list of a variable of the layer.
fn watch(
    variables: &[Variable],
    layer: u32,
    place: u32,
    var: u32,
    lists: &mut Vec<Seq<u32>>,
) -> Result<(), AllocError>
    requires { var < length lists.old.items }
    ensures { OnOk result
        (lists.new.items ≡
        (if is_layer (layer_of variables.now var) layer
        then slice_set lists.old.items var (row_at lists.old.items var ++ place ∷ [])
        else lists.old.items)) }
{
    if is_of_layer(variables, var, layer) {
        return add_to(lists, var as usize, place);
    }
    Ok(())
}

/// Adds the place of a rule to the lists of its conditions in the layer.
fn watch_all(
    variables: &[Variable],
    layer: u32,
    place: u32,
    facts: &[Fact],
    lists: &mut Vec<Seq<u32>>,
) -> Result<(), AllocError>
    requires { IsTrue (list_all (is_within (length lists.old.items)) facts.now) }
    ensures { OnOk result
        (AddsWatcher variables.now layer place facts.now lists.old.items lists.new.items) }
{
    for fact in facts {
        match watch(variables, layer, place, fact.var, lists) {
            Ok(()) => {}
            Err(e) => return Err(e),
        }
    }
    Ok(())
}

fn no_lists(alloc: Global, variables: usize) -> Result<Vec<Seq<u32>>, AllocError>
    ensures { IfOk result (λ v. v.items ≡ replicate variables []) }
{
    let mut lists = Vec::with_capacity(alloc, variables)?;
    for _variable in 0..variables {
        lists.push(Seq::new(alloc))?;
    }
    Ok(lists)
}

fn watchers_of(
    alloc: Global,
    variables: &[Variable],
    heads: &[Head],
    conds: &Rows<Fact>,
) -> Result<Rows<u32>, NoMemory>
    requires few { length heads.now < 2 ^ 32 }
    requires long { length conds.now ≡ length heads.now }
    requires within { IsTrue (list_all (list_all (is_within (length variables.now))) conds.now) }
    ensures { IfOk result
        (λ rows. AreWatchers variables.now heads.now conds.now (length heads.now) rows) }
{
    let mut lists = no_lists(alloc, variables.len())?;
    for (place, head) in heads.iter().enumerate() {
        match watch_all(
            variables,
            head.layer,
            place as u32,
            conds.row(place),
            &mut lists,
        ) {
            Ok(()) => {}
            Err(_) => return Err(NoMemory),
        }
    }
    Rows::from_lists(alloc, &lists)
}

/// The rules of a task, ordered by layer.
pub fn rules_of(alloc: Global, parts: &Parts) -> Result<Rules, NoMemory>
    requires { IsWellFormed parts.now }
    ensures { IfOk result (λ rules. AreRules parts.now rules) }
{
    let mut slots = slots_of(alloc, parts)?;
    order_by_layer(&mut slots);
    let heads = heads_of(alloc, &parts.rules, &slots)?;
    let conds = conds_of(alloc, &parts.rules, &slots)?;
    let watchers = watchers_of(alloc, &parts.variables, &heads, &conds)?;
    Ok(Rules {
        heads: Seq::from(heads),
        conds,
        watchers,
    })
}
