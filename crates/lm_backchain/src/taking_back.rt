// What a node is taken back to.
ghost use Rattle.std.specs.Prelude.{◌≡◌, ◌≤◌, ◌&&◌, ◌||◌, ◌↔◌, ◌++◌, ◌∷◌, [], List, length, true};
ghost use Rattle.std.specs.Prelude.{Some, IsTrue, IfOk, OnOk};
ghost use Rattle.std.specs.List.{list_all};
ghost use Rattle.sas_task.specs.Facts.{predicate_of, same_fact};
ghost use Rattle.sas_task.specs.Runs.{start_of};
ghost use Rattle.sas_task.specs.WellFormed.{is_fact};
ghost use Rattle.sas_task.specs.declared.contents.CostKind.TheVariants.{One};
ghost use Rattle.sas_task.specs.declared.contents.Fact.{Fact as TheFact};
ghost use Rattle.relaxed_task.specs.Relaxations.{IsRelaxed};
ghost use Rattle.lm_graph.specs.Nodes.{is_ascending};
ghost use Rattle.lm_backchain.specs.Backchain.{has as has_fact, is_open as open_test, Among};
ghost use Rattle.lm_backchain.specs.Backchain.{singles};
ghost use Rattle.lm_backchain.specs.Asked.{IsOf, IsFactOf, AllAsk, AreFacts, Collects, IsAsked};
ghost use Rattle.lm_backchain.specs.Asked.{IsSetFor, all_have as have_all, PutsSet, AddsSet};
ghost use Rattle.lm_backchain.specs.Asked.{HasSets};
ghost use Rattle.lm_backchain.specs.Firsts.{AreFirsts};
ghost use Rattle.lm_backchain.specs.Givers.{AreGivers};
ghost use Rattle.lm_backchain.specs.Growth.{IsTakenBack};
ghost use Rattle.lm_backchain.specs.Singles.{Keeps};

use crate::facts::{has, is_less, is_open, put_fact};
use crate::firsts::firsts_of;
use crate::singles::{Single, kept_of};
use h_add::Add;
use lama_num::{NoMemory, Seq};
use sas_task::{Fact, Task};
use std::alloc::{AllocError, Global};

fn all_have(lists: &[Seq<Fact>], fact: Fact) -> bool
    ensures { result ≡ have_all lists.now fact }
{
    lists.iter().all(|conds| has(conds, fact))
}

fn put_shared(lists: &[Seq<Fact>], fact: Fact, facts: &mut Vec<Fact>) -> Result<(), AllocError>
    requires { IsTrue (is_ascending facts.old.items) }
    ensures ascending { OnOk result (IsTrue (is_ascending facts.new.items)) }
    ensures has { OnOk result ((other : TheFact) → has_fact facts.new.items other
        ≡ ((same_fact other fact && have_all lists.now fact) || has_fact facts.old.items other)) }
{
    if all_have(lists, fact) {
        put_fact(facts, fact)?;
    }
    Ok(())
}

/// The facts that all lists have, ascending, of those of one.
fn shared(alloc: Global, lists: &[Seq<Fact>], front: &[Fact]) -> Result<Vec<Fact>, AllocError>
    ensures { IfOk result (λ facts. (fact : TheFact) →
        has_fact facts.items fact ≡ (has_fact front.now fact && have_all lists.now fact)) }
{
    let mut facts = Vec::new(alloc);
    for fact in front {
        put_shared(lists, *fact, &mut facts)?;
    }
    Ok(facts)
}

fn has_predicate(task: &Task, fact: Fact, predicate: &[u8]) -> bool
    ensures { IsTrue result ↔ (predicate_of task.now fact ≡ Some predicate.now) }
{
    match task.predicate(fact) {
        Some(other) => other == predicate,
        None => false,
    }
}

fn asks(task: &Task, predicate: &[u8], conds: &[Fact]) -> bool
    ensures { IsTrue result ↔ ((fact : TheFact) × IsOf task.now predicate.now conds.now fact) }
{
    for fact in conds {
        if has_predicate(task, *fact, predicate) {
            return true;
        }
    }
    false
}

fn all_ask(task: &Task, predicate: &[u8], lists: &[Seq<Fact>]) -> bool
    ensures { IsTrue result ↔ AllAsk task.now predicate.now lists.now }
{
    for conds in lists {
        if !asks(task, predicate, conds) {
            return false;
        }
    }
    true
}

fn collect_fact(
    task: &Task,
    predicate: &[u8],
    fact: Fact,
    set: &mut Vec<Fact>,
) -> Result<(), AllocError>
    requires { IsTrue (is_ascending set.old.items) }
    ensures { OnOk result
        (Collects set.old.items set.new.items (IsFactOf task.now predicate.now fact)) }
{
    if set.len() > 4 {
        return Ok(());
    }
    if has_predicate(task, fact, predicate) {
        put_fact(set, fact)?;
    }
    Ok(())
}

fn collect_from(
    task: &Task,
    predicate: &[u8],
    conds: &[Fact],
    set: &mut Vec<Fact>,
) -> Result<(), AllocError>
    requires { IsTrue (is_ascending set.old.items) }
    ensures { OnOk result
        (Collects set.old.items set.new.items (IsOf task.now predicate.now conds.now)) }
{
    for fact in conds {
        collect_fact(task, predicate, *fact, set)?;
    }
    Ok(())
}

/// The facts of a predicate that the lists ask for, ascending, or some of them if there are more
/// than four.
fn collect(
    alloc: Global,
    task: &Task,
    predicate: &[u8],
    lists: &[Seq<Fact>],
) -> Result<Vec<Fact>, AllocError>
    ensures { IfOk result
        (λ set. Collects [] set.items (IsAsked task.now predicate.now lists.now)) }
{
    let mut set = Vec::new(alloc);
    for conds in lists {
        collect_from(task, predicate, conds, &mut set)?;
    }
    Ok(set)
}

fn is_set_for(
    task: &Task,
    start: &[u32],
    predicate: &[u8],
    lists: &[Seq<Fact>],
    set: &[Fact],
) -> bool
    requires facts { IsTrue (list_all (is_fact task.now.variables) set.now) }
    requires start { start.now ≡ start_of task.now }
    requires long { length start.now ≡ length task.now.variables }
    requires collected { Collects [] set.now (IsAsked task.now predicate.now lists.now) }
    ensures { IsTrue result ↔ IsSetFor task.now lists.now predicate.now set.now }
{
    let count = set.len();
    if count < 2 {
        return false;
    }
    if count > 4 {
        return false;
    }
    if !is_open(task, start, set) {
        return false;
    }
    all_ask(task, predicate, lists)
}

fn comes_before(a: &[Fact], b: &[Fact]) -> bool {
    match (a.first(), b.first()) {
        (Some(a), Some(b)) => is_less(*a, *b),
        _ => false,
    }
}

/// Where a set goes among others, by its first fact: sets of different predicates share none.
fn place_of_set(sets: &[Seq<Fact>], set: &[Fact]) -> usize
    ensures { result ≤ length sets.now }
{
    for (place, other) in sets.iter().enumerate() {
        if comes_before(set, other) {
            return place;
        }
    }
    sets.len()
}

fn put_set(sets: &mut Vec<Seq<Fact>>, set: Vec<Fact>) -> Result<(), NoMemory>
    ensures { OnOk result (PutsSet sets.old.items sets.new.items set.items) }
{
    let place = place_of_set(sets, &set);
    sets.insert(place, Seq::from(set))?;
    Ok(())
}

/// Adds the set of a predicate, if there is one.
fn add_set(
    task: &Task,
    start: &[u32],
    predicate: &[u8],
    lists: &[Seq<Fact>],
    sets: &mut Vec<Seq<Fact>>,
) -> Result<(), NoMemory>
    requires facts { AreFacts task.now.variables lists.now }
    requires start { start.now ≡ start_of task.now }
    requires long { length start.now ≡ length task.now.variables }
    ensures { OnOk result (AddsSet task.now lists.now predicate.now sets.old.items sets.new.items) }
{
    let set = collect(*sets.allocator(), task, predicate, lists)?;
    if is_set_for(task, start, predicate, lists, &set) {
        put_set(sets, set)?;
    }
    Ok(())
}

fn add_set_of(
    task: &Task,
    start: &[u32],
    seed: Fact,
    lists: &[Seq<Fact>],
    sets: &mut Vec<Seq<Fact>>,
) -> Result<(), NoMemory>
    requires facts { AreFacts task.now.variables lists.now }
    requires start { start.now ≡ start_of task.now }
    requires long { length start.now ≡ length task.now.variables }
    ensures { OnOk result
        ((seeds : List TheFact) → HasSets task.now lists.now seeds sets.old.items →
        HasSets task.now lists.now (seeds ++ seed ∷ []) sets.new.items) }
{
    match task.predicate(seed) {
        Some(predicate) => {
            add_set(task, start, predicate, lists, sets)?;
            Ok(())
        }
        None => Ok(()),
    }
}

/// The sets of the predicates of the facts of one list.
fn sets_of(
    alloc: Global,
    task: &Task,
    start: &[u32],
    lists: &[Seq<Fact>],
    front: &[Fact],
) -> Result<Vec<Seq<Fact>>, NoMemory>
    requires facts { AreFacts task.now.variables lists.now }
    requires start { start.now ≡ start_of task.now }
    requires long { length start.now ≡ length task.now.variables }
    ensures { IfOk result (λ sets. HasSets task.now lists.now front.now sets.items) }
{
    let mut sets = Vec::new(alloc);
    for seed in front {
        add_set_of(task, start, *seed, lists, &mut sets)?;
    }
    Ok(sets)
}

fn single(alloc: Global, fact: Fact) -> Result<Seq<Fact>, AllocError>
    ensures { IfOk result (λ set. set ≡ fact ∷ []) }
{
    let mut facts = Vec::with_capacity(alloc, 1)?;
    facts.push(fact)?;
    Ok(Seq::from(facts))
}

fn single_sets(alloc: Global, facts: &[Fact]) -> Result<Vec<Seq<Fact>>, AllocError>
    ensures { IfOk result (λ sets. sets.items ≡ singles facts.now) }
{
    let mut sets = Vec::with_capacity(alloc, facts.len())?;
    for fact in facts {
        let set = single(alloc, *fact)?;
        sets.push(set)?;
    }
    Ok(sets)
}

/// What lists of conditions are taken back to: single facts, ascending, and then sets.
fn back_from(
    alloc: Global,
    task: &Task,
    start: &[u32],
    lists: &[Seq<Fact>],
) -> Result<Vec<Seq<Fact>>, NoMemory>
    requires facts { AreFacts task.now.variables lists.now }
    requires start { start.now ≡ start_of task.now }
    requires long { length start.now ≡ length task.now.variables }
    ensures { IfOk result (λ sets. (node : List TheFact) → open_test task.now node ≡ true →
        AreFirsts task.now node lists.now → IsTakenBack task.now node sets.items) }
{
    if lists.is_empty() {
        return Ok(Vec::new(alloc));
    }
    let front = &lists[0];
    let facts = shared(alloc, lists, front)?;
    let mut sets = single_sets(alloc, &facts)?;
    let mut more = sets_of(alloc, task, start, lists, front)?;
    sets.append(&mut more)?;
    Ok(sets)
}

/// What a node, with the operators that give one of its facts, is taken back to: single facts,
/// ascending, and then sets. It is nothing where one of its facts is derived or holds in the
/// initial state. Adds what is kept of the node.
pub fn taken_back(
    task: &Task,
    start: &[u32],
    add: &mut Add,
    node: &[Fact],
    ops: &[u32],
    singles: &mut Vec<Option<Single>>,
) -> Result<Vec<Seq<Fact>>, NoMemory>
    requires ops { AreGivers task.now node.now ops.now }
    requires node { IsTrue (list_all (is_fact task.now.variables) node.now) }
    requires start { start.now ≡ start_of task.now }
    requires add { IsRelaxed task.now One add.old.relaxed }
    ensures sets { IfOk result (λ sets. IsTakenBack task.now node.now sets.items) }
    ensures keeps { IfOk result
        (λ sets. Keeps task.now node.now singles.old.items singles.new.items) }
    ensures add { add.new.relaxed ≡ add.old.relaxed }
{
    let alloc = *singles.allocator();
    if !is_open(task, start, node) {
        singles.push(None)?;
        return Ok(Vec::new(alloc));
    }
    add.evaluate_without(start, node);
    let kept = kept_of(alloc, add, node)?;
    singles.push(kept)?;
    let firsts = firsts_of(alloc, task, add, node, ops)?;
    let sets = back_from(alloc, task, start, &firsts)?;
    Ok(sets)
}
