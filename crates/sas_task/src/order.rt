// The order of an operator's preconditions.
ghost use Rattle.std.specs.Prelude.{◌≡◌, ◌≤◌, ◌<◌, ◌+◌, ◌++◌, length, take, drop, map, flat_map};
ghost use Rattle.std.specs.Prelude.{position, nat_eq, IfSome, None};
ghost use Rattle.sas_task.specs.Limits.{most_listed};
ghost use Rattle.sas_task.specs.Order.{distinct, prevail, arranged, in_order, prevail_count};
ghost use Rattle.sas_task.specs.Refusals.{above, conditions_of};

use crate::contents::{Effect, Fact, Operator};
use crate::limits::{MOST_LISTED, effect_conditions_above};
use crate::tables::{Arranged, by_tables, is_new, nothing_seen};
use lama_num::Seq;
use std::alloc::Global;
use std::mem;

/// Moves the facts to the front that didn't occur before, and says how many these are.
fn keep_distinct(alloc: Global, facts: &mut [Fact]) -> usize
    ensures front { take result facts.new ≡ distinct facts.old }
    ensures within { result ≤ length facts.old }
{
    let mut kept = 0;
    let mut seen = nothing_seen(alloc, facts.len());
    for i in 0..facts.len() {
        let fact = facts[i];
        if is_new(&mut seen, &facts[..kept], fact) {
            facts[kept] = fact;
            kept += 1;
        }
    }
    kept
}

/// The place of the first fact on a variable.
fn first_on(facts: &[Fact], var: u32) -> Option<usize>
    ensures place { result ≡ position (λ f. nat_eq f.var var) facts.now }
    ensures within { IfSome result (λ place. place < length facts.now) }
{
    facts.iter().position(|fact| fact.var == var)
}

fn move_to_end(facts: &mut [Fact], place: usize)
    requires { place < length facts.old }
    ensures { facts.new
        ≡ take place facts.old
        ++ (drop (place + 1) facts.old ++ take 1 (drop place facts.old)) }
{
    facts[place..].rotate_left(1);
}

/// Brings distinct preconditions into order, and says how many of them are prevail conditions.
///
/// The prevail conditions among the first effects stand at the front; each effect moves the first
/// of them on its variable to the end.
fn arrange_in_place(pre: &mut [Fact], effects: &[Effect]) -> usize
    requires { distinct pre.old ≡ pre.old }
    ensures order { pre.new ≡ arranged pre.old effects.now }
    ensures front { result ≡ length (prevail pre.old effects.now) }
{
    let mut front = pre.len();
    for effect in effects {
        if let Some(place) = first_on(&pre[..front], effect.fact.var) {
            move_to_end(pre, place);
            front -= 1;
        }
    }
    front
}

/// The same, by tables where they are many.
fn arrange(alloc: Global, pre: &mut Vec<Fact>, effects: &[Effect]) -> usize
    requires { distinct pre.old.items ≡ pre.old.items }
    ensures order { pre.new.items ≡ arranged pre.old.items effects.now }
    ensures front { result ≡ length (prevail pre.old.items effects.now) }
{
    match by_tables(alloc, pre, effects) {
        Some(Arranged { facts, prevail }) => {
            *pre = facts;
            prevail
        }
        None => arrange_in_place(pre, effects),
    }
}

fn make_distinct(alloc: Global, facts: &mut Vec<Fact>)
    ensures { facts.new.items ≡ distinct facts.old.items }
{
    let kept = keep_distinct(alloc, facts);
    facts.truncate(kept);
}

/// Brings the preconditions of an operator into order, and says how many of them are prevail
/// conditions.
fn order_preconditions(alloc: Global, operator: &mut Operator) -> usize
    ensures order { operator.new ≡ in_order operator.old }
    ensures prevail { result ≡ prevail_count operator.old }
{
    let mut pre = mem::replace(&mut operator.pre, Seq::new(alloc)).into_vec();
    make_distinct(alloc, &mut pre);
    let prevail = arrange(alloc, &mut pre, &operator.effects);
    operator.pre = Seq::from(pre);
    prevail
}

/// Brings the preconditions of an operator into order, and finds the first of its numbers of
/// conditions that is above the limit.
fn order_operator(alloc: Global, operator: &mut Operator) -> Option<usize>
    ensures order { operator.new ≡ in_order operator.old }
    ensures count { result ≡ above most_listed (conditions_of operator.old) }
{
    let prevail = order_preconditions(alloc, operator);
    if prevail > MOST_LISTED {
        return Some(prevail);
    }
    effect_conditions_above(&operator.effects)
}

fn order_slice(alloc: Global, operators: &mut [Operator]) -> Option<usize>
    ensures count { result ≡ above most_listed (flat_map conditions_of operators.old) }
    ensures order { result ≡ None → operators.new ≡ map in_order operators.old }
{
    for operator in operators.iter_mut() {
        let count = order_operator(alloc, operator);
        if count.is_some() {
            return count;
        }
    }
    None
}

/// Brings the preconditions of operators into order, up to the first operator that has a number of
/// conditions above the limit, and finds this number.
pub fn order_operators(operators: &mut Vec<Operator>) -> Option<usize>
    ensures count { result ≡ above most_listed (flat_map conditions_of operators.old.items) }
    ensures order { result ≡ None → operators.new.items ≡ map in_order operators.old.items }
{
    let alloc = *operators.allocator();
    order_slice(alloc, operators)
}

fn put_slice_in_order(alloc: Global, operators: &mut [Operator])
    ensures { operators.new ≡ map in_order operators.old }
{
    for operator in operators.iter_mut() {
        let _prevail = order_preconditions(alloc, operator);
    }
}

/// Brings the preconditions of operators into order.
pub fn put_in_order(operators: &mut Vec<Operator>)
    ensures { operators.new.items ≡ map in_order operators.old.items }
{
    let alloc = *operators.allocator();
    put_slice_in_order(alloc, operators);
}
