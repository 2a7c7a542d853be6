// Unary operators that were worked by hand.
use lama_num::NoMemory;
use relaxed_task::{Relaxed, Unary};
use sas_task::{CostKind, Task};
use std::alloc::{AllocError, Global};
use test_tasks::{free_moves, read_task, two_conditions};

// In place of the operator of a rule.
const RULE: u32 = 99;

fn push_all(numbers: &mut Vec<u32>, more: &[u32]) -> Result<(), AllocError> {
    for number in more {
        numbers.push(*number)?;
    }
    Ok(())
}

// The operator, what it gives, what it costs, and its conditions.
fn push_unary(numbers: &mut Vec<u32>, unary: &Unary) -> Result<(), AllocError> {
    numbers.push(unary.op.unwrap_or(RULE))?;
    numbers.push(unary.gives)?;
    numbers.push(unary.cost)?;
    push_all(numbers, &unary.conds)
}

// All unary operators, one after the other.
fn unaries(alloc: Global, relaxed: &Relaxed) -> Result<Vec<u32>, AllocError> {
    let mut numbers = Vec::new(alloc);
    for unary in relaxed.unary() {
        push_unary(&mut numbers, unary)?;
    }
    Ok(numbers)
}

fn unaries_in(alloc: Global, task: &Task, kind: CostKind) -> Option<Vec<u32>> {
    match Relaxed::new(alloc, task, kind) {
        Ok(relaxed) => unaries(alloc, &relaxed).ok(),
        Err(NoMemory) => None,
    }
}

fn unaries_of(alloc: Global, text: &str, kind: CostKind) -> Option<Vec<u32>> {
    match read_task(alloc, text) {
        Some(task) => unaries_in(alloc, &task, kind),
        None => None,
    }
}

/// Whether the task of a text has these unary operators, by one kind of cost.
fn are_unaries(alloc: Global, text: &str, kind: CostKind, want: &[u32]) -> bool {
    match unaries_of(alloc, text, kind) {
        Some(found) => found.as_slice() == want,
        None => false,
    }
}

#[test]
fn moves_that_cost_nothing(rt: HostRuntime) {
    let alloc = rt.alloc();
    let normal = [0, 1, 0, 0, 1, 0, 0, 1, 2, 2, 3, 1];
    assert!(rt; are_unaries(alloc, free_moves(), CostKind::Normal, &normal));
    let one = [0, 1, 1, 0, 1, 0, 1, 1, 2, 2, 1, 1];
    assert!(rt; are_unaries(alloc, free_moves(), CostKind::One, &one));
    let plus_one = [0, 1, 1, 0, 1, 0, 1, 1, 2, 2, 4, 1];
    assert!(rt; are_unaries(alloc, free_moves(), CostKind::PlusOne, &plus_one));
}

// How many facts there are, where those of each variable begin, the defaults, and the goal facts.
fn has_lists(relaxed: &Relaxed) -> bool {
    relaxed.facts() == 9
        && relaxed.offsets() == [0, 2, 5, 7].as_slice()
        && relaxed.defaults() == [5, 7].as_slice()
        && relaxed.goals() == [8, 1].as_slice()
        && relaxed.number(3, 1) == 8
}

fn has_lists_in(alloc: Global, task: &Task) -> bool {
    match Relaxed::new(alloc, task, CostKind::Normal) {
        Ok(relaxed) => has_lists(&relaxed),
        Err(NoMemory) => false,
    }
}

fn has_lists_of(alloc: Global, text: &str) -> bool {
    match read_task(alloc, text) {
        Some(task) => has_lists_in(alloc, &task),
        None => false,
    }
}

#[test]
fn a_conditional_effect_and_two_layers(rt: HostRuntime) {
    let worked = [0, 4, 2, 0, 3, 0, 1, 2, 0, RULE, 6, 0, 1, RULE, 8, 0, 6, 4];
    assert!(rt; are_unaries(rt.alloc(), two_conditions(), CostKind::Normal, &worked));
    assert!(rt; has_lists_of(rt.alloc(), two_conditions()));
}
