// Additive costs that were worked by hand: those of all facts, the goal's value, 1 where the state
// is dead, and the goal's value alone.
use crate::additive_answers::{MOST, NEVER, answers, answers_without, order};
use sas_task::CostKind;
use std::test::Fail;
use test_tasks::{door, fact, moves, rivals, task};

/// The largest cost of an operator.
const DEAREST: u32 = 2_147_483_647;

#[test]
fn moves_that_cost(rt: HostRuntime) -> Result<(), Fail> {
    let task = moves(rt.alloc(), 4, 3, 2)?;
    let all = answers_without(rt.alloc(), task, &[0], &[fact(0, 1)])?;
    let worked = [0, NEVER, NEVER, NEVER, NEVER, 1, 0, 4, 7, NEVER, 7, 0];
    assert!(rt; all.as_slice() == worked.as_slice());
    Ok(())
}

#[test]
fn supporters_in_order(rt: HostRuntime) -> Result<(), Fail> {
    let task = moves(rt.alloc(), 4, 3, 2)?;
    let order = order(rt.alloc(), task, &[0])?;
    let order = order.as_slice();
    assert!(rt; order == [4, 1, 0, 2].as_slice() || order == [4, 1, 0, 3].as_slice());
    Ok(())
}

#[test]
fn costs_that_reach_the_largest(rt: HostRuntime) -> Result<(), Fail> {
    let task = moves(rt.alloc(), DEAREST, MOST - 1, 2)?;
    let all = answers(rt.alloc(), task, CostKind::PlusOne, &[0])?;
    assert!(rt; all.as_slice() == [0, MOST, MOST, NEVER, MOST, 0, MOST].as_slice());
    Ok(())
}

#[test]
fn a_door_that_must_be_shut_again(rt: HostRuntime) -> Result<(), Fail> {
    let open = task(rt.alloc(), door())?;
    let open = answers(rt.alloc(), open, CostKind::Normal, &[1, 0, 1])?;
    assert!(rt; open.as_slice() == [1, 0, 0, 1, 0, 0, 1, 0, 1].as_slice());
    Ok(())
}

#[test]
fn operators_without_conditions(rt: HostRuntime) -> Result<(), Fail> {
    let task = task(rt.alloc(), rivals())?;
    let all = answers_without(rt.alloc(), task, &[0, 0], &[fact(1, 1), fact(0, 0)])?;
    let worked = [NEVER, 1, 0, NEVER, NEVER, 1, 0, 1, 0, 1, 2, 0];
    assert!(rt; all.as_slice() == worked.as_slice());
    Ok(())
}
