// Relaxed plans that were worked by hand: the additive estimate, that of FF, the plan's operators,
// and the preferred ones.
use crate::plan_answers::{AND, answers};
use std::test::Fail;
use test_tasks::{door, moves, rivals, task};

#[test]
fn one_of_two_equal_supporters(rt: HostRuntime) -> Result<(), Fail> {
    let task = moves(rt.alloc(), 0, 3, 2)?;
    let far = answers(&rt, task, &[0])?;
    assert!(rt; far.as_slice() == [3, 3, 0, 2, AND, 0].as_slice());
    Ok(())
}

#[test]
fn a_plan_that_costs_more_than_the_largest_estimate(rt: HostRuntime) -> Result<(), Fail> {
    let task = moves(rt.alloc(), 0, 2_000_000_000, 2)?;
    let all = answers(&rt, task, &[0])?;
    assert!(rt; all.as_slice() == [1_000_000_000, 1_000_000_000, 0, 2, AND, 0].as_slice());
    Ok(())
}

#[test]
fn goals_that_destroy_each_other(rt: HostRuntime) -> Result<(), Fail> {
    let task = task(rt.alloc(), rivals())?;
    let all = answers(&rt, task, &[0, 0])?;
    assert!(rt; all.as_slice() == [2, 2, 0, 1, AND, 0, 1].as_slice());
    Ok(())
}

#[test]
fn a_door_that_must_be_shut_again(rt: HostRuntime) -> Result<(), Fail> {
    let task = task(rt.alloc(), door())?;
    let open = answers(&rt, task, &[1, 0, 1])?;
    assert!(rt; open.as_slice() == [1, 1, 0, AND, 0].as_slice());
    Ok(())
}
