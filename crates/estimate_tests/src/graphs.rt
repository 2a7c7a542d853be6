// Graphs that were worked by hand.
use crate::graph_answers::{estimates, leads, nodes, orders};
use lm_graph::Order;
use std::test::Fail;
use test_tasks::{gripper, rivals, task};

#[test]
fn landmarks_of_a_ball_that_is_carried(rt: HostRuntime) -> Result<(), Fail> {
    let task = task(rt.alloc(), gripper())?;
    let all = nodes(rt.alloc(), task)?;
    let worked = [
        1, 1, 1, 1, 0, 1, 1, 0, 1, 2, 1, 0, 0, 0, 1, 0, 1, 0, 1, 0, 2, 0, 1, 0,
    ];
    assert!(rt; all.as_slice() == worked.as_slice());
    Ok(())
}

#[test]
fn orders_of_a_ball_that_is_carried(rt: HostRuntime) -> Result<(), Fail> {
    let task = task(rt.alloc(), gripper())?;
    let before = orders(rt.alloc(), task)?;
    let worked = [
        1, 0, 3, 2, 0, 3, 4, 0, 1, 2, 1, 1, 3, 1, 3, 3, 2, 3, 4, 2, 3, 5, 2, 3,
    ];
    assert!(rt; before.as_slice() == worked.as_slice());
    Ok(())
}

#[test]
fn estimates_of_a_ball_that_is_left(rt: HostRuntime) -> Result<(), Fail> {
    let task = task(rt.alloc(), gripper())?;
    let (start, moved) = estimates(rt.alloc(), task, &[0, 0, 0], &[1, 0, 0])?;
    assert!(rt; start == 3 && moved == 4);
    Ok(())
}

#[test]
fn goals_that_destroy_each_other(rt: HostRuntime) -> Result<(), Fail> {
    let task = task(rt.alloc(), rivals())?;
    let all = nodes(rt.alloc(), task)?;
    assert!(rt; all.as_slice() == [0, 1, 1, 1, 1, 1, 1, 1].as_slice());
    Ok(())
}

#[test]
fn one_goal_before_the_other(rt: HostRuntime) -> Result<(), Fail> {
    let task = task(rt.alloc(), rivals())?;
    let before = orders(rt.alloc(), task)?;
    assert!(rt; before.as_slice() == [0, 1, 1].as_slice());
    Ok(())
}

#[test]
fn a_path_of_reasonable_orders(rt: HostRuntime) -> Result<(), Fail> {
    let natural = task(rt.alloc(), rivals())?;
    assert!(rt; !leads(rt.alloc(), natural, Order::Natural)?);
    let reasonable = task(rt.alloc(), rivals())?;
    assert!(rt; leads(rt.alloc(), reasonable, Order::Reasonable)?);
    Ok(())
}
