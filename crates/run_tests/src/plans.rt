// Runs of plan after plan on small tasks.
use crate::folders::plans;
use crate::runs::{End, Told, finished, own, solved, tell_of};
use crate::texts::{jump, sevens, two_steps};
use lama_num::NoMemory;
use std::alloc::Global;
use std::test::Fail;
use test_tasks::{at_the_goal, door, gripper, no_operator, rivals, swap, three_places, two_layers};

/// What the run on a task tells that must leave these plans.
fn on_task<'a>(
    alloc: Global,
    task: &str,
    first: Option<&'a str>,
    second: Option<&'a str>,
) -> Result<Told, NoMemory> {
    tell_of(alloc, &["t.sas"], task, &plans(None, first, second))
}

#[test]
fn plan_after_plan(rt: HostRuntime) -> Result<(), Fail> {
    assert!(rt; jump().len() == 33 && two_steps().len() == 40);
    let words = ["--alias", "lama", "t.sas"];
    let left = plans(None, Some(jump()), Some(two_steps()));
    let told = tell_of(rt.alloc(), &words, three_places(), &left)?;
    let wanted = Told {
        kept: 2,
        costs: [Some(5), Some(2)],
        candidates: [own(0), own(1)],
        ..finished(0, End::Best, 3, [1, 3, 4], 8)
    };
    assert!(rt; told == wanted);
    Ok(())
}

#[test]
fn the_goal_holds_at_once(rt: HostRuntime) -> Result<(), Fail> {
    let none = "; cost = 0 (unit cost)\n";
    let told = on_task(rt.alloc(), at_the_goal(), Some(none), None)?;
    assert!(rt; none.len() == 23 && told == solved(0, 1, [0; 3], 0));
    Ok(())
}

#[test]
fn costs_are_unit_costs(rt: HostRuntime) -> Result<(), Fail> {
    let task = sevens(rt.alloc())?;
    let plan = "(jump)\n; cost = 1 (unit cost)\n";
    let told = on_task(rt.alloc(), task.as_str(), Some(plan), None)?;
    assert!(rt; told == solved(1, 2, [1, 0, 0], 1));
    Ok(())
}

#[test]
fn a_door_is_shut(rt: HostRuntime) -> Result<(), Fail> {
    let plan = "(walk)\n(shut)\n; cost = 2 (unit cost)\n";
    let told = on_task(rt.alloc(), door(), Some(plan), None)?;
    assert!(rt; told == solved(2, 2, [3, 6, 0], 9));
    Ok(())
}

#[test]
fn one_step_is_best(rt: HostRuntime) -> Result<(), Fail> {
    let flip = "(flip)\n; cost = 1 (unit cost)\n";
    let told = on_task(rt.alloc(), two_layers(), Some(flip), None)?;
    assert!(rt; told.code == 0 && told.costs == [Some(1), None] && told.is_left_so);
    let swapped = "(swap)\n; cost = 1 (unit cost)\n";
    let told = on_task(rt.alloc(), swap(), Some(swapped), None)?;
    assert!(rt; told.code == 0 && told.costs == [Some(1), None] && told.is_left_so);
    Ok(())
}

/// The plan for the gripper.
fn carried() -> &'static str {
    "(pick ball1 rooma left)
(move rooma roomb)
(drop ball1 roomb left)
; cost = 3 (unit cost)
"
}

#[test]
fn a_ball_is_carried(rt: HostRuntime) -> Result<(), Fail> {
    let told = on_task(rt.alloc(), gripper(), Some(carried()), None)?;
    assert!(rt; told == solved(3, 2, [5, 18, 0], 23));
    Ok(())
}

#[test]
fn no_operator_leads_on(rt: HostRuntime) -> Result<(), Fail> {
    let told = on_task(rt.alloc(), no_operator(), None, None)?;
    assert!(rt; told == finished(11, End::Unsolvable { states: 1 }, 1, [0; 3], 0));
    Ok(())
}

#[test]
fn goals_that_destroy_each_other(rt: HostRuntime) -> Result<(), Fail> {
    let told = on_task(rt.alloc(), rivals(), None, None)?;
    assert!(rt; told == finished(11, End::Unsolvable { states: 3 }, 1, [20, 0, 0], 20));
    Ok(())
}
