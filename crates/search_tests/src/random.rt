// Random tasks, each searched in the plainest way too.
use crate::ends::{End, blind, by_ff, greedy};
use lama_num::NoMemory;
use random_tasks::{Pcg32, is_goal, random_task, reached};
use sas_task::Task;
use std::alloc::Global;
use std::process::Abort;
use std::test::Fail;

/// How many states can be reached, and whether one of them is a goal.
fn counted(alloc: Global, task: &Task) -> Result<(u32, bool), NoMemory> {
    let all = reached(alloc, task)?;
    let is_solvable = all.iter().any(|one| is_goal(task, &one.state));
    Ok((all.len().min(1000) as u32, is_solvable))
}

/// Whether two searches end alike: both with a plan just where there is one; or where there is none
/// the first with at most all states, and the second with all.
fn are_right(by_ff: End, by_none: End, states: u32, is_solvable: bool) -> bool {
    match (by_ff, by_none) {
        (End::Plan { .. }, End::Plan { .. }) => is_solvable,
        (End::Unsolvable { states: some, .. }, End::Unsolvable { states: all, .. }) => {
            !is_solvable && some <= states && all == states
        }
        _ => false,
    }
}

/// Whether a search with FF, which finds dead states, and one whose guide says nothing end as they
/// should on a random task.
fn is_as_plain(rt: &(impl Abort + AllocGlobal), dice: &mut Pcg32) -> Result<bool, Fail> {
    let task = random_task(rt.alloc(), dice)?;
    let (states, is_solvable) = counted(rt.alloc(), &task)?;
    let by_ff = by_ff(rt, &task, &greedy())?;
    let by_none = blind(rt, &task, &greedy());
    Ok(are_right(by_ff, by_none, states, is_solvable))
}

#[test]
fn random_tasks(rt: HostRuntime) -> Result<(), Fail> {
    let mut dice = Pcg32::new(42, 54);
    for _ in 0..1000 {
        assert!(rt; is_as_plain(&rt, &mut dice)?);
    }
    Ok(())
}
