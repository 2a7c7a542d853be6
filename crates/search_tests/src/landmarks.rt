// Random tasks, whose landmarks hold in each plan that the plainest search finds.
use lama_num::NoMemory;
use lm_backchain::landmarks;
use lm_graph::Node;
use random_tasks::{Found, Pcg32, after, is_goal, random_task, reached, start};
use sas_task::Task;
use std::alloc::Global;
use std::test::Fail;

fn holds(node: &Node, state: &[u32]) -> bool {
    node.facts
        .as_slice()
        .iter()
        .any(|fact| state.get(fact.var as usize) == Some(&fact.val))
}

/// The state behind an operator; the same where it can't be taken.
fn moved(alloc: Global, task: &Task, state: Vec<u32>, op: u32) -> Result<Vec<u32>, NoMemory> {
    match after(alloc, task, &state, op)? {
        Some(next) => Ok(next),
        None => Ok(state),
    }
}

/// Whether a node holds in the start or behind one of these operators.
fn holds_on_the_way(
    alloc: Global,
    task: &Task,
    node: &Node,
    ops: &[u32],
) -> Result<bool, NoMemory> {
    let mut state = start(alloc, task)?;
    let mut held = holds(node, &state);
    for op in ops {
        state = moved(alloc, task, state, *op)?;
        held = held || holds(node, &state);
    }
    Ok(held)
}

fn all_hold_on_the_way(
    alloc: Global,
    task: &Task,
    nodes: &[Node],
    ops: &[u32],
) -> Result<bool, NoMemory> {
    for node in nodes {
        if !holds_on_the_way(alloc, task, node, ops)? {
            return Ok(false);
        }
    }
    Ok(true)
}

/// Whether nodes hold on the way to a state, if it is a goal.
fn lead_to(alloc: Global, task: &Task, nodes: &[Node], one: &Found) -> Result<bool, NoMemory> {
    if is_goal(task, &one.state) {
        all_hold_on_the_way(alloc, task, nodes, &one.ops)
    } else {
        Ok(true)
    }
}

/// Whether nodes hold on the way to each goal.
fn lead_to_all(
    alloc: Global,
    task: &Task,
    nodes: &[Node],
    all: &[Found],
) -> Result<bool, NoMemory> {
    for one in all {
        if !lead_to(alloc, task, nodes, one)? {
            return Ok(false);
        }
    }
    Ok(true)
}

fn are_landmarks(alloc: Global, task: &Task, nodes: &[Node]) -> Result<bool, NoMemory> {
    let all = reached(alloc, task)?;
    lead_to_all(alloc, task, nodes, &all)
}

fn has_landmarks(alloc: Global, task: &Task) -> Result<bool, NoMemory> {
    let graph = landmarks(alloc, task)?;
    are_landmarks(alloc, task, graph.nodes())
}

fn has_right_ones(alloc: Global, task: Task) -> Result<bool, NoMemory> {
    has_landmarks(alloc, &task)
}

/// Whether all landmarks of a random task hold on the way to each goal that can be reached.
fn is_right(alloc: Global, dice: &mut Pcg32) -> Result<bool, Fail> {
    let task = random_task(alloc, dice)?;
    Ok(has_right_ones(alloc, task)?)
}

#[test]
fn random_tasks(rt: HostRuntime) -> Result<(), Fail> {
    let mut dice = Pcg32::new(42, 54);
    for _ in 0..1000 {
        assert!(rt; is_right(rt.alloc(), &mut dice)?);
    }
    Ok(())
}
