// What a graph has, as plain numbers, by functions that promise nothing, so that the proof of a
// test has nothing to carry. Each big value is given up in a function of its own, at one place.
use lama_num::NoMemory;
use lm_backchain::landmarks;
use lm_graph::{Graph, Node, Order};
use lm_orders::add_reasonable;
use lm_status::Status;
use sas_task::{CostKind, Task};
use std::alloc::{AllocError, Global};

/// In place of a cost that isn't there.
pub const NONE: u32 = 4_294_967_295;

fn cost(least: Option<u32>) -> u32 {
    match least {
        Some(cost) => cost,
        None => NONE,
    }
}

// The facts of a node, its cost, and 1 where it is a goal.
fn push_node(answers: &mut Vec<u32>, node: &Node) -> Result<(), AllocError> {
    for fact in node.facts.as_slice() {
        answers.push(fact.var)?;
        answers.push(fact.val)?;
    }
    answers.push(cost(node.least))?;
    answers.push(node.goal as u32)?;
    Ok(())
}

fn push_order(
    answers: &mut Vec<u32>,
    graph: &Graph,
    before: u32,
    after: u32,
) -> Result<(), AllocError> {
    match graph.kind(before, after) {
        Some(kind) => {
            answers.push(before)?;
            answers.push(after)?;
            answers.push(kind.strength() as u32)?;
        }
        None => {}
    }
    Ok(())
}

fn push_orders(answers: &mut Vec<u32>, graph: &Graph, after: u32) -> Result<(), AllocError> {
    let count = graph.nodes().len() as u32;
    for before in 0..count {
        push_order(answers, graph, before, after)?;
    }
    Ok(())
}

fn nodes_of(alloc: Global, graph: &Graph) -> Result<Vec<u32>, NoMemory> {
    let mut answers = Vec::new(alloc);
    for node in graph.nodes() {
        push_node(&mut answers, node)?;
    }
    Ok(answers)
}

fn nodes_in(alloc: Global, task: &Task) -> Result<Vec<u32>, NoMemory> {
    let graph = landmarks(alloc, task)?;
    nodes_of(alloc, &graph)
}

/// The nodes in order.
pub fn nodes(alloc: Global, task: Task) -> Result<Vec<u32>, NoMemory> {
    nodes_in(alloc, &task)
}

// The landmarks with all their orders.
fn ordered(alloc: Global, task: &Task) -> Result<Graph, NoMemory> {
    let mut graph = landmarks(alloc, task)?;
    add_reasonable(alloc, task, &mut graph)?;
    Ok(graph)
}

fn orders_of(alloc: Global, graph: &Graph) -> Result<Vec<u32>, NoMemory> {
    let mut answers = Vec::new(alloc);
    let count = graph.nodes().len() as u32;
    for after in 0..count {
        push_orders(&mut answers, graph, after)?;
    }
    Ok(answers)
}

fn orders_in(alloc: Global, task: &Task) -> Result<Vec<u32>, NoMemory> {
    let graph = ordered(alloc, task)?;
    orders_of(alloc, &graph)
}

/// The orders by the node that they lead to, each with how strong it is.
pub fn orders(alloc: Global, task: Task) -> Result<Vec<u32>, NoMemory> {
    orders_in(alloc, &task)
}

fn leads_along(graph: &Graph, weakest: Order) -> Result<bool, NoMemory> {
    if graph.nodes().len() < 2 {
        return Ok(false);
    }
    graph.reaches(0, 1, weakest)
}

fn leads_in(alloc: Global, task: &Task, weakest: Order) -> Result<bool, NoMemory> {
    let graph = ordered(alloc, task)?;
    leads_along(&graph, weakest)
}

/// Whether a path of orders that are strong enough leads from the first node to the second.
pub fn leads(alloc: Global, task: Task, weakest: Order) -> Result<bool, NoMemory> {
    leads_in(alloc, &task, weakest)
}

fn estimates_by(
    alloc: Global,
    status: &Status,
    first: &[u32],
    next: &[u32],
) -> Result<(u32, u32), NoMemory> {
    let mut row = vec![in alloc; 0; status.row_words()]?;
    let mut after = vec![in alloc; 0; status.row_words()]?;
    status.first_into(first, &mut row);
    status.progress_into(&row, next, &mut after);
    Ok((status.estimate(&row, first), status.estimate(&after, next)))
}

fn estimates_in(
    alloc: Global,
    task: &Task,
    first: &[u32],
    next: &[u32],
) -> Result<(u32, u32), NoMemory> {
    let graph = ordered(alloc, task)?;
    let status = Status::new(alloc, task, graph, CostKind::Normal)?;
    estimates_by(alloc, &status, first, next)
}

/// The estimates in a first state and in the next one of a path.
pub fn estimates(
    alloc: Global,
    task: Task,
    first: &[u32],
    next: &[u32],
) -> Result<(u32, u32), NoMemory> {
    estimates_in(alloc, &task, first, next)
}
