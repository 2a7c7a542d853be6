// Making the tables of a status.
ghost use Rattle.std.specs.Prelude.{◌≡◌, length, map, filter, IfOk, Some};
ghost use Rattle.lm_graph.specs.Orders.{is_strong};
ghost use Rattle.lm_graph.specs.Nodes.{sets_of};
ghost use Rattle.lm_status.specs.Accepted.{nodes_in};
ghost use Rattle.lm_status.specs.Estimates.{adjusted as adjusted_cost, weight_of};
ghost use Rattle.lm_status.specs.Statuses.{AreAfter, AreTables};

use crate::table::make_table;
use lama_num::{NoMemory, Rows};
use lm_graph::{Edge, FactTable, Graph, Node, Order};
use sas_task::{CostKind, Fact, Task};
use std::alloc::{AllocError, Global};

/// The facts of each node.
fn make_facts(alloc: Global, nodes: &[Node]) -> Result<Rows<Fact>, NoMemory>
    ensures { IfOk result (λ facts. facts ≡ sets_of nodes.now) }
{
    let mut facts = Rows::new(alloc);
    for node in nodes {
        facts.push(&node.facts)?;
    }
    Ok(facts)
}

fn node_numbers(alloc: Global, row: &[Edge]) -> Result<Vec<u32>, AllocError>
    ensures { IfOk result (λ nodes. nodes.items ≡ nodes_in row.now) }
{
    row.iter().map(|edge| edge.node).collect(alloc)
}

/// The predecessors of each node.
fn make_before(alloc: Global, graph: &Graph) -> Result<Rows<u32>, NoMemory>
    ensures { IfOk result (λ before. before ≡ map nodes_in graph.now.rows) }
{
    let mut before = Rows::new(alloc);
    for node in 0..graph.nodes().len() {
        let nodes = node_numbers(alloc, graph.orders_to(node as u32))?;
        before.push(&nodes)?;
    }
    Ok(before)
}

fn greedy_nodes(alloc: Global, row: &[Edge]) -> Result<Vec<u32>, AllocError>
    ensures { IfOk result (λ nodes. nodes.items ≡ nodes_in
        (filter (λ e. is_strong Order.GreedyNecessary (Some e.kind)) row.now)) }
{
    row.iter()
        .filter(|edge| edge.kind.is_as_strong(Order::GreedyNecessary))
        .map(|edge| edge.node)
        .collect(alloc)
}

/// The nodes that each node is to hold directly before.
fn make_after(alloc: Global, graph: &Graph) -> Result<Rows<u32>, NoMemory>
    ensures { IfOk result (AreAfter graph.now) }
{
    let successors = graph.successors()?;
    let mut after = Rows::new(alloc);
    for node in 0..graph.nodes().len() {
        let nodes = greedy_nodes(alloc, successors.orders_from(node as u32))?;
        after.push(&nodes)?;
    }
    Ok(after)
}

/// Whether each node is a goal.
fn make_goals(alloc: Global, nodes: &[Node]) -> Result<Vec<bool>, AllocError>
    ensures { IfOk result (λ goals. goals.items ≡ map (λ n. n.goal) nodes.now) }
{
    nodes.iter().map(|node| node.goal).collect(alloc)
}

fn adjusted(task: &Task, kind: CostKind, cost: u32) -> u64
    ensures { result ≡ adjusted_cost task.now kind cost }
{
    match kind {
        CostKind::Normal => u64::from(cost),
        CostKind::One => 1,
        CostKind::PlusOne if task.is_unit_cost() => 1,
        CostKind::PlusOne => u64::from(cost) + 1,
    }
}

fn weight(task: &Task, kind: CostKind, node: &Node) -> u64
    ensures { result ≡ weight_of task.now kind node.now }
{
    match node.least {
        Some(cost) => adjusted(task, kind, cost),
        None => 0,
    }
}

/// The weight of each node.
fn make_weights(
    alloc: Global,
    task: &Task,
    kind: CostKind,
    nodes: &[Node],
) -> Result<Vec<u64>, AllocError>
    ensures { IfOk result (λ weights. weights.items ≡ map (weight_of task.now kind) nodes.now) }
{
    nodes
        .iter()
        .map(|node| weight(task, kind, node))
        .collect(alloc)
}

/// Writes the weight of each node over another.
pub(crate) fn put_weights(task: &Task, kind: CostKind, nodes: &[Node], weights: &mut [u64])
    requires { length weights.old ≡ length nodes.now }
    ensures { weights.new ≡ map (weight_of task.now kind) nodes.now }
{
    for node in 0..weights.len() {
        weights[node] = weight(task, kind, &nodes[node]);
    }
}

/// A graph in flat tables, as a status keeps it.
#[derive(Drop)]
pub(crate) struct Charts {
    pub facts: Rows<Fact>,
    pub before: Rows<u32>,
    pub after: Rows<u32>,
    pub goals: Vec<bool>,
    pub weights: Vec<u64>,
    pub table: FactTable,
}

impl Charts {
    /// The tables of a graph.
    pub(crate) fn new(
        alloc: Global,
        task: &Task,
        graph: &Graph,
        kind: CostKind,
    ) -> Result<Charts, NoMemory>
        ensures tables { IfOk result (λ charts. AreTables graph.now charts.facts charts.before
            charts.after charts.goals.items charts.weights.items charts.table) }
        ensures weights { IfOk result
            (λ charts. charts.weights.items ≡ map (weight_of task.now kind) graph.now.nodes) }
    {
        let facts = make_facts(alloc, graph.nodes())?;
        let before = make_before(alloc, graph)?;
        let after = make_after(alloc, graph)?;
        let goals = make_goals(alloc, graph.nodes())?;
        let weights = make_weights(alloc, task, kind, graph.nodes())?;
        let table = make_table(alloc, graph.nodes())?;
        Ok(Charts {
            facts,
            before,
            after,
            goals,
            weights,
            table,
        })
    }
}
