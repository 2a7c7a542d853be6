// Adding reasonable orders.
ghost use Rattle.std.specs.Prelude.{◌≡◌, ◌<◌, ◌+◌, ℕ, length, OnOk, OnErr};
ghost use Rattle.sas_task.specs.declared.contents.Parts.{Parts};
ghost use Rattle.lm_graph.specs.Graphs.{Content};
ghost use Rattle.lm_orders.specs.Reasonable.{AddsReasonable, AddsSome};
ghost use Rattle.lm_orders.specs.Sources.{IsAtSource, IsUnderWay};
ghost use Rattle.lm_orders.specs.Tables.{AreLong};

use crate::facts::fact_at;
use crate::sources::Source;
use crate::tables::Tables;
use lama_num::NoMemory;
use lm_graph::{Graph, Order};
use sas_task::Task;
use std::alloc::Global;

/// Adds the reasonable order from a node to another, if there is one.
fn order_pair(
    tables: &Tables,
    source: &Source,
    graph: &mut Graph,
    after: u32,
) -> Result<(), NoMemory>
    requires node { source.now.node < length graph.old.nodes }
    requires after { after < length graph.old.nodes }
    requires long { AreLong graph.old tables.now }
    ensures nodes { graph.new.nodes ≡ graph.old.nodes }
    ensures ok { OnOk result ((parts : Parts) (old : Content) →
        IsAtSource parts old graph.old tables.now source.now after →
        IsAtSource parts old graph.new tables.now source.now (after + 1)) }
    ensures err { OnErr result (graph.new ≡ graph.old) }
{
    if source.is_reasonable(tables, graph, after) {
        graph.order(source.node, after, Order::Reasonable)?;
    }
    Ok(())
}

/// Adds the reasonable orders from a node, if it is one fact.
fn order_from(tables: &Tables, graph: &mut Graph, node: u32) -> Result<(), NoMemory>
    requires node { node < length graph.old.nodes }
    requires long { AreLong graph.old tables.now }
    ensures nodes { graph.new.nodes ≡ graph.old.nodes }
    ensures ok { OnOk result ((parts : Parts) (old : Content) →
        IsUnderWay parts old graph.old tables.now node 0 →
        IsUnderWay parts old graph.new tables.now (node + 1) 0) }
    ensures err { OnErr result ((parts : Parts) (old : Content) →
        IsUnderWay parts old graph.old tables.now node 0 → AddsSome parts old graph.new) }
{
    if fact_at(graph.nodes(), node).is_none() {
        return Ok(());
    }
    let source = Source::new(tables, graph, node)?;
    let count = graph.nodes().len() as u32;
    for after in 0..count {
        order_pair(tables, &source, graph, after)?;
    }
    Ok(())
}

/// Adds the reasonable orders of a graph of landmarks of a task. It takes the pairs of nodes of one
/// fact in ascending order; orders that were added count for the pairs that follow.
///
/// From one node to another goes such an order where the second is a goal or is needed later, and
/// where it would have to be given up for the first if it were reached before: then nothing is lost
/// by reaching the first one first. After want of memory the graph has the orders of some first
/// pairs.
///
/// After Richter and Westphal, "The LAMA planner" (2010).
pub fn add_reasonable(alloc: Global, task: &Task, graph: &mut Graph) -> Result<(), NoMemory>
    ensures ok { OnOk result (AddsReasonable task.now graph.old graph.new) }
    ensures err { OnErr result (AddsSome task.now graph.old graph.new) }
{
    let tables = Tables::new(alloc, task, graph)?;
    let count = graph.nodes().len() as u32;
    for node in 0..count {
        order_from(&tables, graph, node)?;
    }
    Ok(())
}
