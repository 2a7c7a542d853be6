// Nodes that reasonable orders may come from.
ghost use Rattle.std.specs.Prelude.{◌≡◌, ◌≢◌, ◌<◌, ◌↔◌, length, Some, IfOk, IsTrue};
ghost use Rattle.std.specs.List.{list_any};
ghost use Rattle.sas_task.specs.declared.contents.Fact.{Fact as TheFact};
ghost use Rattle.sas_task.specs.declared.contents.Parts.{Parts};
ghost use Rattle.lm_graph.specs.Graphs.{kind_of};
ghost use Rattle.lm_graph.specs.Marks.{is_seen as is_marked};
ghost use Rattle.lm_graph.specs.Turned.{kinds_from};
ghost use Rattle.lm_orders.specs.Interference.{fact_of};
ghost use Rattle.lm_orders.specs.Reasonable.{IsWanted, IsReasonable};
ghost use Rattle.lm_orders.specs.Sources.{IsSource, is_past as past, is_new_by, interferes_by};
ghost use Rattle.lm_orders.specs.Tables.{AreLong, AreTables, SameStrong};

use crate::facts::{fact_at, is_goal};
use crate::tables::Tables;
use lama_num::{NoMemory, Seq};
use lm_graph::{Edge, Graph, Order};

/// A node of one fact, and what is asked of others for an order from it.
#[derive(Drop)]
pub(crate) struct Source {
    pub node: u32,
    /// Whether each node leads to it.
    pub leads: Seq<bool>,
    /// Whether it leads to each node by natural and greedy-necessary orders.
    pub reached: Seq<bool>,
}

fn is_seen(marks: &[bool], node: u32) -> bool
    ensures { result ≡ is_marked marks.now node }
{
    match marks.get(node as usize) {
        Some(mark) => *mark,
        None => false,
    }
}

impl Source {
    /// A node, and what stands before it and behind it.
    pub fn new(tables: &Tables, graph: &Graph, node: u32) -> Result<Source, NoMemory>
        requires node { node < length graph.now.nodes }
        requires long { AreLong graph.now tables.now }
        ensures node { IfOk result (λ source. source.node ≡ node) }
        ensures source { IfOk result (λ source. (parts : Parts) →
            AreTables parts graph.now tables.now → IsSource graph.now source) }
    {
        let leads = graph.leading_to(node, Order::Reasonable)?;
        let reached = tables.successors.reached_from(node, Order::Natural)?;
        Ok(Source {
            node,
            leads,
            reached,
        })
    }

    /// Whether the node of an edge is to hold directly after, and this one, which is another, leads
    /// to it.
    fn is_past(&self, edge: &Edge) -> bool
        ensures { result ≡ past self.now edge.now }
    {
        edge.kind.is_as_strong(Order::GreedyNecessary)
            && edge.node != self.node
            && is_seen(&self.reached, edge.node)
    }

    fn leads_past(&self, edges: &[Edge]) -> bool
        ensures { result ≡ list_any (past self.now) edges.now }
    {
        edges.iter().any(|edge| self.is_past(edge))
    }

    /// Whether an order to a node would be new and close no cycle.
    fn is_new(&self, graph: &Graph, after: u32) -> bool
        ensures { result ≡ is_new_by graph.now self.now after }
    {
        self.node != after && !is_seen(&self.leads, after) && graph.kind(self.node, after).is_none()
    }

    /// Whether a node is a goal, or needed past this one.
    fn is_wanted(&self, tables: &Tables, graph: &Graph, after: u32) -> bool
        requires after { after < length graph.now.nodes }
        requires long { AreLong graph.now tables.now }
        ensures { SameStrong (kinds_from tables.now.successors) (kind_of graph.now) →
            IsSource graph.now self.now →
            (IsTrue result ↔ IsWanted graph.now.nodes (kind_of graph.now) self.now.node after) }
    {
        if is_goal(graph.nodes(), after) {
            return true;
        }
        self.leads_past(tables.successors.orders_from(after))
    }

    /// Whether the fact of a node, if it is one, interferes with this one.
    fn is_hindered(&self, tables: &Tables, graph: &Graph, after: u32) -> bool
        requires node { self.now.node < length graph.now.nodes }
        requires long { AreLong graph.now tables.now }
        ensures { result ≡ interferes_by tables.now self.now (fact_of graph.now.nodes after) }
    {
        match fact_at(graph.nodes(), after) {
            Some(fact) => tables.is_mutex_with(tables.company.row(self.node as usize), fact),
            None => false,
        }
    }

    /// Whether there is reason to reach this node before another.
    pub fn is_reasonable(&self, tables: &Tables, graph: &Graph, after: u32) -> bool
        requires node { self.now.node < length graph.now.nodes }
        requires after { after < length graph.now.nodes }
        requires long { AreLong graph.now tables.now }
        ensures different { IsTrue result → self.now.node ≢ after }
        ensures reasonable { (parts : Parts) (fact : TheFact) →
            AreTables parts graph.now tables.now → IsSource graph.now self.now →
            fact_of graph.now.nodes self.now.node ≡ Some fact →
            (IsTrue result
            ↔ IsReasonable parts graph.now.nodes (kind_of graph.now) self.now.node after) }
    {
        if !self.is_new(graph, after) {
            return false;
        }
        if !self.is_wanted(tables, graph, after) {
            return false;
        }
        self.is_hindered(tables, graph, after)
    }
}
