// Nodes, and the orders between them.
ghost use Rattle.std.specs.Prelude.{◌≡◌, ◌≢◌, ◌<◌, ◌↔◌, ◌++◌, ◌∷◌, [], ℕ, length, IfOk, OnOk};
ghost use Rattle.std.specs.Prelude.{OnErr, IsTrue, Some, IfSome, IfNone, slice_get, vec_len};
ghost use Rattle.std.specs.Prelude.{vec_capacity};
ghost use Rattle.lm_graph.specs.declared.orders.Edge.{Edge as TheEdge};
ghost use Rattle.lm_graph.specs.Nodes.{is_set, sets_of, IsAbsent, with_goal};
ghost use Rattle.lm_graph.specs.Rows.{IsAscending};
ghost use Rattle.lm_graph.specs.Graphs.{IsGraph, Adds, PutsOrder, content, row_of, kind_of};
ghost use Rattle.lm_graph.specs.Keys.{AreKeys};
ghost use Rattle.lm_graph.specs.Marks.{is_seen};
ghost use Rattle.lm_graph.specs.Paths.{HasPath};
ghost use Rattle.lm_graph.specs.Turned.{AreSuccessors};

use crate::nodes::{Added, Node};
use crate::orders::{Edge, Order};
use crate::reach::{edges_at, flood};
use crate::rows::{Row, raise_at};
use crate::successors::Successors;
use indexmap::IndexSet;
use lama_num::{NoMemory, Seq};
use sas_task::Fact;
use std::alloc::Global;
use std::marker::Model;

/// As many nodes as a graph may have.
pub const MOST_NODES: usize = 65_536;

/// Nodes, numbered from 0 in the order in which they came, and the orders between them.
///
/// A node is looked up by its facts in a table, an order among those that lead to its node by
/// halves.
#[derive(Drop)]
pub struct Graph {
    nodes: Vec<Node>,
    /// The facts of the nodes, in the same order.
    sets: IndexSet<Vec<Fact>>,
    rows: Vec<Row>,
}

impl Model for Graph {
    ghost use Rattle.std.specs.Prelude.{◌≡◌};
    ghost use Rattle.lm_graph.specs.Graphs.{Content, IsGraph, content};
    ghost use Rattle.lm_graph.specs.Keys.{AreKeys};

    ghost Value = { Content };

    ghost view = { λ g. content g.nodes.items g.rows.items };

    ghost invariant = { λ g. IsGraph (content g.nodes.items g.rows.items) ×
        AreKeys g.sets.keys g.nodes.items };
}

/// Makes a node also a goal, if so.
fn join_goal(nodes: &mut Vec<Node>, place: usize, goal: bool)
    requires { place < vec_len nodes.old }
    ensures { nodes.new.items ≡ with_goal nodes.old.items place goal }
{
    if goal {
        let node = &mut nodes[place];
        node.goal = true;
    }
}

/// Adds a node at the end, its facts to the table, and a row without an order.
fn push_node(
    nodes: &mut Vec<Node>,
    sets: &mut IndexSet<Vec<Fact>>,
    rows: &mut Vec<Row>,
    node: Node,
) -> Result<(), NoMemory>
    requires keys { AreKeys sets.old.keys nodes.old.items }
    requires absent { IsAbsent nodes.old.items node.facts }
    ensures nodes { OnOk result (nodes.new.items ≡ nodes.old.items ++ node ∷ []) }
    ensures rows { OnOk result (rows.new.items ≡ rows.old.items ++ [] ∷ []) }
    ensures keys { AreKeys sets.new.keys nodes.new.items }
    ensures err { OnErr result
        ((nodes.new.items ≡ nodes.old.items) × (rows.new.items ≡ rows.old.items)) }
{
    let alloc = *nodes.allocator();
    let facts = Vec::from_slice(alloc, &node.facts)?;
    nodes.reserve(1)?;
    rows.reserve(1)?;
    sets.insert(facts)?;
    nodes.push_reserved(node);
    rows.push_reserved(Row::new(alloc));
    Ok(())
}

impl Graph {
    /// The graph without a node, which takes no memory.
    pub fn new(alloc: Global) -> Graph
        ensures { result ≡ content [] [] }
    {
        Graph {
            nodes: Vec::new(alloc),
            sets: IndexSet::new(alloc),
            rows: Vec::new(alloc),
        }
    }

    /// The nodes by their numbers.
    pub fn nodes(&self) -> &[Node]
        ensures nodes { result.now ≡ self.now.nodes }
        ensures graph { IsGraph self.now }
    {
        &self.nodes
    }

    /// The number of the node with these facts, if it is there. It is looked up in a table.
    pub fn number(&self, facts: &[Fact]) -> Option<u32>
        ensures found { IfSome result (λ place.
            slice_get (sets_of self.now.nodes) place ≡ Some facts.now) }
        ensures absent { IfNone result (IsAbsent self.now.nodes facts.now) }
    {
        // That the places fit is known of the fields, which are read here for that.
        let _ = self.nodes.len();
        match self.sets.get_index_of(facts) {
            Some(place) => Some(place as u32),
            None => None,
        }
    }

    /// Adds a node, unless one has the same facts or there are as many as may be. A node that is
    /// there keeps its cost, and is a goal as well if so.
    pub fn add(&mut self, facts: &[Fact], least: Option<u32>, goal: bool) -> Result<Added, NoMemory>
        requires { IsTrue (is_set facts.now) }
        ensures ok { IfOk result (λ added. Adds self.old self.new
            (record { facts = facts.now; least = least; goal = goal }) added) }
        ensures err { OnErr result (self.new ≡ self.old) }
        ensures graph { IsGraph self.new }
    {
        match self.number(facts) {
            Some(place) => {
                join_goal(&mut self.nodes, place as usize, goal);
                Ok(Added::Known(place))
            }
            None => self.add_new(facts, least, goal),
        }
    }

    /// Adds a node that isn't there, unless there are as many as may be.
    fn add_new(&mut self, facts: &[Fact], least: Option<u32>, goal: bool) -> Result<Added, NoMemory>
        requires set { IsTrue (is_set facts.now) }
        requires absent { IsAbsent self.old.nodes facts.now }
        ensures ok { IfOk result (λ added. Adds self.old self.new
            (record { facts = facts.now; least = least; goal = goal }) added) }
        ensures err { OnErr result (self.new ≡ self.old) }
        ensures graph { IsGraph self.new }
    {
        let count = self.nodes.len();
        if count >= MOST_NODES {
            return Ok(Added::Full);
        }
        let facts = Seq::from(Vec::from_slice(*self.nodes.allocator(), facts)?);
        let node = Node { facts, least, goal };
        push_node(&mut self.nodes, &mut self.sets, &mut self.rows, node)?;
        Ok(Added::New(count as u32))
    }

    /// Puts an order from a node to another, of which the stronger stays.
    pub fn order(&mut self, before: u32, after: u32, kind: Order) -> Result<(), NoMemory>
        requires before { before < length self.old.nodes }
        requires after { after < length self.old.nodes }
        requires different { before ≢ after }
        ensures ok { OnOk result (PutsOrder self.old self.new before after kind) }
        ensures err { OnErr result (self.new ≡ self.old) }
        ensures graph { IsGraph self.new }
    {
        raise_at(&mut self.rows, before, after as usize, kind)?;
        Ok(())
    }

    /// The order from a node to another, if one stands.
    pub fn kind(&self, before: u32, after: u32) -> Option<Order>
        ensures { result ≡ kind_of self.now before after }
    {
        match self.rows.get(after as usize) {
            Some(row) => row.kind(before),
            None => None,
        }
    }

    /// The orders that lead to a node, ascending by the node that each comes from.
    pub fn orders_to(&self, node: u32) -> &[Edge]
        requires { node < length self.now.nodes }
        ensures orders { result.now ≡ row_of self.now.rows node }
        ensures ascending { IsAscending result.now }
        ensures each { (place : ℕ) (edge : TheEdge) → slice_get result.now place ≡ Some edge →
            (edge.node < length self.now.nodes)
            × (kind_of self.now edge.node node ≡ Some edge.kind) }
    {
        edges_at(&self.rows, node as usize)
    }

    /// The orders by the node that each comes from.
    pub fn successors(&self) -> Result<Successors, NoMemory>
        ensures { IfOk result (AreSuccessors self.now) }
    {
        Ok(Successors::new(*self.nodes.allocator(), &self.rows)?)
    }

    /// For each node whether a path of one or more orders, each at least that strong, leads from it
    /// to one.
    pub fn leading_to(&self, node: u32, weakest: Order) -> Result<Seq<bool>, NoMemory>
        requires { node < length self.now.nodes }
        ensures long { IfOk result (λ leads. length leads ≡ length self.now.nodes) }
        ensures leads { IfOk result (λ leads. (other : ℕ) →
            IsTrue (is_seen leads other) ↔ HasPath self.now weakest other node) }
    {
        let alloc = *self.nodes.allocator();
        let seen = flood(alloc, &self.rows, node as usize, weakest)?;
        Ok(Seq::from(seen))
    }

    /// Whether a path of one or more orders, each at least that strong, leads from a node to
    /// another.
    pub fn reaches(&self, before: u32, after: u32, weakest: Order) -> Result<bool, NoMemory>
        requires before { before < length self.now.nodes }
        requires after { after < length self.now.nodes }
        ensures { IfOk result (λ leads. IsTrue leads ↔ HasPath self.now weakest before after) }
    {
        let leads = self.leading_to(after, weakest)?;
        Ok(leads[before as usize])
    }
}
