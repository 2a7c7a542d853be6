// Orders of one node.
ghost use Rattle.std.specs.Prelude.{◌≡◌, ◌<◌, [], length, IfOk, IfErr, OnOk, OnErr};
ghost use Rattle.lm_graph.specs.Graphs.{RaisesAt};
ghost use Rattle.lm_graph.specs.Rows.{kind_in, IsAscending, IsAt, IsGapFor, Raises};

use crate::orders::{Edge, Order};
use std::alloc::{AllocError, Global};
use std::marker::Model;

/// The orders that lead to one node, or from it, ascending by the other node.
#[derive(Drop)]
pub struct Row {
    edges: Vec<Edge>,
}

impl Model for Row {
    ghost use Rattle.std.specs.Prelude.{List};
    ghost use Rattle.lm_graph.specs.declared.orders.Edge.{Edge as TheEdge};
    ghost use Rattle.lm_graph.specs.Rows.{IsAscending};

    ghost Value = { List TheEdge };

    ghost view = { λ r. r.edges.items };

    ghost invariant = { λ r. IsAscending r.edges.items };
}

impl Row {
    pub(crate) fn new(alloc: Global) -> Row
        ensures { result ≡ [] }
    {
        Row {
            edges: Vec::new(alloc),
        }
    }

    /// The orders from a node, in the order in which they were added.
    pub fn edges(&self) -> &[Edge]
        ensures edges { result.now ≡ self.now }
        ensures ascending { IsAscending self.now }
    {
        &self.edges
    }

    /// Where the edge of a node is, or where it would go.
    fn search(&self, node: u32) -> Result<usize, usize>
        ensures found { IfOk result (IsAt self.now node) }
        ensures absent { IfErr result (IsGapFor self.now node) }
    {
        self.edges.binary_search_by_key(&node, |edge| edge.node)
    }

    /// The order of another node, if one stands. It is looked for by halves.
    pub fn kind(&self, node: u32) -> Option<Order>
        ensures { result ≡ kind_in self.now node }
    {
        match self.search(node) {
            Ok(place) => Some(self.edges[place].kind),
            Err(_) => None,
        }
    }

    /// Puts an order of another node into the row, of which the stronger stays.
    pub(crate) fn raise(&mut self, node: u32, kind: Order) -> Result<(), AllocError>
        ensures ok { OnOk result (Raises self.old self.new node kind) }
        ensures err { OnErr result (self.new ≡ self.old) }
    {
        match self.search(node) {
            Ok(place) => {
                let kind = self.edges[place].kind.stronger(kind);
                self.edges[place] = Edge { node, kind };
                Ok(())
            }
            Err(place) => Ok(self.edges.insert(place, Edge { node, kind })?),
        }
    }
}

/// Puts an order of a node into the row of another.
pub(crate) fn raise_at(
    rows: &mut Vec<Row>,
    other: u32,
    node: usize,
    kind: Order,
) -> Result<(), AllocError>
    requires { node < length rows.old.items }
    ensures ok { OnOk result (RaisesAt rows.old.items rows.new.items other node kind) }
    ensures err { OnErr result (rows.new.items ≡ rows.old.items) }
{
    let row = &mut rows[node];
    row.raise(other, kind)
}
