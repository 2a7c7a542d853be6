// Orders by the node that they come from.
ghost use Rattle.std.specs.Prelude.{◌≡◌, ◌≢◌, ◌<◌, ◌≤◌, ◌↔◌, ℕ, [], length, replicate, IfOk, OnOk};
ghost use Rattle.std.specs.Prelude.{IsTrue, Some, None, slice_get};
ghost use Rattle.lm_graph.specs.declared.orders.Edge.{Edge as TheEdge};
ghost use Rattle.lm_graph.specs.Graphs.{row_of};
ghost use Rattle.lm_graph.specs.Marks.{is_seen, AreWithin};
ghost use Rattle.lm_graph.specs.Paths.{Path};
ghost use Rattle.lm_graph.specs.Rows.{kind_in, IsAscending};
ghost use Rattle.lm_graph.specs.Turned.{kinds_from, TurnsRow, IsTurned};
ghost use Rattle.lm_graph.specs.declared.graph.TheConstants.{MOST_NODES};

use crate::orders::{Edge, Order};
use crate::reach::{edges_at, flood};
use crate::rows::{Row, raise_at};
use lama_num::{NoMemory, Seq};
use std::alloc::{AllocError, Global};
use std::marker::Model;

/// The orders of a graph by the node that each comes from.
#[derive(Drop)]
pub struct Successors {
    rows: Vec<Row>,
}

impl Model for Successors {
    ghost use Rattle.std.specs.Prelude.{List};
    ghost use Rattle.lm_graph.specs.declared.orders.Edge.{Edge as TheEdge};
    ghost use Rattle.lm_graph.specs.Marks.{AreWithin};

    ghost Value = { List (List TheEdge) };

    ghost view = { λ s. s.rows.items };

    ghost invariant = { λ s. AreWithin s.rows.items };
}

fn empty_rows(alloc: Global, count: usize) -> Result<Vec<Row>, AllocError>
    ensures { IfOk result (λ rows. rows.items ≡ replicate count []) }
{
    let mut rows = Vec::with_capacity(alloc, count)?;
    for _ in 0..count {
        rows.push(Row::new(alloc))?;
    }
    Ok(rows)
}

/// Puts the orders that lead to a node to the nodes that they come from.
fn turn_row(rows: &mut Vec<Row>, row: &[Edge], after: u32) -> Result<(), AllocError>
    requires ascending { IsAscending row.now }
    requires within { (place : ℕ) (edge : TheEdge) → slice_get row.now place ≡ Some edge →
        edge.node < length rows.old.items }
    requires new { (before : ℕ) → kind_in (row_of rows.old.items before) after ≡ None }
    ensures { OnOk result (TurnsRow rows.old.items rows.new.items row.now after) }
{
    for edge in row {
        raise_at(rows, after, edge.node as usize, edge.kind)?;
    }
    Ok(())
}

/// The orders of rows, by the node that they come from.
fn turn(alloc: Global, rows: &[Row]) -> Result<Vec<Row>, AllocError>
    requires few { length rows.now ≤ MOST_NODES }
    requires within { AreWithin rows.now }
    ensures { IfOk result (λ turned. IsTurned rows.now turned.items) }
{
    let mut turned = empty_rows(alloc, rows.len())?;
    for after in 0..rows.len() {
        turn_row(&mut turned, edges_at(rows, after), after as u32)?;
    }
    Ok(turned)
}

impl Successors {
    pub(crate) fn new(alloc: Global, rows: &[Row]) -> Result<Successors, AllocError>
        requires few { length rows.now ≤ MOST_NODES }
        requires within { AreWithin rows.now }
        ensures { IfOk result (λ turned. IsTurned rows.now turned) }
    {
        Ok(Successors {
            rows: turn(alloc, rows)?,
        })
    }

    /// The orders that come from a node, ascending by the node that each leads to.
    pub fn orders_from(&self, node: u32) -> &[Edge]
        requires { node < length self.now }
        ensures orders { result.now ≡ row_of self.now node }
        ensures ascending { IsAscending result.now }
        ensures each { (place : ℕ) (edge : TheEdge) → slice_get result.now place ≡ Some edge →
            (edge.node < length self.now) × (kinds_from self.now node edge.node ≡ Some edge.kind) }
    {
        edges_at(&self.rows, node as usize)
    }

    /// For each node whether a path of one or more orders, each at least that strong, leads to it
    /// from one.
    pub fn reached_from(&self, node: u32, weakest: Order) -> Result<Seq<bool>, NoMemory>
        requires { node < length self.now }
        ensures long { IfOk result (λ reached. length reached ≡ length self.now) }
        ensures reached { IfOk result (λ reached. (other : ℕ) →
            IsTrue (is_seen reached other) ↔ Path (kinds_from self.now) weakest node other) }
    {
        let seen = flood(*self.rows.allocator(), &self.rows, node as usize, weakest)?;
        Ok(Seq::from(seen))
    }
}
