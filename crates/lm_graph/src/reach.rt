// Which nodes lead to one.
ghost use Rattle.std.specs.Prelude.{◌≡◌, ◌<◌, ℕ, length, IfOk, OnOk, IsTrue, ◌↔◌, slice_get, Some};
ghost use Rattle.std.specs.Prelude.{nat_eq, false, replicate};
ghost use Rattle.lm_graph.specs.Marks.{InStep, Marks, is_taken, is_seen, kinds_in, AreWithin};
ghost use Rattle.lm_graph.specs.Graphs.{row_of};
ghost use Rattle.lm_graph.specs.Rows.{IsAscending};
ghost use Rattle.lm_graph.specs.Paths.{Path};
ghost use Rattle.lm_graph.specs.declared.orders.Edge.{Edge as TheEdge};

use crate::orders::{Edge, Order};
use crate::rows::Row;
use std::alloc::{AllocError, Global};

fn mark(seen: &mut Vec<bool>, queue: &mut Vec<u32>, number: u32) -> Result<(), AllocError>
    requires within { number < length seen.old.items }
    requires in_step { InStep seen.old.items queue.old.items }
    ensures { OnOk result (Marks seen.old.items queue.old.items (λ i. nat_eq number i)
        seen.new.items queue.new.items) }
{
    if !seen[number as usize] {
        queue.push(number)?;
        seen[number as usize] = true;
    }
    Ok(())
}

/// Marks the nodes that edges of at least some strength come from.
fn mark_row(
    row: &[Edge],
    weakest: Order,
    seen: &mut Vec<bool>,
    queue: &mut Vec<u32>,
) -> Result<(), AllocError>
    requires within { (place : ℕ) (edge : TheEdge) → slice_get row.now place ≡ Some edge →
        edge.node < length seen.old.items }
    requires in_step { InStep seen.old.items queue.old.items }
    ensures { OnOk result (Marks seen.old.items queue.old.items (is_taken row.now weakest)
        seen.new.items queue.new.items) }
{
    for edge in row {
        if edge.kind.is_as_strong(weakest) {
            mark(seen, queue, edge.node)?;
        }
    }
    Ok(())
}

pub(crate) fn edges_at(rows: &[Row], node: usize) -> &[Edge]
    requires { node < length rows.now }
    ensures edges { result.now ≡ row_of rows.now node }
    ensures ascending { IsAscending result.now }
{
    rows[node].edges()
}

fn unmarked(alloc: Global, count: usize) -> Result<Vec<bool>, AllocError>
    ensures { IfOk result (λ seen. seen.items ≡ replicate count false) }
{
    vec![in alloc; false; count]
}

/// Marks the nodes from which a path leads to one, going back from it.
pub(crate) fn flood(
    alloc: Global,
    rows: &[Row],
    last: usize,
    weakest: Order,
) -> Result<Vec<bool>, AllocError>
    requires within { AreWithin rows.now }
    requires last { last < length rows.now }
    ensures long { IfOk result (λ seen. length seen.items ≡ length rows.now) }
    ensures leads { IfOk result (λ seen. (i : ℕ) →
        IsTrue (is_seen seen.items i) ↔ Path (kinds_in rows.now) weakest i last) }
{
    let mut seen = unmarked(alloc, rows.len())?;
    let mut queue = Vec::new(alloc);
    mark_row(edges_at(rows, last), weakest, &mut seen, &mut queue)?;
    let mut place = 0;
    while place < queue.len() {
        let node = queue[place] as usize;
        mark_row(edges_at(rows, node), weakest, &mut seen, &mut queue)?;
        place += 1;
    }
    Ok(seen)
}
