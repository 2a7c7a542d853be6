//! Graphs of landmarks: nodes, which are small sets of facts, and at most one order from a node to
//! another.
#![tactic(auto)]

mod fact_table;
mod graph;
mod nodes;
mod orders;
mod reach;
mod rows;
mod successors;

pub use fact_table::FactTable;
pub use graph::{Graph, MOST_NODES};
pub use nodes::{Added, Node};
pub use orders::{Edge, Order};
pub use successors::Successors;
