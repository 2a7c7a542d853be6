// From facts to the nodes that have them.
ghost use Rattle.std.specs.Prelude.{◌≤◌, length, IfOk};
ghost use Rattle.lm_status.specs.Statuses.{Finds};
ghost use Rattle.lm_graph.specs.declared.graph.TheConstants.{MOST_NODES};

use lama_num::NoMemory;
use lm_graph::{FactTable, Node};
use std::alloc::Global;

/// The table of nodes by each of their facts.
pub(crate) fn make_table(alloc: Global, nodes: &[Node]) -> Result<FactTable, NoMemory>
    requires { length nodes.now ≤ MOST_NODES }
    ensures { IfOk result (λ table. Finds table nodes.now (length nodes.now)) }
{
    let mut table = FactTable::new(alloc);
    for number in 0..nodes.len() {
        table.add(&nodes[number].facts, number as u32)?;
    }
    Ok(table)
}
