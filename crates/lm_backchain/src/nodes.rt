// What a node has beside its facts.
ghost use Rattle.std.specs.Prelude.{◌≡◌, ◌<◌, ℕ, length, map, slice_get, Some, IsTrue, IfOk};
ghost use Rattle.lm_graph.specs.Graphs.{Adds, IsGraph};
ghost use Rattle.lm_graph.specs.Nodes.{is_set};
ghost use Rattle.lm_backchain.specs.Backchain.{least, or_less, is_goal_fact as goal_test, node_of};
ghost use Rattle.lm_backchain.specs.Givers.{FindsGivers, cost_at};

use crate::facts::has;
use crate::givers::Givers;
use lama_num::NoMemory;
use lm_graph::{Added, Graph};
use sas_task::{Fact, Operator, Task};

fn lesser(least: Option<u32>, cost: u32) -> u32
    ensures { result ≡ or_less cost least }
{
    match least {
        Some(other) => cost.min(other),
        None => cost,
    }
}

/// The least cost of an operator of these.
fn least_cost(operators: &[Operator], ops: &[u32]) -> Option<u32>
    requires { (place : ℕ) → (op : ℕ) → slice_get ops.now place ≡ Some op →
        op < length operators.now }
    ensures { result ≡ least (map (cost_at operators.now) ops.now) }
{
    let mut least = None;
    for op in ops {
        least = Some(lesser(least, operators[*op as usize].cost));
    }
    least
}

fn is_goal_fact(task: &Task, facts: &[Fact]) -> bool
    ensures { result ≡ goal_test task.now facts.now }
{
    match facts {
        [fact] => has(&task.parts().goal, *fact),
        _ => false,
    }
}

/// Adds the node of some facts.
pub fn add_node(
    task: &Task,
    givers: &Givers,
    graph: &mut Graph,
    facts: &[Fact],
) -> Result<Added, NoMemory>
    requires set { IsTrue (is_set facts.now) }
    requires givers { FindsGivers task.now (length task.now.operators) givers.now.table }
    ensures ok { IfOk result
        (λ added. Adds graph.old graph.new (node_of task.now facts.now) added) }
    ensures graph { IfOk result (λ added. IsGraph graph.new) }
{
    let ops = givers.of(facts)?;
    let least = least_cost(&task.parts().operators, &ops);
    graph.add(facts, least, is_goal_fact(task, facts))
}
