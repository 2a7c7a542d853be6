// The graph of backchaining.
ghost use Rattle.std.specs.Prelude.{◌≡◌, [], ℕ, List, length, slice_get, Some, IfOk};
ghost use Rattle.sas_task.specs.Runs.{start_of};
ghost use Rattle.sas_task.specs.WellFormed.{IsWellFormed};
ghost use Rattle.sas_task.specs.declared.contents.CostKind.TheVariants.{One};
ghost use Rattle.sas_task.specs.declared.contents.Fact.{Fact as TheFact};
ghost use Rattle.relaxed_task.specs.Relaxations.{IsRelaxed};
ghost use Rattle.lm_graph.specs.Graphs.{kind_of};
ghost use Rattle.lm_graph.specs.Nodes.{sets_of};
ghost use Rattle.lm_graph.specs.declared.orders.Order.TheVariants.{Natural as NaturalOrder};
ghost use Rattle.lm_graph.specs.declared.orders.Order.TheVariants.{GreedyNecessary as GreedyOrder};
ghost use Rattle.lm_backchain.specs.Backchain.{Among, Backchain};
ghost use Rattle.lm_backchain.specs.Givers.{FindsGivers};
ghost use Rattle.lm_backchain.specs.Growth.{HasGoals, Works};
ghost use Rattle.lm_backchain.specs.Singles.{AreKept};
ghost use Rattle.lm_backchain.specs.Landmarks.{Landmark, GreedyNecessary, Natural};

use crate::givers::Givers;
use crate::growing::{add_goals, grow};
use crate::natural::add_natural;
use crate::singles::Single;
use axiom_eval::Axioms;
use h_add::Add;
use lama_num::NoMemory;
use lm_graph::Graph;
use sas_task::{CostKind, Task};
use std::alloc::Global;

fn initial_state(alloc: Global, task: &Task) -> Result<Vec<u32>, NoMemory>
    ensures { IfOk result (λ state. state.items ≡ start_of task.now) }
{
    let mut state = Vec::from_slice(alloc, &task.parts().init)?;
    let mut axioms = Axioms::new(alloc, task)?;
    axioms.settle(task, &mut state);
    Ok(state)
}

/// Adds the nodes with their greedy-necessary orders, from the initial state; what is kept of each.
fn add_nodes_from(
    alloc: Global,
    task: &Task,
    start: &[u32],
    givers: &Givers,
    add: &mut Add,
    graph: &mut Graph,
) -> Result<Vec<Option<Single>>, NoMemory>
    requires start { start.now ≡ start_of task.now }
    requires givers { FindsGivers task.now (length task.now.operators) givers.now.table }
    requires add { IsRelaxed task.now One add.old.relaxed }
    requires goals { HasGoals task.now [] graph.old }
    ensures works { IfOk result
        (λ singles. Works task.now graph.new (length graph.new.nodes) []) }
    ensures long { IfOk result (λ singles. length singles.items ≡ length graph.new.nodes) }
    ensures kept { IfOk result (λ singles. AreKept task.now graph.new singles.items) }
{
    add_goals(task, givers, graph)?;
    grow(alloc, task, start, givers, add, graph)
}

/// Adds the nodes with their greedy-necessary orders; what is kept of each.
fn add_nodes(alloc: Global, task: &Task, graph: &mut Graph) -> Result<Vec<Option<Single>>, NoMemory>
    requires { HasGoals task.now [] graph.old }
    ensures formed { IfOk result (λ singles. IsWellFormed task.now) }
    ensures works { IfOk result
        (λ singles. Works task.now graph.new (length graph.new.nodes) []) }
    ensures long { IfOk result (λ singles. length singles.items ≡ length graph.new.nodes) }
    ensures kept { IfOk result (λ singles. AreKept task.now graph.new singles.items) }
{
    let start = initial_state(alloc, task)?;
    let givers = Givers::new(alloc, task)?;
    let mut add = Add::new(alloc, task, CostKind::One)?;
    add_nodes_from(alloc, task, &start, &givers, &mut add, graph)
}

/// The landmarks of a task by backchaining from its goal facts, with their orders.
///
/// The nodes are numbered in the order in which they are found: the goal facts come first, and
/// then, for one node after the other, the oldest first, what it is taken back to, single facts
/// ascending and then sets. Takes one relaxed evaluation a node.
///
/// The rules are those of Hoffmann, Porteous and Sebastia, "Ordered landmarks in planning" (2004),
/// as Richter and Westphal, "The LAMA planner" (2010), extend them to sets of facts.
pub fn landmarks(alloc: Global, task: &Task) -> Result<Graph, NoMemory>
    ensures backchain { IfOk result (λ graph. Backchain task.now graph) }
    ensures landmarks { IfOk result (λ graph. (facts : List TheFact) →
        Among (sets_of graph.nodes) facts → Landmark task.now facts) }
    ensures greedy { IfOk result (λ graph. (i j : ℕ) (a b : List TheFact) →
        slice_get (sets_of graph.nodes) i ≡ Some a → slice_get (sets_of graph.nodes) j ≡ Some b →
        kind_of graph i j ≡ Some GreedyOrder → GreedyNecessary task.now a b) }
    ensures natural { IfOk result (λ graph. (i j : ℕ) (a b : List TheFact) →
        slice_get (sets_of graph.nodes) i ≡ Some a → slice_get (sets_of graph.nodes) j ≡ Some b →
        kind_of graph i j ≡ Some NaturalOrder → Natural task.now a b) }
{
    let mut graph = Graph::new(alloc);
    let singles = add_nodes(alloc, task, &mut graph)?;
    add_natural(&singles, &mut graph)?;
    Ok(graph)
}
