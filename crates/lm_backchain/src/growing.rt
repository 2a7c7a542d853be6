// The worklist: nodes are taken back in turn, the oldest first.
ghost use Rattle.std.specs.Prelude.{◌≡◌, ◌+◌, ◌<◌, ◌++◌, ◌∷◌, [], List, length, take, slice_get};
ghost use Rattle.std.specs.Prelude.{Some, IfOk, OnOk};
ghost use Rattle.sas_task.specs.Runs.{start_of};
ghost use Rattle.sas_task.specs.declared.contents.CostKind.TheVariants.{One};
ghost use Rattle.sas_task.specs.declared.contents.Fact.{Fact as TheFact};
ghost use Rattle.relaxed_task.specs.Relaxations.{IsRelaxed};
ghost use Rattle.lm_graph.specs.Nodes.{sets_of};
ghost use Rattle.lm_backchain.specs.Givers.{FindsGivers};
ghost use Rattle.lm_backchain.specs.Growth.{HasGoals, IsTakenBackAt, StayNodes, Works, number_in};
ghost use Rattle.lm_backchain.specs.Singles.{AreKept};

use crate::givers::Givers;
use crate::nodes::add_node;
use crate::singles::Single;
use crate::taking_back::taken_back;
use h_add::Add;
use lama_num::{NoMemory, Seq};
use lm_graph::{Added, Graph, Order};
use sas_task::{Fact, Task};
use std::alloc::{AllocError, Global};

fn add_goal(task: &Task, givers: &Givers, graph: &mut Graph, fact: Fact) -> Result<(), NoMemory>
    requires givers { FindsGivers task.now (length task.now.operators) givers.now.table }
    ensures { OnOk result ((goals : List TheFact) → HasGoals task.now goals graph.old →
        HasGoals task.now (goals ++ fact ∷ []) graph.new) }
{
    let _ = add_node(task, givers, graph, &[fact])?;
    Ok(())
}

/// Adds the goal facts.
pub fn add_goals(task: &Task, givers: &Givers, graph: &mut Graph) -> Result<(), NoMemory>
    requires givers { FindsGivers task.now (length task.now.operators) givers.now.table }
    requires goals { HasGoals task.now [] graph.old }
    ensures { OnOk result (Works task.now graph.new 0 []) }
{
    for fact in task.parts().goal.as_slice() {
        add_goal(task, givers, graph, *fact)?;
    }
    Ok(())
}

fn number_of(added: Added) -> Option<u32>
    ensures { result ≡ number_in added }
{
    match added {
        Added::New(number) => Some(number),
        Added::Known(number) => Some(number),
        Added::Full => None,
    }
}

/// Adds a node that another, at a place, is taken back to.
fn add_before(
    task: &Task,
    givers: &Givers,
    graph: &mut Graph,
    place: u32,
    list: &[Seq<Fact>],
    at: usize,
) -> Result<(), NoMemory>
    requires givers { FindsGivers task.now (length task.now.operators) givers.now.table }
    requires place { place < length graph.old.nodes }
    requires back { IsTakenBackAt task.now graph.old place list.now }
    requires at { at < length list.now }
    requires works { Works task.now graph.old place (take at list.now) }
    ensures works { OnOk result (Works task.now graph.new place (take (at + 1) list.now)) }
    ensures nodes { OnOk result (StayNodes graph.old graph.new) }
{
    let added = add_node(task, givers, graph, &list[at])?;
    match number_of(added) {
        Some(before) => {
            graph.order(before, place, Order::GreedyNecessary)?;
            Ok(())
        }
        None => Ok(()),
    }
}

fn add_list(
    task: &Task,
    givers: &Givers,
    graph: &mut Graph,
    place: u32,
    list: &[Seq<Fact>],
) -> Result<(), NoMemory>
    requires givers { FindsGivers task.now (length task.now.operators) givers.now.table }
    requires place { place < length graph.old.nodes }
    requires back { IsTakenBackAt task.now graph.old place list.now }
    requires works { Works task.now graph.old place [] }
    ensures works { OnOk result (Works task.now graph.new (place + 1) []) }
    ensures nodes { OnOk result (StayNodes graph.old graph.new) }
{
    for at in 0..list.len() {
        add_before(task, givers, graph, place, list, at)?;
    }
    Ok(())
}

fn facts_at(alloc: Global, graph: &Graph, place: u32) -> Result<Vec<Fact>, AllocError>
    requires { place < length graph.now.nodes }
    ensures { IfOk result (λ facts. slice_get (sets_of graph.now.nodes) place ≡ Some facts.items) }
{
    let node = &graph.nodes()[place as usize];
    Vec::from_slice(alloc, &node.facts)
}

fn backchain_from(
    task: &Task,
    start: &[u32],
    givers: &Givers,
    add: &mut Add,
    graph: &mut Graph,
    singles: &mut Vec<Option<Single>>,
    place: u32,
) -> Result<(), NoMemory>
    requires givers { FindsGivers task.now (length task.now.operators) givers.now.table }
    requires place { place < length graph.old.nodes }
    requires start { start.now ≡ start_of task.now }
    requires add { IsRelaxed task.now One add.old.relaxed }
    requires works { Works task.now graph.old place [] }
    requires long { length singles.old.items ≡ place }
    requires kept { AreKept task.now graph.old singles.old.items }
    ensures works { OnOk result (Works task.now graph.new (place + 1) []) }
    ensures place { OnOk result (place < length graph.new.nodes) }
    ensures long { OnOk result (length singles.new.items ≡ place + 1) }
    ensures kept { OnOk result (AreKept task.now graph.new singles.new.items) }
    ensures add { add.new.relaxed ≡ add.old.relaxed }
{
    let node = facts_at(*singles.allocator(), graph, place)?;
    let ops = givers.of(&node)?;
    let list = taken_back(task, start, add, &node, &ops, singles)?;
    add_list(task, givers, graph, place, &list)?;
    Ok(())
}

/// Takes the nodes back in turn, those that come in as well; what is kept of each.
pub fn grow(
    alloc: Global,
    task: &Task,
    start: &[u32],
    givers: &Givers,
    add: &mut Add,
    graph: &mut Graph,
) -> Result<Vec<Option<Single>>, NoMemory>
    requires givers { FindsGivers task.now (length task.now.operators) givers.now.table }
    requires start { start.now ≡ start_of task.now }
    requires add { IsRelaxed task.now One add.old.relaxed }
    requires works { Works task.now graph.old 0 [] }
    ensures works { IfOk result
        (λ singles. Works task.now graph.new (length graph.new.nodes) []) }
    ensures long { IfOk result (λ singles. length singles.items ≡ length graph.new.nodes) }
    ensures kept { IfOk result (λ singles. AreKept task.now graph.new singles.items) }
{
    let mut singles = Vec::new(alloc);
    let mut place: u32 = 0;
    'places: while (place as usize) < graph.nodes().len() {
        backchain_from(task, start, givers, add, graph, &mut singles, place)?;
        place += 1;
    }
    Ok(singles)
}
