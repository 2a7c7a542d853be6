// Natural orders.
ghost use Rattle.std.specs.Prelude.{◌≡◌, ◌≢◌, ◌<◌, ◌+◌, ◌↔◌, List, length, IsTrue, OnOk};
ghost use Rattle.sas_task.specs.declared.contents.Fact.{Fact as TheFact};
ghost use Rattle.sas_task.specs.declared.contents.Parts.{Parts};
ghost use Rattle.lm_graph.specs.Graphs.{IsGraph};
ghost use Rattle.lm_graph.specs.Nodes.{AreDistinct};
ghost use Rattle.lm_backchain.specs.Backchain.{GivesNatural};
ghost use Rattle.lm_backchain.specs.Singles.{AreKept, IsKept, IsSingle, IsSingleAt};
ghost use Rattle.lm_backchain.specs.Strengths.{IsUpTo};

use crate::singles::Single;
use bit_rows::has;
use lama_num::NoMemory;
use lm_graph::{Graph, Order};

/// Whether a node is one that isn't reached without another.
fn is_late(before: &Single, after: &Option<Single>) -> bool
    ensures { (parts : Parts) (a b : List TheFact) → IsSingle parts a before.now →
        IsKept parts b after.now → a ≢ b → (IsTrue result ↔ GivesNatural parts a b) }
{
    match after {
        Some(after) => !has(&before.reached, after.number),
        None => false,
    }
}

/// Puts the natural order from a node to another, if the third rule gives it.
fn order_pair(
    single: &Single,
    singles: &[Option<Single>],
    graph: &mut Graph,
    before: u32,
    after: u32,
) -> Result<(), NoMemory>
    requires before { before < length graph.old.nodes }
    requires after { after < length graph.old.nodes }
    requires long { length singles.now ≡ length graph.old.nodes }
    requires distinct { AreDistinct graph.old.nodes }
    ensures nodes { OnOk result (graph.new.nodes ≡ graph.old.nodes) }
    ensures so_far { OnOk result ((parts : Parts) →
        IsSingleAt parts graph.old before single.now → AreKept parts graph.old singles.now →
        IsUpTo parts graph.old before after → IsUpTo parts graph.new before (after + 1)) }
{
    if before == after {
        return Ok(());
    }
    if is_late(single, &singles[after as usize]) {
        graph.order(before, after, Order::Natural)?;
    }
    Ok(())
}

fn order_row(
    single: &Single,
    singles: &[Option<Single>],
    graph: &mut Graph,
    before: u32,
) -> Result<(), NoMemory>
    requires before { before < length graph.old.nodes }
    requires long { length singles.now ≡ length graph.old.nodes }
    requires distinct { AreDistinct graph.old.nodes }
    ensures nodes { OnOk result (graph.new.nodes ≡ graph.old.nodes) }
    ensures so_far { OnOk result ((parts : Parts) →
        IsSingleAt parts graph.old before single.now → AreKept parts graph.old singles.now →
        IsUpTo parts graph.old before 0 → IsUpTo parts graph.new (before + 1) 0) }
{
    let count = graph.nodes().len() as u32;
    for after in 0..count {
        order_pair(single, singles, graph, before, after)?;
    }
    Ok(())
}

fn order_from(singles: &[Option<Single>], graph: &mut Graph, before: u32) -> Result<(), NoMemory>
    requires before { before < length graph.old.nodes }
    requires long { length singles.now ≡ length graph.old.nodes }
    requires distinct { AreDistinct graph.old.nodes }
    ensures nodes { OnOk result (graph.new.nodes ≡ graph.old.nodes) }
    ensures so_far { OnOk result ((parts : Parts) → AreKept parts graph.old singles.now →
        IsUpTo parts graph.old before 0 → IsUpTo parts graph.new (before + 1) 0) }
{
    match &singles[before as usize] {
        Some(single) => {
            order_row(single, singles, graph, before)?;
            Ok(())
        }
        None => Ok(()),
    }
}

/// Adds the natural orders, by what is kept of each node.
pub fn add_natural(singles: &[Option<Single>], graph: &mut Graph) -> Result<(), NoMemory>
    requires long { length singles.now ≡ length graph.old.nodes }
    ensures graph { IsGraph graph.old }
    ensures nodes { OnOk result (graph.new.nodes ≡ graph.old.nodes) }
    ensures orders { OnOk result ((parts : Parts) → AreKept parts graph.old singles.now →
        IsUpTo parts graph.old 0 0 → IsUpTo parts graph.new (length graph.new.nodes) 0) }
{
    let count = graph.nodes().len() as u32;
    for before in 0..count {
        order_from(singles, graph, before)?;
    }
    Ok(())
}
