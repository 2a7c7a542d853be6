// Facts of lists and of nodes.
ghost use Rattle.std.specs.Prelude.{◌≡◌, filter};
ghost use Rattle.sas_task.specs.Facts.{has_fact};
ghost use Rattle.lm_orders.specs.Interference.{single_of, fact_of};
ghost use Rattle.lm_orders.specs.Reasonable.{is_goal_at};

use lm_graph::Node;
use sas_task::Fact;

/// Whether a list has a fact.
pub(crate) fn has(facts: &[Fact], fact: Fact) -> bool
    ensures { result ≡ has_fact facts.now fact }
{
    facts.iter().any(|other| *other == fact)
}

/// Keeps the facts that others are as well.
pub(crate) fn keep_common(facts: &mut Vec<Fact>, others: &[Fact])
    ensures { facts.new.items ≡ filter (has_fact others.now) facts.old.items }
{
    facts.retain(|fact| has(others, *fact));
}

fn single(facts: &[Fact]) -> Option<Fact>
    ensures { result ≡ single_of facts.now }
{
    match facts {
        [fact] => Some(*fact),
        _ => None,
    }
}

/// The fact of a node that is one fact.
pub(crate) fn fact_at(nodes: &[Node], node: u32) -> Option<Fact>
    ensures { result ≡ fact_of nodes.now node }
{
    match nodes.get(node as usize) {
        Some(node) => single(&node.facts),
        None => None,
    }
}

/// Whether a node is a goal.
pub(crate) fn is_goal(nodes: &[Node], node: u32) -> bool
    ensures { result ≡ is_goal_at nodes.now node }
{
    match nodes.get(node as usize) {
        Some(node) => node.goal,
        None => false,
    }
}
