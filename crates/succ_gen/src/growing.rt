// The branches of a tree, level by level.
ghost use Rattle.std.specs.Prelude.{◌≡◌, ◌<◌, ◌≤◌, ◌+◌, ◌^◌, ℕ, [], length, IfOk, OnOk};
ghost use Rattle.lama_num.specs.Rows.{row_at};
ghost use Rattle.succ_gen.specs.Branches.{AddsBranch, IsPlaced};
ghost use Rattle.succ_gen.specs.Growing.{IsLevel, AreInOrder, IsWhole};

use lama_num::{NoMemory, Rows};
use sas_task::Fact;
use std::alloc::{AllocError, Global};

/// The way to a node: from the node above it, by a fact. The branch at place i leads to node i + 1;
/// node 0 is the root.
#[derive(Clone, Copy, PartialEq, Eq)]
pub struct Branch {
    pub parent: u32,
    pub fact: Fact,
}

/// The node at which an operator stands.
#[derive(Clone, Copy)]
pub struct Home {
    pub node: u32,
    pub operator: u32,
}

/// An operator that has come to a node and goes on by the next of its conditions.
#[derive(Clone, Copy, PartialEq, Eq, PartialOrd, Ord)]
pub struct Step {
    pub node: u32,
    pub fact: Fact,
    pub operator: u32,
}

/// The branches of a tree and the operators at its nodes, both in the order of the nodes.
#[derive(Drop)]
pub struct Grown {
    pub branches: Vec<Branch>,
    pub homes: Vec<Home>,
}

/// Places an operator at a node to which so many of its conditions lead.
fn place(
    conditions: &Rows<Fact>,
    depth: usize,
    node: u32,
    operator: u32,
    homes: &mut Vec<Home>,
    steps: &mut Vec<Step>,
) -> Result<(), AllocError>
    requires { operator < length conditions.now }
    ensures { OnOk result
        (IsPlaced conditions.now depth node operator homes.old.items homes.new.items
        steps.old.items steps.new.items) }
{
    match conditions.row(operator as usize).get(depth) {
        Some(fact) => {
            let fact = *fact;
            steps.push(Step {
                node,
                fact,
                operator,
            })?;
        }
        None => homes.push(Home { node, operator })?,
    }
    Ok(())
}

/// The number of the last node, if it has 32 bits: where there are more, there is no memory for
/// them.
fn last_node(branches: &[Branch]) -> Result<u32, NoMemory>
    ensures node { IfOk result (λ node. node ≡ length branches.now) }
    ensures few { OnOk result (length branches.now < 4294967294) }
{
    if branches.len() >= 4_294_967_294 {
        return Err(NoMemory);
    }
    Ok(branches.len() as u32)
}

/// The node of a step: the last one, where the step before came to it, or a new one.
fn node_for(branches: &mut Vec<Branch>, step: &Step) -> Result<u32, NoMemory>
    ensures node { IfOk result (λ node. node ≡ length branches.new.items) }
    ensures branches { OnOk result (AddsBranch step.now branches.old.items branches.new.items) }
{
    let branch = Branch {
        parent: step.node,
        fact: step.fact,
    };
    if branches.last() != Some(&branch) {
        branches.push(branch)?;
    }
    last_node(branches)
}

/// Takes the steps of a level. Those that come to one node follow one another.
fn place_steps(
    conditions: &Rows<Fact>,
    depth: usize,
    steps: &[Step],
    branches: &mut Vec<Branch>,
    homes: &mut Vec<Home>,
    next: &mut Vec<Step>,
) -> Result<(), NoMemory>
    requires next { depth + 1 < 2 ^ 64 }
    requires level { IsLevel conditions.now depth branches.old.items homes.old.items steps.now }
    requires order { AreInOrder steps.now }
    requires none { next.old.items ≡ [] }
    ensures { OnOk result
        (IsLevel conditions.now (depth + 1) branches.new.items homes.new.items next.new.items) }
{
    for step in steps {
        let node = match node_for(branches, step) {
            Ok(node) => node,
            Err(e) => return Err(e),
        };
        place(conditions, depth + 1, node, step.operator, homes, next)?;
    }
    Ok(())
}

/// Places all operators at the root.
fn place_all(
    conditions: &Rows<Fact>,
    homes: &mut Vec<Home>,
    steps: &mut Vec<Step>,
) -> Result<(), AllocError>
    requires few { length conditions.now < 2 ^ 32 }
    requires no_homes { homes.old.items ≡ [] }
    requires no_steps { steps.old.items ≡ [] }
    ensures { OnOk result (IsLevel conditions.now 0 [] homes.new.items steps.new.items) }
{
    for operator in 0..conditions.len() {
        place(conditions, 0, 0, operator as u32, homes, steps)?;
    }
    Ok(())
}

/// The length of the longest list of conditions.
fn longest(conditions: &Rows<Fact>) -> usize
    ensures { (op : ℕ) → op < length conditions.now → length (row_at conditions.now op) ≤ result }
{
    let mut longest = 0;
    for operator in 0..conditions.len() {
        longest = longest.max(conditions.row(operator).len());
    }
    longest
}

/// The tree of the operators with these conditions.
pub fn grow(alloc: Global, conditions: &Rows<Fact>) -> Result<Grown, NoMemory>
    requires { length conditions.now < 2 ^ 32 }
    ensures { IfOk result (λ grown. IsWhole conditions.now grown.branches.items grown.homes.items) }
{
    let mut branches = Vec::new(alloc);
    let mut homes = Vec::new(alloc);
    let mut steps = Vec::new(alloc);
    place_all(conditions, &mut homes, &mut steps)?;
    for depth in 0..longest(conditions) {
        steps.sort_unstable();
        let mut next = Vec::new(alloc);
        match place_steps(
            conditions,
            depth,
            &steps,
            &mut branches,
            &mut homes,
            &mut next,
        ) {
            Ok(()) => {}
            Err(e) => return Err(e),
        }
        steps = next;
    }
    Ok(Grown { branches, homes })
}
