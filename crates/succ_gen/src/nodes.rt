// The nodes of a tree in one vector.
ghost use Rattle.std.specs.Prelude.{◌≡◌, ◌<◌, ◌≤◌, ◌+◌, ◌^◌, ℕ, nat_eq, ◌&&◌, length, map};
ghost use Rattle.std.specs.Prelude.{slice_get, Some, IfOk};
ghost use Rattle.std.specs.List.Sorted.{IsNonDecreasingBy};
ghost use Rattle.succ_gen.specs.declared.growing.Branch.{Branch as TheBranch};
ghost use Rattle.succ_gen.specs.Growing.{parent_of, node_of, operators_at};
ghost use Rattle.succ_gen.specs.Nodes.{IsBelow, IsCut, IsRun, AreNodes};

use crate::growing::{Branch, Home};
use lama_num::NoMemory;
use sas_task::Fact;
use std::alloc::{AllocError, Global};

/// A node of a tree. Node 0 is the root, and behind the nodes stands one more, where the children
/// and operators of the last one end.
///
/// The children of a node are numbered one after the other, ascending by variable and value.
#[derive(Clone, Copy)]
pub struct Node {
    /// The fact that leads to the node from its parent.
    pub fact: Fact,
    /// Where those children of the parent end that are on the same variable.
    pub group_end: u32,
    /// Where the node's children begin; those of the next node follow them.
    pub children: u32,
    /// Where the operators that stand at the node begin; those at the next node follow them.
    pub operators: u32,
}

/// The first place, from one on, at which the parent isn't below a number.
fn skip_branches(branches: &[Branch], from: usize, number: usize) -> usize
    requires rising { IsNonDecreasingBy parent_of branches.now }
    requires below { IsBelow parent_of branches.now number from }
    ensures { IsCut parent_of branches.now number result }
{
    for place in from..branches.len() {
        if branches[place].parent as usize >= number {
            return place;
        }
    }
    branches.len()
}

/// The first place, from one on, at which the node isn't below a number.
fn skip_homes(homes: &[Home], from: usize, number: usize) -> usize
    requires rising { IsNonDecreasingBy node_of homes.now }
    requires below { IsBelow node_of homes.now number from }
    ensures { IsCut node_of homes.now number result }
{
    for place in from..homes.len() {
        if homes[place].node as usize >= number {
            return place;
        }
    }
    homes.len()
}

fn are_siblings(one: Branch, other: Branch) -> bool
    ensures { result ≡ (nat_eq one.parent other.parent && nat_eq one.fact.var other.fact.var) }
{
    one.parent == other.parent && one.fact.var == other.fact.var
}

/// Where the group of a node ends, if it isn't known from the node before.
fn group_end(branches: &[Branch], number: usize, known: usize) -> usize
    requires run { IsRun branches.now number known }
    ensures run { IsRun branches.now number result }
    ensures onwards { (c : ℕ) → number ≡ c + 1 → c < length branches.now → number < result }
{
    if number < known || number == 0 || number > branches.len() {
        return known;
    }
    let first = branches[number - 1];
    for next in number..branches.len() {
        if !are_siblings(first, branches[next]) {
            return next + 1;
        }
    }
    branches.len() + 1
}

/// The fact of the branch that leads to a node. None leads to the root.
fn fact_to(branches: &[Branch], number: usize) -> Fact
    ensures { (c : ℕ) (b : TheBranch) → number ≡ c + 1 → slice_get branches.now c ≡ Some b →
        result ≡ b.fact }
{
    if number == 0 || number > branches.len() {
        return Fact { var: 0, val: 0 };
    }
    branches[number - 1].fact
}

/// The nodes for branches and for the operators at nodes.
pub fn nodes_of(alloc: Global, branches: &[Branch], homes: &[Home]) -> Result<Vec<Node>, AllocError>
    requires few { length branches.now < 4294967294 }
    requires few_homes { length homes.now < 2 ^ 32 }
    requires parents { IsNonDecreasingBy parent_of branches.now }
    requires nodes { IsNonDecreasingBy node_of homes.now }
    ensures { IfOk result (λ nodes. AreNodes branches.now homes.now nodes.items) }
{
    let mut nodes = Vec::with_capacity(alloc, branches.len() + 2)?;
    let mut child = 0;
    let mut home = 0;
    let mut group = 0;
    for number in 0..branches.len() + 2 {
        child = skip_branches(branches, child, number);
        home = skip_homes(homes, home, number);
        group = group_end(branches, number, group);
        nodes.push(Node {
            fact: fact_to(branches, number),
            group_end: group as u32,
            children: child as u32 + 1,
            operators: home as u32,
        })?;
    }
    Ok(nodes)
}

/// The operators at nodes, without the nodes.
pub fn operators_of(alloc: Global, homes: &[Home]) -> Result<Vec<u32>, AllocError>
    ensures { IfOk result (λ operators. operators.items ≡ operators_at homes.now) }
{
    let mut operators = Vec::with_capacity(alloc, homes.len())?;
    for home in homes {
        operators.push(home.operator)?;
    }
    Ok(operators)
}
