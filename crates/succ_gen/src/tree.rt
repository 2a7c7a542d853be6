// The tree of a task's operators.
ghost use Rattle.std.specs.Prelude.{◌≡◌, ◌≤◌, length, IfOk, vec_capacity};
ghost use Rattle.succ_gen.specs.Trees.{IsFor, applicable};

use crate::conditions::conditions_of;
use crate::growing::grow;
use crate::nodes::{Node, nodes_of, operators_of};
use crate::walking::walk;
use lama_num::{NoMemory, Seq};
use sas_task::Task;
use std::alloc::Global;
use std::marker::Model;

/// The operators of one task, by their preconditions.
///
/// The task is given again at each call; it is the one for which the tree was made. A state is a
/// slice with one value for each variable. Only `new` takes memory.
///
/// After the successor generators of Fast Downward (Helmert 2006).
#[derive(Drop)]
pub struct Tree {
    nodes: Seq<Node>,
    operators: Seq<u32>,
    /// The nodes that a walk has reached.
    reached: Vec<u32>,
}

impl Model for Tree {
    ghost use Rattle.std.specs.Prelude.{vec_capacity};
    ghost use Rattle.succ_gen.specs.Trees.{Stored};

    ghost Value = { Stored };

    ghost view = { λ t. record {
      nodes = t.nodes;
      operators = t.operators;
      room = vec_capacity t.reached;
    } };
}

impl Tree {
    /// The tree of a task's operators, in time that grows with the number of all preconditions
    /// times its logarithm.
    pub fn new(alloc: Global, task: &Task) -> Result<Tree, NoMemory>
        ensures { IfOk result (λ tree. IsFor tree task.now) }
    {
        let conditions = conditions_of(alloc, &task.parts().operators)?;
        let grown = grow(alloc, &conditions)?;
        let nodes = nodes_of(alloc, &grown.branches, &grown.homes)?;
        let operators = operators_of(alloc, &grown.homes)?;
        let reached = Vec::with_capacity(alloc, nodes.len())?;
        Ok(Tree {
            nodes: Seq::from(nodes),
            operators: Seq::from(operators),
            reached,
        })
    }

    /// Puts the operators that are applicable in a state into a list that has room for every
    /// operator, by their numbers and ascending. What was in it is gone.
    pub fn applicable_into(&mut self, task: &Task, state: &[u32], out: &mut Vec<u32>)
        requires same_task { IsFor self.old task.now }
        requires long { length state.now ≡ length task.now.variables }
        requires room { length task.now.operators ≤ vec_capacity out.old }
        ensures operators { out.new.items ≡ applicable task.now state.now }
        ensures room { vec_capacity out.new ≡ vec_capacity out.old }
        ensures same_task { IsFor self.new task.now }
    {
        walk(&self.nodes, &self.operators, state, &mut self.reached, out);
        out.sort_unstable();
        out.dedup();
    }
}
