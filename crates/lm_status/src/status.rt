// The status of landmarks.
ghost use Rattle.std.specs.Prelude.{◌≡◌, ◌+◌, min, ◌<◌, ◌≤◌, ◌&&◌, ◌∷◌, ◌++◌, [], ℕ, List, length};
ghost use Rattle.std.specs.Prelude.{not, true, false, slice_index, slice_get, Some, vec_len};
ghost use Rattle.std.specs.Prelude.{vec_capacity, IfOk};
ghost use Rattle.std.specs.List.{list_any, list_all};
ghost use Rattle.sas_task.specs.States.{holds as fact_holds, all_hold as every_holds};
ghost use Rattle.sas_task.specs.States.{fires as effect_fires};
ghost use Rattle.bit_rows.specs.Rows.{has as has_bit};
ghost use Rattle.lm_status.specs.Accepted.{facts_of, holds_at, opens, accepted_next, before_of};
ghost use Rattle.lm_status.specs.Estimates.{is_open as open_at, is_goal_at, after_of};
ghost use Rattle.lm_status.specs.Estimates.{landmark_estimate};
ghost use Rattle.lm_status.specs.Preferred.{is_next as next_at, is_wanted as wanted};
ghost use Rattle.lm_status.specs.Preferred.{leads_on as op_leads_on, landmark_preferred};
ghost use Rattle.lm_status.specs.Rows.{words_of, StandsFor};
ghost use Rattle.lm_status.specs.Statuses.{IsStatusOf};
ghost use Rattle.lama_num.specs.declared.estimates.TheConstants.{LARGEST_ESTIMATE};
ghost use Rattle.lm_graph.specs.declared.graph.TheConstants.{MOST_NODES};

use crate::making::{Charts, put_weights};
use bit_rows::{clear, has, put, words_for};
use lama_num::{LARGEST_ESTIMATE, NoMemory, Rows};
use lm_graph::{FactTable, Graph};
use sas_task::{CostKind, Effect, Fact, Task};
use std::alloc::Global;
use std::marker::Model;

/// Which landmarks are accepted along a path, by rows of bits, and what that says of its last
/// state.
///
/// A landmark is accepted once it holds while all its predecessors were accepted before. Only `new`
/// takes memory. After Richter and Westphal, "The LAMA planner" (2010).
#[derive(Drop)]
pub struct Status {
    graph: Graph,
    facts: Rows<Fact>,
    /// The predecessors of each node.
    before: Rows<u32>,
    /// The nodes that each node is to hold directly before.
    after: Rows<u32>,
    goals: Vec<bool>,
    weights: Vec<u64>,
    /// The nodes that have a fact.
    table: FactTable,
}

impl Model for Status {
    ghost use Rattle.lm_status.specs.Statuses.{Charted, AreTables};

    ghost Value = { Charted };

    ghost view = { λ s. record { graph = s.graph; weights = s.weights.items } };

    ghost invariant = { λ s. AreTables s.graph s.facts s.before s.after s.goals.items
        s.weights.items s.table };
}

/// Whether a fact holds in a state.
fn holds(state: &[u32], fact: &Fact) -> bool
    ensures { result ≡ fact_holds state.now fact.now }
{
    match state.get(fact.var as usize) {
        Some(value) => *value == fact.val,
        None => fact.val == 0,
    }
}

fn all_hold(state: &[u32], facts: &[Fact]) -> bool
    ensures { result ≡ every_holds state.now facts.now }
{
    facts.iter().all(|fact| holds(state, fact))
}

/// A sum of weights, at most 1,000,000,000.
fn add_capped(sum: u64, weight: u64) -> u64
    ensures { result ≡ min (sum + weight) LARGEST_ESTIMATE }
{
    sum.saturating_add(weight).min(u64::from(LARGEST_ESTIMATE))
}

fn any_holds(state: &[u32], facts: &[Fact]) -> bool
    ensures { result ≡ list_any (fact_holds state.now) facts.now }
{
    facts.iter().any(|fact| holds(state, fact))
}

fn has_all(row: &[u64], nodes: &[u32]) -> bool
    ensures { result ≡ list_all (has_bit row.now) nodes.now }
{
    nodes.iter().all(|node| has(row, *node as usize))
}

fn lacks_some(row: &[u64], nodes: &[u32]) -> bool
    ensures { result ≡ list_any (λ m. not (has_bit row.now m)) nodes.now }
{
    nodes.iter().any(|node| !has(row, *node as usize))
}

impl Status {
    /// The status of a graph of landmarks of a task, whose nodes weigh the least cost of an
    /// operator that gives one of their facts, by a kind of cost. A node that no operator gives
    /// weighs nothing.
    pub fn new(alloc: Global, task: &Task, graph: Graph, kind: CostKind) -> Result<Status, NoMemory>
        ensures { IfOk result (IsStatusOf task.now graph kind) }
    {
        let Charts {
            facts,
            before,
            after,
            goals,
            weights,
            table,
        } = Charts::new(alloc, task, &graph, kind)?;
        Ok(Status {
            graph,
            facts,
            before,
            after,
            goals,
            weights,
            table,
        })
    }

    /// Makes its weights those of a kind of cost. The graph stays, and what rows stand for too.
    pub fn reweigh(&mut self, task: &Task, kind: CostKind)
        ensures { IsStatusOf task.now self.old.graph kind self.new }
    {
        put_weights(task, kind, self.graph.nodes(), &mut self.weights);
    }

    /// How many nodes there are.
    fn count(&self) -> usize
        ensures count { result ≡ length self.now.graph.nodes }
        ensures few { result ≤ MOST_NODES }
    {
        self.graph.nodes().len()
    }

    /// How many words a row has.
    pub fn row_words(&self) -> usize
        ensures words { result ≡ words_of self.now.graph }
        ensures few { result ≤ 1024 }
    {
        words_for(self.count())
    }

    fn facts(&self, node: usize) -> &[Fact]
        requires { node < length self.now.graph.nodes }
        ensures { result.now ≡ facts_of self.now.graph.nodes node }
    {
        self.facts.row(node)
    }

    fn before(&self, node: usize) -> &[u32]
        requires { node < length self.now.graph.nodes }
        ensures { result.now ≡ before_of self.now.graph node }
    {
        self.before.row(node)
    }

    /// Whether a node is to hold directly before one that isn't in the row.
    fn leads_to_new(&self, row: &[u64], node: usize) -> bool
        requires { node < length self.now.graph.nodes }
        ensures { result ≡ list_any (λ m. not (has_bit row.now m)) (after_of self.now.graph node) }
    {
        lacks_some(row, self.after.row(node))
    }

    fn is_goal(&self, node: usize) -> bool
        requires { node < length self.now.graph.nodes }
        ensures { result ≡ is_goal_at self.now.graph.nodes node }
    {
        self.goals[node]
    }

    fn weight(&self, node: usize) -> u64
        requires { node < length self.now.graph.nodes }
        ensures { result ≡ slice_index self.now.weights node }
    {
        self.weights[node]
    }

    fn node_holds(&self, state: &[u32], node: usize) -> bool
        requires { node < length self.now.graph.nodes }
        ensures { result ≡ holds_at self.now.graph state.now node }
    {
        any_holds(state, self.facts(node))
    }

    /// Whether a node isn't in the row of the parent, and is accepted now.
    fn is_new(&self, parent: &[u64], state: &[u32], node: usize) -> bool
        requires { node < length self.now.graph.nodes }
        ensures { result ≡ (not (has_bit parent.now node)
            && opens self.now.graph (has_bit parent.now) state.now node) }
    {
        !has(parent, node) && self.node_holds(state, node) && has_all(parent, self.before(node))
    }

    /// Adds the nodes that are accepted in a state.
    fn accept(&self, parent: &[u64], state: &[u32], out: &mut [u64])
        requires words { length out.old ≡ words_of self.now.graph }
        requires same { (node : ℕ) → has_bit out.old node ≡ has_bit parent.now node }
        ensures { (node : ℕ) → has_bit out.new node
            ≡ accepted_next self.now.graph (has_bit parent.now) state.now node }
    {
        for node in 0..self.count() {
            if self.is_new(parent, state, node) {
                put(out, node);
            }
        }
    }

    /// Makes the row of a path that has one state.
    pub fn first_into(&self, state: &[u32], out: &mut [u64])
        requires { length out.old ≡ words_of self.now.graph }
        ensures { StandsFor self.now.graph out.new (state.now ∷ []) }
    {
        clear(out);
        self.accept(&[], state, out);
    }

    /// Makes the row of a path that goes on by a state, from the row of the path so far.
    pub fn progress_into(&self, parent: &[u64], state: &[u32], out: &mut [u64])
        requires words { length out.old ≡ words_of self.now.graph }
        requires parent_words { length parent.now ≡ words_of self.now.graph }
        ensures { (states : List (List ℕ)) → StandsFor self.now.graph parent.now states →
            StandsFor self.now.graph out.new (states ++ state.now ∷ []) }
    {
        out.copy_from_slice(parent);
        self.accept(parent, state, out);
    }

    /// Whether a node isn't accepted, or is required again.
    fn is_open(&self, row: &[u64], state: &[u32], node: usize) -> bool
        requires { node < length self.now.graph.nodes }
        ensures { result ≡ open_at self.now.graph (has_bit row.now) state.now node }
    {
        !has(row, node)
            || (!self.node_holds(state, node)
                && (self.is_goal(node) || self.leads_to_new(row, node)))
    }

    /// The sum of the weights of the nodes that aren't accepted or are required again, at most
    /// 1,000,000,000.
    pub fn estimate(&self, row: &[u64], state: &[u32]) -> u32
        ensures { result
            ≡ landmark_estimate self.now.graph self.now.weights (has_bit row.now) state.now }
    {
        let mut sum: u64 = 0;
        for node in 0..self.count() {
            if self.is_open(row, state, node) {
                sum = add_capped(sum, self.weight(node));
            }
        }
        sum as u32
    }

    /// Whether a node isn't accepted, while all its predecessors are.
    fn is_next(&self, row: &[u64], node: usize) -> bool
        requires { node < length self.now.graph.nodes }
        ensures { result ≡ next_at self.now.graph (has_bit row.now) node }
    {
        !has(row, node) && has_all(row, self.before(node))
    }

    /// Whether one of some nodes is so.
    fn some_is_next(&self, row: &[u64], nodes: &[u32]) -> bool
        requires { (place : ℕ) → (node : ℕ) → slice_get nodes.now place ≡ Some node →
            node < length self.now.graph.nodes }
        ensures { result ≡ list_any (next_at self.now.graph (has_bit row.now)) nodes.now }
    {
        for node in nodes {
            if self.is_next(row, *node as usize) {
                return true;
            }
        }
        false
    }

    /// Whether a fact is one of some such node.
    fn is_wanted(&self, row: &[u64], fact: Fact) -> bool
        ensures { result ≡ wanted self.now.graph (has_bit row.now) fact }
    {
        self.some_is_next(row, self.table.numbers(fact))
    }

    fn effect_leads_on(&self, row: &[u64], state: &[u32], effect: &Effect) -> bool
        ensures { result ≡ (effect_fires state.now effect.now
            && wanted self.now.graph (has_bit row.now) effect.now.fact) }
    {
        all_hold(state, &effect.conds) && self.is_wanted(row, effect.fact)
    }

    fn some_leads_on(&self, row: &[u64], state: &[u32], effects: &[Effect]) -> bool
        ensures { result ≡ list_any (λ e. effect_fires state.now e
            && wanted self.now.graph (has_bit row.now) e.fact) effects.now }
    {
        for effect in effects {
            if self.effect_leads_on(row, state, effect) {
                return true;
            }
        }
        false
    }

    /// Whether an effect of an operator that fires gives a fact of a node that isn't accepted,
    /// while all its predecessors are.
    pub fn leads_on(&self, task: &Task, row: &[u64], state: &[u32], op: u32) -> bool
        ensures { result
            ≡ op_leads_on task.now self.now.graph (has_bit row.now) state.now op }
    {
        match task.parts().operators.as_slice().get(op as usize) {
            Some(operator) => self.some_leads_on(row, state, &operator.effects),
            None => false,
        }
    }

    /// Makes the list of the applicable operators that lead on so.
    pub fn preferred_into(
        &self,
        task: &Task,
        row: &[u64],
        state: &[u32],
        applicable: &[u32],
        out: &mut Vec<u32>,
    )
        requires { length applicable.now ≤ vec_capacity out.old }
        ensures preferred { out.new.items ≡ landmark_preferred task.now self.now.graph
            (has_bit row.now) state.now applicable.now }
        ensures room { vec_capacity out.old ≤ vec_capacity out.new }
    {
        out.clear();
        for op in applicable {
            if self.leads_on(task, row, state, *op) {
                out.push_reserved(*op);
            }
        }
    }
}
