// The evaluator.
ghost use Rattle.std.specs.Prelude.{◌≡◌, [], ℕ, List, IfOk, IsTrue, ◌↔◌, Some, false, length, ◌≤◌};
ghost use Rattle.std.specs.List.{list_all};
ghost use Rattle.sas_task.specs.declared.contents.CostKind.{CostKind as TheKind};
ghost use Rattle.sas_task.specs.declared.contents.Parts.{Parts};
ghost use Rattle.sas_task.specs.Runs.{end_of, is_goal};
ghost use Rattle.sas_task.specs.States.{IsState};
ghost use Rattle.sas_task.specs.WellFormed.{is_fact};
ghost use Rattle.sas_task.specs.declared.contents.Fact.{Fact as TheFact};
ghost use Rattle.relaxed_task.specs.AdditiveCosts.{IsAdditiveCost, IsGoalValue};
ghost use Rattle.relaxed_task.specs.Numbers.{number_of, numbers_of};
ghost use Rattle.h_add.specs.ByNumber.{start_facts};
ghost use Rattle.relaxed_task.specs.Estimates.{is_finite};
ghost use Rattle.relaxed_task.specs.Reached.{IsDead, IsReached};
ghost use Rattle.relaxed_task.specs.Relaxations.{IsRelaxed};
ghost use Rattle.relaxed_task.specs.Relaxing.{sum_of};
ghost use Rattle.h_add.specs.Orders.{IsOrder, are_places};
ghost use Rattle.h_add.specs.Values.{value_at, IsEvaluated, IsEvaluatedByNumber, IsValueOfGoals};

use crate::network::Network;
use crate::settling::Settling;
use crate::sums::{estimate, total, value_of};
use lama_num::{Estimate, NoMemory};
use relaxed_task::Relaxed;
use sas_task::{CostKind, Fact, Task};
use std::alloc::Global;
use std::marker::Model;

/// The additive estimate of the states of one task.
///
/// `value`, `goal_value`, `is_dead` and `order` speak of the state that was evaluated last. Only
/// `new` takes memory.
///
/// The facts of the state are settled first, at no cost, and then one after the other the cheapest
/// of those that a unary operator with settled conditions gives: the generalized Dijkstra search of
/// Liu, Koenig and Furcy, "Speeding up the calculation of heuristics for heuristic search-based
/// planning" (2002).
#[derive(Drop)]
pub struct Add {
    network: Network,
    settling: Settling,
}

impl Model for Add {
    ghost use Rattle.h_add.specs.UnderWay.{IsReady};
    ghost use Rattle.h_add.specs.Values.{Evaluator};

    ghost Value = { Evaluator };

    ghost view = { λ a. record {
      relaxed = a.network;
      costs = a.settling.costs;
      order = a.settling.order;
    } };

    ghost invariant = { λ a. IsReady a.network a.settling };
}

impl Add {
    /// The evaluator of a task, with operators that cost what a kind of cost says.
    pub fn new(alloc: Global, task: &Task, kind: CostKind) -> Result<Add, NoMemory>
        ensures { IfOk result (λ add. IsRelaxed task.now kind add.relaxed) }
    {
        let relaxed = Relaxed::new(alloc, task, kind)?;
        let facts = relaxed.facts() as usize;
        let unaries = relaxed.unary().len();
        let network = Network::new(alloc, relaxed)?;
        let settling = Settling::new(alloc, facts, unaries)?;
        Ok(Add { network, settling })
    }

    /// The relaxation of the task.
    pub fn relaxed(&self) -> &Relaxed
        ensures { result.now ≡ self.now.relaxed }
    {
        self.network.relaxed()
    }

    /// Evaluates a state, which has one value for each variable.
    pub fn evaluate(&mut self, state: &[u32])
        ensures task { self.new.relaxed ≡ self.old.relaxed }
        ensures costs { (parts : Parts) (kind : TheKind) → IsRelaxed parts kind self.old.relaxed →
            IsState parts.variables state.now →
            IsEvaluated parts kind state.now [] self.new.costs }
        ensures numbers { (parts : Parts) (kind : TheKind) → IsRelaxed parts kind self.old.relaxed →
            IsState parts.variables state.now →
            IsEvaluatedByNumber parts kind state.now [] self.new.costs }
        ensures order { (parts : Parts) (kind : TheKind) → IsRelaxed parts kind self.old.relaxed →
            IsState parts.variables state.now →
            IsOrder self.new.relaxed.unaries (start_facts parts state.now) (value_at self.new.costs)
            self.new.order }
    {
        self.settling.evaluate(&self.network, state, &[]);
    }

    /// Evaluates a state without some facts: they are neither among those that are reached at
    /// first, nor does any unary operator give them.
    pub fn evaluate_without(&mut self, state: &[u32], excluded: &[Fact])
        ensures task { self.new.relaxed ≡ self.old.relaxed }
        ensures costs { (parts : Parts) (kind : TheKind) → IsRelaxed parts kind self.old.relaxed →
            IsState parts.variables state.now →
            IsTrue (list_all (is_fact parts.variables) excluded.now) →
            IsEvaluated parts kind state.now excluded.now self.new.costs }
        ensures numbers { (parts : Parts) (kind : TheKind) → IsRelaxed parts kind self.old.relaxed →
            IsState parts.variables state.now →
            IsTrue (list_all (is_fact parts.variables) excluded.now) →
            IsEvaluatedByNumber parts kind state.now (numbers_of parts.variables excluded.now)
            self.new.costs }
    {
        self.settling.evaluate(&self.network, state, excluded);
    }

    /// The value of a state alone: the sum of what the goal facts cost, each once.
    ///
    /// It stops where all goal facts are settled, so that what other facts cost isn't known
    /// afterwards.
    pub fn evaluate_goal(&mut self, state: &[u32]) -> Estimate
        ensures task { self.new.relaxed ≡ self.old.relaxed }
        ensures value { (parts : Parts) (kind : TheKind) → IsRelaxed parts kind self.old.relaxed →
            IsState parts.variables state.now →
            IsValueOfGoals parts kind state.now result }
        ensures dead { (parts : Parts) (kind : TheKind) → IsRelaxed parts kind self.old.relaxed →
            IsState parts.variables state.now →
            ((result ≡ Estimate.Infinite) ↔ IsDead parts state.now) }
    {
        self.settling.evaluate_goals(&self.network, state);
        self.goal_sum()
    }

    /// What a fact costs.
    pub fn value(&self, fact: Fact) -> Estimate
        ensures cost { (parts : Parts) (kind : TheKind) (state : List ℕ) (without : List TheFact) →
            IsRelaxed parts kind self.now.relaxed →
            IsEvaluated parts kind state without self.now.costs →
            IsTrue (is_fact parts.variables fact) →
            IsAdditiveCost parts kind state without fact result }
        ensures finite { (parts : Parts) (kind : TheKind) (state : List ℕ) (without : List TheFact)
            → IsRelaxed parts kind self.now.relaxed →
            IsEvaluated parts kind state without self.now.costs →
            IsTrue (is_fact parts.variables fact) →
            (IsTrue (is_finite result) ↔ IsReached parts state without fact) }
    {
        let number = self.network.relaxed().number(fact.var as usize, fact.val);
        value_of(self.settling.costs(), number)
    }

    /// What the facts cost, by their numbers in the relaxation. A cost above 1,000,000,000 is
    /// infinite.
    pub fn costs(&self) -> &[u32]
        ensures costs { result.now ≡ self.now.costs }
        ensures long { length result.now ≡ self.now.relaxed.facts }
        ensures reached { (parts : Parts) (kind : TheKind) (state : List ℕ)
            (without : List TheFact) → IsRelaxed parts kind self.now.relaxed →
            IsEvaluated parts kind state without self.now.costs →
            (fact : TheFact) → IsTrue (is_fact parts.variables fact) →
            (IsTrue (is_finite (value_at result.now (number_of parts.variables fact))) ↔
            IsReached parts state without fact) }
    {
        self.settling.costs()
    }

    /// The unary operators that settled a fact, by their places in the relaxation, in order.
    pub fn order(&self) -> &[u32]
        ensures order { result.now ≡ self.now.order }
        ensures places { IsTrue (are_places (length self.now.relaxed.unaries) result.now) }
        ensures few { length result.now ≤ self.now.relaxed.facts }
    {
        self.settling.order()
    }

    /// The sum of the costs that are kept of the goal facts.
    fn goal_sum(&self) -> Estimate
        ensures { result ≡ sum_of (value_at self.now.costs) self.now.relaxed.goals }
    {
        estimate(total(self.settling.costs(), self.network.relaxed().goals()))
    }

    /// The sum of what the goal facts cost, each once. It is finite where all of them are reached,
    /// and then at most 1,000,000,000.
    pub fn goal_value(&self) -> Estimate
        ensures value { (parts : Parts) (kind : TheKind) (state : List ℕ) (without : List TheFact) →
            IsRelaxed parts kind self.now.relaxed →
            IsEvaluated parts kind state without self.now.costs →
            IsGoalValue parts kind state without result }
        ensures dead { (parts : Parts) (kind : TheKind) (state : List ℕ) →
            IsRelaxed parts kind self.now.relaxed →
            IsEvaluated parts kind state [] self.now.costs →
            ((result ≡ Estimate.Infinite) ↔ IsDead parts state) }
    {
        self.goal_sum()
    }

    /// Whether some goal fact is never reached. Then no operators lead to a state where the goal
    /// holds.
    #[tactic(auto, using(crate::proofs::EvaluatedLaws::dead_of_all))]
    pub fn is_dead(&self) -> bool
        ensures exact { (parts : Parts) (kind : TheKind) (state : List ℕ) →
            IsRelaxed parts kind self.now.relaxed →
            IsEvaluated parts kind state [] self.now.costs → (IsTrue result ↔ IsDead parts state) }
        ensures safe { (parts : Parts) (kind : TheKind) (state ops last : List ℕ) →
            IsRelaxed parts kind self.now.relaxed →
            IsEvaluated parts kind state [] self.now.costs → IsTrue result →
            end_of parts state ops ≡ Some last → is_goal parts last ≡ false }
    {
        match self.goal_sum() {
            Estimate::Infinite => true,
            Estimate::Finite(_) => false,
        }
    }
}
