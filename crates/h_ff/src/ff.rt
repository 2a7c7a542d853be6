// The FF estimate.
ghost use Rattle.std.specs.Prelude.{◌≡◌, ℕ, List, [], length, false, Some, IfOk};
ghost use Rattle.sas_task.specs.Runs.{end_of, is_goal};
ghost use Rattle.sas_task.specs.States.{IsState};
ghost use Rattle.relaxed_task.specs.Relaxations.{IsRelaxed};
ghost use Rattle.h_add.specs.Values.{IsEvaluated};
ghost use Rattle.h_ff.specs.RelaxedPlans.{IsFf};

use crate::keep::find;
use crate::operators::{cost, prefer};
use crate::plan::RelaxedPlan;
use h_add::Add;
use lama_num::{Estimate, NoMemory};
use sas_task::{CostKind, Task};
use std::alloc::Global;
use std::marker::Model;

/// The FF estimate of the states of one task.
///
/// `relaxed_plan` and `preferred` speak of the state that was evaluated last. Only `new` takes
/// memory. A relaxed plan is made from best supporters, unary operators that give a fact for what
/// it costs by the additive estimate: those by which the facts were settled there, as far as they
/// are needed.
///
/// The estimate is that of Hoffmann and Nebel, "The FF planning system" (2001), with the supporters
/// of the additive estimate as in Keyder and Geffner, "Heuristics for planning with action costs
/// revisited" (2008).
#[derive(Drop)]
pub struct Ff {
    add: Add,
    kind: CostKind,
    plan: RelaxedPlan,
}

impl Model for Ff {
    ghost use Rattle.h_ff.specs.Ready.{Planner};
    ghost use Rattle.h_ff.specs.Places.{HasPlaces};

    ghost Value = { Planner };

    ghost view = { λ f. record {
      relaxed = f.add.relaxed;
      costs = f.add.costs;
      kind = f.kind;
      plan = f.plan.operators.items;
      preferred = f.plan.preferred.items;
    } };

    ghost invariant = { λ f. HasPlaces f.add.relaxed.facts f.plan };
}

impl Ff {
    /// The evaluator of a task, with operators that cost what a kind of cost says.
    pub fn new(alloc: Global, task: &Task, kind: CostKind) -> Result<Ff, NoMemory>
        ensures task { IfOk result (λ ff. IsRelaxed task.now kind ff.relaxed) }
        ensures kind { IfOk result (λ ff. ff.kind ≡ kind) }
        ensures plan { IfOk result (λ ff. ff.plan ≡ []) }
        ensures preferred { IfOk result (λ ff. ff.preferred ≡ []) }
    {
        let add = Add::new(alloc, task, kind)?;
        let plan = RelaxedPlan::new(alloc, add.relaxed().facts() as usize)?;
        Ok(Ff { add, kind, plan })
    }

    /// The estimate of a state of the task: what the operators of a relaxed plan cost together,
    /// each once, at most 1,000,000,000. Infinite where the state is dead: then no operators lead
    /// from it to a state where the goal holds.
    pub fn evaluate(&mut self, task: &Task, state: &[u32]) -> Estimate
        requires { length state.now ≡ length task.now.variables }
        ensures task { self.new.relaxed ≡ self.old.relaxed }
        ensures kind { self.new.kind ≡ self.old.kind }
        ensures answer { IsRelaxed task.now self.old.kind self.old.relaxed →
            IsState task.now.variables state.now →
            IsFf task.now self.old.kind state.now result self.new.plan self.new.preferred }
        ensures costs { IsRelaxed task.now self.old.kind self.old.relaxed →
            IsState task.now.variables state.now →
            IsEvaluated task.now self.old.kind state.now [] self.new.costs }
        ensures safe { (ops last : List ℕ) → IsRelaxed task.now self.old.kind self.old.relaxed →
            IsState task.now.variables state.now →
            result ≡ Estimate.Infinite → end_of task.now state.now ops ≡ Some last →
            is_goal task.now last ≡ false }
    {
        let plan = &mut self.plan;
        plan.operators.clear();
        plan.preferred.clear();
        self.add.evaluate(state);
        if self.add.is_dead() {
            return Estimate::Infinite;
        }
        find(
            self.add.relaxed(),
            self.add.order(),
            &mut plan.marks,
            &mut plan.operators,
        );
        prefer(task, state, &plan.operators, &mut plan.preferred);
        Estimate::Finite(cost(task, self.kind, &plan.operators))
    }

    /// The additive estimate of the state that was evaluated last: a search with both guides
    /// evaluates a state once.
    pub fn additive(&self) -> &Add
        ensures task { result.now.relaxed ≡ self.now.relaxed }
        ensures costs { result.now.costs ≡ self.now.costs }
    {
        &self.add
    }

    /// The operators of the relaxed plan, ascending, each once; none where the state is dead.
    pub fn relaxed_plan(&self) -> &[u32]
        ensures { result.now ≡ self.now.plan }
    {
        &self.plan.operators
    }

    /// Those operators of the relaxed plan that are applicable in the state, ascending.
    pub fn preferred(&self) -> &[u32]
        ensures { result.now ≡ self.now.preferred }
    {
        &self.plan.preferred
    }
}
