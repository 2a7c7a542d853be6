// Steps and runs of a task.
ghost use Rattle.std.specs.Prelude.{◌≡◌, ◌<◌, ◌^◌, length, slice_index, EachIndex, IsTrue, IfOk};
ghost use Rattle.std.specs.Prelude.{Some};
ghost use Rattle.sas_task.specs.States.{step};
ghost use Rattle.sas_task.specs.Runs.{start_of, is_goal as goal_holds};
ghost use Rattle.state_step.specs.Stepper.{IsFor};
ghost use Rattle.state_step.specs.Steps.{is_applicable};
ghost use Rattle.state_step.specs.RunEnds.{Ends};

use crate::effects::write_changes;
use crate::runs::RunEnd;
use crate::tables::{Operators, tables_of};
use axiom_eval::Axioms;
use lama_num::NoMemory;
use sas_task::{Task, all_hold};
use std::alloc::Global;
use std::marker::Model;
use std::mem::swap;

/// What it takes to go from state to state of one task.
///
/// The task is given again at each call; it is the one for which the value was made. A state is a
/// slice with one value for each variable. Only `new` takes memory.
#[derive(Drop)]
pub struct Stepper {
    axioms: Axioms,
    operators: Operators,
}

impl Model for Stepper {
    ghost use Rattle.state_step.specs.Stepper.{Steps};

    ghost Value = { Steps };

    ghost view = { λ s. record { axioms = s.axioms; operators = s.operators } };
}

impl Stepper {
    /// The stepper of a task.
    pub fn new(alloc: Global, task: &Task) -> Result<Stepper, NoMemory>
        ensures { IfOk result (λ stepper. IsFor stepper task.now) }
    {
        let axioms = Axioms::new(alloc, task)?;
        let operators = tables_of(alloc, &task.parts().operators)?;
        Ok(Stepper { axioms, operators })
    }

    /// Makes the initial state.
    pub fn initial(&mut self, task: &Task, out: &mut [u32])
        requires same_task { IsFor self.old task.now }
        requires long { length out.old ≡ length task.now.variables }
        ensures state { out.new ≡ start_of task.now }
        ensures same_task { IsFor self.new task.now }
    {
        out.copy_from_slice(&task.parts().init);
        self.axioms.settle(task, out);
    }

    /// Whether an operator can be applied in a state.
    pub fn applicable(&self, task: &Task, state: &[u32], op: u32) -> bool
        requires same_task { IsFor self.now task.now }
        requires long { length state.now ≡ length task.now.variables }
        requires op { op < length task.now.operators }
        ensures { result ≡ is_applicable task.now state.now op }
    {
        all_hold(state, self.operators.pre.row(op as usize))
    }

    /// Makes the state after an operator that can be applied.
    pub fn apply_into(&mut self, task: &Task, state: &[u32], op: u32, out: &mut [u32])
        requires same_task { IsFor self.old task.now }
        requires long { length state.now ≡ length task.now.variables }
        requires applicable { IsTrue (is_applicable task.now state.now op) }
        requires out_long { length out.old ≡ length task.now.variables }
        ensures state { step task.now state.now op ≡ Some out.new }
        ensures same_task { IsFor self.new task.now }
    {
        let changes = self.operators.changes.row(op as usize);
        write_changes(state, &self.operators.conds, changes, out);
        self.axioms.settle(task, out);
    }

    /// Whether all goal facts hold in a state.
    pub fn is_goal(&self, task: &Task, state: &[u32]) -> bool
        requires same_task { IsFor self.now task.now }
        requires long { length state.now ≡ length task.now.variables }
        ensures { result ≡ goal_holds task.now state.now }
    {
        all_hold(state, &task.parts().goal)
    }

    /// Runs operators, by their numbers, from the initial state. What `one` and `two` hold
    /// afterwards isn't said.
    pub fn run_plan(&mut self, task: &Task, ops: &[u32], one: &mut [u32], two: &mut [u32]) -> RunEnd
        requires same_task { IsFor self.old task.now }
        requires ops { EachIndex ops.now (λ k. slice_index ops.now k < length task.now.operators) }
        requires few { length ops.now < 2 ^ 32 }
        requires one_long { length one.old ≡ length task.now.variables }
        requires two_long { length two.old ≡ length task.now.variables }
        ensures end { Ends task.now ops.now result }
        ensures same_task { IsFor self.new task.now }
    {
        let mut cost: u64 = 0;
        let mut here = one;
        let mut next = two;
        self.initial(task, here);
        for (i, op) in ops.iter().enumerate() {
            if !self.applicable(task, here, *op) {
                return RunEnd::NotApplicable { step: i as u32 + 1 };
            }
            self.apply_into(task, here, *op, next);
            swap(&mut here, &mut next);
            cost += u64::from(task.parts().operators[*op as usize].cost);
        }
        if self.is_goal(task, here) {
            RunEnd::Goal { cost }
        } else {
            RunEnd::NoGoal { cost }
        }
    }
}
