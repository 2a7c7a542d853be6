// From state to state of a task.
ghost use Rattle.std.specs.Prelude.{◌≡◌, ◌<◌, ◌^◌, ℕ, List, length, slice_get, IfOk, OnOk, IsTrue};
ghost use Rattle.std.specs.Prelude.{Some};
ghost use Rattle.sas_task.specs.States.{step as the_step};
ghost use Rattle.sas_task.specs.Runs.{start_of, is_goal as goal_holds, cost_at};
ghost use Rattle.state_step.specs.Steps.{is_applicable};
ghost use Rattle.plan_check.specs.Choices.{candidates};
ghost use Rattle.plan_check.specs.Layers.{AreEnds, IsEnd};
ghost use Rattle.plan_check.specs.Walking.{IsSetup, IsWalker};

use crate::candidates::candidates_into;
use crate::layers::Layer;
use crate::setup::Setup;
use lama_num::NoMemory;
use sas_task::{CostKind, Task};
use state_step::Stepper;
use std::alloc::{AllocError, Global};
use std::mem::swap;

/// The stepper of a task, with room for the state that it is in, for a next one, and for the
/// operators that can be taken.
#[derive(Drop)]
pub struct Walker {
    pub stepper: Stepper,
    pub here: Vec<u32>,
    pub next: Vec<u32>,
    pub candidates: Vec<u32>,
}

impl Walker {
    /// What steps of a task are followed with, in the initial state.
    pub fn new(alloc: Global, task: &Task) -> Result<Walker, NoMemory>
        ensures { IfOk result (λ walker. IsWalker walker task.now) }
    {
        let variables = task.parts().variables.len();
        let here = vec![in alloc; 0; variables]?;
        let next = vec![in alloc; 0; variables]?;
        let candidates = Vec::new(alloc);
        let stepper = Stepper::new(alloc, task)?;
        Ok(Walker {
            stepper,
            here,
            next,
            candidates,
        })
    }

    /// Begins in the initial state.
    pub fn begin(&mut self, task: &Task)
        requires { IsWalker self.old task.now }
        ensures ready { IsWalker self.new task.now }
        ensures here { self.new.here.items ≡ start_of task.now }
    {
        self.stepper.initial(task, &mut self.here);
    }

    /// Looks which operators have a name and can be taken. What `candidates` holds where memory is
    /// wanting isn't said.
    pub fn find_candidates(&mut self, setup: &Setup, name: &[u8]) -> Result<(), AllocError>
        requires made { IsSetup setup.now }
        requires ready { IsWalker self.old setup.now.task.now }
        ensures ready { IsWalker self.new setup.now.task.now }
        ensures here { self.new.here ≡ self.old.here }
        ensures found { OnOk result (self.new.candidates.items
            ≡ candidates setup.now.task.now self.new.here.items name.now) }
    {
        candidates_into(
            setup.task,
            &setup.by_name,
            &self.stepper,
            &self.here,
            name,
            &mut self.candidates,
        )
    }

    /// Makes the next state by an operator that can be taken, and tells what it costs.
    pub fn make_next(&mut self, task: &Task, op: u32) -> u64
        requires ready { IsWalker self.old task.now }
        requires applicable { IsTrue (is_applicable task.now self.old.here.items op) }
        ensures ready { IsWalker self.new task.now }
        ensures here { self.new.here ≡ self.old.here }
        ensures candidates { self.new.candidates ≡ self.old.candidates }
        ensures next { the_step task.now self.old.here.items op ≡ Some self.new.next.items }
        ensures cost { result ≡ cost_at task.now op }
        ensures low { result < 2 ^ 32 }
    {
        self.stepper
            .apply_into(task, &self.here, op, &mut self.next);
        u64::from(task.adjusted_cost(op, CostKind::Normal))
    }

    /// Goes on by an operator that can be taken, and tells what it costs.
    pub fn apply(&mut self, task: &Task, op: u32) -> u64
        requires ready { IsWalker self.old task.now }
        requires applicable { IsTrue (is_applicable task.now self.old.here.items op) }
        ensures ready { IsWalker self.new task.now }
        ensures here { the_step task.now self.old.here.items op ≡ Some self.new.here.items }
        ensures cost { result ≡ cost_at task.now op }
        ensures low { result < 2 ^ 32 }
    {
        let cost = self.make_next(task, op);
        swap(&mut self.here, &mut self.next);
        cost
    }

    /// Goes to the state of a pair, and tells the pair's cost.
    pub fn restore(&mut self, setup: &Setup, layer: &Layer, place: usize) -> u64
        requires made { IsSetup setup.now }
        requires ready { IsWalker self.old setup.now.task.now }
        requires place { place < length layer.now }
        requires ends { (choices : List (List ℕ)) ×
            AreEnds setup.now.task.now setup.now.layout layer.now choices }
        ensures ready { IsWalker self.new setup.now.task.now }
        ensures end { (choices : List (List ℕ)) (choice : List ℕ) →
            AreEnds setup.now.task.now setup.now.layout layer.now choices →
            slice_get choices place ≡ Some choice →
            IsEnd setup.now.task.now choice self.new.here.items result }
    {
        layer.unpack(&setup.layout, place, &mut self.here)
    }

    /// Whether it is in a goal state.
    pub fn is_goal(&self, task: &Task) -> bool
        requires { IsWalker self.now task.now }
        ensures { result ≡ goal_holds task.now self.now.here.items }
    {
        self.stepper.is_goal(task, &self.here)
    }
}
