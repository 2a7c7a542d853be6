// Walks through the states of a delivery task.
ghost use Rattle.std.specs.Prelude.{◌≡◌, IfOk, IfSome, IsTrue};
ghost use Rattle.std.specs.List.{Contains};
ghost use Rattle.state_step.specs.Steps.{is_applicable};
ghost use Rattle.state_step.specs.Stepper.{IsFor as IsStepperFor};
ghost use Rattle.succ_gen.specs.Trees.{IsFor as IsTreeFor, applicable};
ghost use Rattle.search_bench.specs.Walks.{IsRoom};

use bench_tasks::{Costs, Failure, delivery};
use lama_num::NoMemory;
use sas_task::Task;
use state_step::Stepper;
use std::alloc::Global;
use std::mem::swap;
use succ_gen::Tree;

/// The state that a walk is in, with room for the next one and for the applicable operators.
#[derive(Drop)]
pub struct Room {
    pub here: Vec<u32>,
    pub next: Vec<u32>,
    pub applicable: Vec<u32>,
}

/// One of the operators, where there are any.
fn chosen(operators: &[u32], number: u32) -> Option<u32>
    ensures { IfSome result (λ op. Contains operators.now op) }
{
    let count = operators.len();
    if count == 0 {
        return None;
    }
    Some(operators[number as usize % count])
}

impl Room {
    fn new(alloc: Global, task: &Task) -> Result<Room, NoMemory>
        ensures { IfOk result (λ room. IsRoom room task.now) }
    {
        let variables = task.parts().variables.len();
        let here = vec![in alloc; 0; variables]?;
        let next = vec![in alloc; 0; variables]?;
        let applicable = Vec::with_capacity(alloc, task.parts().operators.len())?;
        Ok(Room {
            here,
            next,
            applicable,
        })
    }

    /// Finds the applicable operators.
    fn look(&mut self, tree: &mut Tree, task: &Task)
        requires tree { IsTreeFor tree.old task.now }
        requires room { IsRoom self.old task.now }
        ensures tree { IsTreeFor tree.new task.now }
        ensures room { IsRoom self.new task.now }
        ensures found { self.new.applicable.items ≡ applicable task.now self.new.here.items }
    {
        tree.applicable_into(task, &self.here, &mut self.applicable);
    }

    /// Goes on by an applicable operator.
    fn go_on(&mut self, stepper: &mut Stepper, task: &Task, op: u32)
        requires stepper { IsStepperFor stepper.old task.now }
        requires room { IsRoom self.old task.now }
        requires applicable { IsTrue (is_applicable task.now self.old.here.items op) }
        ensures stepper { IsStepperFor stepper.new task.now }
        ensures room { IsRoom self.new task.now }
    {
        stepper.apply_into(task, &self.here, op, &mut self.next);
        swap(&mut self.here, &mut self.next);
    }

    /// A step by one of the applicable operators, and how many there were.
    fn step(&mut self, tree: &mut Tree, stepper: &mut Stepper, task: &Task, number: u32) -> usize
        requires tree { IsTreeFor tree.old task.now }
        requires stepper { IsStepperFor stepper.old task.now }
        requires room { IsRoom self.old task.now }
        ensures tree { IsTreeFor tree.new task.now }
        ensures stepper { IsStepperFor stepper.new task.now }
        ensures room { IsRoom self.new task.now }
    {
        self.look(tree, task);
        let count = self.applicable.len();
        if let Some(op) = chosen(&self.applicable, number) {
            self.go_on(stepper, task, op);
        }
        count
    }
}

/// A number for a step: they are scattered.
fn scattered(step: u32) -> u32 {
    step.wrapping_mul(2_654_435_761) >> 8
}

/// How many operators were applicable at so many steps together.
fn walk_on(room: &mut Room, tree: &mut Tree, stepper: &mut Stepper, task: &Task, steps: u32) -> u64
    requires tree { IsTreeFor tree.old task.now }
    requires stepper { IsStepperFor stepper.old task.now }
    requires room { IsRoom room.old task.now }
{
    let mut applicable = 0u64;
    for step in 0..steps {
        let count = room.step(tree, stepper, task, scattered(step));
        applicable = applicable.wrapping_add(count as u64);
    }
    applicable
}

/// A walk that begins in the initial state.
fn walk_from_start(
    alloc: Global,
    tree: &mut Tree,
    stepper: &mut Stepper,
    task: &Task,
    steps: u32,
) -> Result<u64, NoMemory>
    requires tree { IsTreeFor tree.old task.now }
    requires stepper { IsStepperFor stepper.old task.now }
{
    let mut room = Room::new(alloc, task)?;
    stepper.initial(task, &mut room.here);
    Ok(walk_on(&mut room, tree, stepper, task, steps))
}

fn walk_by_tree(alloc: Global, tree: &mut Tree, task: &Task, steps: u32) -> Result<u64, NoMemory>
    requires { IsTreeFor tree.old task.now }
{
    match Stepper::new(alloc, task) {
        Ok(mut stepper) => walk_from_start(alloc, tree, &mut stepper, task, steps),
        Err(NoMemory) => Err(NoMemory),
    }
}

fn walk_through(alloc: Global, task: &Task, steps: u32) -> Result<u64, NoMemory> {
    match Tree::new(alloc, task) {
        Ok(mut tree) => walk_by_tree(alloc, &mut tree, task, steps),
        Err(NoMemory) => Err(NoMemory),
    }
}

/// Walks through the delivery task of so many packages. Tells how many operators were applicable
/// at all steps together.
pub fn walk_delivery(alloc: Global, packages: u32, steps: u32) -> Result<u64, Failure> {
    let costs = Costs {
        least: 1,
        greatest: 1,
    };
    match delivery(alloc, costs, packages) {
        Ok(task) => Ok(walk_through(alloc, &task, steps)?),
        Err(error) => Err(error),
    }
}
