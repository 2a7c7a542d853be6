// The evaluator of derived variables.
ghost use Rattle.std.specs.Prelude.{◌≡◌, IfOk, length};
ghost use Rattle.sas_task.specs.States.{settled};
ghost use Rattle.axiom_eval.specs.Axioms.{IsFor};

use crate::building::{derived_of, rules_of};
use crate::settling::{reset_derived, settle_layers};
use crate::tables::{Derived, Rules};
use lama_num::{NoMemory, Seq};
use sas_task::Task;
use std::alloc::Global;
use std::marker::Model;

/// What it takes to settle the derived variables of one task's states.
///
/// The task is given again at each call; it is the one for which the value was made.
#[derive(Drop)]
pub struct Axioms {
    derived: Seq<Derived>,
    rules: Rules,
    /// Variables that were given and not looked at yet; none between two calls.
    waiting: Vec<u32>,
}

impl Model for Axioms {
    ghost use Rattle.std.specs.Prelude.{vec_capacity};
    ghost use Rattle.axiom_eval.specs.Axioms.{Tables};

    ghost Value = { Tables };

    ghost view = { λ a. record {
      derived = a.derived;
      rules = a.rules;
      waiting = a.waiting.items;
      room = vec_capacity a.waiting;
    } };
}

impl Axioms {
    /// The evaluator for a task. Takes all the memory that settling needs.
    pub fn new(alloc: Global, task: &Task) -> Result<Axioms, NoMemory>
        ensures { IfOk result (λ axioms. IsFor axioms task.now) }
    {
        let parts = task.parts();
        let derived = Seq::from(derived_of(alloc, parts)?);
        let rules = rules_of(alloc, parts)?;
        let waiting = Vec::with_capacity(alloc, parts.variables.len())?;
        Ok(Axioms {
            derived,
            rules,
            waiting,
        })
    }

    /// Settles values, one for each variable: derived variables get their defaults and then what
    /// the rules give, layer by layer upwards; the others stay. Takes no memory.
    pub fn settle(&mut self, task: &Task, values: &mut [u32])
        requires same_task { IsFor self.old task.now }
        requires long { length values.old ≡ length task.now.variables }
        ensures values { values.new ≡ settled task.now values.old }
        ensures same_task { IsFor self.new task.now }
    {
        if self.derived.is_empty() {
            return;
        }
        let parts = task.parts();
        reset_derived(parts, &self.derived, values);
        settle_layers(parts, &self.rules, values, &mut self.waiting);
    }
}
