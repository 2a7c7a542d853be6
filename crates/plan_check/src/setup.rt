// What is made once for a task.
ghost use Rattle.std.specs.Prelude.{◌≡◌, if◌then◌else◌};
ghost use Rattle.std.specs.List.{list_any};
ghost use Rattle.plan_check.specs.Choices.{has_name};
ghost use Rattle.plan_check.specs.Walking.{IsSetup};
ghost use Rattle.plan_check.specs.declared.verdicts.PlanFault.TheVariants.{NotApplicable};
ghost use Rattle.plan_check.specs.declared.verdicts.PlanFault.TheVariants.{NoOperator};

use crate::names::ByName;
use crate::verdicts::PlanFault;
use packed_state::Layout;
use sas_task::Task;
use std::alloc::Global;

/// A task, its operators by their names, and the layout of its packed states; and where memory
/// comes from.
#[derive(Drop)]
pub struct Setup<'a> {
    pub alloc: Global,
    pub task: &'a Task,
    pub by_name: ByName<'a>,
    pub layout: Layout,
}

impl<'a> Setup<'a> {
    /// What is wrong at a step for whose name no operator can be taken.
    pub fn no_candidate(&self, name: &[u8], step: u32) -> PlanFault
        requires { IsSetup self.now }
        ensures { result ≡ (if list_any (has_name name.now) self.now.task.now.operators
            then NotApplicable step else NoOperator step) }
    {
        if self.by_name.has(&self.task.parts().operators, name) {
            PlanFault::NotApplicable { step }
        } else {
            PlanFault::NoOperator { step }
        }
    }
}
