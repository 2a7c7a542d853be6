// The operators that can be taken for a name.
ghost use Rattle.std.specs.Prelude.{◌≡◌, length, OnOk};
ghost use Rattle.state_step.specs.Stepper.{IsFor};
ghost use Rattle.plan_check.specs.Choices.{candidates};
ghost use Rattle.plan_check.specs.Names.{IsIndexOf};

use crate::names::ByName;
use sas_task::Task;
use state_step::Stepper;
use std::alloc::AllocError;

/// Puts into `out` the operators that have a name and are applicable in a state, ascending. What
/// `out` holds where memory is wanting isn't said.
pub fn candidates_into(
    task: &Task,
    by_name: &ByName,
    stepper: &Stepper,
    state: &[u32],
    name: &[u8],
    out: &mut Vec<u32>,
) -> Result<(), AllocError>
    requires index { IsIndexOf by_name.now task.now.operators }
    requires same_task { IsFor stepper.now task.now }
    requires long { length state.now ≡ length task.now.variables }
    ensures { OnOk result (out.new.items ≡ candidates task.now state.now name.now) }
{
    out.clear();
    let mut at = by_name.first.get(name).copied();
    while let Some(op) = at {
        if stepper.applicable(task, state, op) {
            out.push(op)?;
        }
        at = by_name.next[op as usize];
    }
    Ok(())
}
