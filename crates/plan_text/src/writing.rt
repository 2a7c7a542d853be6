// The text of a plan.
ghost use Rattle.std.specs.Prelude.{◌≡◌, ◌<◌, ◌^◌, ◌++◌, length, slice_index, EachIndex, IfOk};
ghost use Rattle.std.specs.Prelude.{OnOk};
ghost use Rattle.plan_text.specs.PlanText.{kind_of_cost as the_kind, step_line, cost_line};
ghost use Rattle.plan_text.specs.PlanText.{plan_text};

use itoa::Buffer;
use lama_num::NoMemory;
use sas_task::{CostKind, Task};
use std::alloc::{AllocError, Global};

fn kind_of_cost(unit: bool) -> &'static [u8]
    ensures { result.now ≡ the_kind unit }
{
    if unit {
        b" (unit cost)\n"
    } else {
        b" (general cost)\n"
    }
}

fn push_step(text: &mut Vec<u8>, name: &[u8]) -> Result<(), AllocError>
    ensures { OnOk result (text.new.items ≡ text.old.items ++ step_line name.now) }
{
    text.extend_from_slice(b"(")?;
    text.extend_from_slice(name)?;
    text.extend_from_slice(b")\n")
}

fn push_cost(text: &mut Vec<u8>, unit: bool, cost: u64) -> Result<(), AllocError>
    ensures { OnOk result (text.new.items ≡ text.old.items ++ cost_line unit cost) }
{
    let mut buffer = Buffer::new();
    text.extend_from_slice(b"; cost = ")?;
    text.extend_from_slice(buffer.format(cost).as_bytes())?;
    text.extend_from_slice(kind_of_cost(unit))
}

/// The text of a plan file: a line for each step, and one that tells the cost.
pub fn write(alloc: Global, task: &Task, ops: &[u32]) -> Result<Vec<u8>, NoMemory>
    requires ops { EachIndex ops.now (λ k. slice_index ops.now k < length task.now.operators) }
    requires few { length ops.now < 2 ^ 32 }
    ensures { IfOk result (λ text. text.items ≡ plan_text task.now ops.now) }
{
    let operators = &task.parts().operators;
    let mut text = Vec::new(alloc);
    let mut cost: u64 = 0;
    for op in ops {
        push_step(&mut text, &operators[*op as usize].name)?;
        cost += u64::from(task.adjusted_cost(*op, CostKind::Normal));
    }
    push_cost(&mut text, task.is_unit_cost(), cost)?;
    Ok(text)
}
