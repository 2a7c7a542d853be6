// The judge.
ghost use Rattle.std.specs.Prelude.{◌≡◌, ◌≤◌, Some, length, option_map, IfOk};
ghost use Rattle.lama_num.specs.Gives.{Gives};
ghost use Rattle.plan_text.specs.PlanLines.{plan_lines_of};
ghost use Rattle.plan_check.specs.GoodPlans.{IsJudged, HasFewSteps};
ghost use Rattle.plan_check.specs.Refusals.{fault_of};
ghost use Rattle.plan_check.specs.Verdicts.{as_text, compared, plan_in as the_plan_in};
ghost use Rattle.plan_check.specs.Verdicts.{plan_of as the_plan, verdict_of};
ghost use Rattle.plan_text.specs.declared.reading.TheConstants.{MOST_PLAN_BYTES};

use crate::choosing::{Chosen, choose};
use crate::refusals::Refusal;
use crate::verdicts::{PlanFault, Verdict};
use lama_num::{NoMemory, Seq};
use plan_text::{PlanLines, PlanTextError, lines};
use sas_task::Task;
use std::alloc::Global;

/// A plan, and what it costs.
#[derive(Drop)]
struct Plan {
    ops: Vec<u32>,
    cost: u64,
}

fn read(alloc: Global, bytes: &[u8]) -> Result<PlanLines, Refusal>
    ensures lines { Gives fault_of (λ lines. lines) result (as_text (plan_lines_of bytes.now)) }
    ensures few { IfOk result (λ lines. length lines.names ≤ MOST_PLAN_BYTES) }
{
    match lines(alloc, bytes) {
        Ok(lines) => Ok(lines),
        Err(PlanTextError::Bad(fault)) => Err(Refusal::Bad(PlanFault::Text(fault))),
        Err(PlanTextError::NoMemory) => Err(Refusal::NoMemory),
    }
}

/// Compares what lines tell with what the choices of operators lead to, and the cost with the
/// bound.
fn compare(
    unit: bool,
    chosen: Chosen,
    bound: Option<u64>,
    lines: &PlanLines,
) -> Result<Vec<u32>, PlanFault>
    ensures { Gives Some (λ ops. ops.items) result
        (compared unit chosen.least (option_map (λ ops. ops.items) chosen.plan) bound lines.now) }
{
    let Some(real) = chosen.least else {
        return Err(PlanFault::NoGoal);
    };
    if lines.unit != unit {
        return Err(PlanFault::WrongKind);
    }
    let Some(ops) = chosen.plan else {
        return Err(PlanFault::WrongCost { real });
    };
    match bound {
        Some(bound) if lines.cost >= bound => Err(PlanFault::NotCheaper {
            real: lines.cost,
            bound,
        }),
        _ => Ok(ops),
    }
}

/// The plan that lines tell.
fn plan_in(
    alloc: Global,
    task: &Task,
    lines: &PlanLines,
    bound: Option<u64>,
) -> Result<Plan, Refusal>
    requires { length lines.now.names ≤ MOST_PLAN_BYTES }
    ensures plan { Gives fault_of (λ plan. (plan.ops.items, plan.cost)) result
        (the_plan_in task.now bound lines.now) }
    ensures few { IfOk result (λ plan. length plan.ops.items ≤ MOST_PLAN_BYTES) }
{
    let chosen = choose(alloc, task, &lines.names, lines.cost)?;
    let ops = compare(task.is_unit_cost(), chosen, bound, lines)?;
    let cost = lines.cost;
    Ok(Plan { ops, cost })
}

#[tactic(auto, unfolding(crate::specs::Verdicts::plan_of))]
fn plan_of(alloc: Global, task: &Task, bytes: &[u8], bound: Option<u64>) -> Result<Plan, Refusal>
    ensures plan { Gives fault_of (λ plan. (plan.ops.items, plan.cost)) result
        (the_plan task.now bound bytes.now) }
    ensures few { IfOk result (λ plan. length plan.ops.items ≤ MOST_PLAN_BYTES) }
{
    let lines = read(alloc, bytes)?;
    plan_in(alloc, task, &lines, bound)
}

/// The verdict on the bytes of a plan file.
///
/// The bytes may be any. Names are found by an index that is made once. As long as one operator can
/// be taken for each name, the time grows with the bytes, the steps and the task; from the first
/// name on for which there are several, with the number of different pairs of last state and cost
/// after each step. These have a limit, as have those of all steps together.
#[tactic(auto, unfolding(crate::specs::Verdicts::verdict_of))]
pub fn judge(
    alloc: Global,
    task: &Task,
    bytes: &[u8],
    bound: Option<u64>,
) -> Result<Verdict, NoMemory>
    // The first verdict that applies.
    ensures exact { IfOk result (λ verdict. verdict ≡ verdict_of task.now bytes.now bound) }
    // Where it is good, the bytes are the text of a plan of that cost.
    ensures good { IfOk result (λ verdict. IsJudged task.now bytes.now bound verdict) }
    // There are no more steps than a text may have bytes.
    ensures few { IfOk result (λ verdict. HasFewSteps verdict) }
{
    match plan_of(alloc, task, bytes, bound) {
        Ok(plan) => Ok(Verdict::Good {
            ops: Seq::from(plan.ops),
            cost: plan.cost,
        }),
        Err(Refusal::Bad(fault)) => Ok(Verdict::Bad(fault)),
        Err(Refusal::NoMemory) => Err(NoMemory),
    }
}
