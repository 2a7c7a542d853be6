// What FF answers, as plain numbers, by functions that promise nothing, so that the proof of a test
// has nothing to carry. Each big value is given up in a function of its own, at one place.
use h_ff::Ff;
use lama_num::{Estimate, NoMemory};
use sas_task::{CostKind, Task};
use std::alloc::{AllocError, Global};
use std::process::Abort;

/// In place of an infinite estimate.
pub const NEVER: u32 = 4_294_967_295;

/// Between the relaxed plan and the preferred operators.
pub const AND: u32 = 99;

fn plain(estimate: Estimate) -> u32 {
    match estimate {
        Estimate::Finite(cost) => cost,
        Estimate::Infinite => NEVER,
    }
}

fn push_all(answers: &mut Vec<u32>, more: &[u32]) -> Result<(), AllocError> {
    for number in more {
        answers.push(*number)?;
    }
    Ok(())
}

fn evaluated(rt: &impl Abort, ff: &mut Ff, task: &Task, state: &[u32]) -> u32 {
    assert!(rt; state.len() == task.parts().variables.len());
    plain(ff.evaluate(task, state))
}

fn push_told(answers: &mut Vec<u32>, ff: &Ff, estimate: u32) -> Result<(), AllocError> {
    answers.push(plain(ff.additive().goal_value()))?;
    answers.push(estimate)?;
    push_all(answers, ff.relaxed_plan())?;
    answers.push(AND)?;
    push_all(answers, ff.preferred())
}

fn told(alloc: Global, ff: &Ff, estimate: u32) -> Result<Vec<u32>, NoMemory> {
    let mut answers = Vec::new(alloc);
    push_told(&mut answers, ff, estimate)?;
    Ok(answers)
}

fn answers_of(
    rt: &(impl Abort + AllocGlobal),
    task: &Task,
    state: &[u32],
) -> Result<Vec<u32>, NoMemory> {
    let mut ff = Ff::new(rt.alloc(), task, CostKind::Normal)?;
    let estimate = evaluated(rt, &mut ff, task, state);
    told(rt.alloc(), &ff, estimate)
}

/// The additive estimate of a state, that of FF, the operators of its relaxed plan, and those that
/// are preferred.
pub fn answers(
    rt: &(impl Abort + AllocGlobal),
    task: Task,
    state: &[u32],
) -> Result<Vec<u32>, NoMemory> {
    answers_of(rt, &task, state)
}
