// What a guide says in the first visits of a search, as plain numbers, by functions that promise
// nothing. Each big value is given up in a function of its own.
ghost use Rattle.conf_text.specs.Accepted.{IsConfig, IsPhase};
ghost use Rattle.search_log.specs.Phases.{IsSetting};

use conf_text::{Config, Phase, read};
use guide::Guide;
use host_mem::MemClock;
use lama_num::NoMemory;
use lazy_search::{SearchEnd, search};
use phase_guide::guide;
use sas_task::{CostKind, Task};
use search_log::{Log, Setting, VisitAt};
use std::alloc::{AllocError, Global};
use test_tasks::read_task;

/// Between the estimates and the preferred operators of a state, and behind them.
pub const AND: u32 = 99;

fn push_all(answers: &mut Vec<u32>, more: &[u32]) -> Result<(), AllocError> {
    for number in more {
        answers.push(*number)?;
    }
    answers.push(AND)?;
    Ok(())
}

// Whether the state is dead, its three estimates, and the preferred operators.
fn push_visit(answers: &mut Vec<u32>, visit: VisitAt<'_>) -> Result<(), AllocError> {
    answers.push(visit.dead as u32)?;
    push_all(answers, &visit.estimates)?;
    push_all(answers, visit.preferred)
}

fn told_in(alloc: Global, log: &Log) -> Result<Vec<u32>, NoMemory> {
    let mut answers = Vec::new(alloc);
    for number in 0..log.visits() {
        push_visit(&mut answers, log.visit(number))?;
    }
    Ok(answers)
}

fn told_by(alloc: Global, log: Log) -> Result<Vec<u32>, NoMemory> {
    told_in(alloc, &log)
}

fn log_of(alloc: Global, end: SearchEnd) -> Log {
    match end {
        SearchEnd::Plan { log, .. } => log,
        SearchEnd::Unsolvable { log, .. } => log,
        SearchEnd::Unsolved { log, .. } => log,
        SearchEnd::Limit { log, .. } => log,
        SearchEnd::NoMemory => Log::new(alloc),
    }
}

/// A greedy search that takes one entry.
fn one_pop() -> Setting
    ensures { IsSetting result }
{
    Setting {
        cost: CostKind::Normal,
        weight: None,
        reopen: false,
        boost: 1000,
        bound: None,
        most_pops: 1,
        most_states: 2_147_483_647,
        stop: None,
    }
}

fn searched<G: Guide>(alloc: Global, task: &Task, guide: &mut G) -> Result<Vec<u32>, NoMemory>
    requires { G.is_for guide.old task.now }
{
    let mut clock = MemClock::new(Vec::new(alloc));
    let end = search(alloc, task, &one_pop(), guide, &mut clock);
    told_by(alloc, log_of(alloc, end))
}

fn answers_of(alloc: Global, task: &Task, phase: &Phase) -> Result<Vec<u32>, NoMemory>
    requires { IsPhase phase.now }
{
    match guide(alloc, task, phase) {
        Ok(made) => {
            let mut made = made;
            let answers = searched(alloc, task, &mut made);
            made.release();
            answers
        }
        Err(NoMemory) => Err(NoMemory),
    }
}

fn answers_by(alloc: Global, task: &Task, config: &Config) -> Option<Vec<u32>>
    requires { IsConfig config.now }
{
    match config.phases.as_slice().first() {
        Some(phase) => answers_of(alloc, task, phase).ok(),
        None => None,
    }
}

fn answers_in(alloc: Global, task: &Task, config: &str) -> Option<Vec<u32>> {
    match read(alloc, config) {
        Ok(config) => answers_by(alloc, task, &config),
        Err(_) => None,
    }
}

fn told_of(alloc: Global, text: &str, config: &str) -> Option<Vec<u32>> {
    match read_task(alloc, text) {
        Some(task) => answers_in(alloc, &task, config),
        None => None,
    }
}

/// Whether the guide of the first phase of a configuration says this of the initial state, and of
/// the state behind the first entry that is taken.
pub fn answers_are(alloc: Global, text: &str, config: &str, want: &[u32]) -> bool {
    match told_of(alloc, text, config) {
        Some(answers) => answers.as_slice() == want,
        None => false,
    }
}
