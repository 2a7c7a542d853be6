// What becomes of searches, in plain numbers, by functions that promise nothing, so that the proof
// of a test has nothing to carry. Each big value is given up in a function of its own.
ghost use Rattle.std.specs.Prelude.{◌≡◌, true};
ghost use Rattle.search_log.specs.Phases.{IsSetting};

use crate::ff_guide::FfGuide;
use guide::{Blind, Guide};
use host_mem::MemClock;
use lama_num::Seq;
use lazy_search::{SearchEnd, search};
use sas_task::{CostKind, Task};
use search_log::{LimitHit, Log, Setting, Space};
use std::alloc::Global;
use std::process::Abort;
use std::test::Fail;
use test_tasks::task;

/// The end of a search, with the number of its pops.
#[derive(Clone, Copy, PartialEq, Eq)]
pub enum End {
    Plan {
        cost: u64,
        steps: usize,
        pops: usize,
    },
    Unsolvable {
        states: u32,
        pops: usize,
    },
    Unsolved {
        states: u32,
        pops: usize,
    },
    Limit {
        hit: LimitHit,
        pops: usize,
    },
    NoMemory,
}

fn pops(log: Log) -> usize {
    log.pops()
}

fn states(space: Space) -> u32 {
    space.len()
}

fn steps(ops: Seq<u32>) -> usize {
    ops.len()
}

fn plain(end: SearchEnd) -> End {
    match end {
        SearchEnd::Plan { ops, cost, log } => End::Plan {
            cost,
            steps: steps(ops),
            pops: pops(log),
        },
        SearchEnd::Unsolvable { space, log } => End::Unsolvable {
            states: states(space),
            pops: pops(log),
        },
        SearchEnd::Unsolved { space, log } => End::Unsolved {
            states: states(space),
            pops: pops(log),
        },
        SearchEnd::Limit { hit, log } => End::Limit {
            hit,
            pops: pops(log),
        },
        SearchEnd::NoMemory => End::NoMemory,
    }
}

/// A greedy phase without limits: operators count at their costs, nothing is visited again.
pub fn greedy() -> Setting {
    Setting {
        cost: CostKind::Normal,
        weight: None,
        reopen: false,
        boost: 1000,
        bound: None,
        most_pops: 1_099_511_627_776,
        most_states: 2_147_483_647,
        stop: None,
    }
}

/// What is asked may be.
fn may_be(setting: &Setting) -> bool
    ensures { result ≡ true → IsSetting setting.now }
{
    setting.weight.is_none()
        && setting.boost <= 1_000_000
        && setting.bound != Some(0)
        && setting.most_pops <= 1_099_511_627_776
        && setting.most_states > 0
        && setting.most_states <= 2_147_483_647
}

fn run<G: Guide + Drop>(
    alloc: Global,
    task: &Task,
    setting: &Setting,
    guide: G,
    clock: &mut MemClock,
) -> End
    requires setting { IsSetting setting.now }
    requires same_task { G.is_for guide task.now }
{
    let mut guide = guide;
    plain(search(alloc, task, setting, &mut guide, clock))
}

/// The end of a search with FF, under a clock.
fn searched_by(
    rt: &(impl Abort + AllocGlobal),
    task: &Task,
    setting: &Setting,
    clock: &mut MemClock,
) -> Result<End, Fail> {
    assert!(rt; may_be(setting));
    let guide = FfGuide::new(rt.alloc(), task, setting.cost)?;
    Ok(run(rt.alloc(), task, setting, guide, clock))
}

/// The end of a search with FF.
pub fn by_ff(rt: &(impl Abort + AllocGlobal), task: &Task, setting: &Setting) -> Result<End, Fail> {
    let mut clock = MemClock::new(Vec::new(rt.alloc()));
    searched_by(rt, task, setting, &mut clock)
}

/// The end of a search whose guide says nothing.
pub fn blind(rt: &(impl Abort + AllocGlobal), task: &Task, setting: &Setting) -> End {
    assert!(rt; may_be(setting));
    let mut clock = MemClock::new(Vec::new(rt.alloc()));
    run(rt.alloc(), task, setting, Blind, &mut clock)
}

/// The end of a search with FF of the task of a text.
pub fn searched(
    rt: &(impl Abort + AllocGlobal),
    text: &str,
    setting: &Setting,
) -> Result<End, Fail> {
    let task = task(rt.alloc(), text)?;
    by_ff(rt, &task, setting)
}

/// The same, under a clock.
pub fn timed(
    rt: &(impl Abort + AllocGlobal),
    text: &str,
    setting: &Setting,
    clock: &mut MemClock,
) -> Result<End, Fail> {
    let task = task(rt.alloc(), text)?;
    searched_by(rt, &task, setting, clock)
}
