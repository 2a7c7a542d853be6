//! Times the estimates of the relaxation: `relaxation_bench PACKAGES ADDITIVE FF LEAST GREATEST`.
//!
//! It makes the delivery task of so many packages, with operators that cost from the least to the
//! greatest, evaluates the initial state so many times by the additive estimate and so many times
//! by FF, and prints the size of the task and the estimates. What one evaluation takes is the
//! difference of two runs.
#![tactic(auto)]

use bench_tasks::{Costs, Failure, delivery};
use h_add::Add;
use h_ff::Ff;
use lama_num::Estimate;
use sas_task::{CostKind, Task};
use std::alloc::Global;
use std::env;
use std::io::{self, Print};
use std::rt::Env;

/// What is measured: a size, how many evaluations, and what operators cost.
#[derive(Clone, Copy)]
struct Measured {
    packages: u32,
    additive: u32,
    ff: u32,
    costs: Costs,
}

/// A word of the command line as a number, where it is one.
fn number(words: &[String], place: usize) -> Option<u32> {
    words.get(place)?.as_str().parse().ok()
}

fn work(words: &[String]) -> Option<Measured> {
    Some(Measured {
        packages: number(words, 1)?,
        additive: number(words, 2)?,
        ff: number(words, 3)?,
        costs: Costs {
            least: number(words, 4)?,
            greatest: number(words, 5)?,
        },
    })
}

/// The additive estimate of the initial state, evaluated so many times.
fn additive(alloc: Global, task: &Task, times: u32) -> Result<Estimate, Failure> {
    let mut add = Add::new(alloc, task, CostKind::Normal)?;
    for _ in 0..times {
        add.evaluate(&task.parts().init);
    }
    Ok(add.goal_value())
}

/// The FF estimate of the initial state, evaluated so many times.
fn ff(alloc: Global, task: &Task, times: u32) -> Result<Estimate, Failure> {
    let mut ff = Ff::new(alloc, task, CostKind::Normal)?;
    let mut value = Estimate::Infinite;
    for _ in 0..times {
        value = ff.evaluate(task, &task.parts().init);
    }
    Ok(value)
}

/// The cost; the largest number in place of an infinite one.
fn plain(estimate: Estimate) -> u32 {
    match estimate {
        Estimate::Finite(cost) => cost,
        Estimate::Infinite => u32::MAX,
    }
}

fn print_estimates(
    rt: &impl Print,
    operators: usize,
    additive: u32,
    ff: u32,
) -> Result<(), io::Error> {
    println!(rt; "operators {operators}, additive {additive}, ff {ff}")
}

fn measure_on(rt: &(impl Print + AllocGlobal), task: &Task, work: Measured) -> Result<(), Failure> {
    let operators = task.parts().operators.len();
    let additive = additive(rt.alloc(), task, work.additive)?;
    let ff = ff(rt.alloc(), task, work.ff)?;
    Ok(print_estimates(rt, operators, plain(additive), plain(ff))?)
}

fn measure(rt: &(impl Print + AllocGlobal), work: Measured) -> Result<(), Failure> {
    match delivery(rt.alloc(), work.costs, work.packages) {
        Ok(task) => measure_on(rt, &task, work),
        Err(error) => Err(error),
    }
}

fn words(rt: &(impl Env + AllocGlobal)) -> Result<Vec<String>, Failure> {
    Ok(env::args(rt)?.collect(rt.alloc())?)
}

fn main(rt: HostRuntime) -> Result<(), Failure> {
    match work(&words(&rt)?) {
        Some(work) => measure(&rt, work),
        None => Err(Failure::Words),
    }
}
