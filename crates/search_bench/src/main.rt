//! Counts by which the crates below a search are timed: `search_bench KIND SIZE ROUNDS ..`.
//!
//! Each three words are a job. `lists` puts four entries a round under SIZE keys into open lists
//! and takes them out again, `intern` looks three times for each of ROUNDS states of SIZE words,
//! `walk` takes ROUNDS steps in the delivery task of SIZE packages, and `settle` settles ROUNDS
//! states of a task with SIZE layers of a hundred rules. It prints a count for each, which is the
//! same in each run: of the entries that came out, the states that were known, the applicable
//! operators of all steps, and the variables that are 1 at the end. What a round takes is the
//! difference of two runs.
#![tactic(auto)]

mod interning;
mod listing;
mod settling;
mod walking;

use bench_tasks::Failure;
use interning::look_three_times;
use listing::go_through;
use settling::settle_layers;
use std::alloc::Global;
use std::env;
use std::io::Print;
use std::rt::Env;
use walking::walk_delivery;

/// What a job is about.
#[derive(Clone, Copy)]
enum Kind {
    Lists,
    Intern,
    Walk,
    Settle,
}

#[derive(Clone, Copy)]
struct Job {
    kind: Kind,
    size: u32,
    rounds: u32,
}

fn kind_of(word: &str) -> Option<Kind> {
    match word {
        "lists" => Some(Kind::Lists),
        "intern" => Some(Kind::Intern),
        "walk" => Some(Kind::Walk),
        "settle" => Some(Kind::Settle),
        _ => None,
    }
}

fn number(word: &str) -> Option<u32> {
    word.parse().ok()
}

/// The job that three words from a place on make.
fn job_at(words: &[String], place: usize) -> Option<Job> {
    Some(Job {
        kind: kind_of(words.get(place)?.as_str())?,
        size: number(words.get(place.saturating_add(1))?.as_str())?,
        rounds: number(words.get(place.saturating_add(2))?.as_str())?,
    })
}

fn name(kind: Kind) -> &'static str {
    match kind {
        Kind::Lists => "lists",
        Kind::Intern => "intern",
        Kind::Walk => "walk",
        Kind::Settle => "settle",
    }
}

/// The count of a job.
fn count(alloc: Global, job: Job) -> Result<u64, Failure> {
    match job.kind {
        Kind::Lists => go_through(alloc, job.size, job.rounds),
        Kind::Intern => look_three_times(alloc, job.size, job.rounds),
        Kind::Walk => walk_delivery(alloc, job.size, job.rounds),
        Kind::Settle => settle_layers(alloc, job.size, job.rounds),
    }
}

fn run(rt: &(impl Print + AllocGlobal), job: Job) -> Result<(), Failure> {
    let count = count(rt.alloc(), job)?;
    println!(rt; "{} {} {}: {count}", name(job.kind), job.size, job.rounds)?;
    Ok(())
}

/// Runs the job that three words from a place on make.
fn run_at(rt: &(impl Print + AllocGlobal), words: &[String], place: usize) -> Result<(), Failure> {
    match job_at(words, place) {
        Some(job) => run(rt, job),
        None => Err(Failure::Words),
    }
}

fn run_all(rt: &(impl Print + AllocGlobal), words: &[String]) -> Result<(), Failure> {
    for number in 0..words.len() / 3 {
        run_at(rt, words, number.saturating_mul(3).saturating_add(1))?;
    }
    Ok(())
}

fn words(rt: &(impl Env + AllocGlobal)) -> Result<Vec<String>, Failure> {
    Ok(env::args(rt)?.collect(rt.alloc())?)
}

fn main(rt: HostRuntime) -> Result<(), Failure> {
    let words = words(&rt)?;
    run_all(&rt, &words)
}
