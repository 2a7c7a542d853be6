// What a run tells and leaves, as plain values, by functions that promise nothing, so that the
// proof of a test has nothing to carry. Each big value is given up in a function of its own.
ghost use Rattle.std.specs.Prelude.{◌≡◌, []};
ghost use Rattle.host_mem.specs.Memory.{told_of};

use crate::folders::{File, folder, has_all};
use driver_run::{Candidate, Ended, EntryEnd, Found, Outcome, Past, Report, Why, run};
use host_mem::{HostCall, MemClock, MemHost, MemSink};
use lama_num::NoMemory;
use sas_task::Kept;
use search_log::LimitHit;
use std::alloc::{AllocError, Global};

/// A run: its words, the task that the folder holds as `t.sas`, the call of the folder that fails,
/// and what must stand in the folder afterwards.
#[derive(Clone, Copy)]
pub struct Case<'a> {
    pub words: &'a [&'a str],
    pub task: Option<&'a str>,
    pub failing: Option<(HostCall, u32)>,
    pub files: &'a [File<'a>],
}

/// How the one entry of a run ended.
#[derive(Clone, Copy, PartialEq)]
pub enum End {
    /// The run has no entry that ended.
    Never,
    Best,
    Unsolvable { states: u32 },
    Unsolved,
    Over,
    Limit(LimitHit),
    NoMemory,
}

/// What a run tells: why it ended and with which code, how many plans it kept, with the costs and
/// the candidates of the first two; how its entry ended, after how many phases, the pops of the
/// first three of them, and of all; when the run began, and its entry; and whether the files are as
/// they must be.
#[derive(Clone, Copy, PartialEq)]
pub struct Told {
    pub why: Why,
    pub code: u8,
    pub kept: usize,
    pub costs: [Option<u64>; 2],
    pub candidates: [Option<Candidate>; 2],
    pub start: u64,
    pub began: u64,
    pub end: End,
    pub phases: u32,
    pub pops: [usize; 3],
    pub all_pops: u64,
    pub is_left_so: bool,
}

fn end_of(outcome: &Outcome) -> End {
    match outcome {
        Outcome::Best { .. } => End::Best,
        Outcome::Unsolvable { space, .. } => End::Unsolvable {
            states: space.len(),
        },
        Outcome::Unsolved { .. } => End::Unsolved,
        Outcome::Over => End::Over,
        Outcome::Limit { hit, .. } => End::Limit(*hit),
        Outcome::NoMemory => End::NoMemory,
    }
}

fn past_pops(past: &Past) -> usize {
    match past {
        Past::Plan { log, .. } => log.pops(),
        Past::Unsolved { log, .. } => log.pops(),
    }
}

fn last_pops(outcome: &Outcome) -> usize {
    match outcome {
        Outcome::Best { log, .. } => log.pops(),
        Outcome::Unsolvable { log, .. } => log.pops(),
        Outcome::Unsolved { log, .. } => log.pops(),
        Outcome::Limit { log, .. } => log.pops(),
        Outcome::Over | Outcome::NoMemory => 0,
    }
}

/// The pops of the phase at a place.
fn pops_at(end: &EntryEnd, place: usize) -> usize {
    let past = end.past.as_slice();
    match past.get(place) {
        Some(past) => past_pops(past),
        None if place == past.len() => last_pops(&end.outcome),
        None => 0,
    }
}

fn cost_at(kept: &[Kept], place: usize) -> Option<u64> {
    match kept.get(place) {
        Some(kept) => Some(kept.cost),
        None => None,
    }
}

fn candidate_at(candidates: &[Candidate], place: usize) -> Option<Candidate> {
    match candidates.get(place) {
        Some(candidate) => Some(*candidate),
        None => None,
    }
}

/// What is told without an entry.
fn told_before(report: &Report) -> Told {
    let kept = report.kept.as_slice();
    let candidates = report.candidates.as_slice();
    Told {
        why: report.why,
        code: report.code,
        kept: kept.len(),
        costs: [cost_at(kept, 0), cost_at(kept, 1)],
        candidates: [candidate_at(candidates, 0), candidate_at(candidates, 1)],
        start: report.start,
        began: 0,
        end: End::Never,
        phases: 0,
        pops: [0; 3],
        all_pops: 0,
        is_left_so: false,
    }
}

fn told_of_entry(told: Told, end: &EntryEnd) -> Told {
    Told {
        began: end.began,
        end: end_of(&end.outcome),
        phases: end.phases,
        pops: [pops_at(end, 0), pops_at(end, 1), pops_at(end, 2)],
        all_pops: end.pops,
        ..told
    }
}

fn told_in(report: &Report) -> Told {
    let told = told_before(report);
    match report.ends.as_slice() {
        [end] => told_of_entry(told, end),
        _ => told,
    }
}

fn told_at(ended: &Ended) -> Result<Told, NoMemory> {
    match ended {
        Ended::Done(report) => Ok(told_in(report)),
        Ended::NoMemory => Err(NoMemory),
    }
}

fn told_by(ended: Ended) -> Result<Told, NoMemory> {
    told_at(&ended)
}

/// A run at the moments 7 and 9.
fn run_at(
    alloc: Global,
    words: &[String],
    times: Vec<u64>,
    host: &mut MemHost,
) -> Result<Told, NoMemory>
    requires { (told_of host.old).busy ≡ [] }
{
    let mut clock = MemClock::new(times);
    let mut out = MemSink::new(alloc, None);
    told_by(run(alloc, words, host, &mut clock, &mut out))
}

fn words_of(alloc: Global, words: &[&str]) -> Result<Vec<String>, AllocError> {
    let mut all = Vec::new(alloc);
    for word in words {
        all.push(String::from_str(alloc, word)?)?;
    }
    Ok(all)
}

fn moments(alloc: Global) -> Result<Vec<u64>, AllocError> {
    let mut times = Vec::new(alloc);
    times.push(7)?;
    times.push(9)?;
    Ok(times)
}

fn run_by(alloc: Global, words: &[&str], host: &mut MemHost) -> Result<Told, NoMemory>
    requires { (told_of host.old).busy ≡ [] }
{
    let words = words_of(alloc, words)?;
    let times = moments(alloc)?;
    run_at(alloc, &words, times, host)
}

fn with_files(told: Result<Told, NoMemory>, is_left_so: bool) -> Result<Told, NoMemory> {
    let told = told?;
    Ok(Told { is_left_so, ..told })
}

fn run_over(alloc: Global, host: MemHost, case: &Case<'_>) -> Result<Told, NoMemory>
    requires { (told_of host).busy ≡ [] }
{
    let mut host = host;
    let told = run_by(alloc, case.words, &mut host);
    let is_left_so = has_all(&host, case.files);
    with_files(told, is_left_so)
}

/// What a run tells and leaves.
pub fn tell(alloc: Global, case: &Case<'_>) -> Result<Told, NoMemory> {
    match folder(alloc, case.task, case.failing) {
        Ok(host) => run_over(alloc, host, case),
        Err(AllocError) => Err(NoMemory),
    }
}

/// What the run of these words on a task tells and leaves, where no call of the folder fails.
pub fn tell_of(
    alloc: Global,
    words: &[&str],
    task: &str,
    files: &[File<'_>],
) -> Result<Told, NoMemory> {
    let case = Case {
        words,
        task: Some(task),
        failing: None,
        files,
    };
    tell(alloc, &case)
}

/// What is told of a run that came to no entry, and left all as it must be.
pub fn stopped(why: Why, code: u8) -> Told {
    Told {
        why,
        code,
        kept: 0,
        costs: [None; 2],
        candidates: [None; 2],
        start: 7,
        began: 0,
        end: End::Never,
        phases: 0,
        pops: [0; 3],
        all_pops: 0,
        is_left_so: true,
    }
}

/// What is told of a run to its end without a plan.
pub fn finished(code: u8, end: End, phases: u32, pops: [usize; 3], all_pops: u64) -> Told {
    Told {
        began: 9,
        end,
        phases,
        pops,
        all_pops,
        ..stopped(Why::Finished, code)
    }
}

/// The candidate of this process that is kept at a place.
pub fn own(index: u32) -> Option<Candidate> {
    Some(Candidate {
        round: 1,
        entry: 1,
        file: None,
        found: Found::Kept { index },
    })
}

/// What is told of a run that kept one plan, and ended in Best.
pub fn solved(cost: u64, phases: u32, pops: [usize; 3], all_pops: u64) -> Told {
    Told {
        kept: 1,
        costs: [Some(cost), None],
        candidates: [own(0), None],
        ..finished(0, End::Best, phases, pops, all_pops)
    }
}
