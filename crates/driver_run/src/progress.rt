// What a run keeps from turn to turn, and what the search of a turn has done.
ghost use Rattle.std.specs.Prelude.{◌≡◌, ◌+◌, ◌<◌, ◌≤◌, ◌^◌, ◌++◌, ◌∷◌, [], IfOk, OnOk, length};
ghost use Rattle.std.specs.Prelude.{vec_len, vec_capacity};
ghost use Rattle.driver_core.specs.Standing.{StandsFor};
ghost use Rattle.driver_run.specs.Requests.{setting_of};
ghost use Rattle.run_report.specs.declared.report.EntryEnd.{EntryEnd as TheEnd};

use candidates::Candidate;
use driver_core::Core;
use lama_num::{NoMemory, Seq};
use run_report::{EntryEnd, Outcome, Past};
use sas_task::Kept;
use search_log::Log;
use std::alloc::Global;

/// The number of the one round.
pub const ROUND: u32 = 1;

/// The number of the one entry.
pub const ENTRY: u32 = 1;

/// What a run keeps: the core, the plans, all candidates for them, and the ends of its turns.
#[derive(Drop)]
pub struct Progress {
    pub core: Core,
    pub kept: Vec<Kept>,
    pub candidates: Vec<Candidate>,
    pub ends: Vec<EntryEnd>,
}

/// Why a run stops before its end: a call of the folder failed, or memory was wanting.
#[derive(Clone, Copy)]
pub enum Stop {
    Fault,
    NoMemory,
}

/// What the search of a turn has done: when the turn began, how many phases were begun, how many
/// pops their logs have, and what came of those behind which another may follow.
#[derive(Drop)]
pub struct Trail {
    pub began: u64,
    pub phases: u32,
    pub pops: u64,
    pub past: Vec<Past>,
}

/// A list with the room for one end.
fn room(alloc: Global) -> Result<Vec<EntryEnd>, NoMemory>
    ensures empty { IfOk result (λ ends. ends.items ≡ []) }
    ensures room { IfOk result (λ ends. vec_len ends < vec_capacity ends) }
{
    let mut ends = Vec::new(alloc);
    ends.reserve(1)?;
    Ok(ends)
}

impl Progress {
    /// A run of one entry, before its turn.
    pub fn new(alloc: Global, start: u64, bound: Option<u64>) -> Result<Progress, NoMemory>
        ensures setting { IfOk result (λ run. run.core.setting ≡ setting_of bound start) }
        ensures stands { IfOk result (λ run. StandsFor run.core []) }
        ensures kept { IfOk result (λ run. run.kept.items ≡ []) }
        ensures candidates { IfOk result (λ run. run.candidates.items ≡ []) }
        ensures ends { IfOk result (λ run. run.ends.items ≡ []) }
        ensures room { IfOk result (λ run. vec_len run.ends < vec_capacity run.ends) }
    {
        let ends = room(alloc)?;
        let core = Core::new(alloc, &[1], start, None, bound, false, false)?;
        Ok(Progress {
            core,
            kept: Vec::new(alloc),
            candidates: Vec::new(alloc),
            ends,
        })
    }
}

impl Trail {
    /// Of a search that hasn't begun.
    pub fn new(alloc: Global, began: u64) -> Trail
        ensures began { result.began ≡ began }
        ensures phases { result.phases ≡ 0 }
        ensures pops { result.pops ≡ 0 }
        ensures past { result.past.items ≡ [] }
    {
        Trail {
            began,
            phases: 0,
            pops: 0,
            past: Vec::new(alloc),
        }
    }

    /// Counts a phase with its log.
    pub fn count(&mut self, log: &Log)
        requires phases { self.old.phases + 1 < 2 ^ 32 }
        requires pops { self.old.pops + length log.now.pops < 2 ^ 64 }
        ensures began { self.new.began ≡ self.old.began }
        ensures phases { self.new.phases ≡ self.old.phases + 1 }
        ensures pops { self.new.pops ≡ self.old.pops + length log.now.pops }
        ensures past { self.new.past ≡ self.old.past }
    {
        self.phases += 1;
        self.pops += log.pops() as u64;
    }

    /// The end of the turn.
    pub fn into_end(self, outcome: Outcome) -> EntryEnd
        ensures { result ≡ record {
          round = 1;
          entry = 1;
          began = self.began;
          phases = self.phases;
          pops = self.pops;
          past = self.past.items;
          outcome = outcome;
        } }
    {
        let Trail {
            began,
            phases,
            pops,
            past,
        } = self;
        EntryEnd {
            round: ROUND,
            entry: ENTRY,
            began,
            phases,
            pops,
            past: Seq::from(past),
            outcome,
        }
    }
}
