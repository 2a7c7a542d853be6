// The phases of an entry, one after another.
ghost use Rattle.std.specs.Prelude.{◌≡◌, ◌≢◌, ◌+◌, ◌<◌, ◌≤◌, ◌^◌, [], ◌∷◌, ◌++◌, IfOk, IfSome};
ghost use Rattle.std.specs.Prelude.{OnOk, OnErr, Ok, Err, None, Some, true, false, length};
ghost use Rattle.lama_host.specs.Folder.{Rose};
ghost use Rattle.lama_host.specs.Steps.{Leaves, Stays};
ghost use Rattle.plan_manager.specs.Family.{SameOutside};
ghost use Rattle.driver_run.specs.Words.{base_name};
ghost use Rattle.driver_run.specs.Searching.{run_by, IsSearching, HasEnded, IsStopped};
ghost use Rattle.driver_run.specs.Searching.{AsksNoMore, phase_memory, search_memory};
ghost use Rattle.driver_run.specs.Searching.{HasSame, HasKept, HasCounted, HasPassed};
ghost use Rattle.lama_num.specs.declared.names.TheConstants.{MOST_PLANS};

use crate::progress::{ENTRY, Progress, ROUND, Stop, Trail};
use candidates::{ReadError, keep_candidate};
use iterated::{Iterated, PhaseEnd};
use lama_host::{Clock, Folder};
use lama_num::{NameBuf, Seq};
use run_report::{Outcome, Past};
use sas_task::{Kept, Task};
use search_log::{LimitHit, Log, Space};
use std::alloc::Global;

/// No search has so many phases: 9,999 of them find plans, and of a hundred places each but the
/// last can come to nothing once.
const END: u32 = 10_100;

/// Keeps the plan that a phase found.
fn keep_plan<F: Folder>(
    folder: &mut F,
    base: &NameBuf,
    task: &Task,
    many: bool,
    ops: Seq<u32>,
    cost: u64,
    progress: &mut Progress,
) -> Result<(), ReadError>
    requires idle { (F.told folder.old).busy ≡ [] }
    requires base { base.now ≡ base_name }
    requires room { length progress.old.kept.items < MOST_PLANS }
    requires single { many ≡ false → progress.old.kept.items ≡ [] }
    ensures stays { Stays (F.told folder.old) (F.told folder.new) }
    ensures failed { result ≡ Err ReadError.Failed
        → Rose (F.told folder.old).faults (F.told folder.new).faults }
    ensures outside { Leaves (F.told folder.old) (F.told folder.new) (SameOutside base_name) }
    ensures setting { progress.new.core.setting ≡ progress.old.core.setting }
    ensures ends { progress.new.ends ≡ progress.old.ends }
    ensures same { OnErr result (HasSame progress.old progress.new) }
    ensures kept { OnOk result
        (HasKept progress.old progress.new (record { entry = 1; ops = ops; cost = cost })) }
{
    let plan = Kept {
        entry: ENTRY,
        ops,
        cost,
    };
    keep_candidate(
        folder,
        task,
        base,
        many,
        ROUND,
        None,
        plan,
        &mut progress.core,
        &mut progress.kept,
        &mut progress.candidates,
    )
}

/// Takes in the plan that a phase found. The room for all that is kept of it is taken before its
/// text is written.
fn take_plan<F: Folder>(
    folder: &mut F,
    base: &NameBuf,
    task: &Task,
    many: bool,
    ops: Seq<u32>,
    cost: u64,
    log: Log,
    progress: &mut Progress,
    trail: &mut Trail,
) -> Result<(), Stop>
    requires idle { (F.told folder.old).busy ≡ [] }
    requires base { base.now ≡ base_name }
    requires room { length progress.old.kept.items < MOST_PLANS }
    requires single { many ≡ false → progress.old.kept.items ≡ [] }
    requires phases { trail.old.phases + 1 < 2 ^ 32 }
    requires pops { trail.old.pops + length log.pops < 2 ^ 64 }
    ensures stays { Stays (F.told folder.old) (F.told folder.new) }
    ensures failed { result ≡ Err Stop.Fault
        → Rose (F.told folder.old).faults (F.told folder.new).faults }
    ensures outside { Leaves (F.told folder.old) (F.told folder.new) (SameOutside base_name) }
    ensures setting { progress.new.core.setting ≡ progress.old.core.setting }
    ensures ends { progress.new.ends ≡ progress.old.ends }
    ensures began { trail.new.began ≡ trail.old.began }
    ensures same { OnErr result (HasSame progress.old progress.new) }
    ensures kept { OnOk result
        (HasKept progress.old progress.new (record { entry = 1; ops = ops; cost = cost })) }
    ensures passed { OnOk result (HasPassed trail.old trail.new
        (Past.Plan (length progress.old.kept.items) log)) }
{
    if trail.past.reserve(1).is_err() {
        return Err(Stop::NoMemory);
    }
    let index = progress.kept.len() as u32;
    match keep_plan(folder, base, task, many, ops, cost, progress) {
        Err(ReadError::Failed) => Err(Stop::Fault),
        Err(ReadError::NoMemory) => Err(Stop::NoMemory),
        Ok(()) => {
            trail.count(&log);
            trail.past.push_reserved(Past::Plan { index, log });
            Ok(())
        }
    }
}

/// Goes on behind a phase that left nothing below the bound.
fn pass_by(space: Space, bound: u64, log: Log, trail: &mut Trail) -> Result<(), Stop>
    requires phases { trail.old.phases + 1 < 2 ^ 32 }
    requires pops { trail.old.pops + length log.pops < 2 ^ 64 }
    ensures memory { result ≢ Err Stop.Fault }
    ensures began { trail.new.began ≡ trail.old.began }
    ensures passed { OnOk result
        (HasPassed trail.old trail.new (Past.Unsolved space bound log)) }
{
    if trail.past.reserve(1).is_err() {
        return Err(Stop::NoMemory);
    }
    trail.count(&log);
    trail
        .past
        .push_reserved(Past::Unsolved { space, bound, log });
    Ok(())
}

/// What a phase came to that found nothing below the bound.
fn take_space(
    space: Space,
    bound: u64,
    log: Log,
    last: bool,
    trail: &mut Trail,
) -> Result<Option<Outcome>, Stop>
    requires phases { trail.old.phases + 1 < 2 ^ 32 }
    requires pops { trail.old.pops + length log.pops < 2 ^ 64 }
    ensures memory { result ≢ Err Stop.Fault }
    ensures began { trail.new.began ≡ trail.old.began }
    ensures last { last ≡ true → (result ≡ Ok (Some (Outcome.Unsolved space bound log)))
        × HasCounted trail.old trail.new log }
    ensures passed { last ≡ false → IfOk result (λ outcome. (outcome ≡ None)
        × HasPassed trail.old trail.new (Past.Unsolved space bound log)) }
{
    if last {
        trail.count(&log);
        return Ok(Some(Outcome::Unsolved { space, bound, log }));
    }
    match pass_by(space, bound, log, trail) {
        Ok(()) => Ok(None),
        Err(stop) => Err(stop),
    }
}

/// No plan is cheaper than the bound; below the bound 0 no phase was begun for that.
fn take_best(space: Space, bound: u64, log: Log, trail: &mut Trail) -> Outcome
    requires phases { trail.old.phases + 1 < 2 ^ 32 }
    requires pops { trail.old.pops + length log.pops < 2 ^ 64 }
    ensures outcome { result ≡ Outcome.Best space bound log }
    ensures counted { 0 < bound → HasCounted trail.old trail.new log }
    ensures none { bound ≡ 0 → trail.new ≡ trail.old }
{
    if bound > 0 {
        trail.count(&log);
    }
    Outcome::Best { space, bound, log }
}

fn take_unsolvable(space: Space, log: Log, trail: &mut Trail) -> Outcome
    requires phases { trail.old.phases + 1 < 2 ^ 32 }
    requires pops { trail.old.pops + length log.pops < 2 ^ 64 }
    ensures outcome { result ≡ Outcome.Unsolvable space log }
    ensures counted { HasCounted trail.old trail.new log }
{
    trail.count(&log);
    Outcome::Unsolvable { space, log }
}

fn take_limit(hit: LimitHit, log: Log, trail: &mut Trail) -> Outcome
    requires phases { trail.old.phases + 1 < 2 ^ 32 }
    requires pops { trail.old.pops + length log.pops < 2 ^ 64 }
    ensures outcome { result ≡ Outcome.Limit hit log }
    ensures counted { HasCounted trail.old trail.new log }
{
    trail.count(&log);
    Outcome::Limit { hit, log }
}

/// One phase more, where one is left: how the entry ended with it, or that it goes on.
fn take_phase<F: Folder, C: Clock>(
    alloc: Global,
    folder: &mut F,
    clock: &mut C,
    base: &NameBuf,
    task: &Task,
    many: bool,
    phases: &mut Iterated,
    progress: &mut Progress,
    trail: &mut Trail,
) -> Result<Option<Outcome>, Stop>
    requires idle { (F.told folder.old).busy ≡ [] }
    requires base { base.now ≡ base_name }
    requires searching { IsSearching task.now phases.old many progress.old trail.old }
    ensures stays { Stays (F.told folder.old) (F.told folder.new) }
    ensures failed { result ≡ Err Stop.Fault
        → Rose (F.told folder.old).faults (F.told folder.new).faults }
    ensures outside { Leaves (F.told folder.old) (F.told folder.new) (SameOutside base_name) }
    ensures later { C.last clock.old ≤ C.last clock.new }
    ensures asks { AsksNoMore (phase_memory result)
        (C.answers clock.old) (C.answers clock.new) }
    ensures config { phases.new.config ≡ phases.old.config }
    ensures setting { progress.new.core.setting ≡ progress.old.core.setting }
    ensures ends { progress.new.ends ≡ progress.old.ends }
    ensures began { trail.new.began ≡ trail.old.began }
    ensures same { OnErr result (HasSame progress.old progress.new) }
    ensures goes_on { result ≡ Ok None
        → IsSearching task.now phases.new many progress.new trail.new
        × (length trail.new.past.items ≡ length trail.old.past.items + 1) }
    ensures one { many ≡ false → length progress.new.kept.items ≤ 1 }
    ensures ended { IfOk result (λ outcome. IfSome outcome (HasEnded
        (run_by task.now phases.old.config progress.old.core.setting)
        progress.new trail.new)) }
{
    let _metric = task.parts().metric;
    if progress.core.is_over() {
        return Ok(Some(Outcome::Over));
    }
    let bound = progress.core.bound();
    match phases.next_phase(alloc, task, bound, None, clock) {
        PhaseEnd::Plan { ops, cost, log } => {
            match take_plan(folder, base, task, many, ops, cost, log, progress, trail) {
                Ok(()) => Ok(None),
                Err(stop) => Err(stop),
            }
        }
        PhaseEnd::Unsolvable { space, log } => Ok(Some(take_unsolvable(space, log, trail))),
        PhaseEnd::Best { space, log } => match bound {
            Some(bound) => Ok(Some(take_best(space, bound, log, trail))),
            None => unreachable!(),
        },
        PhaseEnd::Unsolved { space, log, last } => match bound {
            Some(bound) => take_space(space, bound, log, last, trail),
            None => unreachable!(),
        },
        PhaseEnd::Limit { hit, log } => Ok(Some(take_limit(hit, log, trail))),
        PhaseEnd::Over => Ok(Some(Outcome::Over)),
        PhaseEnd::NoMemory => {
            trail.phases += 1;
            Ok(Some(Outcome::NoMemory))
        }
    }
}

/// Phase after phase, up to the end of the entry.
pub fn take_phases<F: Folder, C: Clock>(
    alloc: Global,
    folder: &mut F,
    clock: &mut C,
    base: &NameBuf,
    task: &Task,
    many: bool,
    phases: &mut Iterated,
    progress: &mut Progress,
    trail: &mut Trail,
) -> Result<Outcome, Stop>
    requires idle { (F.told folder.old).busy ≡ [] }
    requires base { base.now ≡ base_name }
    requires searching { IsSearching task.now phases.old many progress.old trail.old }
    requires first { trail.old.past.items ≡ [] }
    ensures stays { Stays (F.told folder.old) (F.told folder.new) }
    ensures failed { result ≡ Err Stop.Fault
        → Rose (F.told folder.old).faults (F.told folder.new).faults }
    ensures outside { Leaves (F.told folder.old) (F.told folder.new) (SameOutside base_name) }
    ensures later { C.last clock.old ≤ C.last clock.new }
    ensures asks { AsksNoMore (search_memory result)
        (C.answers clock.old) (C.answers clock.new) }
    ensures setting { progress.new.core.setting ≡ progress.old.core.setting }
    ensures ends { progress.new.ends ≡ progress.old.ends }
    ensures began { trail.new.began ≡ trail.old.began }
    ensures stopped { OnErr result (IsStopped
        (run_by task.now phases.old.config progress.old.core.setting)
        trail.old.began progress.new) }
    ensures one { many ≡ false → length progress.new.kept.items ≤ 1 }
    ensures ended { IfOk result (HasEnded
        (run_by task.now phases.old.config progress.old.core.setting)
        progress.new trail.new) }
{
    for _phase in 0..END {
        match take_phase(
            alloc, folder, clock, base, task, many, phases, progress, trail,
        ) {
            Ok(None) => {}
            Ok(Some(outcome)) => return Ok(outcome),
            Err(stop) => return Err(stop),
        }
    }
    unreachable!()
}
