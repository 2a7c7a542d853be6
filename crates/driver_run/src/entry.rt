// The one entry of a run: its phases, and its end.
ghost use Rattle.std.specs.Prelude.{◌≡◌, ◌≤◌, ◌<◌, [], ◌∷◌, IfOk, OnOk, OnErr, Err};
ghost use Rattle.std.specs.Prelude.{vec_len, vec_capacity, length, false};
ghost use Rattle.lama_host.specs.Folder.{Rose};
ghost use Rattle.lama_host.specs.Steps.{Leaves, Stays};
ghost use Rattle.plan_manager.specs.Family.{SameOutside};
ghost use Rattle.conf_text.specs.Accepted.{IsConfig};
ghost use Rattle.sas_task.specs.declared.contents.Parts.{Parts as TheParts};
ghost use Rattle.conf_text.specs.declared.config.Config.{Config as TheConfig};
ghost use Rattle.run_report.specs.Turns.{part_of as the_part_of, is_last as last_test};
ghost use Rattle.run_report.specs.Turns.{ToldTurn};
ghost use Rattle.driver_run.specs.Words.{base_name};
ghost use Rattle.driver_run.specs.Searching.{run_by, IsSearching, HasEnded, IsStopped};
ghost use Rattle.driver_run.specs.Searching.{HasRun, HasRunTo, AsksNoMore, search_memory};
ghost use Rattle.driver_run.specs.Searching.{IsFresh, HasBegun};

use crate::phases::take_phases;
use crate::progress::{ENTRY, Progress, ROUND, Stop, Trail};
use conf_text::Config;
use driver_core::Event;
use exit_codes::Part;
use iterated::Iterated;
use lama_host::{Clock, Folder};
use lama_num::{NameBuf, NoMemory};
use run_report::{Outcome, a_turn_ends};
use sas_task::Task;
use std::alloc::Global;

/// How an end counts for the code.
fn part_of(outcome: &Outcome) -> Part
    ensures { result ≡ the_part_of outcome.now }
{
    match outcome {
        Outcome::Best { .. } | Outcome::Unsolved { .. } => Part::Exhausted,
        Outcome::Unsolvable { .. } => Part::Unsolvable,
        Outcome::Over => Part::Over,
        Outcome::Limit { .. } => Part::Limit,
        Outcome::NoMemory => Part::NoMemory,
    }
}

/// Whether an end leaves other entries nothing to do.
fn is_last(outcome: &Outcome) -> bool
    ensures { result ≡ last_test outcome.now }
{
    match outcome {
        Outcome::Best { .. } | Outcome::Unsolvable { .. } => true,
        Outcome::Unsolved { .. } => false,
        Outcome::Over => false,
        Outcome::Limit { .. } => false,
        Outcome::NoMemory => false,
    }
}

/// The turn begins.
fn begin(progress: &mut Progress, began: u64)
    requires fresh { IsFresh progress.old }
    requires later { progress.old.core.setting.start ≤ began }
    ensures setting { progress.new.core.setting ≡ progress.old.core.setting }
    ensures begun { HasBegun progress.new began }
{
    progress.core.step(Event::Began {
        round: ROUND,
        entry: ENTRY,
        moment: began,
    });
}

/// The turn ends.
fn end(progress: &mut Progress, trail: Trail, outcome: Outcome)
    requires room { vec_len progress.old.ends < vec_capacity progress.old.ends }
    requires first { progress.old.ends.items ≡ [] }
    requires shares { progress.old.core.setting.shares ≡ 1 ∷ [] }
    requires rounds { progress.old.core.setting.rounds ≡ false }
    ensures setting { progress.new.core.setting ≡ progress.old.core.setting }
    ensures kept { progress.new.kept ≡ progress.old.kept }
    ensures ended { (parts : TheParts) (config : TheConfig) →
        HasEnded (run_by parts config progress.old.core.setting) progress.old trail outcome →
        (turn : ToldTurn) × (turn.end.outcome ≡ outcome) × (turn.end.began ≡ trail.began)
        × HasRun (run_by parts config progress.old.core.setting) progress.new turn }
{
    a_turn_ends();
    progress.core.step(Event::Ended {
        round: ROUND,
        entry: ENTRY,
        part: part_of(&outcome),
        last: is_last(&outcome),
    });
    progress.ends.push_reserved(trail.into_end(outcome));
}

/// The search of the entry, by phases that are given up at its end.
fn search_by<F: Folder, C: Clock>(
    alloc: Global,
    folder: &mut F,
    clock: &mut C,
    base: &NameBuf,
    task: &Task,
    many: bool,
    phases: Iterated,
    progress: &mut Progress,
    trail: &mut Trail,
) -> Result<Outcome, Stop>
    requires idle { (F.told folder.old).busy ≡ [] }
    requires base { base.now ≡ base_name }
    requires searching { IsSearching task.now phases many progress.old trail.old }
    requires first { trail.old.past.items ≡ [] }
    ensures stays { Stays (F.told folder.old) (F.told folder.new) }
    ensures failed { result ≡ Err Stop.Fault
        → Rose (F.told folder.old).faults (F.told folder.new).faults }
    ensures outside { Leaves (F.told folder.old) (F.told folder.new) (SameOutside base_name) }
    ensures later { C.last clock.old ≤ C.last clock.new }
    ensures asks { AsksNoMore (search_memory result)
        (C.answers clock.old) (C.answers clock.new) }
    ensures setting { progress.new.core.setting ≡ progress.old.core.setting }
    ensures ends { progress.new.ends ≡ progress.old.ends }
    ensures began { trail.new.began ≡ trail.old.began }
    ensures stopped { OnErr result (IsStopped
        (run_by task.now phases.config progress.old.core.setting)
        trail.old.began progress.new) }
    ensures one { many ≡ false → length progress.new.kept.items ≤ 1 }
    ensures ended { IfOk result (HasEnded
        (run_by task.now phases.config progress.old.core.setting)
        progress.new trail.new) }
{
    let mut phases = phases;
    let outcome = take_phases(
        alloc,
        folder,
        clock,
        base,
        task,
        many,
        &mut phases,
        progress,
        trail,
    );
    phases.release();
    outcome
}

/// The search of the entry.
fn search<F: Folder, C: Clock>(
    alloc: Global,
    folder: &mut F,
    clock: &mut C,
    base: &NameBuf,
    task: &Task,
    many: bool,
    config: &Config,
    progress: &mut Progress,
    trail: &mut Trail,
) -> Result<Outcome, Stop>
    requires idle { (F.told folder.old).busy ≡ [] }
    requires base { base.now ≡ base_name }
    requires config { IsConfig config.now }
    requires many { many ≡ config.now.iterated }
    requires begun { HasBegun progress.old trail.old.began }
    requires phases { trail.old.phases ≡ 0 }
    requires pops { trail.old.pops ≡ 0 }
    requires first { trail.old.past.items ≡ [] }
    ensures stays { Stays (F.told folder.old) (F.told folder.new) }
    ensures failed { result ≡ Err Stop.Fault
        → Rose (F.told folder.old).faults (F.told folder.new).faults }
    ensures outside { Leaves (F.told folder.old) (F.told folder.new) (SameOutside base_name) }
    ensures later { C.last clock.old ≤ C.last clock.new }
    ensures asks { AsksNoMore (search_memory result)
        (C.answers clock.old) (C.answers clock.new) }
    ensures setting { progress.new.core.setting ≡ progress.old.core.setting }
    ensures ends { progress.new.ends ≡ progress.old.ends }
    ensures began { trail.new.began ≡ trail.old.began }
    ensures stopped { OnErr result (IsStopped
        (run_by task.now config.now progress.old.core.setting)
        trail.old.began progress.new) }
    ensures one { many ≡ false → length progress.new.kept.items ≤ 1 }
    ensures ended { IfOk result (HasEnded
        (run_by task.now config.now progress.old.core.setting)
        progress.new trail.new) }
{
    match Iterated::new(alloc, task, config) {
        Ok(phases) => search_by(
            alloc, folder, clock, base, task, many, phases, progress, trail,
        ),
        Err(NoMemory) => Ok(Outcome::NoMemory),
    }
}

/// Runs the one entry.
pub fn run_entry<F: Folder, C: Clock>(
    alloc: Global,
    folder: &mut F,
    clock: &mut C,
    base: &NameBuf,
    task: &Task,
    many: bool,
    config: &Config,
    progress: &mut Progress,
) -> Result<(), Stop>
    requires idle { (F.told folder.old).busy ≡ [] }
    requires base { base.now ≡ base_name }
    requires config { IsConfig config.now }
    requires many { many ≡ config.now.iterated }
    requires fresh { IsFresh progress.old }
    requires start { progress.old.core.setting.start ≤ C.last clock.old }
    ensures stays { Stays (F.told folder.old) (F.told folder.new) }
    ensures failed { result ≡ Err Stop.Fault
        → Rose (F.told folder.old).faults (F.told folder.new).faults }
    ensures outside { Leaves (F.told folder.old) (F.told folder.new) (SameOutside base_name) }
    ensures setting { progress.new.core.setting ≡ progress.old.core.setting }
    ensures one { many ≡ false → length progress.new.kept.items ≤ 1 }
    ensures ran { HasRunTo result
        (run_by task.now config.now progress.old.core.setting) progress.new
        (C.last clock.old) (C.last clock.new) (C.answers clock.old) (C.answers clock.new) }
{
    let began = clock.now();
    begin(progress, began);
    let mut trail = Trail::new(alloc, began);
    match search(
        alloc, folder, clock, base, task, many, config, progress, &mut trail,
    ) {
        Ok(outcome) => {
            end(progress, trail, outcome);
            Ok(())
        }
        Err(stop) => Err(stop),
    }
}
