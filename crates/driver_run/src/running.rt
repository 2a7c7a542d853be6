// The top call.
ghost use Rattle.std.specs.Prelude.{◌≡◌, ◌≢◌, ◌≤◌, [], IfOk, Err, Ok, Some, None};
ghost use Rattle.std.specs.Prelude.{map, string_bytes, false, length};
ghost use Rattle.std.specs.FinMap.{get};
ghost use Rattle.lama_host.specs.Folder.{WhereTold, Rose};
ghost use Rattle.plan_manager.specs.Clearing.{IsCleared};
ghost use Rattle.plan_manager.specs.Family.{SameOutside};
ghost use Rattle.lama_host.specs.Steps.{Leaves, Stays};
ghost use Rattle.conf_text.specs.Accepted.{IsConfig};
ghost use Rattle.conf_text.specs.declared.config.Config.{Config as TheConfig};
ghost use Rattle.conf_text.specs.declared.faults.ConfBad.{ConfBad as TheBad};
ghost use Rattle.run_report.specs.Clocks.{AsksClock};
ghost use Rattle.run_report.specs.Events.{IsRunToEnd, task_code as the_task_code};
ghost use Rattle.run_report.specs.Tells.{Turns};
ghost use Rattle.run_report.specs.Turns.{ToldTurn};
ghost use Rattle.run_report.specs.declared.report.Why.{Why as TheWhy};
ghost use Rattle.driver_run.specs.declared.aims.Chosen.{Chosen as TheChosen};
ghost use Rattle.driver_run.specs.Leaves.{LeavesPlans};
ghost use Rattle.driver_run.specs.Reports.{IfDone, TellsTask, IsRunReport, refusal as the_refusal};
ghost use Rattle.driver_run.specs.Requests.{IsChosen, chosen_of, request_of, run_of, setting_of};
ghost use Rattle.driver_run.specs.Requests.{is_many as many_test};
ghost use Rattle.driver_run.specs.Searching.{run_by, turns_ended, IsFresh, HasRun};
ghost use Rattle.driver_run.specs.Ending.{IsLeft, IsLeftSo, end_by, AsksAfter, IsRunOn};
ghost use Rattle.driver_run.specs.Seen.{seen_work};
ghost use Rattle.driver_run.specs.Words.{is_own_name, base_name};
ghost use Rattle.driver_run.specs.Runs.{IsRun};

use crate::aims::{Aim, choose};
use crate::entry::run_entry;
use crate::progress::{Progress, Stop};
use crate::task_file::{TaskFile, read_task};
use crate::words::{BASE, Line, read_line};
use candidates::Candidate;
use conf_text::{ConfError, Config};
use lama_host::{Clock, Failed, Folder, Host, Sink};
use lama_num::{MOST_PLANS, NameBuf, NoMemory, Seq};
use plan_manager::{clear, seal};
use run_report::{
    Ended, EntryEnd, Input, Report, Why, a_run_is_told, a_run_with_room_is_complete,
    the_only_turn_ends_the_run,
};
use sas_reader::SasFault;
use sas_task::{Kept, Task};
use std::alloc::Global;

/// How many plans a run keeps at most.

/// What a run kept, and why it ended.
#[derive(Drop)]
pub struct Left {
    pub kept: Seq<Kept>,
    pub candidates: Seq<Candidate>,
    pub ends: Seq<EntryEnd>,
    pub why: Why,
    pub code: u8,
}

/// The report of a run that came to no task.
fn stopped(alloc: Global, many: bool, start: u64, why: Why, code: u8) -> Report
    ensures { result ≡ record {
      task = None;
      many = many;
      kept = [];
      candidates = [];
      ends = [];
      start = start;
      why = why;
      code = code;
    } }
{
    Report {
        task: None,
        many,
        kept: Seq::new(alloc),
        candidates: Seq::new(alloc),
        ends: Seq::new(alloc),
        start,
        why,
        code,
    }
}

/// The report on words that aren't accepted.
fn refusal(alloc: Global, why: Why) -> Report
    ensures { result ≡ the_refusal why }
{
    stopped(alloc, false, 0, why, 36)
}

/// The report of a run on a task.
fn report_of(task: Task, many: bool, start: u64, left: Left) -> Report
    ensures { result ≡ record {
      task = Some task;
      many = many;
      kept = left.kept;
      candidates = left.candidates;
      ends = left.ends;
      start = start;
      why = left.why;
      code = left.code;
    } }
{
    let Left {
        kept,
        candidates,
        ends,
        why,
        code,
    } = left;
    Report {
        task: Some(task),
        many,
        kept,
        candidates,
        ends,
        start,
        why,
        code,
    }
}

/// What a run leaves.
fn leave(progress: Progress, why: Why, code: u8) -> Left
    ensures { result ≡ record {
      kept = progress.kept.items;
      candidates = progress.candidates.items;
      ends = progress.ends.items;
      why = why;
      code = code;
    } }
{
    let Progress {
        core: _,
        kept,
        candidates,
        ends,
    } = progress;
    Left {
        kept: Seq::from(kept),
        candidates: Seq::from(candidates),
        ends: Seq::from(ends),
        why,
        code,
    }
}

/// The exit code of a task's fault.
fn task_code(fault: SasFault) -> u8
    ensures { result ≡ the_task_code fault }
{
    match fault {
        SasFault::TooLarge { .. } | SasFault::WideDerived { .. } => 34,
        _ => 33,
    }
}

/// Why a run ends that came to its end.
fn why_of(progress: &Progress) -> Why
    ensures { result ≡ end_by (length progress.now.kept.items) }
{
    if progress.kept.len() == MOST_PLANS as usize {
        Why::PlanLimit
    } else {
        Why::Finished
    }
}

/// Seals the folder at the end of a run.
fn finish<F: Folder>(
    folder: &mut F,
    base: &NameBuf,
    task: &Task,
    many: bool,
    progress: Progress,
) -> Left
    requires idle { (F.told folder.old).busy ≡ [] }
    requires base { base.now ≡ base_name }
    requires one { many ≡ false → length progress.kept.items ≤ 1 }
    requires ran { (config : TheConfig) × (turn : ToldTurn)
        × HasRun (run_by task.now config progress.core.setting) progress turn }
    ensures outside { Leaves (F.told folder.old) (F.told folder.new) (SameOutside base_name) }
    ensures stays { Stays (F.told folder.old) (F.told folder.new) }
    ensures fault { result.why ≡ Why.Fault
        → Rose (F.told folder.old).faults (F.told folder.new).faults }
    ensures leaves { result.why ≢ Why.Fault → Leaves
        (F.told folder.old) (F.told folder.new) (LeavesPlans (Some task.now) many result.kept) }
    ensures left { (config : TheConfig) (turn : ToldTurn)
        → HasRun (run_by task.now config progress.core.setting) progress turn
        → IsLeft (run_by task.now config progress.core.setting) many result (turns_ended turn) }
{
    the_only_turn_ends_the_run();
    a_run_is_told();
    match seal(folder, base, many, task, &progress.kept) {
        Err(Failed) => leave(progress, Why::Fault, 35),
        Ok(()) => {
            let why = why_of(&progress);
            let code = progress.core.code();
            leave(progress, why, code)
        }
    }
}

/// Runs the one entry, and seals the folder.
fn run_on<F: Folder, C: Clock>(
    alloc: Global,
    folder: &mut F,
    clock: &mut C,
    base: &NameBuf,
    task: &Task,
    many: bool,
    config: &Config,
    progress: Progress,
) -> Result<Left, NoMemory>
    requires idle { (F.told folder.old).busy ≡ [] }
    requires base { base.now ≡ base_name }
    requires config { IsConfig config.now }
    requires many { many ≡ config.now.iterated }
    requires fresh { IsFresh progress }
    requires start { progress.core.setting.start ≤ C.last clock.old }
    ensures outside { Leaves (F.told folder.old) (F.told folder.new) (SameOutside base_name) }
    ensures stays { Stays (F.told folder.old) (F.told folder.new) }
    ensures fault { IfOk result (λ left. left.why ≡ Why.Fault
        → Rose (F.told folder.old).faults (F.told folder.new).faults) }
    ensures leaves { IfOk result (λ left. left.why ≢ Why.Fault → Leaves
        (F.told folder.old) (F.told folder.new) (LeavesPlans (Some task.now) many left.kept)) }
    ensures left { IfOk result (λ left. IsLeftSo
        (run_by task.now config.now progress.core.setting) many (C.last clock.old)
        (C.last clock.new) (C.answers clock.old) (C.answers clock.new) left) }
{
    a_run_is_told();
    let mut progress = progress;
    match run_entry(
        alloc,
        folder,
        clock,
        base,
        task,
        many,
        config,
        &mut progress,
    ) {
        Ok(()) => Ok(finish(folder, base, task, many, progress)),
        Err(Stop::Fault) => Ok(leave(progress, Why::Fault, 35)),
        Err(Stop::NoMemory) => Err(NoMemory),
    }
}

/// Runs by a configuration.
fn run_config<F: Folder, C: Clock>(
    alloc: Global,
    folder: &mut F,
    clock: &mut C,
    base: &NameBuf,
    task: &Task,
    many: bool,
    config: Config,
    bound: Option<u64>,
    start: u64,
) -> Result<Left, NoMemory>
    requires idle { (F.told folder.old).busy ≡ [] }
    requires base { base.now ≡ base_name }
    requires config { IsConfig config }
    requires many { many ≡ config.iterated }
    requires start { start ≤ C.last clock.old }
    ensures outside { Leaves (F.told folder.old) (F.told folder.new) (SameOutside base_name) }
    ensures stays { Stays (F.told folder.old) (F.told folder.new) }
    ensures fault { IfOk result (λ left. left.why ≡ Why.Fault
        → Rose (F.told folder.old).faults (F.told folder.new).faults) }
    ensures leaves { IfOk result (λ left. left.why ≢ Why.Fault → Leaves
        (F.told folder.old) (F.told folder.new) (LeavesPlans (Some task.now) many left.kept)) }
    ensures left { IfOk result (λ left. IsLeftSo
        (run_by task.now config (setting_of bound start)) many (C.last clock.old)
        (C.last clock.new) (C.answers clock.old) (C.answers clock.new) left) }
{
    match Progress::new(alloc, start, bound) {
        Ok(progress) => run_on(alloc, folder, clock, base, task, many, &config, progress),
        Err(NoMemory) => Err(NoMemory),
    }
}

/// Runs by what was chosen.
fn run_aim<F: Folder, C: Clock>(
    alloc: Global,
    folder: &mut F,
    clock: &mut C,
    base: &NameBuf,
    task: &Task,
    aim: Aim,
    start: u64,
) -> Result<Left, NoMemory>
    requires idle { (F.told folder.old).busy ≡ [] }
    requires base { base.now ≡ base_name }
    requires chosen { IsChosen aim.chosen }
    requires start { start ≤ C.last clock.old }
    ensures outside { Leaves (F.told folder.old) (F.told folder.new) (SameOutside base_name) }
    ensures stays { Stays (F.told folder.old) (F.told folder.new) }
    ensures fault { IfOk result (λ left. left.why ≡ Why.Fault
        → Rose (F.told folder.old).faults (F.told folder.new).faults) }
    ensures leaves { IfOk result (λ left. left.why ≢ Why.Fault → Leaves
        (F.told folder.old) (F.told folder.new)
        (LeavesPlans (Some task.now) (many_test aim.chosen) left.kept)) }
    ensures left { IfOk result (λ left. IsLeftSo (run_of task.now aim start)
        (many_test aim.chosen) (C.last clock.old)
        (C.last clock.new) (C.answers clock.old) (C.answers clock.new) left) }
{
    let Aim { chosen, bound } = aim;
    let many = chosen.is_many();
    match chosen.into_config(alloc, task.is_unit_cost()) {
        Ok(config) => run_config(alloc, folder, clock, base, task, many, config, bound, start),
        Err(NoMemory) => Err(NoMemory),
    }
}

/// Runs on a task.
fn run_on_task<F: Folder, C: Clock>(
    alloc: Global,
    folder: &mut F,
    clock: &mut C,
    base: &NameBuf,
    task: Task,
    aim: Aim,
    start: u64,
) -> Result<Report, NoMemory>
    requires idle { (F.told folder.old).busy ≡ [] }
    requires base { base.now ≡ base_name }
    requires chosen { IsChosen aim.chosen }
    requires start { start ≤ C.last clock.old }
    ensures outside { Leaves (F.told folder.old) (F.told folder.new) (SameOutside base_name) }
    ensures stays { Stays (F.told folder.old) (F.told folder.new) }
    ensures fault { IfOk result (λ report. report.why ≡ Why.Fault
        → Rose (F.told folder.old).faults (F.told folder.new).faults) }
    ensures leaves { IfOk result (λ report. report.why ≢ Why.Fault
        → Leaves (F.told folder.old) (F.told folder.new)
        (LeavesPlans report.task report.many report.kept)) }
    ensures task { IfOk result (λ report. report.task ≡ Some task) }
    ensures end { IfOk result (λ report. report.why ≢ Why.Fault → IsRunToEnd report.why) }
    ensures told { IfOk result (λ report. (turns : Turns)
        × IsRunReport aim start report turns
        × AsksAfter start (C.last clock.new)
        (C.answers clock.old) (C.answers clock.new) turns) }
{
    a_run_with_room_is_complete();
    let many = aim.chosen.is_many();
    match run_aim(alloc, folder, clock, base, &task, aim, start) {
        Ok(left) => Ok(report_of(task, many, start, left)),
        Err(NoMemory) => Err(NoMemory),
    }
}

/// Runs from the task's file on, with the plan files cleared.
fn run_file<F: Folder, C: Clock>(
    alloc: Global,
    folder: &mut F,
    clock: &mut C,
    base: &NameBuf,
    name: &str,
    aim: Aim,
    start: u64,
) -> Result<Report, NoMemory>
    requires idle { (F.told folder.old).busy ≡ [] }
    requires base { base.now ≡ base_name }
    requires cleared { Leaves (F.told folder.old) (F.told folder.old)
        (λ _ files. IsCleared base_name files) }
    requires chosen { IsChosen aim.chosen }
    requires start { start ≤ C.last clock.old }
    ensures outside { Leaves (F.told folder.old) (F.told folder.new) (SameOutside base_name) }
    ensures stays { Stays (F.told folder.old) (F.told folder.new) }
    ensures fault { IfOk result (λ report. report.why ≡ Why.Fault
        → Rose (F.told folder.old).faults (F.told folder.new).faults) }
    ensures leaves { IfOk result (λ report. report.why ≢ Why.Fault
        → Leaves (F.told folder.old) (F.told folder.new)
        (LeavesPlans report.task report.many report.kept)) }
    ensures task { WhereTold (F.told folder.old) (λ files. IfOk result (λ report.
        TellsTask (get files name.now) report.task report.why)) }
    ensures told { IfOk result (λ report. (turns : Turns)
        × IsRunReport aim start report turns
        × AsksAfter start (C.last clock.new)
        (C.answers clock.old) (C.answers clock.new) turns) }
{
    let many = aim.chosen.is_many();
    match read_task(alloc, folder, name) {
        Err(NoMemory) => Err(NoMemory),
        Ok(TaskFile::Task(task)) => run_on_task(alloc, folder, clock, base, task, aim, start),
        Ok(TaskFile::Missing) => {
            let why = Why::NoFile(Input::Task);
            Ok(stopped(alloc, many, start, why, 36))
        }
        Ok(TaskFile::Refused(fault)) => {
            let code = task_code(fault);
            Ok(stopped(alloc, many, start, Why::Task(fault), code))
        }
        Ok(TaskFile::Failed) => Ok(stopped(alloc, many, start, Why::Fault, 35)),
    }
}

/// The base of the plan files.
fn base() -> NameBuf
    ensures { result ≡ base_name }
{
    NameBuf::new(BASE).unwrap()
}

/// Runs on accepted words.
fn run_accepted<F: Folder, C: Clock>(
    alloc: Global,
    folder: &mut F,
    clock: &mut C,
    name: &str,
    aim: Aim,
) -> Result<Report, NoMemory>
    requires idle { (F.told folder.old).busy ≡ [] }
    requires name { is_own_name base_name name.now ≡ false }
    requires chosen { IsChosen aim.chosen }
    ensures outside { Leaves (F.told folder.old) (F.told folder.new) (SameOutside base_name) }
    ensures stays { Stays (F.told folder.old) (F.told folder.new) }
    ensures fault { IfOk result (λ report. report.why ≡ Why.Fault
        → Rose (F.told folder.old).faults (F.told folder.new).faults) }
    ensures files { IfOk result (λ report. report.why ≢ Why.Fault
        → Leaves (F.told folder.old) (F.told folder.new)
        (LeavesPlans report.task report.many report.kept)) }
    ensures task { WhereTold (F.told folder.old) (λ files. IfOk result (λ report.
        TellsTask (get files name.now) report.task report.why)) }
    ensures told { IfOk result (λ report. (turns : Turns)
        × IsRunReport aim report.start report turns
        × AsksClock (C.last clock.old) (C.last clock.new)
        (C.answers clock.old) (C.answers clock.new) report turns) }
{
    let start = clock.now();
    let base = base();
    match clear(folder, &base) {
        Ok(()) => run_file(alloc, folder, clock, &base, name, aim, start),
        Err(Failed) => {
            let many = aim.chosen.is_many();
            Ok(stopped(alloc, many, start, Why::Fault, 35))
        }
    }
}

/// Runs on a line.
fn run_line<F: Folder, C: Clock>(
    alloc: Global,
    folder: &mut F,
    clock: &mut C,
    line: Line<'_>,
) -> Ended
    requires idle { (F.told folder.old).busy ≡ [] }
    requires name { is_own_name base_name line.task.now ≡ false }
    ensures refused { (bad : TheBad) → chosen_of (seen_work line.entry.work) ≡ Err bad →
        (folder.new ≡ folder.old) × (clock.new ≡ clock.old)
        × IfDone result (λ report. report ≡ the_refusal (Why.Config bad)) }
    ensures accepted { (chosen : TheChosen) → chosen_of (seen_work line.entry.work) ≡ Ok chosen →
        IfDone result (IsRunOn (record { chosen = chosen; bound = line.entry.bound }) line.entry.task.now
        (F.told folder.old) (F.told folder.new)
        (C.last clock.old) (C.last clock.new) (C.answers clock.old) (C.answers clock.new)) }
    ensures outside { Leaves (F.told folder.old) (F.told folder.new) (SameOutside base_name) }
    ensures stays { Stays (F.told folder.old) (F.told folder.new) }
{
    match choose(alloc, line.work) {
        Err(ConfError::Bad(bad)) => Ended::Done(refusal(alloc, Why::Config(bad))),
        Err(ConfError::NoMemory) => Ended::NoMemory,
        Ok(chosen) => {
            let aim = Aim {
                chosen,
                bound: line.bound,
            };
            match run_accepted(alloc, folder, clock, line.task, aim) {
                Ok(report) => Ended::Done(report),
                Err(NoMemory) => Ended::NoMemory,
            }
        }
    }
}

/// Runs the planner on the words of a command line.
///
/// The words are `--alias NAME` or `--search CONFIG`, or neither, which stands for `--alias lama`;
/// then `--bound N`, or not; then the name of the task's file. The run takes the old plan files
/// away, `sas_plan`, `sas_plan.1` to `sas_plan.9999` and `sas_plan.part`, reads the task, and
/// searches phase after phase. Each plan that it finds is written to `sas_plan.part`, which is
/// renamed to the plan's file: `sas_plan.1` and so on where plan after plan is looked for, else
/// `sas_plan`. At its end the folder holds just the plans. Nothing is printed. Words that aren't
/// accepted change nothing. All that is promised stands, fact by fact, in `specs/Runs.antt`.
///
/// Where a call of the folder failed, or memory was wanting, the contract doesn't say what stands
/// in the folder.
pub fn run<H: Host, C: Clock, O: Sink>(
    alloc: Global,
    words: &[String],
    host: &mut H,
    clock: &mut C,
    out: &mut O,
) -> Ended
    requires { (H.told host.old).busy ≡ [] }
    ensures refused { (why : TheWhy) → request_of (map string_bytes words.now) ≡ Err why →
        (host.new ≡ host.old) × (clock.new ≡ clock.old) }
    ensures run { IsRun (map string_bytes words.now) (H.told host.old) (H.told host.new)
        (C.last clock.old) (C.last clock.new) (C.answers clock.old) (C.answers clock.new) result }
    ensures quiet { out.new ≡ out.old }
{
    match read_line(words) {
        Err(fault) => Ended::Done(refusal(alloc, Why::Words(fault))),
        Ok(line) => run_line(alloc, host, clock, line),
    }
}
