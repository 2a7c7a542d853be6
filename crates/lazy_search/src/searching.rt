// The search of a phase, from its first visit to its end.
ghost use Rattle.std.specs.Prelude.{◌≡◌, ◌≢◌, ◌≤◌, ◌<◌, ◌%◌, ◌↔◌, ℕ, true, List, [], length};
ghost use Rattle.std.specs.Prelude.{Option, None, IfOk, OnOk};
ghost use Rattle.sas_task.specs.declared.contents.Parts.{Parts};
ghost use Rattle.sas_task.specs.WellFormed.{IsWellFormed};
ghost use Rattle.guide.specs.declared.seen.Seen.{Seen as TheSeen};
ghost use Rattle.search_log.specs.Phases.{IsSetting};
ghost use Rattle.search_log.specs.Spaces.{space_of as the_space};
ghost use Rattle.search_log.specs.Ends.{EndsInGoal, EndsExhausted};
ghost use Rattle.search_log.specs.Places.{Node};
ghost use Rattle.search_log.specs.Guided.{TellsDead};
ghost use Rattle.lazy_search.specs.Machines.{past_in, Rests, AfterTurn};
ghost use Rattle.lazy_search.specs.Seen.{seen};
ghost use Rattle.lazy_search.specs.Halts.{Halts, HaltEnds, Asks, moment_at, moment_in};
ghost use Rattle.lazy_search.specs.Visits.{IsBlank};
ghost use Rattle.lazy_search.specs.Ends.{EndHolds, ClockHolds, IsAnswered, TellsOn, phase_by};
ghost use Rattle.lazy_search.specs.Ends.{EndsSo, EndsInPlan, IsBetween, moment_by};

use crate::end::SearchEnd;
use crate::machine::Machine;
use crate::paths::path_to;
use crate::phase::Phase;
use crate::shape::Shape;
use crate::steps::Turned;
use guide::Guide;
use lama_host::Clock;
use lama_num::{NoMemory, Seq};
use sas_task::Task;
use search_log::{LimitHit, Log, Setting, Space};
use std::alloc::Global;
use std::mem::replace;

/// Why a search halts.
#[derive(Clone, Copy)]
pub(crate) enum Halt {
    AtGoal,
    Exhausted,
    AtLimit(LimitHit),
}

/// Asks the clock where a stop is set, and answers that time is over where it is.
fn ask<C: Clock>(setting: &Setting, clock: &mut C) -> Option<LimitHit>
    ensures asks { Asks setting.now.stop (C.answers clock.old) (C.answers clock.new) result }
    ensures moment { IsBetween (C.last clock.old) (C.last clock.new) (moment_in result) }
    ensures later { C.last clock.old ≤ C.last clock.new }
    ensures tells { TellsOn (C.answers clock.old) (C.answers clock.new) }
{
    let stop = setting.stop?;
    let moment = clock.now();
    if moment < stop.start || moment - stop.start < stop.limit {
        return None;
    }
    Some(LimitHit::Time {
        start: stop.start,
        limit: stop.limit,
        moment,
    })
}

/// Asks the clock after each 256th pop.
fn ask_after<C: Clock>(setting: &Setting, clock: &mut C, pops: u64) -> Option<LimitHit>
    ensures between { pops % 256 ≢ 0 → result ≡ None }
    ensures unasked { pops % 256 ≢ 0 → C.answers clock.new ≡ C.answers clock.old }
    ensures asks { pops % 256 ≡ 0 →
        Asks setting.now.stop (C.answers clock.old) (C.answers clock.new) result }
    ensures moment { IsBetween (C.last clock.old) (C.last clock.new) (moment_in result) }
    ensures later { C.last clock.old ≤ C.last clock.new }
    ensures tells { TellsOn (C.answers clock.old) (C.answers clock.new) }
{
    if pops % 256 != 0 {
        return None;
    }
    ask(setting, clock)
}

/// Makes turns until the search halts.
fn make_turns<G: Guide, C: Clock>(
    alloc: Global,
    phase: &Phase<'_>,
    guide: &mut G,
    clock: &mut C,
    machine: &mut Machine,
) -> Result<Halt, NoMemory>
    requires stands { AfterTurn (seen phase.now) (G.keeps guide.old)
        (G.fits guide.old phase.now.task.now) machine.old Turned.Done }
    requires pops { machine.old.log.pops ≡ [] }
    requires same_task { G.is_for guide.old phase.now.task.now }
    ensures same_task { OnOk result (G.is_for guide.new phase.now.task.now) }
    ensures meaning { (parts : Parts) (states : List (List ℕ)) (seen : TheSeen) → OnOk result
        (G.fits guide.new parts states seen ↔ G.fits guide.old parts states seen) }
    ensures halts { IfOk result (Halts (seen phase.now)
        (G.keeps guide.new) (G.fits guide.new phase.now.task.now) machine.new) }
    ensures answers { (before : Option (List ℕ)) →
        IsAnswered (seen phase.now) [] None before (C.answers clock.old) →
        IfOk result (λ halt. IsAnswered (seen phase.now)
        machine.new.log.pops (moment_at halt) before (C.answers clock.new)) }
    ensures moment { IfOk result
        (λ halt. IsBetween (C.last clock.old) (C.last clock.new) (moment_at halt)) }
    ensures later { C.last clock.old ≤ C.last clock.new }
    ensures tells { TellsOn (C.answers clock.old) (C.answers clock.new) }
{
    for turn in 0..phase.setting.most_pops {
        match machine.turn(alloc, phase, guide)? {
            Turned::Empty => return Ok(Halt::Exhausted),
            Turned::AtGoal => return Ok(Halt::AtGoal),
            Turned::AtFull => return Ok(Halt::AtLimit(LimitHit::States(phase.setting.most_states))),
            Turned::Done => {}
        }
        if let Some(hit) = ask_after(phase.setting, clock, turn + 1) {
            return Ok(Halt::AtLimit(hit));
        }
    }
    if machine.lists.is_empty() {
        return Ok(Halt::Exhausted);
    }
    Ok(Halt::AtLimit(LimitHit::Pops(phase.setting.most_pops)))
}

/// Visits the initial state, and makes turns until the search halts.
fn begin_and_turn<G: Guide, C: Clock>(
    alloc: Global,
    phase: &Phase<'_>,
    guide: &mut G,
    clock: &mut C,
    machine: &mut Machine,
) -> Result<Halt, NoMemory>
    requires blank { IsBlank phase.now.task.now phase.now.setting.now phase.now.shape machine.old }
    requires same_task { G.is_for guide.old phase.now.task.now }
    ensures same_task { OnOk result (G.is_for guide.new phase.now.task.now) }
    ensures meaning { (parts : Parts) (states : List (List ℕ)) (seen : TheSeen) → OnOk result
        (G.fits guide.new parts states seen ↔ G.fits guide.old parts states seen) }
    ensures halts { IfOk result (Halts (seen phase.now)
        (G.keeps guide.new) (G.fits guide.new phase.now.task.now) machine.new) }
    ensures answers { (before : Option (List ℕ)) →
        IsAnswered (seen phase.now) [] None before (C.answers clock.old) →
        IfOk result (λ halt. IsAnswered (seen phase.now)
        machine.new.log.pops (moment_at halt) before (C.answers clock.new)) }
    ensures moment { IfOk result
        (λ halt. IsBetween (C.last clock.old) (C.last clock.new) (moment_at halt)) }
    ensures later { C.last clock.old ≤ C.last clock.new }
    ensures tells { TellsOn (C.answers clock.old) (C.answers clock.new) }
{
    match machine.begin(alloc, phase, guide)? {
        Turned::AtGoal => Ok(Halt::AtGoal),
        Turned::Done => make_turns(alloc, phase, guide, clock, machine),
        // Neither of the others comes of a first visit.
        _ => Err(NoMemory),
    }
}

/// The states of a machine, with their costs.
fn space_of(alloc: Global, phase: &Phase<'_>, machine: &Machine) -> Result<Space, NoMemory>
    requires rests { Rests (seen phase.now) machine.now
        (past_in (seen phase.now) machine.now) }
    ensures { IfOk result (λ space. space ≡
        the_space (past_in (seen phase.now) machine.now)) }
{
    let mut state = vec![in alloc; 0; phase.task.parts().variables.len()]?;
    let mut space = Space::empty(alloc);
    for id in 0..machine.rows.len() {
        machine.states.state_into(phase.task, id as u32, &mut state);
        space.push(&state, machine.rows[id].real)?;
    }
    Ok(space)
}

/// The log of a machine that halts, which has none afterwards.
fn take_log(alloc: Global, machine: &mut Machine) -> Log
    ensures { result ≡ machine.old.log }
{
    replace(&mut machine.log, Log::new(alloc))
}

/// The plan of a machine that has visited a goal, and what it really costs.
fn plan_of(alloc: Global, phase: &Phase<'_>, machine: &Machine) -> Result<(Vec<u32>, u64), NoMemory>
    requires rests { Rests (seen phase.now) machine.now (past_in (seen phase.now) machine.now) }
    requires goal { (n : Node) × EndsInGoal (seen phase.now)
        (past_in (seen phase.now) machine.now) n }
    ensures { IfOk result
        (λ plan. EndsInPlan (seen phase.now) plan.0.items plan.1 machine.now.log) }
{
    let visit = machine.log.visits() - 1;
    let ops = path_to(alloc, &machine.origins, visit)?;
    let id = machine.log.visit(visit).id;
    let row = machine.rows[id as usize];
    Ok((ops, row.real))
}

/// The end of a search that found a plan.
fn plan_end(alloc: Global, phase: &Phase<'_>, machine: &mut Machine) -> Result<SearchEnd, NoMemory>
    requires rests { Rests (seen phase.now) machine.old (past_in (seen phase.now) machine.old) }
    requires goal { (n : Node) × EndsInGoal (seen phase.now)
        (past_in (seen phase.now) machine.old) n }
    ensures ends { IfOk result (EndsSo (seen phase.now) machine.old.log) }
    ensures moment { IfOk result (λ end. moment_by end ≡ None) }
{
    let (ops, cost) = plan_of(alloc, phase, machine)?;
    let log = take_log(alloc, machine);
    Ok(SearchEnd::Plan {
        ops: Seq::from(ops),
        cost,
        log,
    })
}

/// The end of a search whose space is exhausted: without a bound there is no plan.
fn exhausted_end(
    alloc: Global,
    phase: &Phase<'_>,
    machine: &mut Machine,
) -> Result<SearchEnd, NoMemory>
    requires rests { Rests (seen phase.now) machine.old (past_in (seen phase.now) machine.old) }
    requires ends { EndsExhausted (seen phase.now) (past_in (seen phase.now) machine.old) }
    requires dead { TellsDead (seen phase.now) (past_in (seen phase.now) machine.old) }
    ensures ends { IfOk result (EndsSo (seen phase.now) machine.old.log) }
    ensures moment { IfOk result (λ end. moment_by end ≡ None) }
{
    let space = space_of(alloc, phase, machine)?;
    let log = take_log(alloc, machine);
    match phase.setting.bound {
        None => Ok(SearchEnd::Unsolvable { space, log }),
        Some(_) => Ok(SearchEnd::Unsolved { space, log }),
    }
}

/// The end of a search, by why it halts, with its log.
fn end_of(
    alloc: Global,
    phase: &Phase<'_>,
    machine: &mut Machine,
    halt: Halt,
) -> Result<SearchEnd, NoMemory>
    requires rests { Rests (seen phase.now) machine.old (past_in (seen phase.now) machine.old) }
    requires ends { HaltEnds (seen phase.now) (past_in (seen phase.now) machine.old) halt }
    requires dead { TellsDead (seen phase.now) (past_in (seen phase.now) machine.old) }
    ensures ends { IfOk result (EndsSo (seen phase.now) machine.old.log) }
    ensures moment { IfOk result (λ end. moment_by end ≡ moment_at halt) }
{
    match halt {
        Halt::AtGoal => plan_end(alloc, phase, machine),
        Halt::Exhausted => exhausted_end(alloc, phase, machine),
        Halt::AtLimit(hit) => Ok(SearchEnd::Limit {
            hit,
            log: take_log(alloc, machine),
        }),
    }
}

/// Searches with a blank machine, whose log the answer has.
fn search_with<G: Guide, C: Clock>(
    alloc: Global,
    phase: &Phase<'_>,
    guide: &mut G,
    clock: &mut C,
    machine: &mut Machine,
) -> Result<SearchEnd, NoMemory>
    requires blank { IsBlank phase.now.task.now phase.now.setting.now phase.now.shape machine.old }
    requires same_task { G.is_for guide.old phase.now.task.now }
    ensures same_task { OnOk result (G.is_for guide.new phase.now.task.now) }
    ensures end { IfOk result
        (EndHolds (seen phase.now) (G.fits guide.old phase.now.task.now)) }
    ensures clock { (before : Option (List ℕ)) →
        IsAnswered (seen phase.now) [] None before (C.answers clock.old) →
        IfOk result
        (ClockHolds (seen phase.now) before (C.answers clock.new)) }
    ensures moment { IfOk result
        (λ end. IsBetween (C.last clock.old) (C.last clock.new) (moment_by end)) }
    ensures later { C.last clock.old ≤ C.last clock.new }
    ensures tells { TellsOn (C.answers clock.old) (C.answers clock.new) }
{
    let halt = begin_and_turn(alloc, phase, guide, clock, machine)?;
    end_of(alloc, phase, machine, halt)
}

/// Which lists there are by a guide, for a task, which is well formed.
fn shape_of<G: Guide>(task: &Task, guide: &G) -> Shape
    ensures well_formed { IsWellFormed task.now }
    ensures guides { result.guides ≡ G.guides guide.now }
    ensures preferring { result.preferring ≡ G.preferring guide.now }
    ensures some { 1 ≤ result.guides }
    ensures few { result.guides ≤ 3 }
{
    // The call tells that the task is well formed.
    let _ = task.parts();
    Shape {
        guides: guide.guides(),
        preferring: guide.has_preferred(),
    }
}

/// Searches, or finds that memory is wanting.
fn try_search<G: Guide, C: Clock>(
    alloc: Global,
    task: &Task,
    setting: &Setting,
    guide: &mut G,
    clock: &mut C,
) -> Result<SearchEnd, NoMemory>
    requires setting { IsSetting setting.now }
    requires same_task { G.is_for guide.old task.now }
    ensures same_task { OnOk result (G.is_for guide.new task.now) }
    ensures end { IfOk result
        (EndHolds (phase_by task.now setting.now (G.guides guide.old) (G.preferring guide.old))
        (G.fits guide.old task.now)) }
    ensures clock { IfOk result
        (ClockHolds (phase_by task.now setting.now (G.guides guide.old) (G.preferring guide.old))
        (C.answers clock.old) (C.answers clock.new)) }
    ensures moment { IfOk result
        (λ end. IsBetween (C.last clock.old) (C.last clock.new) (moment_by end)) }
    ensures later { C.last clock.old ≤ C.last clock.new }
    ensures tells { TellsOn (C.answers clock.old) (C.answers clock.new) }
{
    let shape = shape_of(task, guide);
    if let Some(hit) = ask(setting, clock) {
        return Ok(SearchEnd::Limit {
            hit,
            log: Log::new(alloc),
        });
    }
    let phase = Phase {
        task,
        setting,
        shape,
    };
    let mut machine = Machine::blank(alloc, &phase)?;
    let end = search_with(alloc, &phase, guide, clock, &mut machine);
    machine.release();
    end
}

/// Searches a task from its initial state, guided by `guide`.
///
/// After want of memory nothing is said of the guide.
pub fn search<G: Guide, C: Clock>(
    alloc: Global,
    task: &Task,
    setting: &Setting,
    guide: &mut G,
    clock: &mut C,
) -> SearchEnd
    requires setting { IsSetting setting.now }
    requires same_task { G.is_for guide.old task.now }
    ensures same_task { result ≢ SearchEnd.NoMemory → G.is_for guide.new task.now }
    ensures end { EndHolds
        (phase_by task.now setting.now (G.guides guide.old) (G.preferring guide.old))
        (G.fits guide.old task.now) result }
    ensures clock { ClockHolds
        (phase_by task.now setting.now (G.guides guide.old) (G.preferring guide.old))
        (C.answers clock.old) (C.answers clock.new) result }
    ensures moment { IsBetween (C.last clock.old) (C.last clock.new) (moment_by result) }
    ensures later { C.last clock.old ≤ C.last clock.new }
    ensures tells { TellsOn (C.answers clock.old) (C.answers clock.new) }
{
    match try_search(alloc, task, setting, guide, clock) {
        Ok(end) => end,
        Err(NoMemory) => SearchEnd::NoMemory,
    }
}
