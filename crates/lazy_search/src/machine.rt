// What a search keeps between its turns, and how it makes one.
ghost use Rattle.std.specs.Prelude.{◌≡◌, ◌<◌, ◌≤◌, ◌+◌, ◌-◌, ◌^◌, ◌≢◌, ◌↔◌, ℕ, true, List, []};
ghost use Rattle.std.specs.Prelude.{length, pos, negsuc, ◌+ℤ◌, ◌≤ℤ◌, IfOk, OnOk, IfSome, IfNone};

use crate::entries::{Chosen, are_short, expand};
use crate::outcomes::{outcome_of, pop_by, turned_by};
use crate::paths::Origin;
use crate::phase::Phase;
use crate::rows::{LatestVisit, put_latest_visit, reopens};
use crate::states::States;
use crate::steps::{Arrival, Decision, Reached, Turned};
use guide::{Guide, Seen};
use lama_num::{NoMemory, is_below};
use open_lists::OpenLists;
use sas_task::CostKind;
use search_log::{Log, PopResult};
use state_registry::Interned;
use std::alloc::Global;

/// What a search keeps between its turns: its log, and what stands for that.
#[derive(Drop)]
pub(crate) struct Machine {
    pub log: Log,
    pub states: States,
    /// The latest visits, by the numbers of their states.
    pub rows: Vec<LatestVisit>,
    /// How the visits came about, by their numbers.
    pub origins: Vec<Origin>,
    pub lists: OpenLists,
    /// The least estimates so far of each guide; 2^32 where there is none.
    pub least: [u64; 3],
    pub chosen: Chosen,
    /// What the guides said last.
    pub seen: Seen,
}

impl Machine {
    ghost use Rattle.sas_task.specs.declared.contents.Parts.{Parts};
    ghost use Rattle.open_lists.specs.Lists.{list_count, is_preferred, counter as counter_now};
    ghost use Rattle.open_lists.specs.Lists.{boost_of};
    ghost use Rattle.guide.specs.declared.seen.Seen.{Seen as TheSeen};
    ghost use Rattle.search_log.specs.Phases.{lists_of};
    ghost use Rattle.search_log.specs.Lawful.{GoesOn};
    ghost use Rattle.search_log.specs.Pending.{pending};
    ghost use Rattle.lazy_search.specs.Shapes.{lists_by};
    ghost use Rattle.lazy_search.specs.Seen.{seen};
    ghost use Rattle.lazy_search.specs.Machines.{past_in, Rests, Reaches, Arrives};
    ghost use Rattle.lazy_search.specs.Machines.{ArrivesAt, IsGuided, AfterTurn};
    ghost use Rattle.lazy_search.specs.Outcomes.{PopsMore};
    ghost use Rattle.lazy_search.specs.Visits.{KeepsVisit, IsBlank};

    /// Takes an entry, if there is one, and finds what it costs to go on by it.
    fn pop_entry(&mut self, phase: &Phase<'_>) -> Option<Reached>
        requires rests { Rests (seen phase.now) self.old
            (past_in (seen phase.now) self.old) }
        requires allowed { length self.old.log.pops < phase.now.setting.now.most_pops }
        ensures same { IfNone result (self.new ≡ self.old) }
        ensures empty { IfNone result
            ((k : ℕ) → k < lists_of (seen phase.now) →
            pending (seen phase.now)
            (past_in (seen phase.now) self.old) k ≡ []) }
        ensures reaches { IfSome result (Reaches (seen phase.now) self.new
            self.new.states.registry.states
            (past_in (seen phase.now) self.old)) }
        ensures log { self.new.log ≡ self.old.log }
    {
        let popped = self.lists.pop()?;
        let parent = self.log.visit(popped.entry.parent as usize).id;
        let row = self.rows[parent as usize];
        let adjusted = phase
            .task
            .adjusted_cost(popped.entry.op, phase.setting.cost);
        let cost = phase.task.adjusted_cost(popped.entry.op, CostKind::Normal);
        Some(Reached {
            popped,
            parent,
            origin: row.number,
            g: row.g + u64::from(adjusted),
            real: row.real + u64::from(cost),
        })
    }

    /// Decides what to do with the state that an entry leads to.
    fn look_up_successor(
        &mut self,
        phase: &Phase<'_>,
        reached: Reached,
    ) -> Result<Decision, NoMemory>
        requires reaches { Reaches (seen phase.now) self.old
            self.old.states.registry.states
            (past_in (seen phase.now) self.old) reached }
        ensures arrives { IfOk result (Arrives (seen phase.now) self.new
            (past_in (seen phase.now) self.old) reached) }
        ensures log { self.new.log ≡ self.old.log }
    {
        if !is_below(phase.setting.bound, reached.real) {
            return Ok(Decision::Known);
        }
        self.states
            .follow(phase.task, reached.parent, reached.popped.entry.op);
        match self.states.intern(phase.task)? {
            Interned::New(id) => Ok(Decision::New(id)),
            Interned::Full => Ok(Decision::Full),
            Interned::Known(id) => {
                if reopens(phase.setting, self.rows[id as usize], reached.g) {
                    Ok(Decision::Again(id))
                } else {
                    Ok(Decision::Known)
                }
            }
        }
    }

    /// Keeps a visit of which the guides have spoken, and puts its entries where it is expanded.
    fn keep_visit(&mut self, phase: &Phase<'_>, arrival: Arrival) -> Result<(), NoMemory>
        requires id { arrival.id ≤ length self.old.rows.items }
        requires g { arrival.g < 2 ^ 63 }
        requires real { arrival.real < 2 ^ 63 }
        requires lists { list_count self.old.lists ≡ lists_by phase.now.shape }
        requires counters { (k : ℕ) → is_preferred self.old.lists k ≡ true →
            (negsuc (2 ^ 63 - 1) +ℤ pos (boost_of self.old.lists)) ≤ℤ
            counter_now self.old.lists k }
        ensures { OnOk result
            (KeepsVisit phase.now.task.now phase.now.setting.now phase.now.shape self.old arrival self.new) }
    {
        // Visits are numbered with 32 bits: where there are more, there is no memory for them.
        let number = self.origins.len();
        if number >= 4_294_967_296 {
            return Err(NoMemory);
        }
        let row = LatestVisit {
            g: arrival.g,
            real: arrival.real,
            number: number as u32,
            dead: self.seen.dead,
        };
        are_short(&self.seen.estimates);
        put_latest_visit(&mut self.rows, arrival.id, row)?;
        self.origins.push(arrival.came)?;
        self.log.push_visit(arrival.id, arrival.g, &self.seen)?;
        if self.seen.dead || arrival.is_goal {
            return Ok(());
        }
        expand(
            &mut self.lists,
            &mut self.least,
            &mut self.chosen,
            phase.task,
            phase.setting,
            phase.shape,
            row,
            &self.seen,
            &self.states.applicable,
        )
    }

    /// Visits the state that was reached.
    fn visit<G: Guide>(
        &mut self,
        alloc: Global,
        phase: &Phase<'_>,
        guide: &mut G,
        reached: Reached,
        id: u32,
        again: bool,
    ) -> Result<Turned, NoMemory>
        requires arrives { ArrivesAt (seen phase.now) self.old
            (past_in (seen phase.now) self.old) reached id again }
        requires allowed { length self.old.log.pops < phase.now.setting.now.most_pops }
        requires goes_on { GoesOn (seen phase.now)
            (past_in (seen phase.now) self.old) }
        requires same_task { G.is_for guide.old phase.now.task.now }
        requires guided { IsGuided (seen phase.now) (G.keeps guide.old)
            (G.fits guide.old phase.now.task.now)
            (past_in (seen phase.now) self.old) }
        ensures same_task { OnOk result (G.is_for guide.new phase.now.task.now) }
        ensures meaning { (parts : Parts) (states : List (List ℕ)) (seen : TheSeen) → OnOk result
            (G.fits guide.new parts states seen ↔ G.fits guide.old parts states seen) }
        ensures after { IfOk result (AfterTurn (seen phase.now)
            (G.keeps guide.new) (G.fits guide.new phase.now.task.now) self.new) }
        ensures pops { IfOk result (PopsMore self.old.log.pops self.new.log.pops) }
    {
        self.states.find_applicable(phase.task);
        guide.visit(
            alloc,
            phase.task,
            Some(reached.parent),
            id,
            &self.states.next,
            &self.states.applicable,
            &mut self.seen,
        )?;
        let is_goal = self.states.is_goal(phase.task);
        let outcome = outcome_of(again, self.seen.dead, is_goal);
        let arrival = Arrival {
            id,
            g: reached.g,
            real: reached.real,
            came: Origin {
                origin: reached.origin,
                op: reached.popped.entry.op,
            },
            is_goal,
        };
        self.keep_visit(phase, arrival)?;
        self.log.push_pop(pop_by(reached.popped, outcome))?;
        Ok(turned_by(outcome))
    }

    /// Takes an entry, and visits the state that it leads to where that is new, or is to be visited
    /// again.
    pub(crate) fn turn<G: Guide>(
        &mut self,
        alloc: Global,
        phase: &Phase<'_>,
        guide: &mut G,
    ) -> Result<Turned, NoMemory>
        requires stands { AfterTurn (seen phase.now) (G.keeps guide.old)
            (G.fits guide.old phase.now.task.now) self.old Turned.Done }
        requires allowed { length self.old.log.pops < phase.now.setting.now.most_pops }
        requires same_task { G.is_for guide.old phase.now.task.now }
        ensures same_task { OnOk result (G.is_for guide.new phase.now.task.now) }
        ensures meaning { (parts : Parts) (states : List (List ℕ)) (seen : TheSeen) → OnOk result
            (G.fits guide.new parts states seen ↔ G.fits guide.old parts states seen) }
        ensures after { IfOk result (AfterTurn (seen phase.now)
            (G.keeps guide.new) (G.fits guide.new phase.now.task.now) self.new) }
        ensures pops { IfOk result (PopsMore self.old.log.pops self.new.log.pops) }
    {
        let Some(reached) = self.pop_entry(phase) else {
            return Ok(Turned::Empty);
        };
        match self.look_up_successor(phase, reached)? {
            Decision::Known => {
                let pop = pop_by(reached.popped, PopResult::Known);
                self.log.push_pop(pop)?;
                Ok(Turned::Done)
            }
            Decision::Full => {
                let pop = pop_by(reached.popped, PopResult::Full);
                self.log.push_pop(pop)?;
                Ok(Turned::AtFull)
            }
            Decision::New(id) => { self.visit(alloc, phase, guide, reached, id, false) }
            Decision::Again(id) => { self.visit(alloc, phase, guide, reached, id, true) }
        }
    }

    /// A machine that has visited nothing.
    pub(crate) fn blank(alloc: Global, phase: &Phase<'_>) -> Result<Machine, NoMemory>
        ensures { IfOk result (IsBlank phase.now.task.now phase.now.setting.now phase.now.shape) }
    {
        let sorts = phase.shape.sorts(alloc)?;
        let lists = OpenLists::new(alloc, &sorts, phase.setting.boost)?;
        let states = States::new(alloc, phase.task, phase.setting.most_states)?;
        Ok(Machine {
            log: Log::new(alloc),
            states,
            rows: Vec::new(alloc),
            origins: Vec::new(alloc),
            lists,
            least: [4_294_967_296; 3],
            chosen: Chosen {
                all: Vec::new(alloc),
                preferred: Vec::new(alloc),
            },
            seen: Seen::new(alloc),
        })
    }

    /// Visits the initial state.
    pub(crate) fn begin<G: Guide>(
        &mut self,
        alloc: Global,
        phase: &Phase<'_>,
        guide: &mut G,
    ) -> Result<Turned, NoMemory>
        requires blank { IsBlank phase.now.task.now phase.now.setting.now phase.now.shape self.old }
        requires same_task { G.is_for guide.old phase.now.task.now }
        ensures same_task { OnOk result (G.is_for guide.new phase.now.task.now) }
        ensures meaning { (parts : Parts) (states : List (List ℕ)) (seen : TheSeen) → OnOk result
            (G.fits guide.new parts states seen ↔ G.fits guide.old parts states seen) }
        ensures after { IfOk result (AfterTurn (seen phase.now)
            (G.keeps guide.new) (G.fits guide.new phase.now.task.now) self.new) }
        ensures pops { OnOk result (self.new.log.pops ≡ []) }
        ensures not_empty { IfOk result (λ turned. turned ≢ Turned.Empty) }
    {
        self.states.start(phase.task);
        let _first = self.states.intern(phase.task)?;
        self.states.find_applicable(phase.task);
        guide.visit(
            alloc,
            phase.task,
            None,
            0,
            &self.states.next,
            &self.states.applicable,
            &mut self.seen,
        )?;
        let is_goal = self.states.is_goal(phase.task);
        let outcome = outcome_of(false, self.seen.dead, is_goal);
        let arrival = Arrival {
            id: 0,
            g: 0,
            real: 0,
            came: Origin { origin: 0, op: 0 },
            is_goal,
        };
        self.keep_visit(phase, arrival)?;
        Ok(turned_by(outcome))
    }

    /// Gives all up.
    pub(crate) fn release(self) {
        self.states.release();
    }
}
