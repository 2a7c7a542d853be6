// The core: what a driver needs of all events so far.
ghost use Rattle.std.specs.Prelude.{◌≡◌, ◌<◌, ◌≤◌, ℕ, true, false, IfOk, IfSome};
ghost use Rattle.std.specs.Prelude.{List, [], ◌∷◌, ◌++◌, length};
ghost use Rattle.std.specs.Option.{option_copied};
ghost use Rattle.std.specs.List.{list_all, list_any};
ghost use Rattle.driver_core.specs.Settings.{is_share, most_plans};
ghost use Rattle.lama_num.specs.declared.names.TheConstants.{MOST_PLANS};

use crate::events::{Action, Event};
use crate::marks::{any_marked, count, has_mark, mark, move_on};
use crate::settings::Setting;
use crate::shares::portion;
use exit_codes::{Codes, Part, combine, norm};
use lama_num::{MOST_PLANS, NoMemory, Seq, duplicate_items, is_below};
use std::alloc::Global;
use std::marker::Model;

/// How many plans a run keeps at most.

/// The event core of a run. It stores no events: it stands for a list of them.
#[derive(Drop)]
pub struct Core {
    setting: Setting,
    round: u32,
    running: Vec<bool>,
    keepers: Vec<bool>,
    unended: u32,
    bound: Option<u64>,
    kept: u32,
    last: bool,
    out_of_time: bool,
    codes: Codes,
}

impl Model for Core {
    ghost use Rattle.std.specs.Prelude.{◌≡◌, ◌<◌, ◌≤◌, true, length};
    ghost use Rattle.std.specs.List.{list_all};
    ghost use Rattle.driver_core.specs.States.{CoreState, state_code};
    ghost use Rattle.driver_core.specs.Settings.{is_share};

    ghost Value = { CoreState };

    ghost coded = { state_code };

    ghost view = { λ c. record {
      setting = c.setting;
      round = c.round;
      running = c.running.items;
      keepers = c.keepers.items;
      unended = c.unended;
      bound = c.bound;
      kept = c.kept;
      last = c.last;
      out_of_time = c.out_of_time;
      codes = c.codes;
    } };

    ghost invariant = { λ c. (0 < length c.setting.shares)
        × (length c.setting.shares ≤ 1000)
        × (list_all is_share c.setting.shares ≡ true)
        × (length c.running.items ≡ length c.setting.shares)
        × (length c.keepers.items ≡ length c.setting.shares) };
}

impl Core {
    ghost use Rattle.driver_core.specs.Legal.{IsAllowed};
    ghost use Rattle.driver_core.specs.Running.{action_of, is_over_after, stop_or, has_stopped};
    ghost use Rattle.driver_core.specs.Keeping.{bound_of, kept_costs, is_kept};
    ghost use Rattle.lama_num.specs.Bounds.{is_below};
    ghost use Rattle.driver_core.specs.Ends.{code_of};
    ghost use Rattle.driver_core.specs.Standing.{StandsFor};
    ghost use Rattle.driver_core.specs.States.{is_done, is_at_end, accepts, all_codes};
    ghost use Rattle.driver_core.specs.States.{state_after, answer_of};
    ghost use Rattle.driver_core.specs.States.{after_candidate, candidate_answer};
    ghost use Rattle.driver_core.specs.States.{in_round, with_plan, has_next, marks_in};
    ghost use Rattle.driver_core.specs.Standing.{is_after};
    ghost use Rattle.driver_core.specs.Rounds.{runs_in, share_of};
    ghost use Rattle.driver_core.specs.declared.events.Event.{Event};

    /// A core before the first event.
    ///
    /// Times are in milliseconds. There are 1 to 1,000 relative times, each from 1 to 1,000,000.
    /// Plans must cost less than `bound`; with `single` the run ends with its first plan. With
    /// `rounds` the entries that kept a plan run again in a next round, as long as there are any.
    pub fn new(
        alloc: Global,
        shares: &[u32],
        start: u64,
        limit: Option<u64>,
        bound: Option<u64>,
        single: bool,
        rounds: bool,
    ) -> Result<Core, NoMemory>
        requires some { 0 < length shares.now }
        requires few { length shares.now ≤ 1000 }
        requires each { list_all is_share shares.now ≡ true }
        ensures setting { IfOk result (λ core. core.setting
            ≡ record {
              shares = shares.now;
              start = start;
              limit = limit;
              bound = bound;
              single = single;
              rounds = rounds;
            }) }
        ensures stands { IfOk result (λ core. StandsFor core []) }
    {
        let running = vec![in alloc; true; shares.len()]?;
        let keepers = vec![in alloc; false; shares.len()]?;
        let shares = Seq::from(duplicate_items(alloc, shares)?);
        let unended = shares.len() as u32;
        Ok(Core {
            setting: Setting {
                shares,
                start,
                limit,
                bound,
                single,
                rounds,
            },
            round: 1,
            running,
            keepers,
            unended,
            bound,
            kept: 0,
            last: false,
            out_of_time: false,
            codes: Codes::none(),
        })
    }

    /// Takes the next event, and says what to do.
    ///
    /// The event should be one that may come after those so far; of others nothing is said.
    pub fn step(&mut self, event: Event) -> Action
        ensures setting { self.new.setting ≡ self.old.setting }
        ensures stands { (events : List Event) → StandsFor self.old events
            → IsAllowed self.old.setting events event
            → StandsFor self.new (events ++ event ∷ []) }
        ensures answers { (events : List Event) → StandsFor self.old events
            → IsAllowed self.old.setting events event
            → result ≡ action_of self.old.setting events event }
    {
        self.advance(event)
    }

    /// Takes an event into what the core holds.
    fn advance(&mut self, event: Event) -> Action
        ensures state { self.new ≡ state_after self.old event }
        ensures answer { result ≡ answer_of self.old event }
    {
        match event {
            Event::Began { round, .. } => {
                let action = self.stop_or(Action::Go);
                self.enter(round);
                action
            }
            Event::Candidate { entry, cost, .. } => self.offer(entry, cost),
            Event::Ended { part, last, .. } => {
                self.unended = self.unended.saturating_sub(1);
                self.last = self.last || last;
                self.codes = self.codes.union(norm(part));
                self.stop_or(Action::Go)
            }
            Event::OutOfTime { .. } => {
                self.out_of_time = true;
                self.codes = self.codes.union(norm(Part::OutOfTime));
                Action::Stop
            }
        }
    }

    /// A turn of this round begins. Where that is a later one, it has the entries that kept a plan.
    fn enter(&mut self, round: u32)
        ensures state { self.new ≡ in_round self.old round }
    {
        if self.round < round {
            self.round = round;
            self.unended = count(self.keepers.as_slice());
            move_on(self.running.as_mut_slice(), self.keepers.as_mut_slice());
        }
    }

    /// Takes a candidate of an entry, with its cost where it is a plan.
    fn offer(&mut self, entry: u32, cost: Option<u64>) -> Action
        ensures state { self.new ≡ after_candidate self.old entry cost }
        ensures answer { result ≡ candidate_answer self.old cost }
    {
        let Some(cost) = cost else {
            return self.stop_or(Action::Drop);
        };
        if !self.accepts(cost) {
            return self.stop_or(Action::Drop);
        }
        let index = self.kept;
        self.keep(entry, cost);
        Action::Keep { index }
    }

    /// Keeps a plan of an entry.
    fn keep(&mut self, entry: u32, cost: u64)
        requires few { self.old.kept < MOST_PLANS }
        ensures state { self.new ≡ with_plan self.old entry cost }
    {
        self.bound = Some(cost);
        self.kept += 1;
        mark(self.keepers.as_mut_slice(), entry);
    }

    /// Whether a plan of this cost would be kept.
    fn accepts(&self, cost: u64) -> bool
        ensures answer { result ≡ accepts self.now cost }
        ensures few { result ≡ true → self.now.kept < MOST_PLANS }
    {
        is_below(self.bound, cost) && self.kept < self.most()
    }

    /// How many plans the run keeps.
    fn most(&self) -> u32
        ensures most { result ≡ most_plans self.now.setting.single }
        ensures few { result ≤ MOST_PLANS }
    {
        if self.setting.single { 1 } else { MOST_PLANS }
    }

    /// Stop where the run is over, else the other action.
    fn stop_or(&self, other: Action) -> Action
        ensures { result ≡ stop_or other (is_done self.now) }
    {
        if self.is_done() { Action::Stop } else { other }
    }

    fn is_done(&self) -> bool
        ensures { result ≡ is_done self.now }
    {
        self.out_of_time || self.last || self.kept >= self.most() || self.is_at_end()
    }

    /// Whether all turns of the present round have ended, and no other round follows.
    fn is_at_end(&self) -> bool
        ensures { result ≡ is_at_end self.now }
    {
        self.unended == 0 && !self.has_next()
    }

    /// Whether an entry runs in the round after the present one.
    fn has_next(&self) -> bool
        ensures { result ≡ has_next self.now }
    {
        self.setting.rounds && any_marked(self.keepers.as_slice())
    }

    /// Whether the run is over. Where it isn't, it hasn't been told to stop, and a plan more may be
    /// kept.
    pub fn is_over(&self) -> bool
        ensures over { (events : List Event) → StandsFor self.now events
            → result ≡ is_over_after self.now.setting events }
        ensures going { (events : List Event) → StandsFor self.now events
            → result ≡ false → has_stopped self.now.setting events ≡ false }
        ensures room { (events : List Event) → StandsFor self.now events
            → result ≡ false
            → length (kept_costs self.now.setting events) < most_plans self.now.setting.single }
    {
        self.is_done()
    }

    /// What a plan must cost less than. While the run isn't over, just the plans that do are kept.
    pub fn bound(&self) -> Option<u64>
        ensures bound { (events : List Event) → StandsFor self.now events
            → result ≡ bound_of self.now.setting events }
        ensures keeps { (events : List Event) → StandsFor self.now events
            → is_over_after self.now.setting events ≡ false
            → (cost : ℕ) → is_kept self.now.setting events cost ≡ is_below result cost }
    {
        self.bound
    }

    /// The exit code of a run that has had these events and no more.
    pub fn code(&self) -> u8
        ensures { (events : List Event) → StandsFor self.now events
            → result ≡ code_of self.now.setting events }
    {
        combine(self.all_codes(), self.kept > 0)
    }

    /// The codes of all parts of the run so far.
    fn all_codes(&self) -> Codes
        ensures { result ≡ all_codes self.now }
    {
        if self.kept == MOST_PLANS {
            self.codes.union(norm(Part::PlanLimit))
        } else {
            self.codes
        }
    }

    /// Which entries run in a round, where that is the present one or the next.
    fn marks(&self, round: u32) -> Option<&[bool]>
        ensures value { option_copied result ≡ marks_in self.now round }
        ensures each { IfSome result (λ marks. length marks.now ≡ length self.now.setting.shares) }
    {
        if round == self.round {
            Some(self.running.as_slice())
        } else if self.setting.rounds && round.checked_sub(1) == Some(self.round) {
            Some(self.keepers.as_slice())
        } else {
            None
        }
    }

    /// Whether an entry runs in a round. No turn of a later round may have begun.
    pub fn runs(&self, round: u32, entry: u32) -> bool
        ensures { (events : List Event) → StandsFor self.now events
            → list_any (is_after round) events ≡ false
            → result ≡ runs_in self.now.setting events round entry }
    {
        match self.marks(round) {
            Some(marks) => has_mark(marks, entry),
            None => false,
        }
    }

    /// An entry's share of the time that is left at a moment, in milliseconds, where the run has a
    /// limit: as its relative time stands to those of the entries of its round from this one on, at
    /// least 1. The entry must run in the round, and no turn of a later round may have begun.
    pub fn share(&self, round: u32, entry: u32, moment: u64) -> Option<u64>
        requires first { 1 ≤ entry }
        requires last { entry ≤ length self.now.setting.shares }
        requires begun { self.now.setting.start ≤ moment }
        ensures { (events : List Event) → StandsFor self.now events
            → list_any (is_after round) events ≡ false
            → runs_in self.now.setting events round entry ≡ true
            → result ≡ share_of self.now.setting events round entry moment }
    {
        let limit = self.setting.limit?;
        let left = limit.saturating_sub(moment - self.setting.start);
        let marks = self.marks(round)?;
        Some(portion(
            left,
            self.setting.shares.as_slice(),
            marks,
            entry as usize - 1,
        ))
    }
}
