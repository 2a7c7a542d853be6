// What a loop over turns needs: how a run goes on, turn by turn and phase by phase, and its end.
ghost use Rattle.std.specs.Prelude.{◌≡◌, ◌+◌, ◌-◌, ◌<◌, min, ℕ, List, [], ◌∷◌, ◌++◌, length, map};
ghost use Rattle.std.specs.Prelude.{Option, Some, None};
ghost use Rattle.std.specs.Prelude.{true, false, nat_eq, if◌then◌else◌};
ghost use Rattle.std.specs.List.{last_or};
ghost use Rattle.sas_task.specs.declared.contents.Parts.{Parts};
ghost use Rattle.sas_task.specs.declared.plans.Kept.{Kept};
ghost use Rattle.sas_task.specs.Runs.{IsPlanOf};
ghost use Rattle.candidates.specs.declared.offers.Candidate.{Candidate};
ghost use Rattle.candidates.specs.Collecting.{IsInTurn};
ghost use Rattle.driver_core.specs.Keeping.{bound_of};
ghost use Rattle.lama_num.specs.Bounds.{is_below};
ghost use Rattle.driver_core.specs.Running.{is_over_after};
ghost use Rattle.driver_core.specs.Standing.{StandsFor};
ghost use Rattle.driver_core.specs.States.{CoreState};
ghost use Rattle.driver_core.specs.Turns.{turn_of, begins_at, offers};
ghost use Rattle.driver_core.specs.Ends.{code_of as code_by_events};
ghost use Rattle.search_log.specs.Logs.{Content};
ghost use Rattle.search_log.specs.Members.{Member};
ghost use Rattle.iterated.specs.declared.ends.PhaseEnd.TheVariants as ended_as;
ghost use Rattle.run_report.specs.declared.report.EntryEnd.{EntryEnd as TheEnd};
ghost use Rattle.run_report.specs.declared.report.Past.{Past as ThePast};
ghost use Rattle.run_report.specs.declared.report.Past.TheVariants as item;
ghost use Rattle.run_report.specs.declared.report.Report.{Report as TheReport};
ghost use Rattle.run_report.specs.declared.report.Why.TheVariants as why;
ghost use Rattle.run_report.specs.Turns.{BegunTurn, ToldTurn, begun_at, begun_of};
ghost use Rattle.run_report.specs.Turns.{offered_more, good_offer, candidate_of};
ghost use Rattle.run_report.specs.Turns.{end_of, turns_events};
ghost use Rattle.run_report.specs.Tells.{Turns, between, during, events_of};
ghost use Rattle.run_report.specs.Plans.{ArePlans};
ghost use Rattle.run_report.specs.Searches.{Run, Search, Standing, Went, Ends, EndsAs};
ghost use Rattle.run_report.specs.Searches.{after_plan, after_space};
ghost use Rattle.run_report.specs.Complete.{IsComplete};
ghost use Rattle.run_report.specs.Runs.{IsUnderWay, TellsRun};
ghost use Rattle.lama_num.specs.declared.names.TheConstants.{MOST_PLANS};

/// The turn of the next entry begins, and the core has its beginning.
pub fn a_turn_begins()
    ensures { (run : Run) (core next : CoreState) (ended : List ToldTurn) (kept : List Kept)
        (candidates : List Candidate) (ends : List TheEnd) (began : ℕ) →
        IsUnderWay run core (between ended) kept candidates ends →
        length ended < length run.setting.shares → next.setting ≡ core.setting →
        StandsFor next
        (events_of (between ended) ++ begins_at (turn_of 1 (1 + length ended)) began ∷ []) →
        IsUnderWay run next
        (during ended (begun_at (turn_of 1 (1 + length ended)) began)) kept candidates ends }
{}

/// The turn that is on offers a plan below the bound, which the core and the lists have.
pub fn a_turn_offers()
    ensures { (run : Run) (core next : CoreState) (ended : List ToldTurn) (begun : BegunTurn)
        (kept : List Kept) (candidates : List Candidate) (ends : List TheEnd)
        (file : Option ℕ) (plan : Kept) →
        IsUnderWay run core (during ended begun) kept candidates ends →
        next.setting ≡ core.setting → plan.entry ≡ begun.turn.entry →
        IsInTurn next (events_of (during ended begun) ++ offers begun.turn (Some plan.cost) ∷ [])
        begun.turn (kept ++ plan ∷ []) →
        IsPlanOf run.parts plan.ops plan.cost →
        is_below (bound_of run.setting (events_of (during ended begun))) plan.cost ≡ true →
        IsUnderWay run next
        (during ended (offered_more begun (good_offer file plan.ops plan.cost))) (kept ++ plan ∷ [])
        (candidates
        ++ candidate_of begun.turn (length kept) (good_offer file plan.ops plan.cost) ∷ []) ends }
{}

/// The turn that is on ends as its search did, and the core has its end.
pub fn a_turn_ends()
    ensures { (run : Run) (core next : CoreState) (ended : List ToldTurn) (turn : ToldTurn)
        (kept : List Kept) (candidates : List Candidate) (ends : List TheEnd) →
        IsUnderWay run core (during ended (begun_of turn)) kept candidates ends →
        next.setting ≡ core.setting →
        StandsFor next (events_of (during ended (begun_of turn)) ++ end_of turn.end ∷ []) →
        EndsAs run (turns_events ended) turn →
        IsUnderWay run next (between (ended ++ turn ∷ [])) kept candidates (ends ++ turn.end ∷ []) }
{}

/// A run of one entry and no rounds is over once its turn has ended.
pub fn the_only_turn_ends_the_run()
    ensures { (run : Run) (core : CoreState) (turn : ToldTurn) (kept : List Kept)
        (candidates : List Candidate) (ends : List TheEnd) →
        IsUnderWay run core (between (turn ∷ [])) kept candidates ends →
        length run.setting.shares ≡ 1 → run.setting.rounds ≡ false →
        is_over_after run.setting (events_of (between (turn ∷ []))) ≡ true }
{}

/// A plan that costs less than the last kept one, or than the bound where none is, can be kept too.
pub fn one_more_plan()
    ensures { (parts : Parts) (bound : Option ℕ) (kept : List Kept) (plan : Kept) →
        ArePlans parts bound kept → IsPlanOf parts plan.ops plan.cost →
        is_below (last_or bound (map (λ (other : Kept). other.cost) kept)) plan.cost ≡ true →
        ArePlans parts bound (kept ++ plan ∷ []) }
{}

/// The phases of a search are those of the configuration, in its order: after so many phases the
/// next one, if there is one, is at that place, from 0, or is the last one again.
pub fn phases_go_in_order()
    ensures { (search : Search) (from to : Standing) (past : List ThePast) (plans : List Kept)
        (place : ℕ) → from.next ≡ Some 0 → 0 < length search.config.phases →
        Went search from past plans to → to.next ≡ Some place →
        place ≡ min (length past) (length search.config.phases - 1) }
{}

/// A search goes on by a phase that found a plan, or that left nothing below the bound.
pub fn one_more_phase()
    ensures plan { (search : Search) (at mid : Standing) (past : List ThePast) (plans : List Kept)
        (log : Content) (plan : Kept) →
        Went search at past plans mid →
        Ends search mid (ended_as.Plan plan.ops plan.cost log) →
        Went search at (past ++ item.Plan mid.plans log ∷ []) (plans ++ plan ∷ [])
        (after_plan search mid plan.cost (ended_as.Plan plan.ops plan.cost log)) }
    ensures space { (search : Search) (at mid : Standing) (past : List ThePast) (plans : List Kept)
        (log : Content) (space : List Member) (bound : ℕ) →
        Went search at past plans mid → mid.bound ≡ Some bound →
        Ends search mid (ended_as.Unsolved space log false) →
        Went search at (past ++ item.Unsolved space bound log ∷ []) plans
        (after_space search mid (ended_as.Unsolved space log false)) }
{}

/// The report of a run that is over tells its turns, where its code is that of the events; and so
/// does that of a run under way in which a call failed.
pub fn a_run_is_told()
    ensures end { (run : Run) (core : CoreState) (ended : List ToldTurn) (report : TheReport) →
        IsUnderWay run core (between ended) report.kept report.candidates report.ends →
        run.setting.start ≡ report.start →
        is_over_after run.setting (events_of (between ended)) ≡ true →
        report.why ≡ (if nat_eq (length report.kept) MOST_PLANS then why.PlanLimit else why.Finished) →
        report.code ≡ code_by_events run.setting (events_of (between ended)) →
        TellsRun run report (between ended) }
    ensures fault { (run : Run) (core : CoreState) (turns : Turns) (report : TheReport) →
        IsUnderWay run core turns report.kept report.candidates report.ends →
        run.setting.start ≡ report.start → report.why ≡ why.Fault → report.code ≡ 35 →
        TellsRun run report turns }
{}

/// Where a run has one entry and no bound, and goes on after its first plan, its report is
/// complete.
pub fn a_run_with_room_is_complete()
    ensures { (run : Run) (report : TheReport) (turns : Turns) →
        length run.setting.shares ≡ 1 → run.setting.bound ≡ None → run.setting.single ≡ false →
        TellsRun run report turns → IsComplete run.parts (run.config_of 1) report }
{}
