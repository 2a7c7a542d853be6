// What lawful logs and exhausted spaces show.
ghost use Rattle.std.specs.Prelude.{◌≡◌, ℕ, ◌+◌, ◌/◌, ◌<◌, ◌≤◌, [], Bool, true, false};
ghost use Rattle.std.specs.Prelude.{List, length, slice_get, Option, Some, None, is_some};
ghost use Rattle.std.specs.List.{list_any};
ghost use Rattle.sas_task.specs.declared.contents.Parts.{Parts};
ghost use Rattle.sas_task.specs.WellFormed.{IsWellFormed};
ghost use Rattle.sas_task.specs.Runs.{IsPlan, cost_of};
ghost use Rattle.search_log.specs.declared.setting.Stop.{Stop as TheStop};
ghost use Rattle.search_log.specs.declared.turns.Pop.{Pop as ThePop};
ghost use Rattle.search_log.specs.Members.{Member};
ghost use Rattle.search_log.specs.Logs.{Visit};
ghost use Rattle.search_log.specs.Phases.{Phase, IsPhase};
ghost use Rattle.lama_num.specs.Bounds.{is_below};
ghost use Rattle.search_log.specs.Places.{Node, past_of, latest};
ghost use Rattle.search_log.specs.Lawful.{Lawful};
ghost use Rattle.search_log.specs.Ends.{EndsInGoal, EndsExhausted, EndsFull, EndsAtPops};
ghost use Rattle.search_log.specs.Clocks.{AreAnswers, is_late};
ghost use Rattle.search_log.specs.Rooms.{assignments, room};
ghost use Rattle.search_log.specs.Spaces.{IsExhausted, space_of, is_exact};
ghost use Rattle.search_log.specs.Guided.{TellsDead};

/// Where a lawful log ends in a goal, the path of that visit is a plan, which costs what the
/// visit's real cost is, and less than the bound.
pub fn goal_visits_have_plans()
    ensures { (phase : Phase) (visits : List Visit) (pops : List ThePop) (n : Node) →
        IsPhase phase → Lawful phase visits pops →
        EndsInGoal phase (past_of phase visits pops) n →
        IsPlan phase.parts n.place.path ×
        (n.place.real ≡ cost_of phase.parts n.place.path) ×
        (is_below phase.setting.bound n.place.real ≡ true) }
{}

/// Where a lawful log ends with nothing left, and calls only dead states dead, its space is
/// exhausted; exactly so where the phase is exact.
pub fn logs_with_nothing_left_are_exhausted()
    ensures { (phase : Phase) (visits : List Visit) (pops : List ThePop) →
        IsPhase phase → Lawful phase visits pops →
        EndsExhausted phase (past_of phase visits pops) →
        TellsDead phase (past_of phase visits pops) →
        IsExhausted phase.parts (space_of (past_of phase visits pops))
        phase.setting.bound (is_exact phase) }
{}

/// Where a space is exhausted without a bound, no list of operators is a plan.
pub fn no_plan_leaves_an_exhausted_space()
    ensures { (parts : Parts) (space : List Member) (exact : Bool) →
        IsWellFormed parts → IsExhausted parts space None exact →
        (ops : List ℕ) → ¬ IsPlan parts ops }
{}

/// Where a space is exhausted exactly under a bound, every plan costs at least the bound.
pub fn no_cheaper_plan_leaves_an_exact_space()
    ensures { (parts : Parts) (space : List Member) (bound : ℕ) →
        IsWellFormed parts → IsExhausted parts space (Some bound) true →
        (ops : List ℕ) → IsPlan parts ops → bound ≤ cost_of parts ops }
{}

/// A lawful log has visited at most as many states as there are assignments. Where states aren't
/// visited again, no state has two visits, and there are at most as many pops as there is room.
pub fn logs_keep_to_the_room()
    ensures states { (phase : Phase) (visits : List Visit) (pops : List ThePop) →
        IsPhase phase → Lawful phase visits pops →
        length (latest (past_of phase visits pops).nodes) ≤ assignments phase.parts.variables }
    ensures once { (phase : Phase) (visits : List Visit) (pops : List ThePop) →
        IsPhase phase → Lawful phase visits pops → phase.setting.reopen ≡ false →
        (i j : ℕ) (m n : Node) →
        slice_get (past_of phase visits pops).nodes i ≡ Some m →
        slice_get (past_of phase visits pops).nodes j ≡ Some n →
        m.place.state ≡ n.place.state → i ≡ j }
    ensures pops { (phase : Phase) (visits : List Visit) (pops : List ThePop) →
        IsPhase phase → Lawful phase visits pops → phase.setting.reopen ≡ false →
        length pops ≤ room phase }
{}

/// A lawful log that ends at a limit of states or pops had room for more: it visited just so many
/// states, of more assignments; and where states aren't visited again, the room is above the pops.
pub fn limits_are_below_the_room()
    ensures states { (phase : Phase) (visits : List Visit) (pops : List ThePop) →
        IsPhase phase → Lawful phase visits pops → EndsFull (past_of phase visits pops) →
        (length (latest (past_of phase visits pops).nodes) ≡ phase.setting.most_states) ×
        (phase.setting.most_states < assignments phase.parts.variables) }
    ensures pops { (phase : Phase) (visits : List Visit) (pops : List ThePop) →
        IsPhase phase → Lawful phase visits pops →
        EndsAtPops phase (past_of phase visits pops) → phase.setting.reopen ≡ false →
        phase.setting.most_pops < room phase }
{}

/// Time ends a phase exactly where an answer of the clock is late, and that answer is the last.
/// The clock is asked at most once, and once more for each 256 pops.
pub fn late_answers_end_logs()
    ensures late { (phase : Phase) (pops : List ThePop) (moment : Option ℕ) (answers : List ℕ)
        (stop : TheStop) → AreAnswers phase pops moment answers →
        phase.setting.stop ≡ Some stop → list_any (is_late stop) answers ≡ is_some moment }
    ensures few { (phase : Phase) (pops : List ThePop) (moment : Option ℕ) (answers : List ℕ) →
        AreAnswers phase pops moment answers → length answers ≤ 1 + length pops / 256 }
    ensures never { (phase : Phase) (pops : List ThePop) (moment : Option ℕ) (answers : List ℕ) →
        AreAnswers phase pops moment answers → phase.setting.stop ≡ None →
        (answers ≡ []) × (moment ≡ None) }
{}
