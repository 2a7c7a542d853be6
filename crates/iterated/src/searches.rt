// The search of a phase.
ghost use Rattle.std.specs.Prelude.{◌≡◌, ◌≢◌, ◌≤◌, ◌<◌, IfSome};
ghost use Rattle.conf_text.specs.Accepted.{IsPhase};
ghost use Rattle.phase_guide.specs.Guides.{IsFor};
ghost use Rattle.lazy_search.specs.Ends.{ClockHolds, IsBetween, TellsOn, moment_by};
ghost use Rattle.iterated.specs.Searches.{asked as asked_by, search_phase, IsSearched};

use conf_text::Phase;
use lama_host::Clock;
use lama_num::NoMemory;
use lazy_search::{SearchEnd, search};
use phase_guide::PhaseGuide;
use sas_task::Task;
use search_log::{Setting, Stop};
use std::alloc::Global;

/// What a phase asks of its search.
fn asked(phase: &Phase, bound: Option<u64>, stop: Option<Stop>) -> Setting
    ensures { result ≡ asked_by phase.now bound stop }
{
    Setting {
        cost: phase.cost,
        weight: phase.weight,
        reopen: phase.reopen,
        boost: phase.boost,
        bound,
        most_pops: phase.most_pops,
        most_states: phase.most_states,
        stop,
    }
}

/// Turns the guide to a phase, and searches.
pub(crate) fn search_by<C: Clock>(
    alloc: Global,
    task: &Task,
    phase: &Phase,
    guide: &mut PhaseGuide,
    bound: Option<u64>,
    stop: Option<Stop>,
    clock: &mut C,
) -> SearchEnd
    requires phase { IsPhase phase.now }
    requires task { IsFor guide.old task.now }
    requires bound { IfSome bound (λ least. 0 < least) }
    ensures task { result ≢ SearchEnd.NoMemory → IsFor guide.new task.now }
    ensures searched { IsSearched task.now phase.now bound stop result }
    ensures clock { ClockHolds (search_phase task.now phase.now bound stop)
        (C.answers clock.old) (C.answers clock.new) result }
    ensures moment { IsBetween (C.last clock.old) (C.last clock.new) (moment_by result) }
    ensures later { C.last clock.old ≤ C.last clock.new }
    ensures tells { TellsOn (C.answers clock.old) (C.answers clock.new) }
{
    match guide.switch_to_phase(alloc, task, phase) {
        Err(NoMemory) => SearchEnd::NoMemory,
        Ok(()) => search(alloc, task, &asked(phase, bound, stop), guide, clock),
    }
}
