// Whole runs.
ghost use Rattle.std.specs.Prelude.{◌≡◌, ◌<◌, ◌≤◌, true, List, [], length, IfOk};
ghost use Rattle.std.specs.List.{list_all};
ghost use Rattle.driver_core.specs.declared.settings.Setting.{Setting};
ghost use Rattle.driver_core.specs.Settings.{is_share};
ghost use Rattle.driver_core.specs.Legal.{IsLegal};
ghost use Rattle.driver_core.specs.Running.{actions_of};

use crate::driver::Core;
use crate::events::{Action, Event};
use lama_num::NoMemory;
use std::alloc::Global;

/// What a core answers to a whole list of events, one after another.
pub fn actions(
    alloc: Global,
    shares: &[u32],
    start: u64,
    limit: Option<u64>,
    bound: Option<u64>,
    single: bool,
    rounds: bool,
    events: &[Event],
) -> Result<Vec<Action>, NoMemory>
    requires some { 0 < length shares.now }
    requires few { length shares.now ≤ 1000 }
    requires each { list_all is_share shares.now ≡ true }
    ensures { let setting : Setting =
        record {
          shares = shares.now;
          start = start;
          limit = limit;
          bound = bound;
          single = single;
          rounds = rounds;
        } in
        IfOk result (λ actions. IsLegal setting events.now
        → actions.items ≡ actions_of setting events.now) }
{
    let mut core = Core::new(alloc, shares, start, limit, bound, single, rounds)?;
    let mut actions = Vec::with_capacity(alloc, events.len())?;
    for event in events {
        actions.push(core.step(*event))?;
    }
    Ok(actions)
}
