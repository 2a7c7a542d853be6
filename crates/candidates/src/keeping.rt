// Keeping a candidate, or dropping it.
ghost use Rattle.std.specs.Prelude.{◌≡◌, ◌+◌, ◌<◌, ◌≤◌, ◌++◌, ℕ, List, [], ◌∷◌, length};
ghost use Rattle.std.specs.Prelude.{OnOk, OnErr, Option, Some, true, false};
ghost use Rattle.std.specs.Prelude.{vec_len, vec_capacity};
ghost use Rattle.lama_host.specs.Folder.{Rose, Changes};
ghost use Rattle.lama_host.specs.Steps.{Stays};
ghost use Rattle.sas_task.specs.declared.plans.Kept.{Kept as TheKept};
ghost use Rattle.plan_text.specs.PlanText.{plan_text};
ghost use Rattle.plan_manager.specs.Keeping.{PlacesPlan};
ghost use Rattle.driver_core.specs.declared.events.Event.{Event as TheEvent};
ghost use Rattle.lama_num.specs.Bounds.{is_below};
ghost use Rattle.driver_core.specs.Turns.{turn_of, offers};
ghost use Rattle.candidates.specs.Judging.{real_cost as the_real_cost, IsPlanIfGood, HeedsBound};
ghost use Rattle.candidates.specs.Collecting.{IsInTurn, KeepsBelow, TakesIn};
ghost use Rattle.candidates.specs.Collecting.{standing, finished};
ghost use Rattle.lama_num.specs.declared.names.TheConstants.{MOST_PLANS};

use crate::offers::{Candidate, Found};
use crate::reading::ReadError;
use driver_core::{Core, Event};
use lama_host::Folder;
use lama_num::{NameBuf, NoMemory};
use plan_check::{PlanFault, Verdict};
use plan_manager::keep;
use sas_task::{Kept, Task};

/// What the plan in a file costs, where it is one, and only isn't cheap enough.
fn real_cost(fault: PlanFault) -> Option<u64>
    ensures { result ≡ the_real_cost fault }
{
    match fault {
        PlanFault::NotCheaper { real, .. } => Some(real),
        _ => None,
    }
}

/// Takes the room for one plan and one candidate more.
fn make_room(kept: &mut Vec<Kept>, candidates: &mut Vec<Candidate>) -> Result<(), NoMemory>
    ensures plans_stay { kept.new.items ≡ kept.old.items }
    ensures candidates_stay { candidates.new.items ≡ candidates.old.items }
    ensures plans { OnOk result (vec_len kept.new < vec_capacity kept.new) }
    ensures candidates { OnOk result (vec_len candidates.new < vec_capacity candidates.new) }
{
    kept.reserve(1)?;
    candidates.reserve(1)?;
    Ok(())
}

/// Keeps a plan that is cheap enough, of this process's search (no file) or in a file of a child:
/// it tells the core, writes the plan's text, and puts the plan and its candidate onto the lists.
/// The room in both lists is taken before that.
///
/// After an error the two lists are as they were, and after want of memory the core and the folder
/// are too.
pub fn keep_candidate<F: Folder>(
    folder: &mut F,
    task: &Task,
    base: &NameBuf,
    many: bool,
    round: u32,
    file: Option<u32>,
    plan: Kept,
    core: &mut Core,
    kept: &mut Vec<Kept>,
    candidates: &mut Vec<Candidate>,
) -> Result<(), ReadError>
    requires idle { (F.told folder.old).busy ≡ [] }
    requires short { length base.now ≤ 200 }
    requires room { length kept.old.items < MOST_PLANS }
    requires single { many ≡ false → length kept.old.items ≡ 0 }
    ensures stays { Stays (F.told folder.old) (F.told folder.new) }
    ensures failed { result ≡ Err ReadError.Failed
        → Rose (F.told folder.old).faults (F.told folder.new).faults }
    ensures setting { core.new.setting ≡ core.old.setting }
    ensures same { OnErr result
        ((kept.new.items ≡ kept.old.items) × (candidates.new.items ≡ candidates.old.items)) }
    ensures memory { result ≡ Err ReadError.NoMemory
        → (core.new ≡ core.old) × (F.told folder.new ≡ F.told folder.old) }
    ensures kept { OnOk result (kept.new.items ≡ kept.old.items ++ plan ∷ []) }
    ensures candidates { OnOk result (candidates.new.items ≡ candidates.old.items
        ++ record {
          round = round;
          entry = plan.entry;
          file = file;
          found = Found.Kept (length kept.old.items);
        } ∷ []) }
    ensures changes { Changes (F.told folder.old) (F.told folder.new)
        (PlacesPlan result base.now many (length kept.old.items + 1)
        (plan_text task.now plan.ops)) }
    ensures core { OnOk result ((events : List TheEvent) (bound : Option ℕ)
        → IsInTurn core.old events (turn_of round plan.entry) kept.old.items
        → KeepsBelow core.old.setting events bound → is_below bound plan.cost ≡ true
        → IsInTurn core.new (events ++ offers (turn_of round plan.entry) (Some plan.cost) ∷ [])
        (turn_of round plan.entry) kept.new.items) }
{
    if make_room(kept, candidates).is_err() {
        return Err(ReadError::NoMemory);
    }
    let index = kept.len() as u32;
    let entry = plan.entry;
    core.step(Event::Candidate {
        round,
        entry,
        cost: Some(plan.cost),
    });
    if keep(folder, base, many, index + 1, task, &plan).is_err() {
        return Err(ReadError::Failed);
    }
    kept.push_reserved(plan);
    candidates.push_reserved(Candidate {
        round,
        entry,
        file,
        found: Found::Kept { index },
    });
    Ok(())
}

/// Drops a candidate.
fn drop_candidate(
    round: u32,
    entry: u32,
    file: u32,
    fault: PlanFault,
    core: &mut Core,
    candidates: &mut Vec<Candidate>,
) -> Result<(), NoMemory>
    ensures setting { core.new.setting ≡ core.old.setting }
    ensures memory { OnErr result
        ((core.new ≡ core.old) × (candidates.new.items ≡ candidates.old.items)) }
    ensures candidates { OnOk result (candidates.new.items ≡ candidates.old.items
        ++ record {
          round = round;
          entry = entry;
          file = Some file;
          found = Found.Dropped fault;
        } ∷ []) }
    ensures core { OnOk result ((events : List TheEvent) (kept : List TheKept) (bound : Option ℕ)
        → IsInTurn core.old events (turn_of round entry) kept
        → KeepsBelow core.old.setting events bound
        → ((cost : ℕ) → the_real_cost fault ≡ Some cost → is_below bound cost ≡ false)
        → IsInTurn core.new (events ++ offers (turn_of round entry) (the_real_cost fault) ∷ [])
        (turn_of round entry) kept) }
{
    candidates.reserve(1)?;
    let cost = real_cost(fault);
    core.step(Event::Candidate { round, entry, cost });
    candidates.push_reserved(Candidate {
        round,
        entry,
        file: Some(file),
        found: Found::Dropped(fault),
    });
    Ok(())
}

/// Keeps the plan in a file, or drops it, as the verdict says.
pub(crate) fn keep_or_drop<F: Folder>(
    folder: &mut F,
    task: &Task,
    base: &NameBuf,
    many: bool,
    round: u32,
    entry: u32,
    file: u32,
    verdict: Verdict,
    core: &mut Core,
    kept: &mut Vec<Kept>,
    candidates: &mut Vec<Candidate>,
) -> Result<(), ReadError>
    requires idle { (F.told folder.old).busy ≡ [] }
    requires short { length base.now ≤ 200 }
    requires room { length kept.old.items < MOST_PLANS }
    requires single { many ≡ false → length kept.old.items ≡ 0 }
    requires plan { IsPlanIfGood task.now verdict }
    ensures stays { Stays (F.told folder.old) (F.told folder.new) }
    ensures failed { result ≡ Err ReadError.Failed
        → Rose (F.told folder.old).faults (F.told folder.new).faults }
    ensures setting { core.new.setting ≡ core.old.setting }
    ensures takes { (events : List TheEvent) (bound : Option ℕ)
        → IsInTurn core.old events (turn_of round entry) kept.old.items
        → KeepsBelow core.old.setting events bound → HeedsBound bound verdict
        → TakesIn result task.now base.now many (turn_of round entry) events
        (standing (F.told folder.old) core.old kept.old.items candidates.old.items)
        (standing (F.told folder.new) core.new kept.new.items candidates.new.items)
        (finished result file verdict) }
{
    match verdict {
        Verdict::Good { ops, cost } => {
            let plan = Kept { entry, ops, cost };
            let file = Some(file);
            keep_candidate(
                folder, task, base, many, round, file, plan, core, kept, candidates,
            )
        }
        Verdict::Bad(fault) => match drop_candidate(round, entry, file, fault, core, candidates) {
            Ok(()) => Ok(()),
            Err(NoMemory) => Err(ReadError::NoMemory),
        },
    }
}
