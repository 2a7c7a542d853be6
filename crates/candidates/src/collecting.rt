// Judging the plan files that a child left.
ghost use Rattle.std.specs.Prelude.{◌≡◌, ◌≤◌, List, [], length, true, false};
ghost use Rattle.lama_host.specs.Folder.{Rose, WhereTold};
ghost use Rattle.lama_host.specs.Steps.{Stays};
ghost use Rattle.lama_num.specs.Names.{IsEntryNumber, child_name};
ghost use Rattle.driver_core.specs.declared.events.Event.{Event as TheEvent};
ghost use Rattle.driver_core.specs.Turns.{turn_of};
ghost use Rattle.candidates.specs.ChildFiles.{child_files};
ghost use Rattle.candidates.specs.Collecting.{IsInTurn, TakesIn, standing};
ghost use Rattle.candidates.specs.Judging.{Judged, judged_in, AreAllOrFirst};

use crate::judging::judge_file;
use crate::keeping::keep_or_drop;
use crate::offers::Candidate;
use crate::reading::ReadError;
use driver_core::Core;
use lama_host::Folder;
use lama_num::{MOST_PLANS, NameBuf};
use plan_manager::FamilyFile;
use sas_task::{Kept, Task};
use std::alloc::Global;

/// The numbers of a child's files end here.
const END: u32 = MOST_PLANS + 1;

/// Judges the plan files that the child of an entry left in a round: `base.cE`, `base.cE.1`,
/// `base.cE.2` and so on up to the first number that isn't there, as long as the run isn't over. A
/// missing `base.cE` ends nothing. Each file is judged by the bound at that point. A plan that is
/// cheap enough is kept: its text is written to the plan files of the run's own base. The room in
/// both lists is taken before that.
///
/// After an error the two lists are those up to the last candidate that was finished, and after
/// want of memory the folder and the core are as that candidate left them.
pub fn collect<F: Folder>(
    alloc: Global,
    folder: &mut F,
    task: &Task,
    base: &NameBuf,
    many: bool,
    round: u32,
    entry: u32,
    core: &mut Core,
    kept: &mut Vec<Kept>,
    candidates: &mut Vec<Candidate>,
) -> Result<(), ReadError>
    requires idle { (F.told folder.old).busy ≡ [] }
    requires short { length base.now ≤ 200 }
    requires entry { IsEntryNumber entry }
    requires single { many ≡ false → core.old.setting.single ≡ true }
    requires turn { (events : List TheEvent)
        × IsInTurn core.old events (turn_of round entry) kept.old.items }
    ensures stays { Stays (F.told folder.old) (F.told folder.new) }
    ensures failed { result ≡ Err ReadError.Failed
        → Rose (F.told folder.old).faults (F.told folder.new).faults }
    ensures setting { core.new.setting ≡ core.old.setting }
    ensures collects { (events : List TheEvent)
        → IsInTurn core.old events (turn_of round entry) kept.old.items
        → (judged : List Judged)
        × TakesIn result task.now base.now many (turn_of round entry) events
        (standing (F.told folder.old) core.old kept.old.items candidates.old.items)
        (standing (F.told folder.new) core.new kept.new.items candidates.new.items)
        judged
        × WhereTold (F.told folder.old) (λ files. AreAllOrFirst result judged
        (judged_in core.old.setting task.now (turn_of round entry) events
        (child_files files (child_name base.now entry)))) }
{
    let child = base.child(entry);
    for number in 0..END {
        if core.is_over() {
            return Ok(());
        }
        let bound = core.bound();
        let name = FamilyFile::new(&child, number);
        let Some(verdict) = judge_file(alloc, folder, task, name.name(), bound)? else {
            if number == 0 {
                continue;
            }
            return Ok(());
        };
        keep_or_drop(
            folder, task, base, many, round, entry, number, verdict, core, kept, candidates,
        )?;
    }
    Ok(())
}
