// Judging one file of a child.
ghost use Rattle.std.specs.Prelude.{◌≡◌, ◌≤◌, IfOk, IfSome, option_map};
ghost use Rattle.std.specs.FinMap.{get};
ghost use Rattle.lama_host.specs.Folder.{IsUntouched, Rose, WhereTold};
ghost use Rattle.plan_check.specs.Verdicts.{verdict_of};
ghost use Rattle.candidates.specs.Judging.{IsPlanIfGood, HeedsBound};

use crate::reading::{ReadError, Whole, read_whole};
use lama_host::Folder;
use lama_num::NoMemory;
use plan_check::{PlanFault, Verdict, judge};
use plan_text::{MOST_PLAN_BYTES, PlanTextFault};
use sas_task::Task;
use std::alloc::Global;

/// The verdict on a file, if it is there.
pub fn judge_file<F: Folder>(
    alloc: Global,
    folder: &mut F,
    task: &Task,
    name: &str,
    bound: Option<u64>,
) -> Result<Option<Verdict>, ReadError>
    ensures untouched { IsUntouched (F.told folder.old) (F.told folder.new) }
    ensures later { (F.told folder.old).faults ≤ (F.told folder.new).faults }
    ensures failed { result ≡ Err ReadError.Failed
        → Rose (F.told folder.old).faults (F.told folder.new).faults }
    ensures exact { WhereTold (F.told folder.old) (λ files. IfOk result (λ verdict.
        verdict ≡ option_map (λ bytes. verdict_of task.now bytes bound) (get files name.now))) }
    ensures sound { IfOk result (λ verdict. IfSome verdict (λ v. IsPlanIfGood task.now v)) }
    ensures bound { IfOk result (λ verdict. IfSome verdict (λ v. HeedsBound bound v)) }
{
    match read_whole(alloc, folder, name, MOST_PLAN_BYTES as u64)? {
        Whole::Missing => Ok(None),
        Whole::TooLong => Ok(Some(Verdict::Bad(PlanFault::Text(PlanTextFault::TooLong)))),
        Whole::Bytes(bytes) => match judge(alloc, task, &bytes, bound) {
            Ok(verdict) => Ok(Some(verdict)),
            Err(NoMemory) => Err(ReadError::NoMemory),
        },
    }
}
