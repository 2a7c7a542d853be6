// Sealing: afterwards the folder holds just the plans.
ghost use Rattle.std.specs.Prelude.{◌+◌, ◌≡◌, ◌≢◌, ◌≤◌, ◌<◌, ◌^◌, [], length, false, if◌then◌else◌};
ghost use Rattle.lama_host.specs.Folder.{Keeps, Changes};
ghost use Rattle.lama_num.specs.Names.{part_name};
ghost use Rattle.plan_text.specs.PlanText.{plan_text};
ghost use Rattle.plan_manager.specs.Family.{family_name};
ghost use Rattle.plan_manager.specs.Sealing.{HaveFewSteps, Seals, Rewrites, SealsBetween};
ghost use Rattle.lama_num.specs.declared.names.TheConstants.{MOST_PLANS};

use crate::clearing::{END, remove_names};
use crate::comparing::holds;
use crate::families::FamilyFile;
use crate::keeping::place;
use crate::text::{TextRest, last_line};
use lama_host::{Failed, Folder};
use lama_num::NameBuf;
use sas_task::{Kept, Task};

/// Writes a plan again where its file holds anything else.
fn rewrite<F: Folder>(
    folder: &mut F,
    draft: &str,
    target: &str,
    task: &Task,
    ops: &[u32],
) -> Result<(), Failed>
    requires idle { (F.told folder.old).busy ≡ [] }
    requires apart { target.now ≢ draft.now }
    requires few { length ops.now < 2 ^ 32 }
    ensures keeps { Keeps (F.told folder.old) (F.told folder.new) result }
    ensures changes { Changes (F.told folder.old) (F.told folder.new)
        (Rewrites result draft.now target.now (plan_text task.now ops.now)) }
{
    let last = last_line(task, ops);
    let mut text = TextRest::new(task, ops, last.as_str().as_bytes());
    match holds(folder, target, &mut text) {
        Err(e) => Err(e),
        Ok(true) => Ok(()),
        Ok(false) => place(folder, draft, target, task, ops),
    }
}

/// The same of a name of the family.
fn rewrite_name<F: Folder>(
    folder: &mut F,
    base: &NameBuf,
    number: u32,
    task: &Task,
    ops: &[u32],
) -> Result<(), Failed>
    requires idle { (F.told folder.old).busy ≡ [] }
    requires short { length base.now ≤ 200 }
    requires number { number ≤ MOST_PLANS }
    requires few { length ops.now < 2 ^ 32 }
    ensures keeps { Keeps (F.told folder.old) (F.told folder.new) result }
    ensures changes { Changes (F.told folder.old) (F.told folder.new)
        (Rewrites result (part_name base.now) (family_name base.now number)
        (plan_text task.now ops.now)) }
{
    let draft = base.part();
    let file = FamilyFile::new(base, number);
    rewrite(folder, draft.text(), file.name(), task, ops)
}

/// The number, in the family, of the first plan.
fn first_number(many: bool) -> u32
    ensures { result ≡ (if many then 1 else 0) }
{
    if many { 1 } else { 0 }
}

/// Makes the family hold just the kept plans.
fn seal_family<F: Folder>(
    folder: &mut F,
    base: &NameBuf,
    many: bool,
    task: &Task,
    kept: &[Kept],
) -> Result<(), Failed>
    requires idle { (F.told folder.old).busy ≡ [] }
    requires short { length base.now ≤ 200 }
    requires few { length kept.now ≤ MOST_PLANS }
    requires single { many ≡ false → length kept.now ≤ 1 }
    requires steps { HaveFewSteps kept.now }
    ensures keeps { Keeps (F.told folder.old) (F.told folder.new) result }
    ensures changes { Changes (F.told folder.old) (F.told folder.new)
        (SealsBetween result base.now many task.now kept.now 0 (MOST_PLANS + 1)) }
{
    let first = first_number(many);
    remove_names(folder, base, 0, first)?;
    for (index, plan) in kept.iter().enumerate() {
        rewrite_name(folder, base, first + index as u32, task, &plan.ops)?;
    }
    remove_names(folder, base, first + kept.len() as u32, END)
}

/// Makes the folder hold just the kept plans: with `many` `base.1`, `base.2` and so on, without it
/// the base itself. What a file holds already isn't written again, and all other names of the
/// family and `base.part` are taken away. The costs in the texts are added up from the operators.
pub fn seal<F: Folder>(
    folder: &mut F,
    base: &NameBuf,
    many: bool,
    task: &Task,
    kept: &[Kept],
) -> Result<(), Failed>
    requires idle { (F.told folder.old).busy ≡ [] }
    requires short { length base.now ≤ 200 }
    requires few { length kept.now ≤ MOST_PLANS }
    requires single { many ≡ false → length kept.now ≤ 1 }
    requires steps { HaveFewSteps kept.now }
    ensures keeps { Keeps (F.told folder.old) (F.told folder.new) result }
    ensures changes { Changes (F.told folder.old) (F.told folder.new)
        (Seals result base.now many task.now kept.now) }
{
    seal_family(folder, base, many, task, kept)?;
    folder.remove(base.part().text())
}
