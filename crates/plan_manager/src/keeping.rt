// Writing a plan.
ghost use Rattle.std.specs.Prelude.{◌≡◌, ◌≢◌, ◌≤◌, [], length, false};
ghost use Rattle.lama_host.specs.Folder.{Keeps, Changes};
ghost use Rattle.lama_num.specs.Names.{IsPlanNumber};
ghost use Rattle.plan_text.specs.PlanText.{plan_text};
ghost use Rattle.plan_manager.specs.Keeping.{Drafts, Places, PlacesPlan, plan_number};
ghost use Rattle.plan_manager.specs.TextRests.{text_left};

use crate::families::FamilyFile;
use crate::text::{TextRest, Window, last_line};
use lama_host::{Failed, Folder};
use lama_num::NameBuf;
use sas_task::{Kept, Task};

/// Writes a text to a file that it makes anew.
fn write_draft<F: Folder>(folder: &mut F, name: &str, text: &mut TextRest) -> Result<(), Failed>
    ensures keeps { Keeps (F.told folder.old) (F.told folder.new) result }
    ensures changes { Changes (F.told folder.old) (F.told folder.new)
        (Drafts result name.now (text_left text.old)) }
{
    folder.create(name)?;
    let mut window = Window::new();
    text.fill(&mut window);
    while !window.is_empty() {
        folder.append(name, window.as_slice())?;
        window.clear();
        text.fill(&mut window);
    }
    Ok(())
}

/// Writes the text of a plan to a draft, and moves that to the target, so that nobody sees half a
/// plan under the target's name.
pub(crate) fn place<F: Folder>(
    folder: &mut F,
    draft: &str,
    target: &str,
    task: &Task,
    ops: &[u32],
) -> Result<(), Failed>
    requires idle { (F.told folder.old).busy ≡ [] }
    requires apart { target.now ≢ draft.now }
    ensures keeps { Keeps (F.told folder.old) (F.told folder.new) result }
    ensures changes { Changes (F.told folder.old) (F.told folder.new)
        (Places result draft.now target.now (plan_text task.now ops.now)) }
{
    let last = last_line(task, ops);
    let mut text = TextRest::new(task, ops, last.as_str().as_bytes());
    write_draft(folder, draft, &mut text)?;
    folder.rename(draft, target)
}

/// The number, in the family, of a plan.
fn number_of(many: bool, number: u32) -> u32
    ensures { result ≡ plan_number many number }
{
    if many { number } else { 0 }
}

/// Keeps a plan: its text goes to `base.part`, and that is renamed. With `many` the plan's file is
/// `base.number`, without it is the base itself. The cost in the text is added up from the
/// operators.
pub fn keep<F: Folder>(
    folder: &mut F,
    base: &NameBuf,
    many: bool,
    number: u32,
    task: &Task,
    kept: &Kept,
) -> Result<(), Failed>
    requires idle { (F.told folder.old).busy ≡ [] }
    requires short { length base.now ≤ 200 }
    requires number { IsPlanNumber number }
    requires single { many ≡ false → number ≡ 1 }
    ensures keeps { Keeps (F.told folder.old) (F.told folder.new) result }
    ensures changes { Changes (F.told folder.old) (F.told folder.new)
        (PlacesPlan result base.now many number (plan_text task.now kept.now.ops)) }
{
    let draft = base.part();
    let file = FamilyFile::new(base, number_of(many, number));
    place(folder, draft.text(), file.name(), task, &kept.ops)
}
