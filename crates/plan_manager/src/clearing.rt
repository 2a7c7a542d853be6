// Taking the plan files of a base away.
ghost use Rattle.std.specs.Prelude.{◌+◌, ◌≡◌, ◌≤◌, length};
ghost use Rattle.std.specs.FinMap.{remove};
ghost use Rattle.lama_host.specs.Folder.{Keeps, Changes, Once};
ghost use Rattle.lama_num.specs.Names.{IsEntryNumber, child_name};
ghost use Rattle.plan_manager.specs.Clearing.{Clears, ClearsFamily, ClearsBetween};
ghost use Rattle.plan_manager.specs.Family.{family_name};
ghost use Rattle.lama_num.specs.declared.names.TheConstants.{MOST_PLANS};

use crate::families::FamilyFile;
use lama_host::{Failed, Folder};
use lama_num::{MOST_PLANS, NameBuf};

/// The numbers of the family end here.
pub(crate) const END: u32 = MOST_PLANS + 1;

/// Takes one name of the family away, if it is there.
fn remove_name<F: Folder>(folder: &mut F, base: &NameBuf, number: u32) -> Result<(), Failed>
    requires short { length base.now ≤ 230 }
    requires number { number ≤ MOST_PLANS }
    ensures keeps { Keeps (F.told folder.old) (F.told folder.new) result }
    ensures changes { Changes (F.told folder.old) (F.told folder.new)
        (Once result (λ files. remove files (family_name base.now number))) }
{
    folder.remove(FamilyFile::new(base, number).name())
}

/// Takes the names of the family away from one number up to another, without that.
pub(crate) fn remove_names<F: Folder>(
    folder: &mut F,
    base: &NameBuf,
    from: u32,
    end: u32,
) -> Result<(), Failed>
    requires short { length base.now ≤ 230 }
    requires end { end ≤ MOST_PLANS + 1 }
    ensures keeps { Keeps (F.told folder.old) (F.told folder.new) result }
    ensures changes { Changes (F.told folder.old) (F.told folder.new)
        (ClearsBetween result base.now from end) }
{
    for number in from..end {
        remove_name(folder, base, number)?;
    }
    Ok(())
}

/// Takes away `base.part` and the family of a base: the base itself and `base.1` to `base.9999`.
pub fn clear<F: Folder>(folder: &mut F, base: &NameBuf) -> Result<(), Failed>
    requires { length base.now ≤ 200 }
    ensures keeps { Keeps (F.told folder.old) (F.told folder.new) result }
    ensures changes { Changes (F.told folder.old) (F.told folder.new) (Clears result base.now) }
{
    folder.remove(base.part().text())?;
    remove_names(folder, base, 0, END)
}

/// Takes away the family of the base that the child of a portfolio entry writes to: `base.cE` and
/// `base.cE.1` to `base.cE.9999`.
pub fn clear_child<F: Folder>(folder: &mut F, base: &NameBuf, entry: u32) -> Result<(), Failed>
    requires short { length base.now ≤ 200 }
    requires entry { IsEntryNumber entry }
    ensures keeps { Keeps (F.told folder.old) (F.told folder.new) result }
    ensures changes { Changes (F.told folder.old) (F.told folder.new)
        (ClearsFamily result (child_name base.now entry)) }
{
    remove_names(folder, &base.child(entry), 0, END)
}
