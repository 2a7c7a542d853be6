// How children begin and end.
ghost use Rattle.std.specs.Prelude.{◌≡◌, ◌≤◌, ◌<◌, ◌⊎◌, ◌∷◌, ◌++◌, [], reverse, length, vec_len};
ghost use Rattle.std.specs.Prelude.{Some, None, IfOk, OnErr, OnOk, IsSome, IsErr, IsOk, IsTrue};
ghost use Rattle.std.specs.Prelude.{false, Ok};
ghost use Rattle.std.specs.Vec.{vec_capacity};
ghost use Rattle.lama_host.specs.Folder.{Rose};
ghost use Rattle.host_mem.specs.declared.journal.Change.{Change};
ghost use Rattle.host_mem.specs.Outcomes.{HasBegun, answer_unless};
ghost use Rattle.host_mem.specs.Scripts.{next_script, later_scripts};

use crate::children::{Running, Script, Start, take_script};
use crate::faults::{fail, refuse};
use crate::journal::Change;
use lama_host::{ChildEnd, Failed};
use lama_num::Seq;
use std::alloc::{AllocError, Global};

/// The entry of a child's end: how it ended, unless the wait is to fail.
pub(crate) fn ended(
    writes: Seq<(Seq<u8>, Option<Seq<u8>>)>,
    outcome: ChildEnd,
    fault: Option<bool>,
) -> Change
    ensures { result ≡ Change.Ended writes (answer_unless fault outcome) }
{
    match fault {
        None => Change::Ended(writes, Some(outcome)),
        Some(_) => Change::Ended(writes, None),
    }
}

/// What a wait answers.
pub(crate) fn answer(waited: Result<(), Failed>, outcome: ChildEnd) -> Result<ChildEnd, Failed>
    ensures ok { OnOk waited (result ≡ Ok outcome) }
    ensures err { OnErr waited (IsErr result) }
{
    match waited {
        Ok(()) => Ok(outcome),
        Err(failed) => Err(failed),
    }
}

/// Makes room for one element more.
fn has_room<T>(items: &mut Vec<T>) -> bool
    ensures same { items.new.items ≡ items.old.items }
    ensures room { IsTrue result → vec_len items.new < vec_capacity items.new }
{
    items.reserve(1).is_ok()
}

/// Adds an element where there is room.
fn add<T: Drop>(items: &mut Vec<T>, item: T)
    requires { vec_len items.old < vec_capacity items.old }
    ensures { items.new.items ≡ items.old.items ++ item ∷ [] }
{
    let _ = items.push(item);
}

/// Starts a child with the next script, or fails and changes nothing.
pub(crate) fn begin(
    journal: &mut Vec<Change>,
    running: &mut Vec<Running>,
    starts: &mut Vec<Start>,
    scripts: &mut Vec<Script>,
    faults: &mut u64,
    refused: &mut u64,
    alloc: Global,
    fault: Option<bool>,
    slot: u32,
    start: Result<Start, AllocError>,
) -> Result<(), Failed>
    ensures journal { OnErr result (journal.new.items ≡ journal.old.items) }
    ensures running { OnErr result (running.new.items ≡ running.old.items) }
    ensures starts { OnErr result (starts.new.items ≡ starts.old.items) }
    ensures scripts { OnErr result (scripts.new.items ≡ scripts.old.items) }
    ensures begun { OnOk result
        (HasBegun running.old.items running.new.items slot (next_script (reverse scripts.old.items))
        starts.old.items journal.old.items journal.new.items) }
    ensures start { OnOk result
        (IfOk start (λ it. starts.new.items ≡ starts.old.items ++ it ∷ [])) }
    ensures copied { OnOk result (IsOk start) }
    ensures later_scripts { OnOk result
        (reverse scripts.new.items ≡ later_scripts (reverse scripts.old.items)) }
    ensures later { faults.old ≤ faults.new }
    ensures failed { OnErr result (Rose faults.old faults.new) }
    ensures refusals { refused.old ≤ refused.new }
    ensures only { OnErr result (IsSome fault ⊎ Rose refused.old refused.new) }
    ensures listed { IsSome fault → IsErr result }
    ensures unspoilt { OnOk result ((faults.new ≡ faults.old) × (refused.new ≡ refused.old)) }
{
    if fault.is_some() {
        return fail(faults);
    }
    let Ok(start) = start else {
        return refuse(faults, refused);
    };
    if !has_room(journal) || !has_room(running) || !has_room(starts) {
        return refuse(faults, refused);
    }
    add(journal, Change::Began(starts.len(), running.is_empty()));
    add(
        running,
        Running {
            slot,
            script: take_script(alloc, scripts),
        },
    );
    add(starts, start);
    Ok(())
}
