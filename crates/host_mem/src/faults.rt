// Failed calls, and changes that are made or not.
ghost use Rattle.std.specs.Prelude.{◌≡◌, ◌≤◌, ◌⊎◌, ◌/◌, Some, None, IfOk, OnErr, OnOk, IsSome};
ghost use Rattle.std.specs.Prelude.{IsErr};
ghost use Rattle.lama_host.specs.Folder.{Rose};
ghost use Rattle.host_mem.specs.declared.journal.Change.{Change};
ghost use Rattle.host_mem.specs.Outcomes.{Logged, share_of};

use crate::journal::Change;
use lama_host::{Failed, Piece};
use std::alloc::AllocError;

/// A call that fails because it is told to.
pub(crate) fn fail<T>(faults: &mut u64) -> Result<T, Failed>
    ensures err { IsErr result }
    ensures rose { Rose faults.old faults.new }
    ensures later { faults.old ≤ faults.new }
{
    *faults = faults.saturating_add(1);
    Err(Failed)
}

/// A call that fails because memory was refused.
pub(crate) fn refuse<T>(faults: &mut u64, refused: &mut u64) -> Result<T, Failed>
    ensures err { IsErr result }
    ensures rose { Rose faults.old faults.new }
    ensures later { faults.old ≤ faults.new }
    ensures refusal { Rose refused.old refused.new }
    ensures refusals { refused.old ≤ refused.new }
{
    *refused = refused.saturating_add(1);
    fail(faults)
}

/// What a call found, unless it is to fail.
pub(crate) fn unless_fault(
    fault: Option<bool>,
    faults: &mut u64,
    piece: Piece,
) -> Result<Piece, Failed>
    ensures ok { IfOk result (λ found. (found ≡ piece) × (fault ≡ None)) }
    ensures err { OnErr result (IsSome fault) }
    ensures later { faults.old ≤ faults.new }
    ensures failed { OnErr result (Rose faults.old faults.new) }
    ensures unspoilt { OnOk result (faults.new ≡ faults.old) }
{
    if fault.is_some() {
        return fail(faults);
    }
    Ok(piece)
}

/// How many of so many bytes are added: half of them where the call fails after its effect.
pub(crate) fn share(fault: Option<bool>, count: usize) -> usize
    ensures share { result ≡ share_of fault count }
    ensures within { result ≤ count }
{
    if fault == Some(true) {
        count / 2
    } else {
        count
    }
}

/// Makes a change, or fails before or after it.
pub(crate) fn log(
    journal: &mut Vec<Change>,
    faults: &mut u64,
    refused: &mut u64,
    fault: Option<bool>,
    made: Result<Change, AllocError>,
) -> Result<(), Failed>
    ensures logged { (change : Change) → IfOk made (λ it. it ≡ change)
        → Logged fault result refused.old refused.new journal.old.items journal.new.items change }
    ensures later { faults.old ≤ faults.new }
    ensures failed { OnErr result (Rose faults.old faults.new) }
    ensures refusals { refused.old ≤ refused.new }
    ensures only { OnErr result (IsSome fault ⊎ Rose refused.old refused.new) }
    ensures listed { IsSome fault → IsErr result }
    ensures unspoilt { OnOk result ((faults.new ≡ faults.old) × (refused.new ≡ refused.old)) }
{
    if fault == Some(false) {
        return fail(faults);
    }
    match made {
        Err(_) => refuse(faults, refused),
        Ok(change) => {
            if journal.push(change).is_err() {
                return refuse(faults, refused);
            }
            if fault == Some(true) {
                return fail(faults);
            }
            Ok(())
        }
    }
}
