// The count of failed calls.
ghost use Rattle.std.specs.Prelude.{◌≡◌, ◌≤◌, IfOk, OnErr, is_ok};
ghost use Rattle.lama_host.specs.Folder.{Rose};

use lama_host::Failed;
use std::io;

/// Counts a failed call, want of memory too. The count stands still at its end.
pub fn counted<T: Drop>(faults: &mut u64, answer: io::Result<T>) -> Result<T, Failed>
    ensures answer { IfOk result (λ value. answer ≡ Ok value) }
    ensures same { is_ok result ≡ is_ok answer }
    ensures later { faults.old ≤ faults.new }
    ensures failed { OnErr result (Rose faults.old faults.new) }
{
    match answer {
        Ok(value) => Ok(value),
        Err(_) => {
            *faults = faults.saturating_add(1);
            Err(Failed)
        }
    }
}
