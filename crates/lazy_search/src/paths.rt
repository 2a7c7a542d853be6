// How each visit came about.
ghost use Rattle.std.specs.Prelude.{◌≡◌, ◌<◌, ℕ, List, length, IfOk};
ghost use Rattle.lazy_search.specs.Origins.{Traced, AreEarlier};

use lama_num::NoMemory;
use std::alloc::Global;

/// From which visit a visit came, by which operator. The first visit has none: its origin is never
/// read.
#[derive(Clone, Copy)]
pub(crate) struct Origin {
    pub origin: u32,
    pub op: u32,
}

/// The operators that led to a visit, which is given by its number.
pub(crate) fn path_to(alloc: Global, origins: &[Origin], visit: usize) -> Result<Vec<u32>, NoMemory>
    requires visit { visit < length origins.now }
    requires earlier { AreEarlier origins.now }
    ensures { IfOk result (λ path. Traced origins.now visit path.items) }
{
    let mut path = Vec::new(alloc);
    let mut at = visit;
    while at > 0 {
        let came = origins[at];
        path.push(came.op)?;
        at = came.origin as usize;
    }
    path.reverse();
    Ok(path)
}
