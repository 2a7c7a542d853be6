// Choices of operators, kept as links to where they come from.
ghost use Rattle.std.specs.Prelude.{ℕ, List, IfOk};
ghost use Rattle.plan_check.specs.Layers.{Leads};

use std::alloc::{AllocError, Global};

/// The last operator of a choice, and where the link of the one before it lies. For a first
/// operator the place isn't used.
#[derive(Clone, Copy, PartialEq, Eq)]
pub struct Link {
    pub from: u32,
    pub op: u32,
}

/// The choice of so many operators to which the link at a place belongs.
pub fn trace(
    alloc: Global,
    links: &[Link],
    steps: usize,
    place: usize,
) -> Result<Vec<u32>, AllocError>
    requires { (ops : List ℕ) × Leads links.now steps place ops }
    ensures { IfOk result (λ found. Leads links.now steps place found.items) }
{
    let mut ops = Vec::new(alloc);
    let mut at = place;
    for _ in 0..steps {
        let link = links[at];
        ops.push(link.op)?;
        at = link.from as usize;
    }
    ops.reverse();
    Ok(ops)
}
