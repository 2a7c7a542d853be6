// Why there is no plan, want of memory included.
ghost use Rattle.std.specs.Prelude.{◌≡◌};
ghost use Rattle.plan_check.specs.declared.refusals.Refusal.TheVariants.{Bad as TheBad};
ghost use Rattle.plan_check.specs.declared.refusals.Refusal.TheVariants.{NoMemory as OutOfMemory};

use crate::verdicts::PlanFault;
use lama_num::NoMemory;
use std::alloc::{AllocError, AllocFailed};

/// Why a plan text is refused, or that memory is wanting.
#[derive(Clone, Copy)]
pub enum Refusal {
    Bad(PlanFault),
    NoMemory,
}

impl From<PlanFault> for Refusal {
    ghost from_gives = { λ fault e. e ≡ TheBad fault };

    fn from(fault: PlanFault) -> Refusal {
        Refusal::Bad(fault)
    }
}

impl From<NoMemory> for Refusal {
    ghost from_gives = { λ _ e. e ≡ OutOfMemory };

    fn from(_: NoMemory) -> Refusal {
        Refusal::NoMemory
    }
}

impl From<AllocError> for Refusal {
    ghost from_gives = { λ _ e. e ≡ OutOfMemory };

    fn from(_: AllocError) -> Refusal {
        Refusal::NoMemory
    }
}

impl<T: Drop> From<AllocFailed<T>> for Refusal {
    ghost from_gives = { λ _ e. e ≡ OutOfMemory };

    fn from(_: AllocFailed<T>) -> Refusal {
        Refusal::NoMemory
    }
}
