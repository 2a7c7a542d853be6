// Why bytes are no plan file.
ghost use Rattle.std.specs.Prelude.{◌≡◌};
ghost use Rattle.plan_text.specs.declared.faults.PlanTextError.TheVariants.{Bad as TheBad};
ghost use Rattle.plan_text.specs.declared.faults.PlanTextError.TheVariants.{NoMemory as NoRoom};

use std::alloc::{AllocError, AllocFailed};
use thiserror::Error;

/// The first fault of bytes that are no plan file. Lines are numbered from 1.
#[derive(Clone, Copy, Debug, PartialEq, Eq)]
pub enum PlanTextFault {
    /// There is no cost line, or the text ends within a line before it.
    CutShort,
    /// The line is neither a step nor the cost line, or it isn't empty and stands behind that.
    BadLine { line: u64 },
    /// The cost is above `u64::MAX`.
    BadCost,
    /// There are more than 67,108,864 bytes.
    TooLong,
}

/// Why there are no lines of a plan.
#[derive(Clone, Copy, Debug, PartialEq, Eq, Error)]
pub enum PlanTextError {
    #[error("refused")]
    Bad(PlanTextFault),
    #[error("out of memory")]
    NoMemory,
}

impl From<PlanTextFault> for PlanTextError {
    ghost from_gives = { λ fault e. e ≡ TheBad fault };

    fn from(fault: PlanTextFault) -> PlanTextError {
        PlanTextError::Bad(fault)
    }
}

impl From<AllocError> for PlanTextError {
    ghost from_gives = { λ _ e. e ≡ NoRoom };

    fn from(_: AllocError) -> PlanTextError {
        PlanTextError::NoMemory
    }
}

impl<T: Drop> From<AllocFailed<T>> for PlanTextError {
    ghost from_gives = { λ _ e. e ≡ NoRoom };

    fn from(_: AllocFailed<T>) -> PlanTextError {
        PlanTextError::NoMemory
    }
}
