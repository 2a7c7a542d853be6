// Why bytes are no task.
ghost use Rattle.std.specs.Prelude.{◌≡◌};
ghost use Rattle.sas_reader.specs.declared.faults.SasError.TheVariants.{Bad as TheBad};
ghost use Rattle.sas_reader.specs.declared.faults.SasError.TheVariants.{NoMemory as OutOfMemory};

use sas_task::What;
use std::alloc::{AllocError, AllocFailed};
use thiserror::Error;

/// What a line was wanted to be.
#[derive(Clone, Copy, Debug, PartialEq, Eq)]
pub enum Want {
    /// A word that the format fixes.
    Word,
    /// The version, 3.
    Version,
    /// Whether there is a metric, 0 or 1.
    Metric,
    /// A name.
    Name,
}

/// The first fault of bytes that are no task. Lines are numbered from 1.
#[derive(Clone, Copy, Debug, PartialEq, Eq)]
pub enum SasFault {
    /// The line isn't the word, version, metric or name that is wanted.
    BadLine { line: u64, want: Want },
    /// The line isn't the wanted count of numbers, or a range is 0.
    BadNumber { line: u64 },
    /// A variable or a value is out of range, or an effect is on a derived variable.
    BadFact { line: u64 },
    /// A rule's head isn't on a derived variable, or a condition lies in too high a layer.
    BadRule { line: u64 },
    /// A line is wanted and none is left; it would have this number.
    CutShort { line: u64 },
    /// A line that isn't empty stands behind the last part.
    Trailing { line: u64 },
    /// A quantity is above its limit.
    TooLarge { what: What, count: u64 },
    /// A derived variable has a number of values other than 2.
    WideDerived { var: u32 },
}

/// Why there is no task.
#[derive(Clone, Copy, Debug, PartialEq, Eq, Error)]
pub enum SasError {
    #[error("refused")]
    Bad(SasFault),
    #[error("out of memory")]
    NoMemory,
}

impl From<SasFault> for SasError {
    ghost from_gives = { λ fault e. e ≡ TheBad fault };

    fn from(fault: SasFault) -> SasError {
        SasError::Bad(fault)
    }
}

impl From<AllocError> for SasError {
    ghost from_gives = { λ _ e. e ≡ OutOfMemory };

    fn from(_: AllocError) -> SasError {
        SasError::NoMemory
    }
}

impl<T: Drop> From<AllocFailed<T>> for SasError {
    ghost from_gives = { λ _ e. e ≡ OutOfMemory };

    fn from(_: AllocFailed<T>) -> SasError {
        SasError::NoMemory
    }
}
