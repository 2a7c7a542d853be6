// Why a text is no portfolio.
ghost use Rattle.std.specs.Prelude.{◌≡◌};
ghost use Rattle.portfolio_text.specs.declared.faults.PortError.TheVariants.{Bad as TheBad};
ghost use Rattle.portfolio_text.specs.declared.faults.PortError.TheVariants.{NoMemory as NoRoom};

use std::alloc::{AllocError, AllocFailed};
use thiserror::Error;

/// What is wrong with a line, or with the whole text.
#[derive(Clone, Copy, Debug, PartialEq, Eq)]
pub enum PortKind {
    /// The text has more than 1,048,576 bytes.
    TooLong,
    /// The text isn't UTF-8, or holds a NUL byte.
    BadText,
    /// The first line isn't `portfolio 1`.
    BadHead,
    /// The share is no number, or out of range.
    BadShare,
    /// There is no such alias.
    UnknownAlias,
    /// The configuration is refused.
    BadConfig,
    /// A line that is neither an entry nor `end`.
    BadEntry,
    /// An entry behind as many as there may be.
    TooMany,
    /// `end` without an entry before it.
    NoEntry,
    /// There is no `end`.
    CutShort,
    /// A line behind `end`.
    Trailing,
}

/// The first fault of a text.
#[derive(Clone, Copy, Debug, PartialEq, Eq)]
pub struct PortBad {
    /// The number of its line, from 1; 0 for the whole text, and one more than there are lines
    /// where there is no `end`.
    pub line: u64,
    pub kind: PortKind,
}

/// Why there is no portfolio.
#[derive(Clone, Copy, Debug, PartialEq, Eq, Error)]
pub enum PortError {
    #[error("refused")]
    Bad(PortBad),
    #[error("out of memory")]
    NoMemory,
}

impl From<PortBad> for PortError {
    ghost from_gives = { λ bad e. e ≡ TheBad bad };

    fn from(bad: PortBad) -> PortError {
        PortError::Bad(bad)
    }
}

impl From<AllocError> for PortError {
    ghost from_gives = { λ _ e. e ≡ NoRoom };

    fn from(_: AllocError) -> PortError {
        PortError::NoMemory
    }
}

impl<T: Drop> From<AllocFailed<T>> for PortError {
    ghost from_gives = { λ _ e. e ≡ NoRoom };

    fn from(_: AllocFailed<T>) -> PortError {
        PortError::NoMemory
    }
}
