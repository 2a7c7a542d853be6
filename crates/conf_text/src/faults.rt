// Why a text is no configuration.
ghost use Rattle.std.specs.Prelude.{◌≡◌};
ghost use Rattle.conf_text.specs.declared.faults.ConfError.TheVariants.{Bad as TheBad};
ghost use Rattle.conf_text.specs.declared.faults.ConfError.TheVariants.{NoMemory as OutOfMemory};

use std::alloc::{AllocError, AllocFailed};
use thiserror::Error;

/// What is wrong with a token.
#[derive(Clone, Copy, Debug, PartialEq, Eq)]
pub enum ConfKind {
    /// The text ends where a token is wanted.
    CutShort,
    /// A word that is no guide, where a guide is wanted.
    UnknownGuide,
    /// A guide that stood in this list.
    TwiceGuide,
    /// A preferred guide that isn't among the phase's guides, or `add`.
    NotGuide,
    /// A word that is no option of this phase, where an option is wanted.
    UnknownOption,
    /// An option that stood in this phase.
    TwiceOption,
    /// No number, or one out of range, where a number is wanted.
    BadNumber,
    /// The word of a phase, behind as many phases as there may be.
    TooMany,
    /// A token behind the configuration.
    Trailing,
    /// Any other token that can't stand where it stands.
    Unexpected,
}

/// The first token that can't stand where it stands.
#[derive(Clone, Copy, Debug, PartialEq, Eq)]
pub struct ConfBad {
    /// Its first byte, counted from 0; the text's length where the text ends too soon.
    pub place: u64,
    pub kind: ConfKind,
}

/// Why there is no configuration.
#[derive(Clone, Copy, Debug, PartialEq, Eq, Error)]
pub enum ConfError {
    #[error("refused")]
    Bad(ConfBad),
    #[error("out of memory")]
    NoMemory,
}

impl From<ConfBad> for ConfError {
    ghost from_gives = { λ bad e. e ≡ TheBad bad };

    fn from(bad: ConfBad) -> ConfError {
        ConfError::Bad(bad)
    }
}

impl From<AllocError> for ConfError {
    ghost from_gives = { λ _ e. e ≡ OutOfMemory };

    fn from(_: AllocError) -> ConfError {
        ConfError::NoMemory
    }
}

impl<T: Drop> From<AllocFailed<T>> for ConfError {
    ghost from_gives = { λ _ e. e ≡ OutOfMemory };

    fn from(_: AllocFailed<T>) -> ConfError {
        ConfError::NoMemory
    }
}
