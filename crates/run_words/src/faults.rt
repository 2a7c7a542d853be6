// Why words make no request.
ghost use Rattle.std.specs.Prelude.{◌≡◌};
ghost use Rattle.run_words.specs.declared.faults.WordsError.TheVariants.{Bad as TheBad};
ghost use Rattle.run_words.specs.declared.faults.WordsError.TheVariants.{NoMemory as OutOfMemory};

use std::alloc::{AllocError, AllocFailed};
use thiserror::Error;

/// What is wrong with the words.
#[derive(Clone, Copy, Debug, PartialEq, Eq)]
pub enum WordsFault {
    /// They aren't a line of the command.
    Refused,
    /// Neither a task nor `--gen` is given, or both are.
    NoTask,
    /// More than one of `--alias`, `--search` and `--portfolio` is given.
    TwoWorks,
    /// A value can't be read, or is out of range.
    BadValue(Opt),
    /// There is no such alias.
    UnknownAlias,
    /// A portfolio is given, and no `--overall-time-limit`.
    NeedsTimeLimit,
    /// The task or the portfolio has the name of a plan file, of the one that is being written, or
    /// of a child's.
    NameClash,
}

/// An option with a value that may be refused; or the task's name, or the portfolio's.
#[derive(Clone, Copy, Debug, PartialEq, Eq)]
pub enum Opt {
    PlanFile,
    Bound,
    TimeLimit,
    ChildMemory,
    Gen,
    TaskName,
    PortfolioName,
}

/// What is asked for and isn't done: the translator, the validator, or a child program where none
/// is started. The last isn't asked for by words.
#[derive(Clone, Copy, Debug, PartialEq, Eq)]
pub enum Asked {
    Translate,
    Validate,
    Child,
}

/// Why there is no request.
#[derive(Clone, Copy, Debug, PartialEq, Eq, Error)]
pub enum WordsError {
    #[error("refused")]
    Bad(WordsFault),
    #[error("unsupported")]
    Asked(Asked),
    #[error("out of memory")]
    NoMemory,
}

impl From<WordsFault> for WordsError {
    ghost from_gives = { λ fault e. e ≡ TheBad fault };

    fn from(fault: WordsFault) -> WordsError {
        WordsError::Bad(fault)
    }
}

impl From<AllocError> for WordsError {
    ghost from_gives = { λ _ e. e ≡ OutOfMemory };

    fn from(_: AllocError) -> WordsError {
        WordsError::NoMemory
    }
}

impl<T: Drop> From<AllocFailed<T>> for WordsError {
    ghost from_gives = { λ _ e. e ≡ OutOfMemory };

    fn from(_: AllocFailed<T>) -> WordsError {
        WordsError::NoMemory
    }
}
