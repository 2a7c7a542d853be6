// The codes of a part of a run.
ghost use Rattle.std.specs.Prelude.{◌≡◌};
ghost use Rattle.std.specs.FinSet as set;
ghost use Rattle.exit_codes.specs.Parts.{norm_of, planned, status_codes};

use crate::sets::Codes;

/// How a part of a run ended: an entry of the driver, or the run as a whole.
#[derive(Clone, Copy, PartialEq, Eq)]
pub enum Part {
    /// A search of this process proved that no plan exists.
    Unsolvable,
    /// A search of this process has nothing more to try: its plan is best, or it found none.
    Exhausted,
    /// The entry stopped because the run was over.
    Over,
    /// A search of this process met its limit of time.
    Limit,
    /// A search of this process ran out of memory.
    NoMemory,
    /// A child ended by itself; `kept` says whether a plan of the entry was kept.
    Status { status: u8, kept: bool },
    /// A signal ended a child; `passed` says whether the entry's share of the time had passed.
    Signal { passed: bool },
    /// The time of the whole run was over.
    OutOfTime,
    /// As many plans were kept as a run may keep.
    PlanLimit,
}

/// The codes of a part.
pub fn norm(part: Part) -> Codes
    ensures { result ≡ norm_of part }
{
    match part {
        Part::Unsolvable => Codes::none().with(11),
        Part::Exhausted => Codes::none().with(12),
        Part::Over => Codes::none(),
        Part::Limit | Part::OutOfTime | Part::PlanLimit => Codes::none().with(23),
        Part::NoMemory => Codes::none().with(22),
        Part::Status { status, kept } => status_set(status, kept),
        Part::Signal { passed: true } => Codes::none().with(23),
        Part::Signal { passed: false } => Codes::none().with(32),
    }
}

/// The codes of a child that ended by itself.
fn status_set(status: u8, kept: bool) -> Codes
    ensures { result ≡ set.from_list (status_codes status kept) }
{
    match status {
        0 => planned_set(kept),
        1 => planned_set(kept).with(22),
        2 => planned_set(kept).with(23),
        3 => planned_set(kept).with(23).with(22),
        11 | 12 => Codes::none().with(12),
        22 => Codes::none().with(22),
        23 => Codes::none().with(23),
        24 => Codes::none().with(23).with(22),
        30..=39 => Codes::none().with(status),
        _ => Codes::none().with(32),
    }
}

/// The codes of a child that may have found plans and met no limit.
fn planned_set(kept: bool) -> Codes
    ensures { result ≡ set.from_list (planned kept) }
{
    if kept {
        Codes::none()
    } else {
        Codes::none().with(12)
    }
}
