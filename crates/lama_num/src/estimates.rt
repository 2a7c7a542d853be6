// Estimates of the cost to a goal.
ghost use Rattle.std.specs.Prelude.{◌≡◌};
ghost use Rattle.lama_num.specs.Estimates.{estimate_sum};

/// The largest finite sum of estimates: sums stop there.
pub const LARGEST_ESTIMATE: u32 = 1_000_000_000;

/// An estimate of the cost to a goal, in units of operator cost.
#[derive(Clone, Copy, PartialEq, Eq)]
pub enum Estimate {
    Finite(u32),
    /// The goal can't be reached.
    Infinite,
}

impl Estimate {
    /// The sum, at most `LARGEST_ESTIMATE`; infinite where either is.
    pub fn plus(self, other: Estimate) -> Estimate
        ensures { result ≡ estimate_sum self other }
    {
        match (self, other) {
            (Estimate::Finite(a), Estimate::Finite(b)) => {
                Estimate::Finite(a.saturating_add(b).min(LARGEST_ESTIMATE))
            }
            _ => Estimate::Infinite,
        }
    }
}
