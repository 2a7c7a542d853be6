// Bounds on costs.
ghost use Rattle.std.specs.Prelude.{◌≡◌};
ghost use Rattle.lama_num.specs.Bounds.{is_below as below};

/// Whether a cost is below the bound, if there is one.
pub fn is_below(bound: Option<u64>, cost: u64) -> bool
    ensures { result ≡ below bound cost }
{
    match bound {
        None => true,
        Some(bound) => cost < bound,
    }
}
