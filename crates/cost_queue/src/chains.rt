// Chains of numbers: for each low price the first of those that wait under it.
ghost use Rattle.std.specs.Prelude.{◌≡◌, ◌+◌, ◌<◌, ◌≤◌, ℕ, max, length, None, Some};
ghost use Rattle.std.specs.Prelude.{Option, slice_get, slice_index_or, IfSome, MatchOption};

use crate::entry::Entry;
use crate::link::Link;

/// Prices below this one have chains.
pub const LOW: usize = 16_384;

/// Lets an end lie behind a price. It is mostly there already, so that it isn't written again.
pub fn raise(end: &mut usize, price: usize)
    requires { price < 16384 }
    ensures { end.new ≡ max end.old (price + 1) }
{
    if price >= *end {
        *end = price + 1;
    }
}

/// The first of the chain with the lowest price between two prices, if one of them has any.
pub fn first_low(heads: &[Link], start: usize, end: usize) -> Option<Entry>
    requires within { end ≤ length heads.now }
    requires few { end ≤ 16384 }
    ensures none { MatchOption result ((price : ℕ) → start ≤ price → price < end →
        slice_index_or heads.now price None ≡ None)
        (λ entry. (price : ℕ) → start ≤ price → price < entry.price →
        slice_index_or heads.now price None ≡ None) }
    ensures some { IfSome result (λ entry. (entry.price < end) ×
        (slice_get heads.now entry.price ≡ Some (Some entry.number))) }
{
    for price in start..end {
        if let Some(number) = heads[price].number() {
            return Some(Entry {
                price: price as u32,
                number,
            });
        }
    }
    None
}
