// An entry's portion of the time that is left.
ghost use Rattle.std.specs.Prelude.{◌≡◌, ◌+◌, ◌*◌, ◌^◌, ◌<◌, ◌≤◌, true, length, drop, slice_index};
ghost use Rattle.std.specs.List.{list_all};
ghost use Rattle.driver_core.specs.Settings.{is_share};
ghost use Rattle.driver_core.specs.Rounds.{portion_of};
ghost use Rattle.driver_core.specs.States.{marked_time};

/// The portion of the entry at this place, by its relative time and those of the marked ones behind
/// it.
pub(crate) fn portion(left: u64, shares: &[u32], marks: &[bool], place: usize) -> u64
    requires within { place < length shares.now }
    requires same { length marks.now ≡ length shares.now }
    requires few { length shares.now ≤ 1000 }
    requires each { list_all is_share shares.now ≡ true }
    ensures { let own = slice_index shares.now place in
        let behind = marked_time (drop (place + 1) shares.now) (drop (place + 1) marks.now) in
        result ≡ portion_of left own (own + behind) }
{
    let own = u64::from(shares[place]);
    let all = own + total(&shares[place + 1..], &marks[place + 1..]);
    let portion = u128::from(left) * u128::from(own) / u128::from(all);
    (portion as u64).max(1)
}

/// The relative times of the marked entries together.
fn total(shares: &[u32], marks: &[bool]) -> u64
    requires same { length marks.now ≡ length shares.now }
    requires few { length shares.now ≤ 1000 }
    ensures value { result ≡ marked_time shares.now marks.now }
    ensures small { result ≤ 1000 * 2 ^ 32 }
{
    let mut total = 0;
    for place in 0..shares.len() {
        if marks[place] {
            total += u64::from(shares[place]);
        }
    }
    total
}
