// Which list a pop takes from, and what a boost makes of a counter.
ghost use Rattle.std.specs.Prelude.{if◌then◌else◌, ◌≡◌, ℕ, true, ◌-◌, ◌^◌, ◌<◌, ◌+◌, ◌↔◌, IsTrue};
ghost use Rattle.std.specs.Prelude.{IfSome, IfNone, length, slice_get, pos, negsuc, ◌+ℤ◌, ◌-ℤ◌};
ghost use Rattle.std.specs.Prelude.{◌≤ℤ◌};
ghost use Rattle.open_lists.specs.Lists.{TakesList, IsBestBefore, least_count_in, counter_in};

use crate::list::OpenList;

/// Whether a list is empty.
fn is_blank(lists: &[OpenList], i: usize) -> bool
    requires { i < length lists.now }
    ensures { IsTrue result ↔ (least_count_in (slice_get lists.now i) ≡ 0) }
{
    lists[i].queues.is_empty()
}

fn counter_of(lists: &[OpenList], i: usize) -> i64
    requires { i < length lists.now }
    ensures { result ≡ counter_in (slice_get lists.now i) }
{
    lists[i].counter
}

/// The list to take from among the first ones and one more.
fn better(lists: &[OpenList], i: usize, best: Option<usize>) -> Option<usize>
    requires within { i < length lists.now }
    requires so_far { IsBestBefore (λ m. least_count_in (slice_get lists.now m))
        (λ m. counter_in (slice_get lists.now m)) i best }
    ensures { IsBestBefore (λ m. least_count_in (slice_get lists.now m))
        (λ m. counter_in (slice_get lists.now m)) (i + 1) result }
{
    if is_blank(lists, i) {
        return best;
    }
    let Some(k) = best else {
        return Some(i);
    };
    if counter_of(lists, i) < counter_of(lists, k) {
        Some(i)
    } else {
        Some(k)
    }
}

/// The list that a pop takes from.
pub(crate) fn next_list(lists: &[OpenList]) -> Option<usize>
    ensures none { IfNone result ((k : ℕ) → least_count_in (slice_get lists.now k) ≡ 0) }
    ensures list { IfSome result
        (λ k. TakesList (length lists.now) (λ m. least_count_in (slice_get lists.now m))
        (λ m. counter_in (slice_get lists.now m)) k) }
{
    let mut best: Option<usize> = None;
    for i in 0..lists.len() {
        best = better(lists, i, best);
    }
    best
}

/// The counter of a list after a boost.
pub(crate) fn fallen(list: &OpenList, by: u32) -> i64
    requires { list.now.preferred_only ≡ true →
        (negsuc (2 ^ 63 - 1) +ℤ pos by) ≤ℤ list.now.counter }
    ensures { result ≡
        (if list.now.preferred_only then list.now.counter -ℤ pos by else list.now.counter) }
{
    if list.preferred_only {
        list.counter - i64::from(by)
    } else {
        list.counter
    }
}
