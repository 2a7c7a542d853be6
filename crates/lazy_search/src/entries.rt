// The entries that a visit puts into the open lists.
ghost use Rattle.std.specs.Prelude.{◌≡◌, ◌<◌, ◌≤◌, ◌+◌, ◌^◌, ℕ, nat_lt, true, min};
ghost use Rattle.std.specs.Prelude.{slice_index, OnOk, pos, negsuc, ◌+ℤ◌, ◌≤ℤ◌, ◌-◌};
ghost use Rattle.std.specs.Option.{ForSome};
ghost use Rattle.sas_task.specs.Runs.{cost_at};
ghost use Rattle.open_lists.specs.Lists.{list_count, is_preferred, counter, boost_of};
ghost use Rattle.lama_num.specs.Bounds.{is_below};
ghost use Rattle.search_log.specs.Pending.{key_by};
ghost use Rattle.lazy_search.specs.Shapes.{lists_by};
ghost use Rattle.lazy_search.specs.Entries.{puts_in, Puts, Expands, operators_below, is_less};

use crate::rows::LatestVisit;
use crate::shape::Shape;
use guide::Seen;
use lama_num::{NoMemory, is_below};
use open_lists::OpenLists;
use sas_task::{CostKind, Task};
use search_log::Setting;

/// The operators of a visit that have entries, and the preferred ones among them. They are filled
/// anew for each visit.
#[derive(Drop)]
pub(crate) struct Chosen {
    pub all: Vec<u32>,
    pub preferred: Vec<u32>,
}

/// The key of a visit's entries: the estimate, or in a weighted phase g plus weight times that.
fn key_for(weight: Option<u32>, g: u64, estimate: u32) -> u64
    requires weight { ForSome weight (λ w. w ≤ 1000) }
    requires g { g < 2 ^ 63 }
    ensures { result ≡ key_by weight g estimate }
{
    match weight {
        None => u64::from(estimate),
        Some(weight) => g + u64::from(weight) * u64::from(estimate),
    }
}

/// Whether what it costs to go on by an operator stays below the bound.
fn leads_below(task: &Task, bound: Option<u64>, real: u64, op: u32) -> bool
    requires { real < 2 ^ 63 }
    ensures { result ≡ is_below bound (real + cost_at task.now op) }
{
    let cost = task.adjusted_cost(op, CostKind::Normal);
    is_below(bound, real + u64::from(cost))
}

/// Keeps those operators by which the cost stays below the bound.
fn keep_below(
    task: &Task,
    bound: Option<u64>,
    real: u64,
    operators: &[u32],
    kept: &mut Vec<u32>,
) -> Result<(), NoMemory>
    requires { real < 2 ^ 63 }
    ensures { OnOk result (kept.new.items ≡ operators_below task.now bound real operators.now) }
{
    kept.clear();
    for op in operators {
        if leads_below(task, bound, real, *op) {
            kept.push(*op)?;
        }
    }
    Ok(())
}

/// Puts the entries of a visit into the lists of their sorts.
fn put_all(
    lists: &mut OpenLists,
    setting: &Setting,
    shape: Shape,
    row: LatestVisit,
    estimates: &[u32; 3],
    chosen: &Chosen,
) -> Result<(), NoMemory>
    requires lists { list_count lists.old ≡ lists_by shape }
    requires guides { shape.guides ≤ 3 }
    requires weight { ForSome setting.now.weight (λ w. w ≤ 1000) }
    requires g { row.g < 2 ^ 63 }
    ensures { OnOk result (Puts lists.old (lists_by shape) (puts_in setting.now shape row
        estimates.now chosen.now.all.items chosen.now.preferred.items) lists.new) }
{
    for list in 0..shape.lists() {
        let estimate = estimates[shape.guide_of(list) as usize];
        let key = key_for(setting.weight, row.g, estimate);
        let operators = if shape.is_for_preferred(list) {
            chosen.preferred.as_slice()
        } else {
            chosen.all.as_slice()
        };
        lists.insert_all(list, key, u64::from(row.number), operators)?;
    }
    Ok(())
}

/// Keeps the lesser, and answers whether the estimate is less.
fn lower(least: &mut u64, estimate: u32) -> bool
    ensures less { result ≡ nat_lt estimate least.old }
    ensures kept { least.new ≡ min least.old estimate }
{
    let estimate = u64::from(estimate);
    let is_less = estimate < *least;
    *least = estimate.min(*least);
    is_less
}

/// Keeps the least estimates of each guide, and answers whether one is less than what was kept.
fn lower_all(least: &mut [u64; 3], estimates: &[u32; 3], guides: u32) -> bool
    requires { guides ≤ 3 }
    ensures less { result ≡ is_less guides least.old estimates.now }
    ensures kept { (j : ℕ) → j < guides →
        slice_index least.new j ≡ min (slice_index least.old j) (slice_index estimates.now j) }
{
    let mut is_less = false;
    for j in 0..guides as usize {
        is_less |= lower(&mut least[j], estimates[j]);
    }
    is_less
}

/// An estimate has 32 bits.
pub(crate) fn are_short(estimates: &[u32; 3])
    ensures { (j : ℕ) → slice_index estimates.now j < 2 ^ 32 }
{
    let _first = estimates[0];
}

/// Puts the entries of a visit that is expanded, and boosts the lists for preferred operators where
/// the visit is progress.
pub(crate) fn expand(
    lists: &mut OpenLists,
    least: &mut [u64; 3],
    chosen: &mut Chosen,
    task: &Task,
    setting: &Setting,
    shape: Shape,
    row: LatestVisit,
    seen: &Seen,
    applicable: &[u32],
) -> Result<(), NoMemory>
    requires lists { list_count lists.old ≡ lists_by shape }
    requires guides { shape.guides ≤ 3 }
    requires weight { ForSome setting.now.weight (λ w. w ≤ 1000) }
    requires g { row.g < 2 ^ 63 }
    requires real { row.real < 2 ^ 63 }
    requires counters { (k : ℕ) → is_preferred lists.old k ≡ true →
        (negsuc (2 ^ 63 - 1) +ℤ pos (boost_of lists.old)) ≤ℤ counter lists.old k }
    ensures { OnOk result (Expands task.now setting.now shape row seen.now applicable.now
        lists.old least.old lists.new least.new) }
{
    if lower_all(least, &seen.estimates, shape.guides) {
        lists.boost();
    }
    keep_below(task, setting.bound, row.real, applicable, &mut chosen.all)?;
    keep_below(
        task,
        setting.bound,
        row.real,
        &seen.preferred,
        &mut chosen.preferred,
    )?;
    put_all(lists, setting, shape, row, &seen.estimates, chosen)
}
