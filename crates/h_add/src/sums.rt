// Sums of costs.
ghost use Rattle.std.specs.Prelude.{◌≡◌, length, IsTrue};
ghost use Rattle.relaxed_task.specs.Relaxing.{sum_of as total_of};
ghost use Rattle.h_add.specs.Networks.{are_below};
ghost use Rattle.h_add.specs.Values.{estimate_of, value_at};

use lama_num::{Estimate, LARGEST_ESTIMATE};

/// A cost as it is kept, where a fact isn't reached.
pub const INFINITE: u32 = 4_294_967_295;

/// A cost that is kept, as an estimate.
pub fn estimate(cost: u32) -> Estimate
    ensures { result ≡ estimate_of cost }
{
    if cost <= LARGEST_ESTIMATE {
        Estimate::Finite(cost)
    } else {
        Estimate::Infinite
    }
}

/// The sum of what facts cost.
#[tactic(auto, using(crate::proofs::ReachedSums::sums))]
pub fn total(costs: &[u32], facts: &[u32]) -> u32
    requires { IsTrue (are_below (length costs.now) facts.now) }
    ensures { estimate_of result ≡ total_of (value_at costs.now) facts.now }
{
    let mut sum = 0;
    for fact in facts {
        let cost = costs[*fact as usize];
        if cost > LARGEST_ESTIMATE {
            return INFINITE;
        }
        sum = (sum + cost).min(LARGEST_ESTIMATE);
    }
    sum
}

/// What a fact costs, by its number.
pub fn value_of(costs: &[u32], fact: usize) -> Estimate
    ensures { result ≡ value_at costs.now fact }
{
    match costs.get(fact) {
        Some(cost) => estimate(*cost),
        None => Estimate::Infinite,
    }
}
