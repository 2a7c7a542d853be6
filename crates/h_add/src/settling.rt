// Facts are settled one after the other, the cheapest first.
ghost use Rattle.std.specs.Prelude.{◌≡◌, ◌+◌, ◌≤◌, ◌<◌, ◌∷◌, ◌++◌, [], ℕ, List, length, true};
ghost use Rattle.std.specs.Prelude.{false, slice_set, Some, None, IfOk, IsTrue};
ghost use Rattle.std.specs.Prelude.{MatchOption};
ghost use Rattle.std.specs.Bool.{OnTrue, OnFalse};
ghost use Rattle.cost_queue.specs.Queues.{price_of, IsPopped, IsIdle};
ghost use Rattle.relaxed_task.specs.declared.unary.Unary.{Unary};
ghost use Rattle.h_add.specs.Orders.{are_places};
ghost use Rattle.h_add.specs.UnderWay.{is_settled, open_at, offered, counted, there_at};
ghost use Rattle.h_add.specs.UnderWay.{given_at};
ghost use Rattle.h_add.specs.UnderWay.{IsUnderWay, IsSettling, IsLater, IsFresh, HasCounted, Owes};
ghost use Rattle.h_add.specs.UnderWay.{left_to_do};
ghost use Rattle.lama_num.specs.declared.estimates.TheConstants.{LARGEST_ESTIMATE};

use crate::network::{Network, Open};
use crate::sums::INFINITE;
use cost_queue::{CostQueue, Entry};
use lama_num::LARGEST_ESTIMATE;
use std::alloc::{AllocError, Global};
use std::marker::Model;

/// What facts cost so far, and which of them are settled.
///
/// Unary operators count their conditions as these are settled. One that has none open offers its
/// price to the fact that it gives, and waits under that price if no other asks for less.
#[derive(Drop)]
pub struct Settling {
    costs: Vec<u32>,
    settled: Vec<bool>,
    opens: Vec<Open>,
    queue: CostQueue,
    /// The unary operators that settled a fact.
    order: Vec<u32>,
}

impl Model for Settling {
    ghost use Rattle.std.specs.Prelude.{vec_capacity};
    ghost use Rattle.h_add.specs.UnderWay.{Settlement, AreLevel};

    ghost Value = { Settlement };

    ghost view = { λ s. record {
      costs = s.costs.items;
      settled = s.settled.items;
      opens = s.opens.items;
      waiting = s.queue;
      order = s.order.items;
    } };

    ghost invariant = { λ s. AreLevel s.costs.items s.settled.items s.opens.items s.queue
        s.order.items (vec_capacity s.order) };
}

impl Settling {
    /// Room for so many facts and unary operators.
    #[tactic(auto, using(crate::proofs::Steps::few_unsettled))]
    pub fn new(alloc: Global, facts: usize, unaries: usize) -> Result<Settling, AllocError>
        ensures facts { IfOk result (λ s. length s.costs ≡ facts) }
        ensures unaries { IfOk result (λ s. length s.opens ≡ unaries) }
        ensures order { IfOk result (λ s. s.order ≡ []) }
    {
        let costs = vec![in alloc; INFINITE; facts]?;
        let settled = vec![in alloc; false; facts]?;
        let opens = vec![in alloc; Open { count: 0, sum: 0 }; unaries]?;
        let queue = CostQueue::new(alloc, unaries)?;
        let order = Vec::with_capacity(alloc, facts)?;
        Ok(Settling {
            costs,
            settled,
            opens,
            queue,
            order,
        })
    }

    /// What the facts cost. A cost above 1,000,000,000 is infinite.
    pub fn costs(&self) -> &[u32]
        ensures { result.now ≡ self.now.costs }
    {
        &self.costs
    }

    /// The unary operators that settled a fact, in order.
    pub fn order(&self) -> &[u32]
        ensures order { result.now ≡ self.now.order }
        ensures few { length result.now ≤ length self.now.costs }
    {
        &self.order
    }

    /// Whether a fact is settled.
    pub fn is_settled(&self, number: usize) -> bool
        requires { number < length self.now.costs }
        ensures { result ≡ is_settled self.now number }
    {
        self.settled[number]
    }

    /// Begins again: no fact is reached, and none is settled.
    #[tactic(auto, using(crate::proofs::Steps::cleared))]
    pub fn clear(&mut self, network: &Network)
        requires { length self.old.opens ≡ length network.now.unaries }
        ensures fresh { IsFresh network.now.unaries self.new }
        ensures none { (fact : ℕ) → is_settled self.new fact ≡ false }
        ensures long { length self.new.costs ≡ length self.old.costs }
    {
        self.costs.fill(INFINITE);
        self.settled.fill(false);
        network.open_all(&mut self.opens);
        self.queue.clear();
        self.order.clear();
    }

    /// Leaves a fact out, where it is there.
    #[tactic(auto, using(crate::proofs::Steps::fewer_or_same))]
    pub fn leave_out(&mut self, fact: usize)
        ensures fresh { (unaries : List Unary) → IsFresh unaries self.old →
            IsFresh unaries self.new }
        ensures out { fact < length self.old.costs →
            self.new.settled ≡ slice_set self.old.settled fact true }
        ensures facts { length self.old.settled ≡ length self.old.costs }
        ensures long { length self.new.costs ≡ length self.old.costs }
    {
        if fact < self.settled.len() {
            self.settled[fact] = true;
        }
    }

    /// Lets a fact be there at no cost.
    #[tactic(auto, using(crate::proofs::Steps::fewer_or_same))]
    pub fn be_there(&mut self, fact: usize)
        requires fact { fact < length self.old.costs }
        ensures there { self.new ≡ there_at self.old fact }
        ensures facts { length self.old.settled ≡ length self.old.costs }
    {
        self.costs[fact] = 0;
        self.settled[fact] = true;
    }

    /// Offers what a unary operator gives for its price.
    fn offer(&mut self, fact: u32, place: u32, price: u32)
        requires fact { fact < length self.old.costs }
        requires place { place < length self.old.opens }
        requires idle { price_of self.old.waiting place ≡ None }
        ensures { self.new ≡ offered self.old fact place price }
    {
        if price < self.costs[fact as usize] && !self.settled[fact as usize] {
            self.costs[fact as usize] = price;
            self.queue.push(place, price);
        }
    }

    /// Counts a fact among the conditions of a unary operator, and says what it offers if it has no
    /// other open.
    fn count(&mut self, place: usize, value: u32) -> Option<u32>
        requires place { place < length self.old.opens }
        requires some { 0 < (open_at self.old place).count }
        requires small { (open_at self.old place).sum ≤ LARGEST_ESTIMATE }
        requires value { value ≤ LARGEST_ESTIMATE }
        ensures counted { self.new ≡ counted self.old place value }
        ensures long { length self.old.waiting ≡ length self.old.opens }
        ensures price { MatchOption result (0 < (open_at self.new place).count)
            (λ price. ((open_at self.new place).count ≡ 0) ×
            (price ≡ (open_at self.new place).sum)) }
    {
        let open = self.opens[place];
        let left = Open {
            count: open.count - 1,
            sum: (open.sum + value).min(LARGEST_ESTIMATE),
        };
        self.opens[place] = left;
        if left.count == 0 {
            Some(left.sum)
        } else {
            None
        }
    }

    /// Counts a fact of this cost among the conditions of a unary operator, which offers what it
    /// gives if it has no other open.
    #[tactic(auto, using(crate::proofs::ReachedSums::met_some, crate::proofs::ReachedSums::met_all))]
    fn meet(&mut self, network: &Network, place: u32, value: u32)
        requires facts { network.now.facts ≡ length self.old.costs }
        requires place { place < length network.now.unaries }
        requires way { Owes network.now.unaries value place self.old }
        ensures way { (owed : List ℕ) →
            IsUnderWay network.now.unaries value (place ∷ owed) self.old →
            IsUnderWay network.now.unaries value owed self.new }
        ensures counted { HasCounted self.old self.new }
    {
        if let Some(price) = self.count(place as usize, value) {
            self.offer(network.gives(place as usize), place, price);
        }
    }

    /// Counts a fact of this cost among the conditions of several unary operators.
    #[inline(always)]
    #[tactic(auto, using(crate::proofs::ReachedSums::walks))]
    pub fn walk(&mut self, network: &Network, places: &[u32], value: u32)
        requires facts { network.now.facts ≡ length self.old.costs }
        requires places { IsTrue (are_places (length network.now.unaries) places.now) }
        requires way { IsUnderWay network.now.unaries value places.now self.old }
        ensures way { IsUnderWay network.now.unaries value [] self.new }
        ensures counted { HasCounted self.old self.new }
    {
        for place in places {
            self.meet(network, *place, value);
        }
    }

    /// Takes out the unary operator that waits under the least price.
    fn pop(&mut self) -> Option<Entry>
        ensures popped { IsPopped self.old.waiting self.new.waiting result }
        ensures rest { self.new ≡ record self.old { waiting = self.new.waiting } }
        ensures places { length self.old.waiting ≡ length self.old.opens }
        ensures facts { length self.old.settled ≡ length self.old.costs }
    {
        self.queue.pop()
    }

    /// Lets a unary operator settle the fact that it gives, which costs its price already.
    #[tactic(auto, using(crate::proofs::Steps::fewer_unsettled))]
    fn give(&mut self, fact: usize, place: u32)
        requires fact { fact < length self.old.costs }
        requires new { is_settled self.old fact ≡ false }
        ensures { self.new ≡ given_at self.old fact place }
    {
        self.settled[fact] = true;
        match self.order.push(place) {
            Ok(()) => {}
            Err(_) => unreachable!(),
        }
    }

    /// Takes the unary operator that waits under the least price, which settles the fact that it
    /// gives if that isn't settled yet. None waits where it answers false.
    pub fn step(&mut self, network: &Network) -> bool
        requires facts { network.now.facts ≡ length self.old.costs }
        requires way { IsSettling network.now.unaries self.old }
        ensures later { IsLater network.now.unaries self.old self.new }
        ensures less { OnTrue result (left_to_do self.new < left_to_do self.old) }
        ensures idle { OnFalse result (IsIdle self.new.waiting) }
    {
        let Some(entry) = self.pop() else {
            return false;
        };
        let fact = network.gives(entry.number as usize) as usize;
        if !self.is_settled(fact) {
            self.give(fact, entry.number);
            self.walk(network, network.needs(fact), entry.price);
        }
        true
    }
}
