// The queue: numbers under low prices in chains, the others in a heap.
ghost use Rattle.std.specs.Prelude.{◌≡◌, ◌<◌, ◌≤◌, ℕ, length, replicate, None, Some, slice_set};
ghost use Rattle.std.specs.Prelude.{IfOk};
ghost use Rattle.std.specs.BinaryHeap.{heap_items, heap_len, heap_capacity};
ghost use Rattle.cost_queue.specs.Links.{Waiting};
ghost use Rattle.cost_queue.specs.OneMeaning.{waiting_prop};
ghost use Rattle.cost_queue.specs.Queues.{price_of, IsPopped, IsIdle};

use crate::chains::{LOW, first_low, raise};
use crate::entry::Entry;
use crate::link::Link;
use std::alloc::{AllocError, Global};
use std::cmp::Reverse;
use std::collections::BinaryHeap;
use std::marker::Model;

/// Numbers that wait, each under one price. Contracts see the price of each number, if it has one.
///
/// Only `new` takes memory. Adding a number under a price below 16,384 and taking it out takes
/// constant time, where prices never fall below that of the last number taken out.
#[derive(Drop)]
pub struct CostQueue {
    /// The next in the chain of a number.
    next: Vec<Link>,
    /// The first number under each low price.
    heads: Vec<Link>,
    /// The chains before this price are empty.
    start: usize,
    /// The chains from this price on are empty.
    end: usize,
    heap: BinaryHeap<Reverse<(u32, u32)>>,
    /// The price of each number that waits: what chains and heap stand for.
    ghost prices: { Waiting next.items heads.items start end (heap_items heap) (heap_len heap)
        (heap_capacity heap) } by { waiting_prop next.items heads.items start end
            (heap_items heap) (heap_len heap) (heap_capacity heap) },
}

impl Model for CostQueue {
    ghost use Rattle.std.specs.Prelude.{List, Option, ℕ};

    ghost Value = { List (Option ℕ) };

    ghost view = { λ q. q.prices.0 };
}

impl CostQueue {
    /// A queue for so many numbers, in which none waits.
    pub fn new(alloc: Global, numbers: usize) -> Result<CostQueue, AllocError>
        ensures { IfOk result (λ q. q ≡ replicate numbers None) }
    {
        // Links have 32 bits, and one of them says that there is no number.
        if numbers >= 4_294_967_296 {
            return Err(AllocError);
        }
        let next = vec![in alloc; Link::nothing(); numbers]?;
        let heads = vec![in alloc; Link::nothing(); LOW]?;
        let heap = BinaryHeap::with_capacity(alloc, numbers)?;
        Ok(CostQueue {
            next,
            heads,
            start: LOW,
            end: 0,
            heap,
        })
    }

    #[inline(never)]
    fn push_high(&mut self, number: u32, price: u32)
        requires there { number < length self.old }
        requires new { price_of self.old number ≡ None }
        requires high { 16384 ≤ price }
        ensures { self.new ≡ slice_set self.old number (Some price) }
    {
        match self.heap.push(Reverse((price, number))) {
            Ok(()) => {}
            Err(_) => unreachable!(),
        }
    }

    /// Adds a number that doesn't wait.
    #[inline]
    pub fn push(&mut self, number: u32, price: u32)
        requires there { number < length self.old }
        requires new { price_of self.old number ≡ None }
        ensures { self.new ≡ slice_set self.old number (Some price) }
    {
        if price >= LOW as u32 {
            return self.push_high(number, price);
        }
        let low = price as usize;
        self.next[number as usize] = self.heads[low];
        self.heads[low] = Link::to(number);
        self.start = self.start.min(low);
        raise(&mut self.end, low);
    }

    #[inline(never)]
    fn pop_high(&mut self) -> Option<Entry>
        requires { (number price : ℕ) → price_of self.old number ≡ Some price → 16384 ≤ price }
        ensures { IsPopped self.old self.new result }
    {
        let Reverse((price, number)) = self.heap.pop()?;
        Some(Entry { price, number })
    }

    /// Takes out a number that waits under the least price.
    #[inline]
    pub fn pop(&mut self) -> Option<Entry>
        ensures { IsPopped self.old self.new result }
    {
        let Some(entry) = first_low(&self.heads, self.start, self.end) else {
            return self.pop_high();
        };
        self.heads[entry.price as usize] = self.next[entry.number as usize];
        self.start = entry.price as usize;
        Some(entry)
    }

    /// Takes out all that wait.
    pub fn clear(&mut self)
        ensures none { IsIdle self.new }
        ensures long { length self.new ≡ length self.old }
    {
        'waiting: while let Some(_) = self.pop() {}
    }
}
