// The states that a search has found.
ghost use Rattle.std.specs.Prelude.{◌≡◌, ◌<◌, ◌+◌, ◌^◌, ◌++◌, ◌∷◌, [], ◌↔◌, length, slice_get};
ghost use Rattle.std.specs.Prelude.{IsTrue, IsSomeAnd, OnOk, OnErr};

use lama_num::{NoMemory, Rows};
use std::alloc::Global;
use std::marker::Model;

/// States with their costs, in the order in which they were found.
///
/// The states stand in one vector: one with 2^32 values or more in all finds no memory.
#[derive(Drop)]
pub struct Space {
    states: Rows<u32>,
    costs: Vec<u64>,
}

impl Model for Space {
    ghost use Rattle.std.specs.Prelude.{◌≡◌, ◌<◌, ◌^◌, List, length};
    ghost use Rattle.search_log.specs.Members.{Member};
    ghost use Rattle.search_log.specs.Columns.{beside, member_of};

    ghost Value = { List Member };

    ghost view = { λ s. beside member_of s.states s.costs.items };

    ghost invariant = { λ s. (length s.states ≡ length s.costs.items) ×
        (length s.costs.items < 2 ^ 32) };
}

/// Adds a state and its cost to both columns, or to none.
fn add_member(
    states: &mut Rows<u32>,
    costs: &mut Vec<u64>,
    state: &[u32],
    cost: u64,
) -> Result<(), NoMemory>
    ensures states { OnOk result (states.new ≡ states.old ++ state.now ∷ []) }
    ensures costs { OnOk result (costs.new.items ≡ costs.old.items ++ cost ∷ []) }
    ensures same_states { OnErr result (states.new ≡ states.old) }
    ensures same_costs { OnErr result (costs.new.items ≡ costs.old.items) }
{
    costs.reserve(1)?;
    states.push(state)?;
    costs.push_reserved(cost);
    Ok(())
}

impl Space {
    /// A space without a state, which takes no memory.
    pub fn empty(alloc: Global) -> Space
        ensures { result ≡ [] }
    {
        Space {
            states: Rows::new(alloc),
            costs: Vec::new(alloc),
        }
    }

    /// Adds a state with its cost at the end.
    pub fn push(&mut self, state: &[u32], cost: u64) -> Result<(), NoMemory>
        requires { length self.old + 1 < 2 ^ 32 }
        ensures ok { OnOk result
            (self.new ≡ self.old ++ record { state = state.now; cost = cost } ∷ []) }
        ensures err { OnErr result (self.new ≡ self.old) }
    {
        add_member(&mut self.states, &mut self.costs, state, cost)?;
        Ok(())
    }

    /// How many states there are.
    pub fn len(&self) -> u32
        ensures { result ≡ length self.now }
    {
        self.costs.len() as u32
    }

    /// Whether it has no state.
    pub fn is_empty(&self) -> bool
        ensures { IsTrue result ↔ (self.now ≡ []) }
    {
        self.len() == 0
    }

    /// Copies the state at a place, from 0.
    pub fn state_into(&self, place: u32, out: &mut [u32])
        requires place { place < length self.now }
        requires out { IsSomeAnd (slice_get self.now place) (λ m. length out.old ≡ length m.state) }
        ensures { IsSomeAnd (slice_get self.now place) (λ m. out.new ≡ m.state) }
    {
        out.copy_from_slice(self.states.row(place as usize));
    }

    /// The cost at a place, from 0.
    pub fn cost(&self, place: u32) -> u64
        requires { place < length self.now }
        ensures { IsSomeAnd (slice_get self.now place) (λ m. result ≡ m.cost) }
    {
        self.costs[place as usize]
    }
}
