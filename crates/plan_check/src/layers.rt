// The pairs of last state and cost after some names.
ghost use Rattle.std.specs.Prelude.{◌≡◌, ℕ, ◌+◌, ◌<◌, List, [], ◌∷◌, ◌++◌, length, not, slice_get};
ghost use Rattle.std.specs.Prelude.{if◌then◌else◌, IfOk, OnOk, Some};
ghost use Rattle.std.specs.List.{list_any};
ghost use Rattle.std.specs.Str.{bytes_eq};
ghost use Rattle.packed_state.specs.Packing.{CanHold};
ghost use Rattle.plan_check.specs.Layers.{pair_words};

use indexmap::IndexSet;
use packed_state::Layout;
use std::alloc::{AllocError, Global};
use std::marker::Model;

/// Pairs of a packed state and a cost, in the order in which they came, none twice.
#[derive(Drop)]
pub struct Layer {
    pairs: IndexSet<Vec<u64>>,
}

impl Model for Layer {
    ghost use Rattle.std.specs.Prelude.{ℕ, List};
    ghost use Rattle.plan_check.specs.Layers.{words_of};

    ghost Value = { List (List ℕ) };

    ghost view = { λ l. words_of l.pairs.keys };
}

impl Layer {
    /// A layer without a pair.
    pub fn new(alloc: Global) -> Layer
        ensures { result ≡ [] }
    {
        Layer {
            pairs: IndexSet::new(alloc),
        }
    }

    /// How many pairs of a state and a cost there are.
    pub fn len(&self) -> usize
        ensures { result ≡ length self.now }
    {
        self.pairs.len()
    }

    /// Adds a pair where it isn't there, and says whether it was new.
    pub fn add(
        &mut self,
        alloc: Global,
        layout: &Layout,
        state: &[u32],
        cost: u64,
    ) -> Result<bool, AllocError>
        requires { CanHold layout.now state.now }
        ensures new { IfOk result (λ new.
            new ≡ not (list_any (bytes_eq (pair_words layout.now state.now cost)) self.old)) }
        ensures added { IfOk result (λ new. self.new ≡ (if new
            then (self.old ++ pair_words layout.now state.now cost ∷ []) else self.old)) }
    {
        let mut words = vec![in alloc; 0; layout.words()]?;
        layout.pack(state, &mut words);
        words.push(cost)?;
        let (_, new) = self.pairs.insert_full(words)?;
        Ok(new)
    }

    /// Unpacks the state of a pair, and answers its cost.
    pub fn unpack(&self, layout: &Layout, place: usize, state: &mut [u32]) -> u64
        requires place { place < length self.now }
        requires wide { (words : List ℕ) → slice_get self.now place ≡ Some words →
            length words ≡ layout.now.words + 1 }
        requires long { length state.old ≡ length layout.now.fields }
        ensures state { (packed : List ℕ) (cost : ℕ) → CanHold layout.now packed →
            slice_get self.now place ≡ Some (pair_words layout.now packed cost) →
            state.new ≡ packed }
        ensures cost { (packed : List ℕ) (cost : ℕ) → CanHold layout.now packed →
            slice_get self.now place ≡ Some (pair_words layout.now packed cost) → result ≡ cost }
    {
        match self.pairs.get_index(place) {
            Some(words) => {
                let last = layout.words();
                layout.unpack(&words[..last], state);
                words[last]
            }
            None => unreachable!(),
        }
    }
}
