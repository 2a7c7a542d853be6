// The visited states.
ghost use Rattle.std.specs.Prelude.{◌≡◌, ◌<◌, ◌≤◌, [], length, slice_get, IfOk, OnErr, Some};
ghost use Rattle.state_registry.specs.Interning.{Interns, IsAbsent, IsOnce};

use crate::interned::Interned;
use crate::sets::Sets;
use lama_num::NoMemory;
use packed_state::Layout;
use std::alloc::Global;
use std::marker::Model;

/// The states that a search has visited, numbered from 0 in the order in which they came.
///
/// A state is given and kept as the words that its layout packs it into. A look-up takes time in
/// line with its words, and only a new state takes memory.
#[derive(Drop)]
pub struct Registry {
    alloc: Global,
    layout: Layout,
    most: u32,
    words: usize,
    sets: Sets,
}

impl Model for Registry {
    ghost use Rattle.state_registry.specs.Registries.{Visited, IsRegistry};
    ghost use Rattle.state_registry.specs.Widths.{states_of};

    ghost Value = { Visited };

    ghost view = { λ r. record { states = states_of r.sets; most = r.most; layout = r.layout } };

    ghost invariant = { λ r. IsRegistry r.sets r.most r.words r.layout };
}

impl Registry {
    /// A registry with room for so many states of a layout.
    pub fn new(alloc: Global, layout: Layout, most: u32) -> Result<Registry, NoMemory>
        ensures states { IfOk result (λ registry. registry.states ≡ []) }
        ensures most { IfOk result (λ registry. registry.most ≡ most) }
        ensures layout { IfOk result (λ registry. registry.layout ≡ layout) }
    {
        let words = layout.words();
        Ok(Registry {
            alloc,
            layout,
            most,
            words,
            sets: Sets::new(alloc, words),
        })
    }

    /// How many states there are.
    pub fn len(&self) -> u32
        ensures { result ≡ length self.now.states }
    {
        // Reading it tells its range, within which the count is.
        let _most = self.most;
        self.sets.len() as u32
    }

    /// The layout that packs and unpacks the states.
    pub fn layout(&self) -> &Layout
        ensures { result.now ≡ self.now.layout }
    {
        &self.layout
    }

    /// The words of a state by its number.
    #[inline(always)]
    pub fn state(&self, id: u32) -> &[u64]
        requires { id < length self.now.states }
        ensures { slice_get self.now.states id ≡ Some result.now }
    {
        self.sets.state(id as usize)
    }

    /// Looks for a state, and adds it where it isn't there and there is room.
    #[inline(always)]
    pub fn intern(&mut self, packed: &[u64]) -> Result<Interned, NoMemory>
        requires { length packed.now ≡ self.old.layout.words }
        ensures ok { IfOk result (λ interned.
            Interns self.old.states self.old.most packed.now interned self.new.states) }
        ensures err { OnErr result (self.new.states ≡ self.old.states) }
        ensures only_new { OnErr result (IsAbsent self.old.states packed.now) }
        ensures once { IsOnce self.new.states }
        ensures most { self.new.most ≡ self.old.most }
        ensures layout { self.new.layout ≡ self.old.layout }
    {
        self.sets.intern(self.alloc, self.most, packed)
    }
}
