// States of many words.
ghost use Rattle.std.specs.Prelude.{◌≡◌, ◌<◌, ◌≤◌, ℕ, List, [], length, slice_get, IfOk, OnErr};
ghost use Rattle.std.specs.Prelude.{Some};
ghost use Rattle.state_registry.specs.Interning.{Interns, IsAbsent};

use crate::interned::Interned;
use indexmap::IndexSet;
use lama_num::NoMemory;
use std::alloc::Global;
use std::marker::Model;

/// States of any number of words, each in a vector of its own.
#[derive(Drop)]
pub struct Wide {
    set: IndexSet<Vec<u64>>,
}

impl Model for Wide {
    ghost use Rattle.std.specs.Prelude.{ℕ, List};
    ghost use Rattle.state_registry.specs.Interning.{words_of};

    ghost Value = { List (List ℕ) };

    ghost view = { λ r. words_of r.set.keys };
}

impl Wide {
    pub(crate) fn new(alloc: Global) -> Wide
        ensures { result ≡ [] }
    {
        Wide {
            set: IndexSet::new(alloc),
        }
    }

    pub(crate) fn len(&self) -> usize
        ensures { result ≡ length self.now }
    {
        self.set.len()
    }

    pub(crate) fn state(&self, id: usize) -> &[u64]
        requires { id < length self.now }
        ensures { slice_get self.now id ≡ Some result.now }
    {
        match self.set.get_index(id) {
            Some(words) => words.as_slice(),
            None => unreachable!(),
        }
    }

    /// Looks for a state, and adds it where it isn't there and fewer than `most` are.
    pub(crate) fn intern(
        &mut self,
        alloc: Global,
        most: u32,
        packed: &[u64],
    ) -> Result<Interned, NoMemory>
        requires { length self.old ≤ most }
        ensures ok { IfOk result (λ interned. Interns self.old most packed.now interned self.new) }
        ensures err { OnErr result (self.new ≡ self.old) }
        ensures only_new { OnErr result (IsAbsent self.old packed.now) }
    {
        if let Some(index) = self.set.get_index_of(packed) {
            return Ok(Interned::Known(index as u32));
        }
        let id = self.set.len();
        if id < most as usize {
            let words = Vec::from_slice(alloc, packed)?;
            self.set.insert_full(words)?;
            Ok(Interned::New(id as u32))
        } else {
            Ok(Interned::Full)
        }
    }
}
