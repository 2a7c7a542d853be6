// States of a fixed number of words.
ghost use Rattle.std.specs.Prelude.{◌≡◌, ◌<◌, ◌≤◌, ℕ, List, [], length, slice_get, IfOk, OnErr};
ghost use Rattle.std.specs.Prelude.{Some};
ghost use Rattle.state_registry.specs.Interning.{Interns, IsAbsent};

use crate::interned::Interned;
use indexmap::IndexSet;
use lama_num::NoMemory;
use std::alloc::Global;
use std::marker::Model;

/// States of `N` words each. They lie side by side, with no allocation for each.
#[derive(Drop)]
pub struct Rows<const N: usize> {
    set: IndexSet<[u64; N]>,
}

impl<const N: usize> Model for Rows<N> {
    ghost use Rattle.std.specs.Prelude.{ℕ, List, ◌<◌};

    ghost Value = { List (List ℕ) };

    ghost view = { λ r. r.set.keys };

    ghost invariant = { λ r. N < 1024 };
}

/// The words as an array.
#[inline(always)]
fn array_of<const N: usize>(words: &[u64]) -> [u64; N]
    requires few { N < 1024 }
    requires long { length words.now ≡ N }
    ensures { result ≡ words.now }
{
    let mut array = [0u64; N];
    for i in 0..N {
        array[i] = words[i];
    }
    array
}

/// Adds a state where it isn't there.
#[inline(always)]
fn add<const N: usize>(
    set: &mut IndexSet<[u64; N]>,
    most: u32,
    words: [u64; N],
) -> Result<Interned, NoMemory>
    requires small { N < 1024 }
    requires few { length set.old.keys < most }
    ensures ok { IfOk result (λ interned.
        Interns set.old.keys most words.entry interned set.new.keys) }
    ensures err { OnErr result (set.new.keys ≡ set.old.keys) }
    ensures only_new { OnErr result (IsAbsent set.old.keys words.entry) }
{
    let id = set.len() as u32;
    let (index, new) = set.insert_full(words)?;
    if new {
        return Ok(Interned::New(id));
    }
    Ok(Interned::Known(index as u32))
}

/// Looks for a state where no other may be added.
fn find<const N: usize>(set: &IndexSet<[u64; N]>, most: u32, words: [u64; N]) -> Interned
    requires small { N < 1024 }
    requires full { length set.now.keys ≡ most }
    ensures { Interns set.now.keys most words.entry result set.now.keys }
{
    match set.get_index_of(&words) {
        Some(index) => Interned::Known(index as u32),
        None => Interned::Full,
    }
}

impl<const N: usize> Rows<N> {
    pub(crate) fn new(alloc: Global) -> Rows<N>
        requires { N < 1024 }
        ensures { result ≡ [] }
    {
        Rows {
            set: IndexSet::new(alloc),
        }
    }

    pub(crate) fn len(&self) -> usize
        ensures { result ≡ length self.now }
    {
        self.set.len()
    }

    /// The words of a state.
    #[inline(always)]
    pub(crate) fn state(&self, id: usize) -> &[u64]
        requires { id < length self.now }
        ensures { slice_get self.now id ≡ Some result.now }
    {
        match self.set.get_index(id) {
            Some(words) => words,
            None => unreachable!(),
        }
    }

    /// Looks for a state, and adds it where it isn't there and fewer than `most` are.
    #[inline(always)]
    pub(crate) fn intern(&mut self, most: u32, packed: &[u64]) -> Result<Interned, NoMemory>
        requires long { length packed.now ≡ N }
        requires few { length self.old ≤ most }
        ensures ok { IfOk result (λ interned. Interns self.old most packed.now interned self.new) }
        ensures err { OnErr result (self.new ≡ self.old) }
        ensures only_new { OnErr result (IsAbsent self.old packed.now) }
    {
        let len = self.set.len();
        let words: [u64; N] = array_of(packed);
        if len < most as usize {
            return add(&mut self.set, most, words);
        }
        Ok(find(&self.set, most, words))
    }
}
