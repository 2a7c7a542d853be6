// A list that contracts see as the list of its elements, all the way down.
ghost use Rattle.std.specs.Prelude.{◌≡◌, [], ◌∷◌, ◌++◌, ◌<◌, ◌^◌, ◌↔◌, List, length, slice_get};
ghost use Rattle.std.specs.Prelude.{slice_index_or, IsTrue, IfOk, MatchOption, OnOk, OnErr, Some};
ghost use Rattle.std.specs.Slice.Iter.{iter_rest, iter_steps};
ghost use Rattle.std.specs.Iterator.Runs.{EveryRun, ItemsMapTo};

use std::alloc::{AllocError, Global};
use std::marker::Model;
use std::ops::{DerefSlice, Index};
use std::slice::Iter;

/// A `Vec` that contracts see as the list of its elements.
///
/// It is made from a `Vec` and gives it back without taking memory, so that the lists of public
/// types can be compared with what definitions say, however deep they lie.
#[derive(Drop)]
pub struct Seq<T> {
    items: Vec<T>,
}

impl<T> Model for Seq<T> {
    ghost use Rattle.std.specs.Prelude.{List};
    ghost use Rattle.std.specs.Coded.{coded_list};

    ghost Value = { List T };

    ghost coded = { coded_list T.code };

    ghost view = { λ s. s.items.items };
}

impl<T> Seq<T> {
    /// The empty list, which takes no memory.
    pub fn new(alloc: Global) -> Seq<T>
        ensures { result ≡ [] }
    {
        Seq {
            items: Vec::new(alloc),
        }
    }

    /// How many items there are.
    pub fn len(&self) -> usize
        ensures { result ≡ length self.now }
    {
        self.items.len()
    }

    /// Whether there is no item.
    pub fn is_empty(&self) -> bool
        ensures { IsTrue result ↔ (self.now ≡ []) }
    {
        self.items.is_empty()
    }

    /// The items as a slice.
    pub fn as_slice(&self) -> &[T]
        ensures { result.now ≡ self.now }
    {
        self.items.as_slice()
    }

    /// The `Vec` that the list was kept in.
    pub fn into_vec(self) -> Vec<T>
        ensures { result.items ≡ self }
    {
        let Seq { items } = self;
        items
    }

    /// Takes the last element.
    pub fn pop(&mut self) -> Option<T>
        ensures { MatchOption result ((self.old ≡ []) × (self.new ≡ []))
            (λ last. self.old ≡ self.new ++ last ∷ []) }
    {
        self.items.pop()
    }
}

impl<T: Drop> Seq<T> {
    /// Adds an element at the end.
    pub fn push(&mut self, item: T) -> Result<(), AllocError>
        ensures ok { OnOk result (self.new ≡ self.old ++ item ∷ []) }
        ensures err { OnErr result (self.new ≡ self.old) }
    {
        self.items.push(item)?;
        Ok(())
    }
}

impl<T> From<Vec<T>> for Seq<T> {
    ghost from_gives = { λ v s. s ≡ v.items };

    fn from(items: Vec<T>) -> Seq<T> {
        Seq { items }
    }
}

impl<T> Index<usize> for Seq<T> {
    type Output = T;

    ghost can_index = { λ v i. i < length v };

    ghost index_gives = { λ v i x. x ≡ slice_index_or v i x };

    fn index(&self, index: usize) -> &T
        requires { index < length self.now }
        ensures { slice_get self.now index ≡ Some result.now }
    {
        &self.items.as_slice()[index]
    }
}

impl<T> DerefSlice for Seq<T> {
    type Elem = T;

    ghost deref_gives = { λ v xs. xs ≡ v };

    fn deref(&self) -> &[T]
        ensures { result.now ≡ self.now }
    {
        self.items.as_slice()
    }
}

impl<'a, T> IntoIterator for &'a Seq<T> {
    type Item = &'a T;

    type IntoIter = Iter<'a, T>;

    ghost into_iter_gives = { λ v r. (iter_rest r ≡ v.now) × (length (iter_rest r) < 2 ^ 64) ×
        EveryRun (iter_steps {A = T}) (λ p. ItemsMapTo p (λ y. y.now) (iter_rest p.from)) };

    fn into_iter(self) -> Iter<'a, T> {
        self.as_slice().iter()
    }
}
