// Copies that equal what they copy, as contracts see them.
ghost use Rattle.std.specs.Prelude.{◌≡◌, IfOk};

use crate::list::Seq;
use std::alloc::{AllocError, Global};

/// `duplicate` makes a value that is equal to the one that it copies, as contracts see them.
pub trait Duplicate: Drop {
    fn duplicate(&self, alloc: Global) -> Result<Self, AllocError>
        ensures { IfOk result (λ copy. copy ≡ self.now) };
}

impl Duplicate for u8 {
    fn duplicate(&self, _alloc: Global) -> Result<Self, AllocError> {
        Ok(*self)
    }
}

impl Duplicate for u32 {
    fn duplicate(&self, _alloc: Global) -> Result<Self, AllocError> {
        Ok(*self)
    }
}

impl<T: Duplicate> Duplicate for Seq<T> {
    fn duplicate(&self, alloc: Global) -> Result<Self, AllocError> {
        let items = duplicate_items(alloc, self)?;
        Ok(Seq::from(items))
    }
}

/// Copies each element of a slice.
pub fn duplicate_items<T: Duplicate>(alloc: Global, items: &[T]) -> Result<Vec<T>, AllocError>
    ensures { IfOk result (λ copy. copy.items ≡ items.now) }
{
    let mut copies = Vec::with_capacity(alloc, items.len())?;
    for item in items {
        copies.push(item.duplicate(alloc)?)?;
    }
    Ok(copies)
}
