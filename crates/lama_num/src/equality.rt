// A test of what contracts mean by `≡`.
ghost use Rattle.std.specs.Prelude.{◌≡◌, ◌↔◌, IsTrue};

use crate::list::Seq;

/// Whether two values are equal, as contracts see them.
pub trait Same {
    fn same(&self, other: &Self) -> bool
        ensures { IsTrue result ↔ (self.now ≡ other.now) };
}

impl Same for u8 {
    fn same(&self, other: &Self) -> bool {
        *self == *other
    }
}

impl Same for u32 {
    fn same(&self, other: &Self) -> bool {
        *self == *other
    }
}

impl Same for u64 {
    fn same(&self, other: &Self) -> bool {
        *self == *other
    }
}

impl Same for bool {
    fn same(&self, other: &Self) -> bool {
        *self == *other
    }
}

impl<T: Same> Same for Option<T> {
    fn same(&self, other: &Self) -> bool {
        match (self, other) {
            (None, None) => true,
            (Some(a), Some(b)) => a.same(b),
            _ => false,
        }
    }
}

impl<T: Same> Same for Seq<T> {
    fn same(&self, other: &Self) -> bool {
        same_items(self, other)
    }
}

/// Whether two slices hold equal elements.
pub fn same_items<T: Same>(a: &[T], b: &[T]) -> bool
    ensures { IsTrue result ↔ (a.now ≡ b.now) }
{
    if a.len() != b.len() {
        return false;
    }
    for i in 0..a.len() {
        if !a[i].same(&b[i]) {
            return false;
        }
    }
    true
}
