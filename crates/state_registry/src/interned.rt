// What becomes of a state that is looked for.

/// A state is new and now has this number, or it is known under this number, or it isn't known and
/// there is no room for it.
#[derive(Clone, Copy, PartialEq, Eq)]
pub enum Interned {
    New(u32),
    Known(u32),
    Full,
}
