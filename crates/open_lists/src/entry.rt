// What the lists hold and give.

/// An operator to be applied in the state of a visit.
#[derive(Clone, Copy, PartialEq, Eq)]
pub struct Entry {
    /// The number of the visit whose state the operator is applied in.
    pub parent: u64,
    pub op: u32,
}

/// An entry, with the list and the key that it was taken from.
#[derive(Clone, Copy, PartialEq, Eq)]
pub struct Popped {
    pub list: u32,
    pub key: u64,
    pub entry: Entry,
}
