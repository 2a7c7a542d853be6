/// A number and the price under which it waits.
#[derive(Clone, Copy, PartialEq, Eq)]
pub struct Entry {
    pub price: u32,
    pub number: u32,
}
