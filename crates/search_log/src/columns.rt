// The columns of a log.
use crate::turns::PopResult;
use std::mem::size_of;

/// A visit without its preferred operators.
#[derive(Clone, Copy)]
pub struct VisitRow {
    pub(crate) g: u64,
    pub(crate) id: u32,
    pub(crate) estimates: [u32; 3],
    pub(crate) dead: bool,
}

/// A pop in 12 bytes.
#[derive(Clone, Copy)]
pub struct PopRow {
    pub(crate) parent: u32,
    pub(crate) op: u32,
    pub(crate) list: u8,
    pub(crate) result: PopResult,
}

const _: () = prove!(size_of::<VisitRow>() == 32);

const _: () = prove!(size_of::<PopRow>() == 12);
