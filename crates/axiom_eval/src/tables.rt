// Derived variables and rules in flat tables.
use lama_num::{Rows, Seq};
use sas_task::Fact;

/// A derived variable, with its default.
#[derive(Clone, Copy)]
pub struct Derived {
    pub var: u32,
    pub default: u32,
}

/// The layer of a rule, and the fact that it gives.
#[derive(Clone, Copy)]
pub struct Head {
    pub layer: u32,
    pub fact: Fact,
}

/// The rules of a task by their places: those of a lower layer come first.
#[derive(Drop)]
pub struct Rules {
    pub heads: Seq<Head>,
    pub conds: Rows<Fact>,
    /// For each variable the rules of its own layer that have it in a condition.
    pub watchers: Rows<u32>,
}
