// Nodes.
use lama_num::Seq;
use sas_task::Fact;

/// Facts of which one is to hold; the least cost of an operator that gives one, if an operator
/// does; and whether they are a goal.
#[derive(Drop)]
pub struct Node {
    /// 1 to 4 facts, each once and in ascending order.
    pub facts: Seq<Fact>,
    pub least: Option<u32>,
    pub goal: bool,
}

/// What became of a node that was to be added: it is new and has this number, or it is known under
/// this number, or it isn't known and there is no room for it.
#[derive(Clone, Copy, PartialEq, Eq)]
pub enum Added {
    New(u32),
    Known(u32),
    Full,
}
