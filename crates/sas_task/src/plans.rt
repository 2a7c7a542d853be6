use lama_num::Seq;

/// A plan that a run kept: the entry that found it, its operators by number, and its cost.
#[derive(Drop)]
pub struct Kept {
    pub entry: u32,
    pub ops: Seq<u32>,
    pub cost: u64,
}
