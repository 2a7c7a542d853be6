use lama_num::Seq;

/// What a run is set to. Times are in milliseconds.
#[derive(Drop)]
pub struct Setting {
    /// The relative time of each entry; the first is that of entry 1.
    pub shares: Seq<u32>,
    /// The moment at which the run began.
    pub start: u64,
    /// How long the run may take.
    pub limit: Option<u64>,
    /// Plans must cost less.
    pub bound: Option<u64>,
    /// Whether the run ends with its first plan.
    pub single: bool,
    /// Whether entries that kept a plan run again, round after round.
    pub rounds: bool,
}
