use lama_num::Seq;

/// One effect of an operator, or a rule, without what it deletes: where all of `conds` are reached,
/// `gives` is. Facts are numbers.
#[derive(Drop)]
pub struct Unary {
    /// The operator's number; a rule has none.
    pub op: Option<u32>,
    /// The conditions, each once.
    pub conds: Seq<u32>,
    pub gives: u32,
    /// The operator's cost by the kind of cost; 0 for a rule.
    pub cost: u32,
}
