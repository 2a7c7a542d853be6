// What a task consists of, as plain data.
use lama_num::Seq;

/// A variable, by its number from 0, has a value, by its number from 0.
#[derive(Clone, Copy, PartialEq, Eq, PartialOrd, Ord, Hash)]
pub struct Fact {
    pub var: u32,
    pub val: u32,
}

/// A variable with the names of its values. It is derived where it has a layer: rules set it then.
#[derive(Drop)]
pub struct Variable {
    pub name: Seq<u8>,
    pub layer: Option<u32>,
    pub values: Seq<Seq<u8>>,
}

/// A fact that an operator gives where the conditions hold before it.
#[derive(Drop)]
pub struct Effect {
    pub conds: Seq<Fact>,
    pub fact: Fact,
}

/// An action: it can be taken where the facts of `pre` hold.
///
/// In a task `pre` has the prevail conditions first, which stand for no effect, and then those that
/// stand for effects, in the order of the effects: of the preconditions on a variable the first
/// stands for the first effect on it, the second for the second, and so on.
#[derive(Drop)]
pub struct Operator {
    pub name: Seq<u8>,
    pub pre: Seq<Fact>,
    pub effects: Seq<Effect>,
    pub cost: u32,
}

/// How an operator counts: at its cost, as 1, or at one more than its cost. In a task whose
/// operators all cost 1, the last counts 1 as well.
#[derive(Clone, Copy, PartialEq, Eq)]
pub enum CostKind {
    Normal,
    One,
    PlusOne,
}

/// An axiom rule: where the conditions hold, the derived variable of the head has its value. In a
/// task no rule gives a variable its default.
#[derive(Drop)]
pub struct Rule {
    pub conds: Seq<Fact>,
    pub head: Fact,
}

/// The parts of a task. `init` has the initial values, which are the defaults of the derived
/// variables; where `metric` is false, every operator costs 1.
#[derive(Drop)]
pub struct Parts {
    pub metric: bool,
    pub variables: Seq<Variable>,
    pub groups: Seq<Seq<Fact>>,
    pub init: Seq<u32>,
    pub goal: Seq<Fact>,
    pub operators: Seq<Operator>,
    pub rules: Seq<Rule>,
}
