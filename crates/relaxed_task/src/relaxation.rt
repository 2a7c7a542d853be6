// The relaxation of a task, and its facts by number.
ghost use Rattle.std.specs.Prelude.{◌≡◌, ◌+◌, ◌≤◌, ◌<◌, List, ℕ, IsTrue, slice_index};
ghost use Rattle.std.specs.List.{list_all};
ghost use Rattle.sas_task.specs.WellFormed.{is_fact};
ghost use Rattle.sas_task.specs.declared.contents.Parts.{Parts as TheParts};
ghost use Rattle.sas_task.specs.declared.contents.CostKind.{CostKind as TheKind};
ghost use Rattle.relaxed_task.specs.Numbers.{number_by, number_of, IsNumbered};
ghost use Rattle.relaxed_task.specs.Numbers.{is_below, is_unary_below};
ghost use Rattle.relaxed_task.specs.Relaxations.{IsSound, IsRelaxed};
ghost use Rattle.sas_task.specs.declared.limits.TheConstants.{MOST_FACTS};

use crate::unary::Unary;
use lama_num::Seq;
use sas_task::Fact;
use std::marker::Model;

/// The lists of a relaxation.
#[derive(Drop)]
pub struct Lists {
    /// Where the facts of each variable begin.
    pub offsets: Seq<u32>,
    /// How many facts there are.
    pub facts: u32,
    pub unaries: Seq<Unary>,
    /// The default facts of derived variables.
    pub defaults: Seq<u32>,
    /// The goal facts, each once.
    pub goals: Seq<u32>,
}

/// A task without what operators delete, its facts by number.
///
/// The facts of the first variable have the first numbers, in the order of its values, then come
/// those of the second, and so on.
#[derive(Drop)]
pub struct Relaxed {
    lists: Lists,
}

impl Model for Relaxed {
    ghost use Rattle.relaxed_task.specs.declared.relaxation.Lists.{Lists as TheLists};
    ghost use Rattle.relaxed_task.specs.Relaxations.{IsSound};

    ghost Value = { TheLists };

    ghost view = { λ r. r.lists };

    ghost invariant = { λ r. IsSound r.lists };
}

impl Relaxed {
    /// The relaxation of these lists, whose facts are all there.
    pub(crate) fn from_lists(lists: Lists) -> Relaxed
        requires { IsSound lists }
        ensures { result ≡ lists }
    {
        Relaxed { lists }
    }

    /// The unary operators: one for each operator and effect, in order, and then one for each rule.
    pub fn unary(&self) -> &[Unary]
        ensures unaries { result.now ≡ self.now.unaries }
        ensures facts { IsTrue (list_all (is_unary_below self.now.facts) result.now) }
    {
        &self.lists.unaries
    }

    /// How many facts there are: one for each value of each variable.
    pub fn facts(&self) -> u32
        ensures facts { result ≡ self.now.facts }
        ensures few { result ≤ MOST_FACTS }
    {
        self.lists.facts
    }

    /// The number of a fact.
    pub fn fact_id(&self, fact: Fact) -> u32
        requires { IsNumbered self.now.offsets self.now.facts fact }
        ensures number { result ≡ number_by self.now.offsets fact }
        ensures below { result < self.now.facts }
        ensures fact { (parts : TheParts) (kind : TheKind) → IsRelaxed parts kind self.now →
            IsTrue (is_fact parts.variables fact) → result ≡ number_of parts.variables fact }
    {
        self.lists.offsets[fact.var as usize] + fact.val
    }

    /// The number that a variable's value has or would have, also where there is no such fact.
    pub fn number(&self, var: usize, val: u32) -> usize
        ensures { result ≡ slice_index self.now.offsets var + val }
    {
        match self.lists.offsets.get(var) {
            Some(offset) => *offset as usize + val as usize,
            None => val as usize,
        }
    }

    /// Where the facts of each variable begin.
    pub fn offsets(&self) -> &[u32]
        ensures { result.now ≡ self.now.offsets }
    {
        &self.lists.offsets
    }

    /// The default facts of derived variables: they are reached from every state.
    pub fn defaults(&self) -> &[u32]
        ensures defaults { result.now ≡ self.now.defaults }
        ensures facts { IsTrue (list_all (is_below self.now.facts) result.now) }
    {
        &self.lists.defaults
    }

    /// The goal facts, each once.
    pub fn goals(&self) -> &[u32]
        ensures goals { result.now ≡ self.now.goals }
        ensures facts { IsTrue (list_all (is_below self.now.facts) result.now) }
    {
        &self.lists.goals
    }
}
