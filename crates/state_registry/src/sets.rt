// The states, by how many words each takes.
ghost use Rattle.std.specs.Prelude.{◌≡◌, ◌<◌, ◌≤◌, ℕ, List, [], length, slice_get, IfOk, OnErr};
ghost use Rattle.std.specs.Prelude.{Some};
ghost use Rattle.state_registry.specs.Interning.{Interns, IsAbsent};
ghost use Rattle.state_registry.specs.Widths.{states_of, width_or};

use crate::interned::Interned;
use crate::rows::Rows;
use crate::wide::Wide;
use lama_num::NoMemory;
use std::alloc::Global;

/// Rows of up to eight words have a case each, so that their keys are arrays.
#[derive(Drop)]
pub enum Sets {
    One(Rows<1>),
    Two(Rows<2>),
    Three(Rows<3>),
    Four(Rows<4>),
    Five(Rows<5>),
    Six(Rows<6>),
    Seven(Rows<7>),
    Eight(Rows<8>),
    Many(Wide),
}

impl Sets {
    pub(crate) fn new(alloc: Global, words: usize) -> Sets
        ensures states { states_of result ≡ [] }
        ensures width { width_or result words ≡ words }
    {
        match words {
            1 => Sets::One(Rows::new(alloc)),
            2 => Sets::Two(Rows::new(alloc)),
            3 => Sets::Three(Rows::new(alloc)),
            4 => Sets::Four(Rows::new(alloc)),
            5 => Sets::Five(Rows::new(alloc)),
            6 => Sets::Six(Rows::new(alloc)),
            7 => Sets::Seven(Rows::new(alloc)),
            8 => Sets::Eight(Rows::new(alloc)),
            _ => Sets::Many(Wide::new(alloc)),
        }
    }

    pub(crate) fn len(&self) -> usize
        ensures { result ≡ length (states_of self.now) }
    {
        match self {
            Sets::One(rows) => rows.len(),
            Sets::Two(rows) => rows.len(),
            Sets::Three(rows) => rows.len(),
            Sets::Four(rows) => rows.len(),
            Sets::Five(rows) => rows.len(),
            Sets::Six(rows) => rows.len(),
            Sets::Seven(rows) => rows.len(),
            Sets::Eight(rows) => rows.len(),
            Sets::Many(rows) => rows.len(),
        }
    }

    #[inline(always)]
    pub(crate) fn state(&self, id: usize) -> &[u64]
        requires { id < length (states_of self.now) }
        ensures { slice_get (states_of self.now) id ≡ Some result.now }
    {
        match self {
            Sets::One(rows) => rows.state(id),
            Sets::Two(rows) => rows.state(id),
            Sets::Three(rows) => rows.state(id),
            Sets::Four(rows) => rows.state(id),
            Sets::Five(rows) => rows.state(id),
            Sets::Six(rows) => rows.state(id),
            Sets::Seven(rows) => rows.state(id),
            Sets::Eight(rows) => rows.state(id),
            Sets::Many(rows) => rows.state(id),
        }
    }

    #[inline(always)]
    pub(crate) fn intern(
        &mut self,
        alloc: Global,
        most: u32,
        packed: &[u64],
    ) -> Result<Interned, NoMemory>
        requires long { width_or self.old (length packed.now) ≡ length packed.now }
        requires few { length (states_of self.old) ≤ most }
        ensures ok { IfOk result
            (λ interned. Interns (states_of self.old) most packed.now interned
            (states_of self.new)) }
        ensures err { OnErr result (states_of self.new ≡ states_of self.old) }
        ensures only_new { OnErr result (IsAbsent (states_of self.old) packed.now) }
        ensures width { (words : ℕ) → width_or self.new words ≡ width_or self.old words }
    {
        match self {
            Sets::One(rows) => rows.intern(most, packed),
            Sets::Two(rows) => rows.intern(most, packed),
            Sets::Three(rows) => rows.intern(most, packed),
            Sets::Four(rows) => rows.intern(most, packed),
            Sets::Five(rows) => rows.intern(most, packed),
            Sets::Six(rows) => rows.intern(most, packed),
            Sets::Seven(rows) => rows.intern(most, packed),
            Sets::Eight(rows) => rows.intern(most, packed),
            Sets::Many(rows) => rows.intern(alloc, most, packed),
        }
    }
}
