// Where the values of a task's variables lie.
ghost use Rattle.std.specs.Prelude.{◌≡◌, ℕ, ◌+◌, ◌<◌, ◌≤◌, List, length, slice_index, IfOk, IsTrue};
ghost use Rattle.packed_state.specs.Packing.{CanHold, IsFor, packed};

use crate::fields::{Field, bits_for, read_field, write_field};
use lama_num::NoMemory;
use sas_task::Task;
use std::alloc::Global;
use std::marker::Model;

/// Where the value of each variable of a task lies in the words of a packed state.
///
/// A state is a slice with one value for each variable, below its range. Two states have equal
/// words exactly where they are equal. Only `new` takes memory.
#[derive(Drop)]
pub struct Layout {
    words: usize,
    fields: Vec<Field>,
}

impl Model for Layout {
    ghost use Rattle.packed_state.specs.Packing.{Places, IsLaid};

    ghost Value = { Places };

    ghost view = { λ l. record { words = l.words; fields = l.fields.items } };

    ghost invariant = { λ l. IsLaid l.words l.fields.items };
}

/// Where the next field may begin.
#[derive(Clone, Copy)]
struct Cursor {
    word: u32,
    used: u32,
}

impl Cursor {
    fn has_room(self, bits: u32) -> bool
        requires { (bits ≤ 20) × (self.used ≤ 64) }
        ensures { IsTrue result → (self.used < 64) × (self.used + bits ≤ 64) }
    {
        self.used < 64 && self.used + bits <= 64
    }

    /// The place of a field of so many bits: here, or at the start of the next word.
    fn place_for(self, bits: u32) -> Cursor
        requires few { bits ≤ 20 }
        requires used { self.used ≤ 64 }
        requires word { self.word < 1048576 }
        ensures fits { result.used + bits ≤ 64 }
        ensures inside { result.used < 64 }
        ensures same { result.word ≡ self.word → result.used ≡ self.used }
        ensures low { self.word ≤ result.word }
        ensures high { result.word ≤ self.word + 1 }
    {
        if self.has_room(bits) {
            self
        } else {
            Cursor {
                word: self.word + 1,
                used: 0,
            }
        }
    }
}

impl Layout {
    /// The layout of a task's states.
    pub fn new(alloc: Global, task: &Task) -> Result<Layout, NoMemory>
        ensures { IfOk result (λ layout. IsFor layout task.now) }
    {
        let variables = &task.parts().variables;
        let mut fields = Vec::new(alloc);
        let mut next = Cursor { word: 0, used: 0 };
        for variable in variables.iter() {
            let bits = bits_for(variable.values.len() as u32);
            let place = next.place_for(bits);
            fields.push(Field {
                word: place.word,
                shift: place.used,
                bits,
            })?;
            next = Cursor {
                word: place.word,
                used: place.used + bits,
            };
        }
        Ok(Layout {
            words: next.word as usize + 1,
            fields,
        })
    }

    /// How many words a packed state has; at least one.
    pub fn words(&self) -> usize
        ensures { result ≡ self.now.words }
    {
        self.words
    }

    /// Packs a state.
    pub fn pack(&self, values: &[u32], out: &mut [u64])
        requires state { CanHold self.now values.now }
        requires words { length out.old ≡ self.now.words }
        ensures { out.new ≡ packed self.now values.now }
    {
        out.fill(0);
        for i in 0..self.fields.len() {
            write_field(out, self.fields[i], values[i]);
        }
    }

    /// Unpacks a state.
    pub fn unpack(&self, packed_words: &[u64], out: &mut [u32])
        requires words { length packed_words.now ≡ self.now.words }
        requires long { length out.old ≡ length self.now.fields }
        ensures { (state : List ℕ) → CanHold self.now state →
            packed_words.now ≡ packed self.now state → out.new ≡ state }
    {
        for i in 0..self.fields.len() {
            out[i] = read_field(packed_words, self.fields[i]);
        }
    }

    /// The value of one variable in a packed state.
    #[inline(always)]
    pub fn get(&self, packed_words: &[u64], var: u32) -> u32
        requires words { length packed_words.now ≡ self.now.words }
        requires var { var < length self.now.fields }
        ensures { (state : List ℕ) → CanHold self.now state →
            packed_words.now ≡ packed self.now state → result ≡ slice_index state var }
    {
        read_field(packed_words, self.fields[var as usize])
    }
}
