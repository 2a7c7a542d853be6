// Fields of bits.
ghost use Rattle.std.specs.Prelude.{◌≡◌, ◌+◌, ◌*◌, ◌^◌, ◌<◌, ◌≤◌, slice_index, slice_set, length};
ghost use Rattle.packed_state.specs.Packing.{value_in};

/// Where the value of a variable lies: so many bits of a word, from one on.
#[derive(Clone, Copy, PartialEq, Eq)]
pub struct Field {
    pub word: u32,
    pub shift: u32,
    pub bits: u32,
}

/// How many bits hold so many values.
pub fn bits_for(range: u32) -> u32
    requires { range ≤ 1048576 }
    ensures enough { range ≤ 2 ^ result }
    ensures few { result ≤ 20 }
{
    for bits in 0..20u32 {
        if range <= 1 << bits {
            return bits;
        }
    }
    20
}

/// The value that lies in a field.
#[inline(always)]
pub fn read_field(words: &[u64], field: Field) -> u32
    requires word { field.word < length words.now }
    requires short { field.bits ≤ 20 }
    requires inside { field.shift < 64 }
    requires fits { field.shift + field.bits ≤ 64 }
    ensures { result ≡ value_in words.now field }
{
    let mask = (1u64 << field.bits) - 1;
    (words[field.word as usize] >> field.shift & mask) as u32
}

/// Puts a value into a field, in a word that is 0 from there on.
#[inline(always)]
pub fn write_field(words: &mut [u64], field: Field, value: u32)
    requires word { field.word < length words.old }
    requires inside { field.shift < 64 }
    requires fits { field.shift + field.bits ≤ 64 }
    requires small { value < 2 ^ field.bits }
    requires free { slice_index words.old field.word < 2 ^ field.shift }
    ensures { words.new ≡
        slice_set words.old field.word
        (slice_index words.old field.word + value * 2 ^ field.shift) }
{
    let word = &mut words[field.word as usize];
    *word += u64::from(value) << field.shift;
}
