// Rows of bits.
ghost use Rattle.std.specs.Prelude.{◌≡◌, ◌<◌, ◌/◌, ◌||◌, ℕ, length, nat_eq, false, IfOk};
ghost use Rattle.bit_rows.specs.Rows.{has as has_number, words_of};

use lama_num::NoMemory;
use std::alloc::Global;

/// How many words a row has for the numbers below a count.
pub fn words_for(count: usize) -> usize
    ensures words { result ≡ words_of count }
{
    count.div_ceil(64)
}

/// A row without any number, for those below a count.
pub fn row_for(alloc: Global, count: usize) -> Result<Vec<u64>, NoMemory>
    ensures words { IfOk result (λ row. length row.items ≡ words_of count) }
    ensures none { IfOk result (λ row. (number : ℕ) → has_number row.items number ≡ false) }
{
    let row = vec![in alloc; 0; words_for(count)]?;
    Ok(row)
}

/// Whether a row has a number. One that it has no word for isn't there.
pub fn has(row: &[u64], number: usize) -> bool
    ensures { result ≡ has_number row.now number }
{
    match row.get(number / 64) {
        Some(word) => (*word >> (number % 64)) & 1 == 1,
        None => false,
    }
}

/// Puts a number into a row.
pub fn put(row: &mut [u64], number: usize)
    requires { number / 64 < length row.old }
    ensures { (other : ℕ) →
        has_number row.new other ≡ (nat_eq number other || has_number row.old other) }
{
    row[number / 64] |= 1 << (number % 64);
}

/// Takes all numbers out.
pub fn clear(row: &mut [u64])
    ensures { (number : ℕ) → has_number row.new number ≡ false }
{
    row.fill(0);
}
