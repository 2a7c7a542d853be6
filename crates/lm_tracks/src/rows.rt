// Rows of one length, one after the other in one vector.
ghost use Rattle.std.specs.Prelude.{◌≡◌, ◌+◌, ◌*◌, ◌<◌, ◌≤◌, ℕ, length, OnOk, vec_len};
ghost use Rattle.std.specs.Prelude.{IfSome, IfNone};
ghost use Rattle.lm_tracks.specs.Rows.{row_in, IsThere, Stores};

use std::alloc::AllocError;

/// The row of a number, where it is there.
pub(crate) fn row_of(rows: &[u64], words: usize, number: u32) -> Option<&[u64]>
    requires few { words ≤ 1024 }
    ensures row { IfSome result (λ row. row.now ≡ row_in rows.now words number) }
    ensures long { IfSome result (λ row. length row.now ≡ words) }
    ensures none { IfNone result (length rows.now < number * words + words) }
{
    let start = number as usize * words;
    let end = start + words;
    if end <= rows.len() {
        Some(&rows[start..end])
    } else {
        None
    }
}

/// Adds zeros up to a length.
fn grow(rows: &mut Vec<u64>, end: usize) -> Result<(), AllocError>
    ensures long { OnOk result (end ≤ vec_len rows.new) }
    ensures front { (words number : ℕ) → IsThere rows.old.items words number →
        OnOk result (row_in rows.new.items words number ≡ row_in rows.old.items words number) }
    ensures longer { OnOk result (vec_len rows.old ≤ vec_len rows.new) }
{
    if rows.len() < end {
        rows.resize(end, 0)?;
    }
    Ok(())
}

/// Writes the row of a number, which is there.
fn write(rows: &mut [u64], row: &[u64], number: u32)
    requires few { length row.now ≤ 1024 }
    requires there { IsThere rows.old (length row.now) number }
    ensures { Stores rows.old rows.new row.now number }
{
    let start = number as usize * row.len();
    let end = start + row.len();
    rows[start..end].copy_from_slice(row);
}

/// Writes the row of a number. All rows have its length.
pub(crate) fn store(rows: &mut Vec<u64>, row: &[u64], number: u32) -> Result<(), AllocError>
    requires { length row.now ≤ 1024 }
    ensures { OnOk result (Stores rows.old.items rows.new.items row.now number) }
{
    let end = number as usize * row.len() + row.len();
    grow(rows, end)?;
    write(rows, row, number);
    Ok(())
}
