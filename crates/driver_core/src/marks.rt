// Marks: a list with one for each entry.
ghost use Rattle.std.specs.Prelude.{◌≡◌, ◌-◌, ◌≤◌, true, false};
ghost use Rattle.std.specs.Prelude.{length, replicate, slice_set, count_by};
ghost use Rattle.std.specs.List.{list_any};
ghost use Rattle.driver_core.specs.States.{is_marked, has_mark_of};

/// How many entries are marked.
pub(crate) fn count(marks: &[bool]) -> u32
    requires { length marks.now ≤ 1000 }
    ensures { result ≡ count_by is_marked marks.now }
{
    marks.iter().filter(|mark| **mark).count() as u32
}

/// Whether any entry is marked.
pub(crate) fn any_marked(marks: &[bool]) -> bool
    ensures { result ≡ list_any is_marked marks.now }
{
    marks.iter().any(|mark| *mark)
}

/// Whether an entry is marked.
pub(crate) fn has_mark(marks: &[bool], entry: u32) -> bool
    ensures { result ≡ has_mark_of marks.now entry }
{
    entry >= 1 && marks.get(entry as usize - 1).copied().unwrap_or(false)
}

/// Marks an entry, where there is one of this number.
pub(crate) fn mark(marks: &mut [bool], entry: u32)
    ensures { marks.new ≡ slice_set marks.old (entry - 1) true }
{
    let place = entry.saturating_sub(1) as usize;
    if place < marks.len() {
        marks[place] = true;
    }
}

/// Marks the entries of the next list, in which none is marked then.
pub(crate) fn move_on(marks: &mut [bool], next: &mut [bool])
    requires { length marks.old ≡ length next.old }
    ensures moved { marks.new ≡ next.old }
    ensures cleared { next.new ≡ replicate (length next.old) false }
{
    marks.copy_from_slice(next);
    next.fill(false);
}
