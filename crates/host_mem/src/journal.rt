// The journal of a host: each change since it was made, and what names hold by it.
ghost use Rattle.std.specs.Prelude.{◌≡◌, ◌∷◌, [], ◌++◌, reverse, take, find, IfOk, Option, List, ℕ};
ghost use Rattle.std.specs.FinMap.{get};
ghost use Rattle.std.specs.Option.{option_copied};
ghost use Rattle.std.specs.Str.{bytes_eq};
ghost use Rattle.lama_host.specs.Folder.{bytes_at};
ghost use Rattle.host_mem.specs.Journal.{holds, first_held};
ghost use Rattle.host_mem.specs.Says.{is_of as names_it, held_after as says_of};
ghost use Rattle.host_mem.specs.Says.{last_write as last_of_name, bytes_after};

use lama_host::ChildEnd;
use lama_num::Seq;

/// A change: of files, or a child that began or ended.
#[derive(Drop)]
pub enum Change {
    /// A name holds no bytes.
    Made(Seq<u8>),
    /// A name got so many bytes of a piece, and holds these.
    Grew(Seq<u8>, Seq<u8>, usize, Seq<u8>),
    /// A name's bytes are under another.
    Moved(Seq<u8>, Seq<u8>, Seq<u8>),
    /// A name was taken away.
    Gone(Seq<u8>),
    /// The start after so many others succeeded, and whether no child ran.
    Began(usize, bool),
    /// A child's writes, and how it ended where the wait answered.
    Ended(Seq<(Seq<u8>, Option<Seq<u8>>)>, Option<ChildEnd>),
}

/// The last write of a name.
fn last_write<'a>(
    writes: &'a [(Seq<u8>, Option<Seq<u8>>)],
    name: &[u8],
) -> Option<&'a (Seq<u8>, Option<Seq<u8>>)>
    ensures { option_copied result ≡ last_of_name writes.now name.now }
{
    for i in (0..writes.len()).rev() {
        let write = &writes[i];
        if write.0.as_slice() == name {
            return Some(write);
        }
    }
    None
}

fn is_of(change: &Change, name: &[u8]) -> bool
    ensures { result ≡ names_it change.now name.now }
{
    match change {
        Change::Made(held) => held.as_slice() == name,
        Change::Grew(held, _, _, _) => held.as_slice() == name,
        Change::Moved(old, new, _) => new.as_slice() == name || old.as_slice() == name,
        Change::Gone(held) => held.as_slice() == name,
        Change::Began(_, _) => false,
        Change::Ended(writes, _) => last_write(writes, name).is_some(),
    }
}

/// The bytes that a write leaves, if it leaves any.
fn bytes_by<'a>(write: Option<&'a (Seq<u8>, Option<Seq<u8>>)>) -> Option<&'a [u8]>
    ensures { option_copied result ≡ bytes_after (option_copied write.entry) }
{
    match write {
        None => None,
        Some(write) => match &write.1 {
            None => None,
            Some(bytes) => Some(bytes.as_slice()),
        },
    }
}

fn held_after<'a>(change: &'a Change, name: &[u8]) -> Option<&'a [u8]>
    ensures { option_copied result ≡ says_of change.now name.now }
{
    match change {
        Change::Made(_) => Some(&[]),
        Change::Grew(_, _, _, bytes) => Some(bytes.as_slice()),
        Change::Moved(_, new, bytes) => {
            if new.as_slice() == name {
                Some(bytes.as_slice())
            } else {
                None
            }
        }
        Change::Gone(_) => None,
        Change::Began(_, _) => None,
        Change::Ended(writes, _) => bytes_by(last_write(writes, name)),
    }
}

fn look_up_first<'a>(first: &'a [(Seq<u8>, Seq<u8>)], name: &[u8]) -> Option<&'a [u8]>
    ensures { option_copied result ≡ get (first_held (reverse first.now)) name.now }
{
    for i in (0..first.len()).rev() {
        let file = &first[i];
        if file.0.as_slice() == name {
            return Some(file.1.as_slice());
        }
    }
    None
}

/// The bytes that a name holds.
pub(crate) fn look_up<'a>(
    first: &'a [(Seq<u8>, Seq<u8>)],
    journal: &'a [Change],
    name: &[u8],
) -> Option<&'a [u8]>
    ensures { option_copied result ≡
        get (holds (first_held (reverse first.now)) (reverse journal.now)) name.now }
{
    for i in (0..journal.len()).rev() {
        let change = &journal[i];
        if is_of(change, name) {
            return held_after(change, name);
        }
    }
    look_up_first(first, name)
}

/// The bytes that a name holds, or none.
pub(crate) fn bytes_held<'a>(
    first: &'a [(Seq<u8>, Seq<u8>)],
    journal: &'a [Change],
    name: &[u8],
) -> &'a [u8]
    ensures { result.now ≡
        bytes_at (holds (first_held (reverse first.now)) (reverse journal.now)) name.now }
{
    match look_up(first, journal, name) {
        Some(bytes) => bytes,
        None => &[],
    }
}
