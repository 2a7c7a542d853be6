// What the calls of a folder are made of: copies into the journal, and reads.
ghost use Rattle.std.specs.Prelude.{◌≡◌, ◌≤◌, ◌++◌, take, length, IfOk, Option, List, ℕ, Some};
ghost use Rattle.std.specs.Prelude.{None, false};
ghost use Rattle.std.specs.Option.{option_copied};
ghost use Rattle.lama_host.specs.Pieces.{Shows, Reads, Fits};
ghost use Rattle.host_mem.specs.declared.journal.Change.{Change};

use crate::journal::Change;
use lama_host::Piece;
use lama_num::Seq;
use std::alloc::{AllocError, Global};

fn copy(alloc: Global, bytes: &[u8]) -> Result<Seq<u8>, AllocError>
    ensures { IfOk result (λ s. s ≡ bytes.now) }
{
    Ok(Seq::from(Vec::from_slice(alloc, bytes)?))
}

/// A file for a new host.
pub fn named(alloc: Global, name: &str, bytes: &[u8]) -> Result<(Seq<u8>, Seq<u8>), AllocError>
    ensures { IfOk result (λ file. file ≡ (name.now, bytes.now)) }
{
    Ok((copy(alloc, name.as_bytes())?, copy(alloc, bytes)?))
}

/// A write for a script: the new bytes of a name, or None to take the name away.
pub fn written(
    alloc: Global,
    name: &str,
    bytes: Option<&[u8]>,
) -> Result<(Seq<u8>, Option<Seq<u8>>), AllocError>
    ensures { IfOk result (λ write. write ≡ (name.now, option_copied bytes.entry)) }
{
    let name = copy(alloc, name.as_bytes())?;
    match bytes {
        None => Ok((name, None)),
        Some(bytes) => Ok((name, Some(copy(alloc, bytes)?))),
    }
}

pub(crate) fn creation(alloc: Global, name: &str) -> Result<Change, AllocError>
    ensures { IfOk result (λ change. change ≡ Change.Made name.now) }
{
    Ok(Change::Made(copy(alloc, name.as_bytes())?))
}

pub(crate) fn growth(
    alloc: Global,
    name: &str,
    piece: &[u8],
    count: usize,
    old: &[u8],
) -> Result<Change, AllocError>
    requires { count ≤ length piece.now }
    ensures { IfOk result (λ change. change ≡
        Change.Grew name.now piece.now count (old.now ++ take count piece.now)) }
{
    let mut bytes = Vec::from_slice(alloc, old)?;
    bytes.extend_from_slice(&piece[..count])?;
    Ok(Change::Grew(
        copy(alloc, name.as_bytes())?,
        copy(alloc, piece)?,
        count,
        Seq::from(bytes),
    ))
}

pub(crate) fn renaming(
    alloc: Global,
    old: &str,
    new: &str,
    bytes: &[u8],
) -> Result<Change, AllocError>
    ensures { IfOk result (λ change. change ≡ Change.Moved old.now new.now bytes.now) }
{
    Ok(Change::Moved(
        copy(alloc, old.as_bytes())?,
        copy(alloc, new.as_bytes())?,
        copy(alloc, bytes)?,
    ))
}

pub(crate) fn removal(alloc: Global, name: &str) -> Result<Change, AllocError>
    ensures { IfOk result (λ change. change ≡ Change.Gone name.now) }
{
    Ok(Change::Gone(copy(alloc, name.as_bytes())?))
}

/// Puts bytes of a file from a place on in front of the buffer.
fn show(bytes: &[u8], start: u64, buf: &mut [u8]) -> usize
    ensures fits { result ≤ length buf.new }
    ensures shows { Shows bytes.now start buf.new result }
{
    if start >= bytes.len() as u64 {
        return 0;
    }
    let start = start as usize;
    let count = buf.len().min(bytes.len() - start);
    for i in 0..count {
        buf[i] = bytes[start + i];
    }
    count
}

/// Reads from what a name holds, unless the call is to fail before its effect.
pub(crate) fn read(fault: Option<bool>, held: Option<&[u8]>, start: u64, buf: &mut [u8]) -> Piece
    ensures fits { Fits result buf.new }
    ensures reads { fault ≡ None → Reads (option_copied held.entry) start buf.new result }
    ensures before { fault ≡ Some false → buf.new ≡ buf.old }
{
    if fault == Some(false) {
        return Piece::Missing;
    }
    match held {
        None => Piece::Missing,
        Some(bytes) => Piece::Bytes(show(bytes, start, buf)),
    }
}
