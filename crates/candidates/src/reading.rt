// Reading a whole file.
ghost use Rattle.std.specs.Prelude.{◌≡◌, IfOk, ◌≤◌, ◌<◌, length};
ghost use Rattle.std.specs.FinMap.{get};
ghost use Rattle.lama_host.specs.Folder.{IsUntouched, WhereTold, Rose};
ghost use Rattle.candidates.specs.Whole.{whole_of, IsFrontOf, Turns};

use lama_host::{Failed, Folder, Piece};
use lama_num::Seq;
use std::alloc::Global;

/// What a read of a whole file gave.
#[derive(Drop)]
pub enum Whole {
    Missing,
    Bytes(Seq<u8>),
    TooLong,
}

/// Why a file wasn't read: a call of the folder failed, or memory was wanting.
#[derive(Clone, Copy, PartialEq, Eq)]
pub enum ReadError {
    Failed,
    NoMemory,
}

/// What one turn of reading found.
#[derive(Clone, Copy)]
enum Turn {
    Missing,
    End,
    More,
}

/// Reads the next bytes of a file.
fn read_on<F: Folder>(folder: &mut F, name: &str, bytes: &mut Vec<u8>) -> Result<Turn, ReadError>
    ensures untouched { IsUntouched (F.told folder.old) (F.told folder.new) }
    ensures later { (F.told folder.old).faults ≤ (F.told folder.new).faults }
    ensures failed { result ≡ Err ReadError.Failed
        → Rose (F.told folder.old).faults (F.told folder.new).faults }
    ensures turns { WhereTold (F.told folder.old) (λ files.
        IsFrontOf (get files name.now) bytes.old.items →
        IfOk result (λ turn. Turns (get files name.now) bytes.old.items bytes.new.items turn)) }
    ensures more { result ≡ Ok Turn.More → length bytes.old.items < length bytes.new.items }
    ensures end { result ≡ Ok Turn.End → bytes.new.items ≡ bytes.old.items }
{
    let mut buf = [0u8; 32768];
    match folder.read_some(name, bytes.len() as u64, &mut buf) {
        Err(Failed) => Err(ReadError::Failed),
        Ok(Piece::Missing) => Ok(Turn::Missing),
        Ok(Piece::Bytes(0)) => Ok(Turn::End),
        Ok(Piece::Bytes(n)) => match bytes.extend_from_slice(&buf[..n]) {
            Ok(()) => Ok(Turn::More),
            Err(_) => Err(ReadError::NoMemory),
        },
    }
}

/// Reads the bytes of a file, if it is there and has not more than that many. It changes nothing in
/// the folder, and each turn takes at least one byte.
pub fn read_whole<F: Folder>(
    alloc: Global,
    folder: &mut F,
    name: &str,
    most: u64,
) -> Result<Whole, ReadError>
    ensures untouched { IsUntouched (F.told folder.old) (F.told folder.new) }
    ensures later { (F.told folder.old).faults ≤ (F.told folder.new).faults }
    ensures failed { result ≡ Err ReadError.Failed
        → Rose (F.told folder.old).faults (F.told folder.new).faults }
    ensures exact { WhereTold (F.told folder.old) (λ files.
        IfOk result (λ whole. whole ≡ whole_of (get files name.now) most)) }
{
    let mut bytes = Vec::new(alloc);
    while bytes.len() as u64 <= most {
        match read_on(folder, name, &mut bytes)? {
            Turn::Missing => return Ok(Whole::Missing),
            Turn::End => return Ok(Whole::Bytes(Seq::from(bytes))),
            Turn::More => {}
        }
    }
    Ok(Whole::TooLong)
}
