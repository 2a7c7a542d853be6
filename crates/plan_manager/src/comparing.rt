// Whether a file holds a text.
ghost use Rattle.std.specs.Prelude.{◌≡◌, ◌+◌, ◌<◌, ◌≤◌, ◌^◌, ◌↔◌, length};
ghost use Rattle.std.specs.Prelude.{IsTrue, IfOk, IfSome, Some};
ghost use Rattle.std.specs.FinMap.{get};
ghost use Rattle.lama_host.specs.Folder.{Keeps, IsUntouched, WhereTold};
ghost use Rattle.plan_manager.specs.Comparing.{HasAt, TellsFront, EndsAt};
ghost use Rattle.plan_manager.specs.TextRests.{text_left};

use crate::text::{TextRest, Window};
use lama_host::{Failed, Folder, Piece};

/// Reads a piece of a file, and answers how many of the bytes it has from a place on: none where
/// the piece has others, or the file ends.
fn read_same<F: Folder>(
    folder: &mut F,
    name: &str,
    start: u64,
    bytes: &[u8],
) -> Result<Option<usize>, Failed>
    requires { 0 < length bytes.now }
    ensures untouched { IsUntouched (F.told folder.old) (F.told folder.new) }
    ensures keeps { Keeps (F.told folder.old) (F.told folder.new) result }
    ensures fits { IfOk result (λ count. IfSome count (λ n. (0 < n) × (n ≤ length bytes.now))) }
    ensures tells { WhereTold (F.told folder.old) (λ files.
        IfOk result (TellsFront (get files name.now) start bytes.now)) }
{
    let mut buf = [0u8; 8192];
    match folder.read_some(name, start, &mut buf) {
        Err(e) => Err(e),
        Ok(Piece::Missing) => Ok(None),
        Ok(Piece::Bytes(0)) => Ok(None),
        Ok(Piece::Bytes(n)) => {
            let count = n.min(bytes.len());
            if buf[..count] == bytes[..count] {
                Ok(Some(count))
            } else {
                Ok(None)
            }
        }
    }
}

/// Whether a file has the bytes from a place on.
fn has_at<F: Folder>(folder: &mut F, name: &str, start: u64, bytes: &[u8]) -> Result<bool, Failed>
    requires some { 0 < length bytes.now }
    requires within { start + length bytes.now < 2 ^ 64 }
    ensures untouched { IsUntouched (F.told folder.old) (F.told folder.new) }
    ensures keeps { Keeps (F.told folder.old) (F.told folder.new) result }
    ensures tells { WhereTold (F.told folder.old) (λ files. IfOk result (λ has.
        IsTrue has ↔ HasAt (get files name.now) start bytes.now)) }
{
    let mut at = start;
    let mut rest = bytes;
    while !rest.is_empty() {
        match read_same(folder, name, at, rest) {
            Err(e) => return Err(e),
            Ok(None) => return Ok(false),
            Ok(Some(count)) => {
                at += count as u64;
                rest = &rest[count..];
            }
        }
    }
    Ok(true)
}

/// Whether a file is there and ends at a place or before it.
fn ends_at<F: Folder>(folder: &mut F, name: &str, start: u64) -> Result<bool, Failed>
    ensures untouched { IsUntouched (F.told folder.old) (F.told folder.new) }
    ensures keeps { Keeps (F.told folder.old) (F.told folder.new) result }
    ensures tells { WhereTold (F.told folder.old) (λ files. IfOk result (λ ends.
        IsTrue ends ↔ EndsAt (get files name.now) start)) }
{
    let mut buf = [0u8; 1];
    match folder.read_some(name, start, &mut buf) {
        Err(e) => Err(e),
        Ok(Piece::Missing) => Ok(false),
        Ok(Piece::Bytes(n)) => Ok(n == 0),
    }
}

/// Whether a file holds just a text. Of a file that differs it reads no more than a window past the
/// first difference.
pub(crate) fn holds<F: Folder>(
    folder: &mut F,
    name: &str,
    text: &mut TextRest,
) -> Result<bool, Failed>
    requires { length (text_left text.old) < 2 ^ 63 }
    ensures untouched { IsUntouched (F.told folder.old) (F.told folder.new) }
    ensures keeps { Keeps (F.told folder.old) (F.told folder.new) result }
    ensures tells { WhereTold (F.told folder.old) (λ files. IfOk result (λ same.
        IsTrue same ↔ (get files name.now ≡ Some (text_left text.old)))) }
{
    let mut window = Window::new();
    let mut at: u64 = 0;
    text.fill(&mut window);
    while !window.is_empty() {
        match has_at(folder, name, at, window.as_slice()) {
            Err(e) => return Err(e),
            Ok(false) => return Ok(false),
            Ok(true) => {}
        }
        at += window.len() as u64;
        window.clear();
        text.fill(&mut window);
    }
    ends_at(folder, name, at)
}
