// The files of the current folder.
ghost use Rattle.std.specs.Prelude.{◌≤◌, IfOk, length};
ghost use Rattle.lama_host.specs.Pieces.{Fits};

use lama_host::Piece;
use std::fs::{File, OpenOptions};
use std::io::{ErrorKind, Read, Seek, SeekFrom, Write};
use std::rt::Files;
use std::{fs, io};

/// Reads once, and again where a signal came in between.
fn read_once<R: Read>(file: &mut R, buf: &mut [u8]) -> io::Result<usize>
    ensures { IfOk result (λ n. n ≤ length buf.new) }
{
    for _ in 0..u64::MAX {
        match file.read(buf) {
            Err(e) if e.kind() == ErrorKind::Interrupted => {}
            answer => return answer,
        }
    }
    Ok(0)
}

/// What stands under a name. A link is taken for itself, and not for its target.
#[derive(Clone, Copy)]
pub enum Named {
    Nothing,
    File,
    Directory,
    Link,
    /// A FIFO, a device, or whatever else is no file of bytes.
    Other,
}

fn what_stands<R: Files>(rt: &R, name: &str) -> io::Result<Named> {
    match fs::symlink_metadata(rt, name) {
        Ok(data) if data.is_file() => Ok(Named::File),
        Ok(data) if data.is_dir() => Ok(Named::Directory),
        Ok(data) if data.is_symlink() => Ok(Named::Link),
        Ok(_) => Ok(Named::Other),
        Err(e) if e.kind() == ErrorKind::NotFound => Ok(Named::Nothing),
        Err(e) => Err(e),
    }
}

/// What a link leads to, over further links. One that leads to itself leads to nothing.
fn target<R: Files>(rt: &R, link: &str) -> io::Result<Named> {
    match fs::metadata(rt, link) {
        Ok(data) if data.is_file() => Ok(Named::File),
        Ok(data) if data.is_dir() => Ok(Named::Directory),
        Ok(_) => Ok(Named::Other),
        Err(e) => match e.kind() {
            ErrorKind::NotFound | ErrorKind::NotADirectory | ErrorKind::FilesystemLoop => {
                Ok(Named::Nothing)
            }
            _ => Err(e),
        },
    }
}

/// What a read finds under a name: with `follows` a link is taken for its target.
fn what_is_read<R: Files>(rt: &R, name: &str, follows: bool) -> io::Result<Named> {
    match what_stands(rt, name)? {
        Named::Link if follows => target(rt, name),
        named => Ok(named),
    }
}

/// Reads from a place of a file on. What is no file of bytes isn't opened, and counts as missing:
/// to open a FIFO waits for its other end.
pub fn read_at<R: Files>(
    rt: &R,
    name: &str,
    follows: bool,
    start: u64,
    buf: &mut [u8],
) -> io::Result<Piece>
    ensures { IfOk result (λ piece. Fits piece buf.new) }
{
    match what_is_read(rt, name, follows)? {
        Named::File => {}
        _ => return Ok(Piece::Missing),
    }
    let mut file = File::open(rt, name)?;
    file.seek(SeekFrom::Start(start))?;
    Ok(Piece::Bytes(read_once(&mut file, buf)?))
}

/// Takes a name away: a file, a link itself, a FIFO, or an empty directory.
pub fn remove_name<R: Files>(rt: &R, name: &str) -> io::Result<()> {
    match what_stands(rt, name)? {
        Named::Nothing => Ok(()),
        Named::Directory => fs::remove_dir(rt, name),
        Named::File | Named::Link | Named::Other => fs::remove_file(rt, name),
    }
}

/// Makes a new file, after taking away what had its name.
pub fn create_empty<R: Files>(rt: &R, name: &str) -> io::Result<()> {
    remove_name(rt, name)?;
    File::create_new(rt, name)?;
    Ok(())
}

/// Adds at the end of a file. What is no file of bytes counts as missing, as for reads.
pub fn append_to<R: Files>(rt: &R, name: &str, piece: &[u8]) -> io::Result<()> {
    match what_stands(rt, name)? {
        Named::File => {}
        _ => create_empty(rt, name)?,
    }
    let mut options = OpenOptions::new();
    options.append(true);
    options.open(rt, name)?.write_all(piece)
}

/// Renames a file over whatever has the new name; an empty directory is taken away first.
pub fn rename_over<R: Files>(rt: &R, old: &str, new: &str) -> io::Result<()> {
    if let Named::Directory = what_stands(rt, new)? {
        fs::remove_dir(rt, new)?;
    }
    fs::rename(rt, old, new)
}
