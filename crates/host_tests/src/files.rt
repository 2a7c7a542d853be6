// Files of the real host.
use crate::children::succeeds;
use host_real::RealHost;
use lama_host::{Failed, Folder, Host, Limits, Piece};
use std::alloc::Global;
use std::process::Processes;
use std::rt::Files;

/// Whether a read from a place gives these bytes, of at most eight.
fn reads<R: Files + Processes>(
    host: &mut RealHost<'_, R>,
    name: &str,
    start: u64,
    want: &[u8],
) -> bool {
    let mut buf = [0u8; 8];
    match host.read_some(name, start, &mut buf) {
        Ok(Piece::Bytes(n)) => &buf[..n] == want,
        _ => false,
    }
}

fn is_missing<R: Files + Processes>(host: &mut RealHost<'_, R>, name: &str) -> bool {
    let mut buf = [0u8; 8];
    host.read_some(name, 0, &mut buf) == Ok(Piece::Missing)
}

fn appends<R: Files + Processes>(host: &mut RealHost<'_, R>, name: &str, piece: &[u8]) -> bool {
    host.append(name, piece).is_ok()
}

fn creates<R: Files + Processes>(host: &mut RealHost<'_, R>, name: &str) -> bool {
    host.create(name).is_ok()
}

fn removes<R: Files + Processes>(host: &mut RealHost<'_, R>, name: &str) -> bool {
    host.remove(name).is_ok()
}

fn renames<R: Files + Processes>(alloc: Global, rt: &R, old: &str, new: &str) -> bool {
    RealHost::new(alloc, rt).rename(old, new).is_ok()
}

fn is_written<R: Files + Processes>(host: &mut RealHost<'_, R>) -> bool {
    appends(host, "made", b"one")
        && appends(host, "made", b"two")
        && reads(host, "made", 0, b"onetwo")
        && reads(host, "made", 4, b"wo")
        && reads(host, "made", 6, b"")
        && reads(host, "made", 9, b"")
        && appends(host, "new", b"new")
}

fn is_renamed<R: Files + Processes>(host: &mut RealHost<'_, R>) -> bool {
    is_missing(host, "made") && reads(host, "new", 0, b"onetwo")
}

#[test]
fn a_file_is_written_and_renamed(rt: HostRuntime) {
    let alloc = rt.alloc();
    assert!(rt; is_written(&mut RealHost::new(alloc, &rt)));
    assert!(rt; renames(alloc, &rt, "made", "new"));
    assert!(rt; is_renamed(&mut RealHost::new(alloc, &rt)));
}

fn is_made_again_and_removed<R: Files + Processes>(host: &mut RealHost<'_, R>) -> bool {
    appends(host, "old", b"old")
        && creates(host, "old")
        && reads(host, "old", 0, b"")
        && removes(host, "old")
        && removes(host, "old")
        && is_missing(host, "old")
}

#[test]
fn a_file_is_made_again_and_removed(rt: HostRuntime) {
    assert!(rt; is_made_again_and_removed(&mut RealHost::new(rt.alloc(), &rt)));
}

/// Whether a file of this name is written, read and removed.
fn may_be_a_name<R: Files + Processes>(host: &mut RealHost<'_, R>, name: &str) -> bool {
    appends(host, name, b"1")
        && reads(host, name, 0, b"1")
        && removes(host, name)
        && is_missing(host, name)
}

fn may_be_odd<R: Files + Processes>(host: &mut RealHost<'_, R>) -> bool {
    may_be_a_name(host, "a b")
        && may_be_a_name(host, "-x")
        && may_be_a_name(host, "it's")
        && may_be_a_name(host, "\u{fc}\n")
        && may_be_a_name(host, "$(x)")
}

#[test]
fn names_with_odd_bytes(rt: HostRuntime) {
    assert!(rt; may_be_odd(&mut RealHost::new(rt.alloc(), &rt)));
}

const PLANTED: &str =
    "mkfifo pipe && printf kept > target && ln -s target link && ln -s loop loop && \
     mkdir empty full && touch full/x && ln -s full to_folder && ln -s pipe to_pipe && \
     ln -s /dev/null to_device && ln -s nothing to_nothing && ln -s target/x to_no_folder";

/// Whether what stands under names that are no files is no file to a read.
fn are_missing<R: Files + Processes>(host: &mut RealHost<'_, R>) -> bool {
    is_missing(host, "pipe")
        && is_missing(host, "loop")
        && is_missing(host, "empty")
        && is_missing(host, "full")
        && is_missing(host, "to_folder")
        && is_missing(host, "to_pipe")
        && is_missing(host, "to_device")
        && is_missing(host, "to_nothing")
        && is_missing(host, "to_no_folder")
}

/// Whether a link is read as its target until the first write or start, and never after.
fn is_followed_at_first<R: Files + Processes>(alloc: Global, rt: &R) -> bool {
    let mut host = RealHost::new(alloc, rt);
    let followed = reads(&mut host, "link", 0, b"kept") && removes(&mut host, "to_nothing");
    let still = reads(&mut host, "link", 1, b"ept");
    followed && still && creates(&mut host, "new_file") && is_missing(&mut host, "link")
}

/// Whether a link is missing behind a child.
fn is_missing_behind_a_child<R: Files + Processes>(
    alloc: Global,
    rt: &R,
    words: &[String],
) -> bool {
    let mut host = RealHost::new(alloc, rt);
    let free = Limits {
        seconds: None,
        kib: None,
    };
    match host.start(0, words, b"", free) {
        Ok(()) => host.wait(0).is_ok() && is_missing(&mut host, "link"),
        Err(Failed) => false,
    }
}

/// Whether a link, a FIFO and a link to itself make way for a file.
fn make_way<R: Files + Processes>(host: &mut RealHost<'_, R>) -> bool {
    creates(host, "link")
        && reads(host, "link", 0, b"")
        && reads(host, "target", 0, b"kept")
        && appends(host, "pipe", b"x")
        && reads(host, "pipe", 0, b"x")
        && removes(host, "loop")
        && !removes(host, "full")
}

#[test]
fn what_a_child_may_leave(rt: HostRuntime) {
    let alloc = rt.alloc();
    assert!(rt; succeeds(alloc, &rt, PLANTED));
    assert!(rt; are_missing(&mut RealHost::new(alloc, &rt)));
    assert!(rt; is_followed_at_first(alloc, &rt));
    assert!(rt; is_missing_behind_a_child(alloc, &rt, &[]));
    assert!(rt; make_way(&mut RealHost::new(alloc, &rt)));
    assert!(rt; renames(alloc, &rt, "target", "empty"));
    assert!(rt; reads(&mut RealHost::new(alloc, &rt), "empty", 0, b"kept"));
}
