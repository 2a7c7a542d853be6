// Children of the real host.
use host_real::{RealClock, RealHost};
use lama_host::{ChildEnd, Clock, Failed, Host, Limits};
use std::alloc::{AllocError, Global};
use std::process::Processes;
use std::rt::{Clock as SystemClock, Files};
use std::test::Fail;

const FREE: Limits = Limits {
    seconds: None,
    kib: None,
};

fn owned(alloc: Global, words: &[&str]) -> Result<Vec<String>, AllocError> {
    let mut owned = Vec::new(alloc);
    for word in words {
        owned.push(String::from_str(alloc, word)?)?;
    }
    Ok(owned)
}

/// How a child ended, if it could be started and waited for.
fn end_of_words<R: Files + Processes>(
    alloc: Global,
    rt: &R,
    words: &[String],
    input: &[u8],
    limits: Limits,
) -> Option<ChildEnd> {
    let mut host = RealHost::new(alloc, rt);
    match host.start(3, words, input, limits) {
        Ok(()) => host.wait(3).ok(),
        Err(Failed) => None,
    }
}

/// The same of borrowed words.
fn end_of<R: Files + Processes>(
    alloc: Global,
    rt: &R,
    words: &[&str],
    input: &[u8],
    limits: Limits,
) -> Option<ChildEnd> {
    match owned(alloc, words) {
        Ok(words) => end_of_words(alloc, rt, &words, input, limits),
        Err(AllocError) => None,
    }
}

/// Whether a child that is free to run, without input, ends so.
fn ends<R: Files + Processes>(alloc: Global, rt: &R, words: &[&str], end: ChildEnd) -> bool {
    end_of(alloc, rt, words, b"", FREE) == Some(end)
}

/// Whether a line of the shell ends with a status under these limits.
fn exits<R: Files + Processes>(
    alloc: Global,
    rt: &R,
    line: &str,
    limits: Limits,
    status: u8,
) -> bool {
    end_of(alloc, rt, &["sh", "-c", line], b"", limits) == Some(ChildEnd::Status(status))
}

/// Whether a line of the shell ends well.
pub fn succeeds<R: Files + Processes>(alloc: Global, rt: &R, line: &str) -> bool {
    exits(alloc, rt, line, FREE, 0)
}

#[test]
fn statuses_and_signals(rt: HostRuntime) {
    let alloc = rt.alloc();
    let unknown = ChildEnd::Status(127);
    assert!(rt; ends(alloc, &rt, &["sh", "-c", "exit 3"], ChildEnd::Status(3)));
    assert!(rt; ends(alloc, &rt, &["sh", "-c", "kill -9 $$"], ChildEnd::Signal));
    assert!(rt; ends(alloc, &rt, &["no_such_program"], unknown));
    assert!(rt; ends(alloc, &rt, &["/"], unknown));
    assert!(rt; ends(alloc, &rt, &["-p"], unknown));
    assert!(rt; ends(alloc, &rt, &[""], unknown));
    assert!(rt; ends(alloc, &rt, &[], unknown));
}

#[test]
fn a_file_that_cannot_be_executed(rt: HostRuntime) {
    let alloc = rt.alloc();
    let line = "echo exit 0 > plain_script; chmod 644 plain_script";
    assert!(rt; succeeds(alloc, &rt, line));
    assert!(rt; ends(alloc, &rt, &["./plain_script"], ChildEnd::Status(127)));
}

fn seconds(seconds: u32) -> Limits {
    Limits {
        seconds: Some(seconds),
        kib: None,
    }
}

fn kib(kib: u32) -> Limits {
    Limits {
        seconds: None,
        kib: Some(kib),
    }
}

#[test]
fn limits_of_time_hold(rt: HostRuntime) {
    let alloc = rt.alloc();
    let told = "test $(ulimit -St),$(ulimit -Ht) = 7,8";
    assert!(rt; exits(alloc, &rt, told, seconds(7), 0));
    let endless = ["sh", "-c", "while :; do :; done"];
    assert!(rt; end_of(alloc, &rt, &endless, b"", seconds(1)) == Some(ChildEnd::Signal));
    let caught = "trap 'exit 5' XCPU; while :; do :; done";
    assert!(rt; exits(alloc, &rt, caught, seconds(1), 5));
}

#[test]
fn limits_of_memory_hold(rt: HostRuntime) {
    let alloc = rt.alloc();
    let large = "head -c 300000000 /dev/zero | tail -c 299999999 > /dev/null";
    assert!(rt; exits(alloc, &rt, large, kib(100_000), 1));
    assert!(rt; exits(alloc, &rt, large, FREE, 0));
}

/// Whether the shell gets these words behind its line, and this input, and ends well.
fn succeeds_with<R: Files + Processes>(
    alloc: Global,
    rt: &R,
    words: &[&str],
    input: &[u8],
) -> bool {
    end_of(alloc, rt, words, input, FREE) == Some(ChildEnd::Status(0))
}

#[test]
fn words_arrive(rt: HostRuntime) {
    let line = "test \"$1\" = 'a b' && test \"$2\" = \"it's\" && test \"$3\" = '$0' && \
         read -r word && test \"$word\" = one";
    let words = ["sh", "-c", line, "sh", "a b", "it's", "$0"];
    assert!(rt; succeeds_with(rt.alloc(), &rt, &words, b"one\n"));
}

#[test]
fn input_arrives(rt: HostRuntime) -> Result<(), Fail> {
    let input = vec![in rt.alloc(); 7u8; 1_000_000]?;
    let count = ["sh", "-c", "test $(wc -c) = 1000000"];
    assert!(rt; succeeds_with(rt.alloc(), &rt, &count, &input));
    Ok(())
}

/// Whether the clock goes on by so many milliseconds, at least and at most, while a child runs.
fn takes<R: Files + Processes + SystemClock>(
    alloc: Global,
    rt: &R,
    line: &str,
    input: &[u8],
    least: u64,
    most: u64,
) -> bool {
    let mut clock = RealClock::new(rt);
    let before = clock.now();
    let end = end_of(alloc, rt, &["sh", "-c", line], input, FREE);
    let passed = clock.now().saturating_sub(before);
    end == Some(ChildEnd::Status(3)) && least <= passed && passed < most
}

#[test]
fn the_clock_goes_on(rt: HostRuntime) {
    assert!(rt; takes(rt.alloc(), &rt, "sleep 1; exit 3", b"", 900, 20_000));
}

#[test]
fn a_grandchild_is_not_waited_for(rt: HostRuntime) -> Result<(), Fail> {
    let unread = vec![in rt.alloc(); 7u8; 10_000_000]?;
    assert!(rt; takes(rt.alloc(), &rt, "sleep 30 <&0 & exit 3", &unread, 0, 20_000));
    Ok(())
}
