//! What the real outside puts to standard output: the bytes that the sink is given, piece by piece,
//! and nothing that a child writes there. The file `stdout` beside this folder has what must come.
#![tactic(auto)]

use host_real::{RealHost, RealSink};
use lama_host::{ChildEnd, Host, Limits, Sink};
use std::alloc::{AllocError, Global};
use std::process::ExitCode;

/// A child that writes to its standard output, and ends with status 3.
fn child(alloc: Global) -> Result<Vec<String>, AllocError> {
    let mut words = Vec::new(alloc);
    for word in ["sh", "-c", "echo hidden; exit 3"] {
        words.push(String::from_str(alloc, word)?)?;
    }
    Ok(words)
}

fn main(rt: HostRuntime) -> ExitCode {
    let Ok(words) = child(rt.alloc()) else {
        return ExitCode::from(40);
    };
    let limits = Limits {
        seconds: None,
        kib: None,
    };
    let mut out = RealSink::new(&rt);
    let before = out.put(b"before\n").is_ok();
    let mut host = RealHost::new(rt.alloc(), &rt);
    let started = host.start(0, &words, b"input", limits).is_ok();
    let ended = started && host.wait(0) == Ok(ChildEnd::Status(3));
    let after = out.put(b"after, with no line feed at its end").is_ok();
    if before && ended && after {
        ExitCode::from(0)
    } else {
        ExitCode::from(1)
    }
}
