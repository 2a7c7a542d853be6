//! The outside in memory: a host with a folder and children by scripts, a clock, and a sink.
//!
//! They tell all that contracts can speak of, and fail where they are told to. They stand for the
//! outside where a part of the planner is tried without a file system or a child.
#![tactic(auto)]

mod calls;
mod children;
mod clock;
mod ends;
mod faults;
mod folder;
mod host;
mod journal;
mod sink;

pub use calls::{Fail, HostCall};
pub use children::{Script, Start};
pub use clock::MemClock;
pub use folder::{named, written};
pub use host::MemHost;
pub use sink::MemSink;
