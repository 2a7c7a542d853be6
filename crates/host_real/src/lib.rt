//! The real outside: the current folder, children through the shell, the clock, and standard
//! output.
//!
//! A real folder tells nothing of what it holds, since others may write there too; it tells which
//! slots are in use, and how often a call failed.
#![tactic(auto)]

mod child;
mod faults;
mod files;
mod host;
mod running;
mod streams;

pub use host::RealHost;
pub use streams::{RealClock, RealSink};

/// What the shell does first: its input goes to a nameless file, and that is the program's input. So
/// no one who keeps the input open can keep the planner waiting.
const TAKE_INPUT: &str = "in=$(mktemp) || exit 127; cat > \"$in\" || { rm -f \"$in\"; exit 127; }; \
     exec < \"$in\"; rm -f \"$in\"; ";

/// The shell becomes the program, or ends with 127 where there is none that can be executed. Some
/// shells read a first word that begins with a dash as an option of `exec`, and others don't know
/// its `--`.
const BECOME: &str = "case $1 in '') exit 127;; */*) [ -f \"$1\" ] && [ -x \"$1\" ] || exit 127;; \
     *) command -v -- \"$1\" > /dev/null 2>&1 || exit 127;; esac; \
     case $1 in -*) if (exec -- true) 2>/dev/null; then exec -- \"$@\"; fi;; esac; \
     exec \"$@\"";
