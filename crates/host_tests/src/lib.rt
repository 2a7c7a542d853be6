//! Tests of the real outside: files, children and the clock; and of the clock and sink in memory.
#![tactic(auto)]

#[cfg(test)]
mod children;
#[cfg(test)]
mod files;
#[cfg(test)]
mod memory;
