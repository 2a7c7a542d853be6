//! Tests of what stands on the bottom: numbers, names of plan files, the event core and exit codes.
#![tactic(auto)]

#[cfg(test)]
mod codes;
#[cfg(test)]
mod names;
#[cfg(test)]
mod numbers;
#[cfg(test)]
mod runs;
#[cfg(test)]
mod shares;
