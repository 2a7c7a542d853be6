//! Tests of tasks: parts that are checked, texts that are read, refused and printed, derived
//! variables, and the words that states are packed into.
#![tactic(auto)]

#[cfg(test)]
mod changing;
#[cfg(test)]
mod checks;
#[cfg(test)]
mod derived;
#[cfg(test)]
mod packing;
#[cfg(test)]
mod printing;
#[cfg(test)]
mod reading;
#[cfg(test)]
mod refusals;
#[cfg(test)]
mod samples;
