//! Tests of the top call over a host in memory.
#![tactic(auto)]

#[cfg(test)]
mod faults;
#[cfg(test)]
mod folders;
#[cfg(test)]
mod limits;
#[cfg(test)]
mod plans;
#[cfg(test)]
mod runs;
#[cfg(test)]
mod texts;
#[cfg(test)]
mod words;
