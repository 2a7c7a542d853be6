//! Tests of what a run is asked for: configurations and portfolios as texts, and the words of the
//! command line.
#![tactic(auto)]

#[cfg(test)]
mod configs;
#[cfg(test)]
mod portfolios;
#[cfg(test)]
mod refused_configs;
#[cfg(test)]
mod refused_words;
#[cfg(test)]
mod requests;
#[cfg(test)]
mod words;
