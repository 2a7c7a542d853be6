//! Tests of the search: logs that were counted by hand, and random tasks; and that landmarks of
//! random tasks hold on the way to each goal.
#![tactic(auto)]

#[cfg(test)]
mod ends;
#[cfg(test)]
mod ff_guide;
#[cfg(test)]
mod landmarks;
#[cfg(test)]
mod random;
#[cfg(test)]
mod rows;
