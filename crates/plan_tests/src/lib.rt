//! Tests of plan files: as texts, judged, and as those that a child left.
#![tactic(auto)]

#[cfg(test)]
mod collecting;
#[cfg(test)]
mod tasks;
#[cfg(test)]
mod texts;
#[cfg(test)]
mod verdicts;
