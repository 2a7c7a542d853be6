//! Tests of estimates that were worked by hand: unary operators, additive costs, relaxed plans,
//! graphs of landmarks, and what the guides of phases say.
#![tactic(auto)]

#[cfg(test)]
mod additive;
#[cfg(test)]
mod additive_answers;
#[cfg(test)]
mod graph_answers;
#[cfg(test)]
mod graphs;
#[cfg(test)]
mod guide_answers;
#[cfg(test)]
mod guides;
#[cfg(test)]
mod plan_answers;
#[cfg(test)]
mod plans;
#[cfg(test)]
mod relaxed;
