//! The applicable operators of a state, found by a tree of preconditions.
//!
//! Each node but the root has a fact, and the facts on the way to a node are the preconditions of
//! the operators that stand at it; operators with common preconditions share the way. `specs/` says
//! which operators are applicable, and what a tree for a task is.
#![tactic(auto)]

mod conditions;
mod growing;
mod nodes;
mod tree;
mod walking;

pub use tree::Tree;
