//! Which versions are stale after each run, and why.
#![tactic(auto)]

mod gather;
mod graph;
mod marks;
mod order;
mod why;

pub use graph::Graph;
pub use why::Why;

#[cfg(test)]
mod tests;
