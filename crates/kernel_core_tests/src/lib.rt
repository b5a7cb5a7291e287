//! Tests of `kernel_core`: asks and their replies.
#![tactic(auto)]

#[cfg(test)]
mod tests;
