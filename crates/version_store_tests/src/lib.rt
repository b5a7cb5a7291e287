//! Tests of `version_store`: versions, and what they rest on.
#![tactic(auto)]

#[cfg(test)]
mod tests;
