//! Tests of `heap_objects`: objects, and what a heap records and keeps.
#![tactic(auto)]

#[cfg(test)]
mod tests;
