//! Tests of `py_accepted`: tables of texts that are accepted, or refused by a kind of fault at a line.
#![tactic(auto)]

#[cfg(test)]
mod tests;
