//! Tests of `py_scalars`: numbers, literals and the methods of texts.
#![tactic(auto)]

#[cfg(test)]
mod tests;
