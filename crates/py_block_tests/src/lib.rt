//! Tests of `py_block`: tables of texts with the cell or the fault that they are.
#![tactic(auto)]

#[cfg(test)]
mod tests;
