//! Tests of `py_scope`: the places that names get.
#![tactic(auto)]

#[cfg(test)]
mod tests;
