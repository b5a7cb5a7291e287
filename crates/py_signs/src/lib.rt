//! What the tokens of a line stand for: keywords and operators by their spelling, names in their NFKC form, and the values of numbers
//! and text literals; and the limits that are seen on tokens. The definitions stand in `specs/`.
#![tactic(auto)]

mod keywords;
mod limits;
mod operators;
mod signs;

pub use limits::{has_unsupported, is_crowded};
pub use signs::{SignFault, read_signs};

#[cfg(test)]
mod tests;
