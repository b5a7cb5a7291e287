//! What a session is kept in: a list that grows at its end, a table by names, and the values of names.
#![tactic(auto)]

mod sequence;
mod table;
mod values;

pub use sequence::Sequence;
pub use table::Table;
pub use values::Values;

#[cfg(test)]
mod tests;
