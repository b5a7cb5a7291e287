//! Tokens put into logical lines with their depths, after "Line structure" of the Python language reference. The definition
//! stands in `specs/`.
#![tactic(auto)]

mod fault;
mod layouter;
mod line;
mod stack;

pub use fault::LayoutFault;
pub use layouter::{layout, layout_law, place_law};
pub use line::{Lines, LogicalLine};

#[cfg(test)]
mod tests;
