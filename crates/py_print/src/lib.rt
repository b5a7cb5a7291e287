//! Cells printed: the text of a cell in one form, which spells that cell. The definitions stand in `specs/`.
#![tactic(auto)]

mod cells;
mod expressions;
mod laws;
mod level;
mod lines;
mod spelling;
mod statements;
mod writer;

pub use cells::{is_code, print_cell, print_code};
pub use laws::{ascii_law, block_law, expression_law, line_law, print_law};
