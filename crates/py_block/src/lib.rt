//! Cells: which cell a text spells, with its blocks, and the faults of a text that spells none in the order of their kinds, as a relation
//! and as a function, with their laws; and the parser that answers them. The definitions stand in `specs/`.
#![tactic(auto)]

mod ends;
mod fault;
mod laws;
mod level_blocks;
mod level_headers;
mod level_lines;
mod level_parts;
mod level_steps;
mod levels;
mod line_read;
mod node_line;
mod parser;
mod stage;

pub use fault::SyntaxFault;
pub use laws::{block_law, cell_law, line_law};
pub use parser::{line_of, parse};
