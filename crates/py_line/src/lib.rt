//! Logical lines: what the tokens of one line spell, or why they spell none. The grammar stands in `py_grammar`.
#![tactic(auto)]

mod after;
mod arrive;
mod at;
mod before;
mod exprs;
mod fault;
mod form;
mod frame;
mod header;
mod kept;
mod line;
mod made;
mod numbering;
mod phrase;
mod raw;
mod read;
mod simple;
mod state;
mod targets;
mod words;

pub use form::LineForm;
pub use line::{LineFault, LineRead, parse_line, parse_line_from};
