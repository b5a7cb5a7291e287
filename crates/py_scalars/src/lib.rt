//! Whole numbers, and the literals and methods of texts.
#![tactic(auto)]

mod number_form;
mod numbers;
mod search;
mod text_form;

pub use number_form::{number_text, read_number};
pub use numbers::{NumFault, add, division_law, floor_div, modulo, mul, negate, power, sub};
pub use search::{Texts, find, replace, split, split_white, strip};
pub use text_form::{TextFault, literal_law, read_text, repr_text};
