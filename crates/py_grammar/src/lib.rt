//! The grammar of logical lines: the signs that tokens stand for, the relation between signs and trees with one case for each
//! production, and its law. The definitions stand in `specs/`.
#![tactic(auto)]

mod examples;
mod laws;
mod line_examples;
mod mark;
mod sign;

pub use examples::{comparisons_law, displays_law, operators_law};
pub use laws::{grammar_law, line_law};
pub use line_examples::{assignments_law, headers_law, statements_law};
pub use mark::Mark;
pub use sign::Sign;
