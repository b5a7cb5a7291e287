//! The texts of values, as `repr` and `str` give them. Each call is its definition in specs/: the text, the machine after it with its events,
//! the steps that it takes, and the error that it raises.
#![tactic(auto)]

mod forms;
mod shown;
mod strings;

pub use shown::show;
pub use strings::to_str;
