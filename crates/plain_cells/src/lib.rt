//! Plain cells: all of whose statements are `NAME = E`, where E is built of numbers, of names that are not built in, and of `+`. Which
//! cells they are, and what a run of one does: its values, its steps and its events. The definitions stand in `specs/`.
#![tactic(auto)]

mod built_ins;
mod evaluate;
mod machine;
mod plain;

pub use evaluate::{global, run};
pub use machine::{End, Finished, Machine};
pub use plain::{bound_name, is_plain, used_names};

#[cfg(test)]
mod tests;
