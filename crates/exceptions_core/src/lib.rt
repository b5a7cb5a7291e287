//! The exceptions that the language has by itself: their classes, and the texts of the errors that it raises.
#![tactic(auto)]

mod class;
mod error;

pub use class::{ExcClass, class_named, matches, name_of};
pub use error::{FaultKind, class_of, rest_of, text_of};

#[cfg(test)]
mod tests;
