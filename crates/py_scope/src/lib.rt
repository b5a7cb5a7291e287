//! The scopes of a cell: to which body each name belongs, and at which place of its frame.
#![tactic(auto)]

mod builder;
mod chart;
mod codes;
mod declarations;
mod fault;
mod faults;
mod gather;
mod laws;
mod mark;
mod name_list;
mod place;
mod round;
mod scope;
mod walk;

pub use chart::Scopes;
pub use codes::{Coded, Codes};
pub use fault::ScopeFault;
pub use laws::{nodes_law, params_law, place_law};
pub use name_list::NameList;
pub use place::NamePlace;
pub use walk::scopes;
