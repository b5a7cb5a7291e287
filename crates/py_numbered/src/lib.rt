//! The plain tree of a cell, with the rule by which its nodes are numbered, is the cell.
#![tactic(auto)]

mod laws;

pub use laws::numbered_law;
