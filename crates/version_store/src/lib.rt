//! The versions that the runs of a session wrote, with what each one directly rests on.
#![tactic(auto)]

mod dependents;
mod followers;
mod hash;
mod kept;
mod latest;
mod locations;
mod runs;
mod store;
mod within;

pub use store::Versions;
