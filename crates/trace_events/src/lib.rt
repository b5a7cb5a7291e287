//! What the runs of a session did: versions of locations, what each version rests on, and which versions are stale. The
//! definitions stand in `specs/`; the laws that show what they mean are the contracts of functions with empty bodies.
#![tactic(auto)]

mod laws;
mod reader;
mod summary;
#[cfg(test)]
mod tests;
mod version;

pub use laws::{ancestors_law, decided_law, order_law, staleness_law, trace_law, why_law};
pub use reader::summarize;
pub use summary::{Seen, StartRead, Summary, Write, find_last, find_write, has_location};
pub use version::Version;
