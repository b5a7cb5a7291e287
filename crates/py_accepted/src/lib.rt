//! The cell as which a text is accepted: parsed, and without a scope fault. The definitions stand in `specs/`.
#![tactic(auto)]

mod accepting;
mod examples;
mod laws;

pub use accepting::accept;
pub use examples::examples_law;
pub use laws::accepted_law;
