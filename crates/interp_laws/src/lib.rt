//! Laws of the meaning: what every operation keeps.
#![tactic(auto)]

mod laws;
mod meaning_laws;
mod symbol_laws;

pub use laws::formed_law;
pub use meaning_laws::added_law;
pub use symbol_laws::symbols_law;
