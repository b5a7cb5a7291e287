//! The kernel: it keeps the texts of the cells and what they computed, and answers one ask at a time. It accepts each cell of the
//! language, and runs those that are plain.
#![tactic(auto)]

mod accepted;
mod answer;
mod kept;
mod kernel;
mod law;
mod lineage;
mod state;

pub use accepted::Accepted;
pub use kernel::{Kernel, STEPS_LIMIT};
pub use law::{answer_law, clean_law, clean_reply_law, clean_run_law, show_law, stale_run_law};
