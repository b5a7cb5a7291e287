//! Bytes in and bytes out, with the faults of the outside counted, and the cut of the input into lines.
#![tactic(auto)]

mod gathered;
mod intake;
mod law;
mod line;
mod memory;
mod sink;
mod source;
mod standard;
mod sure;
#[cfg(test)]
mod tests;

pub use flow_base::Bytes;
pub use law::reading_law;
pub use line::{Line, LineFault, LineReader};
pub use memory::{MemSink, MemSource};
pub use sink::{Sink, put};
pub use source::{Failed, Source};
pub use standard::{StdSink, StdSource};
pub use sure::{SureSink, SureSource};

/// A line has at most this many bytes, its line feed not counted.
pub const LINE_LIMIT: usize = 1_048_576;

/// The input has at most this many bytes.
pub const INPUT_LIMIT: u64 = 67_108_864;
