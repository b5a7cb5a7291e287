//! Lines of JSON (RFC 8259): the asks that come in and the replies that go out.
#![tactic(auto)]

mod ask;
mod reply;
#[cfg(test)]
mod tests;
mod written;

pub use ask::{Ask, BadAsk, read_ask};
pub use reply::{EndText, EventKind, MarkText, Reply, TextList, UnknownText};
pub use written::write_reply;
