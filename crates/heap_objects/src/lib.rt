//! Values, objects, and the heap that keeps what their locations hold.
#![tactic(auto)]

mod cell;
mod dict;
mod hash;
mod heap;
mod items;
mod keyed;
mod keying;
mod laws;
mod listing;
mod making;
mod named;
mod object;
mod slots;
mod stamps;
mod starts;
mod storing;
mod tree;
mod value;

pub use heap::Heap;
pub use keyed::key_of;
pub use laws::{events_law, formed_law, keeps_law, makes_law, sound_law, values_law, writes_law};
pub use object::{Content, Object};
pub use storing::Syms;
pub use value::{NESTING_LIMIT, Value, Values};
