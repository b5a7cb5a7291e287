//! The machine that runs cells, its primitive operations, and the errors that the language raises by itself; beside them what every operation
//! asks of values: what they are, their parts one after another, and the exception class that a class is below. Each call is its definition
//! in specs/: its value, the machine after it with its events, the steps that it takes, and the error that it raises.
#![tactic(auto)]

mod classes;
mod draft;
mod errors;
mod kinds;
mod machine;
mod stop;
mod symbols;
mod walks;

pub use classes::{base_of, exception_of};
pub use draft::Draft;
pub use errors::{fault, fault_named, raise_with};
pub use kinds::{Kind, Pair};
pub use machine::{MAX_DEPTH, Machine};
pub use stop::Stop;
pub use symbols::{
    ARGS, INIT, LAMBDA, class_of_symbol, class_symbol, fresh_names, is_among, text_of,
};
pub use walks::{Walker, after, collect, item, next, part_at, point_value, range_size, walk};
