//! The operations on values that the forms of the language share, over the machine that runs cells. Each operation is its definition in
//! specs/: its value, the machine after it with its events, the steps that it takes, and the error that it raises.
#![tactic(auto)]

mod equality;
mod joining;
mod laws;
mod lookups;
mod making;
mod membership;
mod operators;
mod orders;
mod products;
mod subscripts;
mod truths;

pub use equality::equal;
pub use interp_machine::{
    ARGS, INIT, LAMBDA, MAX_DEPTH, Machine, Stop, Walker, class_of_symbol, class_symbol, collect,
    fault, fault_named, fresh_names, next, raise_with, range_size, text_of, walk,
};
pub use interp_texts::{show, to_str};
pub use laws::identity_law;
pub use lookups::lookup;
pub use making::{make_dict, make_list, make_text, make_tuple, tuple};
pub use membership::contains;
pub use operators::{BinaryOp, binary, negate, plus};
pub use orders::{less, less_or_equal, sorts_together};
pub use subscripts::{delete_item, splice, store_item, subscript};
pub use truths::{identical, truth};
