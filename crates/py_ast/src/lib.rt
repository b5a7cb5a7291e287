//! The trees of cells: expressions, statements and `except` clauses, with the numbers of their nodes.
#![tactic(auto)]

mod cell;
mod depths;
mod expr;
mod find;
mod laws;
mod numbering;
mod stmt;

pub use cell::Cell;
pub use depths::depth;
pub use expr::{BinaryOp, CompareOp, Expr, Exprs, SignOp, Texts};
pub use find::{NodeRef, node};
pub use laws::{lawful_law, numbers_law};
pub use numbering::{is_numbered, size};
pub use stmt::{Branch, Handler, Stmt, Stmts};

#[cfg(test)]
mod tests;
