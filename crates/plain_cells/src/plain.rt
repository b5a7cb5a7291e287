// Which cells are plain, and the names in their statements.
ghost use Rattle.std.specs.Prelude.{◌≡◌, ◌++◌, IfOk, OnOk};
ghost use Rattle.std.specs.Option.{option_copied};
ghost use Rattle.py_ast.specs.View.{view, views};
ghost use Rattle.py_ast.specs.Statement.{view_stmt, view_block};
ghost use Rattle.plain_cells.specs.Plain as spec;

use crate::built_ins::is_built_in;
use flow_base::{NoMemory, PyText};
use py_ast::{BinaryOp, Expr, Stmt};
use std::alloc::Global;

/// Whether the statements are those of a plain cell. Takes no memory.
pub fn is_plain(statements: &[Stmt]) -> bool
    ensures { result ≡ spec.is_plain (view_block statements.now) }
{
    for s in statements {
        if !assigns_sum(s) {
            return false;
        }
    }
    true
}

/// The names that the expression of a statement `NAME = E` uses, from the left; of another statement, none.
pub fn used_names(alloc: Global, s: &Stmt) -> Result<Vec<PyText>, NoMemory>
    ensures { IfOk result (λ names. names.items ≡ spec.names_read (spec.assigned (view_stmt s.now))) }
{
    let mut names = Vec::new(alloc);
    if let Stmt::Assign(_, targets, e) = s {
        if only_name(targets.as_slice()).is_some() {
            add_names(&mut names, e)?;
        }
    }
    Ok(names)
}

/// The name to which a statement `NAME = E` gives a value; of another statement, none. Takes no memory.
pub fn bound_name(s: &Stmt) -> Option<&PyText>
    ensures { option_copied result ≡ spec.name_bound (spec.assigned (view_stmt s.now)) }
{
    match s {
        Stmt::Assign(_, targets, _) => only_name(targets.as_slice()),
        _ => None,
    }
}

// The name that is the only target.
pub(crate) fn only_name(targets: &[Expr]) -> Option<&PyText>
    ensures { option_copied result ≡ spec.only_name (views targets.now) }
{
    match targets {
        [] => None,
        [target, rest @ ..] => {
            if rest.is_empty() {
                name_of(target)
            } else {
                None
            }
        }
    }
}

// The name that a target is.
fn name_of(target: &Expr) -> Option<&PyText>
    ensures { option_copied result ≡ spec.name_of (view target.now) }
{
    match target {
        Expr::Name(_, x) => Some(x),
        _ => None,
    }
}

// Whether a statement is `NAME = E` with an E of the form of a plain cell.
fn assigns_sum(s: &Stmt) -> bool
    ensures { result ≡ spec.assigns_sum (spec.assigned (view_stmt s.now)) }
{
    match s {
        Stmt::Assign(_, targets, e) => only_name(targets.as_slice()).is_some() && is_sum(e),
        _ => false,
    }
}

// Whether an expression is built of numbers, of names that are not built in, and of `+`.
fn is_sum(e: &Expr) -> bool
    ensures { result ≡ spec.is_sum (view e.now) }
{
    match e {
        Expr::Name(_, x) => !is_built_in(x),
        Expr::Number(..) => true,
        Expr::Binary(_, a, BinaryOp::Add, b) => is_sum(a.get()) && is_sum(b.get()),
        _ => false,
    }
}

// Puts last the names that an expression uses.
fn add_names(names: &mut Vec<PyText>, e: &Expr) -> Result<(), NoMemory>
    ensures { OnOk result (names.new.items ≡ names.old.items ++ spec.names_used (view e.now)) }
{
    match e {
        Expr::Name(_, x) => {
            names.push(x.copy()?)?;
            Ok(())
        }
        Expr::Binary(_, a, BinaryOp::Add, b) => {
            add_names(names, a.get())?;
            add_names(names, b.get())
        }
        _ => Ok(()),
    }
}
