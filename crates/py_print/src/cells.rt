// Cells and the code of functions printed.
ghost use Rattle.std.specs.Prelude.{◌≡◌, ◌↔◌, IfOk, IsTrue};
ghost use Rattle.py_ast.specs.Nodes.{IsNumbered, node_at, nodes_of_cell};
ghost use Rattle.py_ast.specs.View.{view};
ghost use Rattle.py_ast.specs.Statement.{view_cell, view_stmt};
ghost use Rattle.py_print.specs.Code.{IsCode, code_of, is_def, is_lambda};
ghost use Rattle.py_print.specs.Expressions as expressions;
ghost use Rattle.py_print.specs.Pieces.{text_of};
ghost use Rattle.py_print.specs.Printed.{lines_text, printed, statement};

use crate::expressions::print_expr;
use crate::statements::{print_block, print_stmt};
use crate::writer::Writer;
use flow_base::{NoMemory, PyText};
use py_ast::{Cell, Expr, NodeRef, Stmt};
use std::alloc::Global;

/// The text of a cell in its one printed form. The time is that of its text and its tree.
#[tactic(auto, using(crate::proofs::PrintLists::lines_written))]
pub fn print_cell(alloc: Global, c: &Cell) -> Result<PyText, NoMemory>
    ensures { IfOk result (λ text. text ≡ printed (view_cell c.now)) }
{
    let mut w = Writer::new(alloc);
    print_block(&mut w, 0, c.statements.as_slice())?;
    w.into_text()
}

/// The text of the `def` or lambda that has a number: of a `def` its lines, as they stand outside of any block, and of a lambda its text
/// without a line end. `is_code` tells whether a number is that of such a node.
pub fn print_code(alloc: Global, c: &Cell, node: u32) -> Result<PyText, NoMemory>
    requires numbered { IsNumbered c.now }
    requires code { IsCode (node_at (nodes_of_cell c.now) node) }
    ensures { IfOk result (λ text. text ≡ code_of (node_at (nodes_of_cell c.now) node)) }
{
    match py_ast::node(c, node) {
        Some(NodeRef::Stmt(s)) => stmt_text(alloc, s),
        Some(NodeRef::Expr(e)) => expr_text(alloc, e),
        Some(NodeRef::Handler(_)) => PyText::from_points(alloc, Vec::new(alloc)),
        None => PyText::from_points(alloc, Vec::new(alloc)),
    }
}

/// Whether a number is that of a `def` or a lambda.
pub fn is_code(c: &Cell, node: u32) -> bool
    requires numbered { IsNumbered c.now }
    ensures { IsTrue result ↔ IsCode (node_at (nodes_of_cell c.now) node) }
{
    match py_ast::node(c, node) {
        Some(NodeRef::Stmt(s)) => is_def(s),
        Some(NodeRef::Expr(e)) => is_lambda(e),
        Some(NodeRef::Handler(_)) => false,
        None => false,
    }
}

fn is_def(s: &Stmt) -> bool
    ensures { result ≡ is_def (view_stmt s.now) }
{
    matches!(s, Stmt::Def(..))
}

fn is_lambda(e: &Expr) -> bool
    ensures { result ≡ is_lambda (view e.now) }
{
    matches!(e, Expr::Lambda(..))
}

#[tactic(auto, using(crate::proofs::PrintLists::lines_written))]
fn stmt_text(alloc: Global, s: &Stmt) -> Result<PyText, NoMemory>
    ensures { IfOk result (λ text. text ≡ lines_text (statement 0 (view_stmt s.now))) }
{
    let mut w = Writer::new(alloc);
    print_stmt(&mut w, 0, s)?;
    w.into_text()
}

#[tactic(auto, using(crate::proofs::PrintLists::pieces_written))]
fn expr_text(alloc: Global, e: &Expr) -> Result<PyText, NoMemory>
    ensures { IfOk result (λ text. text ≡ text_of (expressions.printed (view e.now))) }
{
    let mut w = Writer::new(alloc);
    print_expr(&mut w, e)?;
    w.into_text()
}
