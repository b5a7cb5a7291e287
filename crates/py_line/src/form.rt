// What the lines of a cell are.
use flow_base::PyText;
use py_ast::{Expr, Exprs, Stmt, Texts};

/// A logical line: its simple statements, or a header with the simple statements after its colon, if it has any. Each form holds the
/// number of its node, if it has one, and then its parts in the order of the grammar.
#[derive(Drop)]
pub enum LineForm {
    /// `a; b` (Python reference 7): simple statements alone.
    Simples(Vec<Stmt>),
    /// `if a:` (8.1).
    If(u32, Expr, Vec<Stmt>),
    /// `elif a:` (8.1), which is no node.
    Elif(Expr, Vec<Stmt>),
    /// `else:` (8.1 to 8.4), which is no node.
    Else(Vec<Stmt>),
    /// `while a:` (8.2).
    While(u32, Expr, Vec<Stmt>),
    /// `for t in a:` (8.3).
    For(u32, Expr, Expr, Vec<Stmt>),
    /// `try:` (8.4).
    Try(u32, Vec<Stmt>),
    /// `finally:` (8.4), which is no node.
    Finally(Vec<Stmt>),
    /// `except c as x:` (8.4): the class and the name, where they are there.
    Except(u32, Option<Expr>, Option<PyText>, Vec<Stmt>),
    /// `def f(x, y=d):` (8.7): the name, the parameters, and the defaults of the last of them.
    Def(u32, PyText, Texts, Exprs, Vec<Stmt>),
    /// `class C(b):` (8.8): the name and the base.
    Class(u32, PyText, Option<Expr>, Vec<Stmt>),
}
