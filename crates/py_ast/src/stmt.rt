// Statements.
ghost use Rattle.std.specs.Prelude.{◌≡◌};
ghost use Rattle.py_ast.specs.Nodes.{stmt_number};

use crate::{BinaryOp, Expr, Exprs, Texts};
use flow_base::{PyText, Shared};

/// The statements of a block, one at least; none where a block that may be missing is not there.
pub type Stmts = Shared<Stmt>;

/// An `except` clause (Python reference 8.4): its class, the name after `as`, and its block.
#[derive(Drop)]
#[cycle(stmt)]
pub struct Handler {
    pub node: u32,
    pub class: Option<Expr>,
    pub name: Option<PyText>,
    pub body: Stmts,
}

/// A test of an `if` or `elif` with its block.
#[derive(Drop)]
#[cycle(stmt)]
pub struct Branch {
    pub test: Expr,
    pub body: Stmts,
}

/// A statement (Python reference 7 and 8). Each form holds the number of its node and then its parts in the order of the grammar.
#[derive(Drop)]
#[cycle(stmt)]
pub enum Stmt {
    /// An expression (7.1).
    Expr(u32, Expr),
    /// `t = u = a` (7.2): the targets, and the value.
    Assign(u32, Exprs, Expr),
    /// `t += a` (7.2.1).
    Augment(u32, Expr, BinaryOp, Expr),
    Pass(u32),
    Break(u32),
    Continue(u32),
    /// `return a` (7.6).
    Return(u32, Option<Expr>),
    /// `raise a` (7.8).
    Raise(u32, Option<Expr>),
    /// `global x, y` (7.12).
    Global(u32, Texts),
    /// `nonlocal x, y` (7.13).
    Nonlocal(u32, Texts),
    /// `del t` (7.5).
    Del(u32, Expr),
    /// `assert t, a` (7.3).
    Assert(u32, Expr, Option<Expr>),
    /// `if`, each `elif`, and `else` (8.1).
    If(u32, Shared<Branch>, Stmts),
    /// `while` and `else` (8.2).
    While(u32, Expr, Stmts, Stmts),
    /// `for t in a` and `else` (8.3).
    For(u32, Expr, Expr, Stmts, Stmts),
    /// `try`, each `except`, `else` and `finally` (8.4).
    Try(u32, Stmts, Shared<Handler>, Stmts, Stmts),
    /// `def f(x, y=d)` (8.7): the name, the parameters, the defaults of the last of them, and the body.
    Def(u32, PyText, Texts, Exprs, Stmts),
    /// `class C(b)` (8.8): the name, the base, and the body.
    Class(u32, PyText, Option<Expr>, Stmts),
}

impl Stmt {
    /// The number of the node.
    pub fn node(&self) -> u32
        ensures { result ≡ stmt_number self.now }
    {
        match self {
            Stmt::Expr(i, _)
            | Stmt::Assign(i, _, _)
            | Stmt::Augment(i, _, _, _)
            | Stmt::Pass(i)
            | Stmt::Break(i)
            | Stmt::Continue(i)
            | Stmt::Return(i, _)
            | Stmt::Raise(i, _)
            | Stmt::Global(i, _)
            | Stmt::Nonlocal(i, _)
            | Stmt::Del(i, _)
            | Stmt::Assert(i, _, _)
            | Stmt::If(i, _, _)
            | Stmt::While(i, _, _, _)
            | Stmt::For(i, _, _, _, _)
            | Stmt::Try(i, _, _, _, _)
            | Stmt::Def(i, _, _, _, _)
            | Stmt::Class(i, _, _, _) => *i,
        }
    }
}
