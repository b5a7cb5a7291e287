// What reading makes of a line before its nodes get their numbers. Every number in it is 0.
use flow_base::PyText;
use py_ast::{BinaryOp, Expr};

/// A simple statement (Python reference 7).
#[derive(Drop)]
pub(crate) enum RawSimple {
    Expr(Expr),
    /// The targets, and the value.
    Assign(Vec<Expr>, Expr),
    Augment(Expr, BinaryOp, Expr),
    Pass,
    Break,
    Continue,
    Return(Option<Expr>),
    Raise(Option<Expr>),
    Global(Vec<PyText>),
    Nonlocal(Vec<PyText>),
    Del(Expr),
    Assert(Expr, Option<Expr>),
}

/// A header (Python reference 8).
#[derive(Drop)]
pub(crate) enum RawHeader {
    If(Expr),
    Elif(Expr),
    Else,
    While(Expr),
    For(Expr, Expr),
    Try,
    Finally,
    /// The class and the name, where they are there.
    Except(Option<Expr>, Option<PyText>),
    /// The name, the parameters, and the defaults of the last of them.
    Def(PyText, Vec<PyText>, Vec<Expr>),
    Class(PyText, Option<Expr>),
}

/// A line.
#[derive(Drop)]
pub(crate) enum RawLine {
    Simples(Vec<RawSimple>),
    /// A header, and the statements after its colon.
    Header(RawHeader, Vec<RawSimple>),
}
