// Expressions.
ghost use Rattle.std.specs.Prelude.{◌≡◌};
ghost use Rattle.py_ast.specs.Nodes.{number};

use flow_base::{Held, PyText, Shared};

/// An arithmetic operator of two operands (Python reference 6.5 and 6.7).
#[derive(Clone, Copy, Debug, PartialEq, Eq)]
pub enum BinaryOp {
    Add,
    Sub,
    Mul,
    FloorDiv,
    Mod,
    Pow,
}

/// A sign before its operand (Python reference 6.6).
#[derive(Clone, Copy, Debug, PartialEq, Eq)]
pub enum SignOp {
    Plus,
    Minus,
}

/// An operator of a comparison (Python reference 6.10).
#[derive(Clone, Copy, Debug, PartialEq, Eq)]
pub enum CompareOp {
    Less,
    Greater,
    Equal,
    AtLeast,
    AtMost,
    NotEqual,
    In,
    NotIn,
    Is,
    IsNot,
}

/// A list of names.
pub type Texts = Shared<PyText>;

/// A list of expressions.
pub type Exprs = Shared<Expr>;

/// An expression, or a target (Python reference 6, and 7.2 for targets). Each form holds the number of its node and then its parts in the
/// order of the grammar. Parentheses leave no node.
#[derive(Drop)]
pub enum Expr {
    /// A name (6.2.1).
    Name(u32, PyText),
    /// A whole number (2.4), which has no sign.
    Number(u32, i128),
    /// The text of one or more text literals in a row (2.4).
    Text(u32, PyText),
    /// `None`.
    Nil(u32),
    /// `True` or `False`.
    Truth(u32, bool),
    /// A tuple (6.2.3, 6.15), or a list of targets with a comma or in square brackets.
    Tuple(u32, Exprs),
    /// `[a, b]` (6.2.5).
    List(u32, Exprs),
    /// `{k: v, l: w}` (6.2.7): keys and values in turn.
    Dict(u32, Exprs),
    /// `lambda x, y=d: a` (6.14): the parameters, the defaults of the last of them, and the value.
    Lambda(u32, Texts, Exprs, Held<Expr>),
    /// `a if t else b` (6.13): `a`, `t`, `b`.
    Choice(u32, Held<Expr>, Held<Expr>, Held<Expr>),
    /// `a and b` (6.11).
    And(u32, Held<Expr>, Held<Expr>),
    /// `a or b` (6.11).
    Or(u32, Held<Expr>, Held<Expr>),
    /// `not a` (6.11).
    Not(u32, Held<Expr>),
    /// `a < b <= c` (6.10): the operators, and the operands between which they stand. A chain is one node.
    Compare(u32, Shared<CompareOp>, Exprs),
    /// `a + b`, `a ** b` and their like (6.5, 6.7).
    Binary(u32, Held<Expr>, BinaryOp, Held<Expr>),
    /// `-a` and `+a` (6.6).
    Sign(u32, SignOp, Held<Expr>),
    /// `a.x` (6.3.1).
    Attr(u32, Held<Expr>, PyText),
    /// `a[i]` (6.3.2).
    Item(u32, Held<Expr>, Held<Expr>),
    /// `f(a, b)` (6.3.4).
    Call(u32, Held<Expr>, Exprs),
}

impl Expr {
    /// The number of the node.
    pub fn node(&self) -> u32
        ensures { result ≡ number self.now }
    {
        match self {
            Expr::Name(i, _)
            | Expr::Number(i, _)
            | Expr::Text(i, _)
            | Expr::Nil(i)
            | Expr::Truth(i, _)
            | Expr::Tuple(i, _)
            | Expr::List(i, _)
            | Expr::Dict(i, _)
            | Expr::Lambda(i, _, _, _)
            | Expr::Choice(i, _, _, _)
            | Expr::And(i, _, _)
            | Expr::Or(i, _, _)
            | Expr::Not(i, _)
            | Expr::Compare(i, _, _)
            | Expr::Binary(i, _, _, _)
            | Expr::Sign(i, _, _)
            | Expr::Attr(i, _, _)
            | Expr::Item(i, _, _)
            | Expr::Call(i, _, _) => *i,
        }
    }
}
