// What waits while an expression is read.
use crate::kept::{Chained, Kept, KeptAll, Parameters};
use flow_base::PyText;
use py_ast::{BinaryOp, CompareOp, SignOp};

/// The levels of an expression, the tightest first (Python reference 6.17). Each is what `py_grammar` calls so.
#[derive(Clone, Copy, Debug, PartialEq, Eq)]
pub(crate) enum Rung {
    Atom,
    Primary,
    Power,
    Factor,
    Term,
    Sum,
    Comparison,
    Not,
    And,
    Or,
    Expr,
}

/// What a mark with which an atom begins opens.
#[derive(Clone, Copy, Debug, PartialEq, Eq)]
pub(crate) enum Opening {
    /// `None`.
    Nil,
    True,
    False,
    /// `(`
    Round,
    /// `[`
    Square,
    /// `{`
    Curly,
}

/// The brackets round a list of expressions.
#[derive(Drop)]
pub(crate) enum Brackets {
    /// `(` of a tuple or of an expression alone.
    Round,
    /// `[` of a list.
    Square,
    /// `[` behind a value.
    Index(Kept),
    /// `(` behind a value.
    Call(Kept),
}

/// What waits for a phrase of a rung.
#[derive(Drop)]
pub(crate) enum Frame {
    /// A sign, for its operand.
    Sign(SignOp),
    Not,
    /// The base before `**`, for the exponent.
    Power(Kept),
    /// The left operand of `*`, `//` or `%`, for the right one.
    Term(Kept, BinaryOp),
    /// The left operand of `+` or `-`, for the right one.
    Sum(Kept, BinaryOp),
    And(Kept),
    Or(Kept),
    /// A comparison and its next operator, for the next operand.
    Chain(Chained, CompareOp),
    /// The value before `if`, for the test.
    Test(Kept),
    /// The value and the test, for the value behind `else`.
    Else(Kept, Kept),
    /// Parameters of a lambda and the name of one more, for its default.
    Default(Parameters, PyText),
    /// The parameters of a lambda, for its value.
    Lambda(Parameters),
    /// Expressions in brackets, for one more.
    Item(Brackets, KeptAll),
    /// Keys and values in curly brackets, for a key.
    Key(KeptAll),
    /// The same and a key, for its value.
    Value(KeptAll, Kept),
}
