// What is kept of the trees of a line while it is read: a tree of at most 60 levels with its depth, and of a deeper one only what it may
// stand for.
use flow_base::PyText;
use py_ast::{CompareOp, Expr};

/// What an expression may stand for: a place, another target, or a value alone.
#[derive(Clone, Copy, Debug, PartialEq, Eq)]
pub(crate) enum Shape {
    Place,
    Target,
    Value,
}

/// What is kept of an expression.
#[derive(Drop)]
pub(crate) enum Kept {
    /// The tree and its depth.
    Whole(Expr, u32),
    Deep(Shape),
}

/// What is kept of several expressions.
#[derive(Drop)]
pub(crate) enum KeptAll {
    /// The trees and the depth of the deepest, 0 where there are none.
    All(Vec<Expr>, u32),
    /// One alone, which is too deep.
    OneDeep(Shape),
    /// Several of which some is too deep, and whether all may be targets.
    SomeDeep(bool),
}

/// The operators of a comparison so far, and its operands.
#[derive(Drop)]
pub(crate) struct Chained {
    pub(crate) ops: Vec<CompareOp>,
    pub(crate) operands: KeptAll,
}

/// The parameters so far, and the defaults of the last of them.
#[derive(Drop)]
pub(crate) struct Parameters {
    pub(crate) names: Vec<PyText>,
    pub(crate) defaults: KeptAll,
}
