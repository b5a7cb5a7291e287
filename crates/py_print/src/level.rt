// How loose expressions are, and what their places ask for.
ghost use Rattle.std.specs.Prelude.{◌≡◌, nat_le};
ghost use Rattle.py_ast.specs.View.{view};
ghost use Rattle.py_print.specs.Expressions.{is_number, left_place, level_of, operation_level, rank, right_place};
ghost use Rattle.py_print.specs.Places.{level};

use py_ast::{BinaryOp, Expr};

/// A level of the grammar of expressions, from the tightest to the loosest.
#[derive(Clone, Copy, Debug, PartialEq, Eq)]
pub enum Level {
    Atom,
    Primary,
    Power,
    Factor,
    Term,
    Sum,
    Comparison,
    Not,
    And,
    Or,
    Expr,
}

impl Level {
    fn rank(self) -> u8
        ensures { result ≡ rank (level self) }
    {
        match self {
            Level::Atom => 0,
            Level::Primary => 1,
            Level::Power => 2,
            Level::Factor => 3,
            Level::Term => 4,
            Level::Sum => 5,
            Level::Comparison => 6,
            Level::Not => 7,
            Level::And => 8,
            Level::Or => 9,
            Level::Expr => 10,
        }
    }

    /// Whether an expression of this level stands without parentheses at a place that asks for the other.
    pub(crate) fn is_within(self, place: Level) -> bool
        ensures { result ≡ nat_le (rank (level self)) (rank (level place)) }
    {
        self.rank() <= place.rank()
    }
}

/// The level of an expression as it is printed.
pub(crate) fn level_of(e: &Expr) -> Level
    ensures { level result ≡ level_of (view e.now) }
{
    match e {
        Expr::Name(..)
        | Expr::Number(..)
        | Expr::Text(..)
        | Expr::Nil(..)
        | Expr::Truth(..)
        | Expr::Tuple(..)
        | Expr::List(..)
        | Expr::Dict(..) => Level::Atom,
        Expr::Lambda(..) | Expr::Choice(..) => Level::Expr,
        Expr::And(..) => Level::And,
        Expr::Or(..) => Level::Or,
        Expr::Not(..) => Level::Not,
        Expr::Compare(..) => Level::Comparison,
        Expr::Binary(_, _, o, _) => operation_level(*o),
        Expr::Sign(..) => Level::Factor,
        Expr::Attr(..) | Expr::Item(..) | Expr::Call(..) => Level::Primary,
    }
}

fn operation_level(o: BinaryOp) -> Level
    ensures { level result ≡ operation_level o }
{
    match o {
        BinaryOp::Add | BinaryOp::Sub => Level::Sum,
        BinaryOp::Mul | BinaryOp::FloorDiv | BinaryOp::Mod => Level::Term,
        BinaryOp::Pow => Level::Power,
    }
}

/// What the first operand of an operator is asked for.
pub(crate) fn left_place(o: BinaryOp) -> Level
    ensures { level result ≡ left_place o }
{
    match o {
        BinaryOp::Add | BinaryOp::Sub => Level::Sum,
        BinaryOp::Mul | BinaryOp::FloorDiv | BinaryOp::Mod => Level::Term,
        BinaryOp::Pow => Level::Primary,
    }
}

/// What the second operand of an operator is asked for.
pub(crate) fn right_place(o: BinaryOp) -> Level
    ensures { level result ≡ right_place o }
{
    match o {
        BinaryOp::Add | BinaryOp::Sub => Level::Term,
        BinaryOp::Mul | BinaryOp::FloorDiv | BinaryOp::Mod | BinaryOp::Pow => Level::Factor,
    }
}

/// Whether an expression is a number, which is in parentheses before a dot.
pub(crate) fn is_number(e: &Expr) -> bool
    ensures { result ≡ is_number (view e.now) }
{
    matches!(e, Expr::Number(..))
}
