// What an open level is made of: the statements so far, the last with what it may still get, and the part that waits for a block.
ghost use Rattle.std.specs.Prelude.{◌≡◌, ◌+◌, ℕ};
ghost use Rattle.std.specs.List.{list_all};
ghost use Rattle.py_ast.specs.Statement.{view_stmt};
ghost use Rattle.py_grammar.specs.Blocks.{is_allowed};
ghost use Rattle.py_line.specs.Form.{statements_of};
ghost use Rattle.py_block.specs.LevelViews.{place_at, place_of, waiting_of};
ghost use Rattle.py_block.specs.Machine as machine;

use flow_base::PyText;
use py_ast::{Branch, Expr, Exprs, Handler, Stmt, Stmts, Texts};

/// What a block stands in, besides its depth: whether the innermost `def` or `class` round it is a `def`, and whether it is inside a loop
/// of the same function and class body.
#[derive(Clone, Copy)]
pub(crate) struct Body {
    pub(crate) in_def: bool,
    pub(crate) in_loop: bool,
}

/// Where a block stands.
#[derive(Clone, Copy)]
pub(crate) struct Place {
    pub(crate) deep: u32,
    pub(crate) body: Body,
}

/// An `except` clause without its block: the number of its node, its class and the name after `as`.
#[derive(Drop)]
pub(crate) struct Clause {
    pub(crate) node: u32,
    pub(crate) class: Option<Expr>,
    pub(crate) name: Option<PyText>,
}

/// A part of a statement whose block comes next, with the number of the statement's node and the parts before it.
#[derive(Drop)]
pub(crate) enum Waiting {
    IfBody(u32, Vec<Branch>, Expr),
    IfElse(u32, Vec<Branch>),
    WhileBody(u32, Expr),
    WhileElse(u32, Expr, Stmts),
    ForBody(u32, Expr, Expr),
    ForElse(u32, Expr, Expr, Stmts),
    TryBody(u32),
    ExceptBody(u32, Stmts, Vec<Handler>, Clause),
    TryElse(u32, Stmts, Vec<Handler>),
    FinallyBody(u32, Stmts, Vec<Handler>, Stmts),
    DefBody(u32, PyText, Texts, Exprs),
    ClassBody(u32, PyText, Option<Expr>),
}

/// A compound statement that may get a further part, with the number of its node and its parts so far.
#[derive(Drop)]
pub(crate) enum After {
    If(u32, Vec<Branch>),
    While(u32, Expr, Stmts),
    For(u32, Expr, Expr, Stmts),
    Try(u32, Stmts),
    /// With whether a further `except` may follow.
    Except(u32, Stmts, Vec<Handler>, bool),
    Else(u32, Stmts, Vec<Handler>, Stmts),
}

/// The last statement of a level, with what it may still get.
#[derive(Drop)]
pub(crate) enum Last {
    Nothing,
    Whole(Stmt),
    After(After),
    Waits(Waiting),
}

/// The statements of a level but the last, and the last.
#[derive(Drop)]
pub(crate) struct Row {
    pub(crate) done: Vec<Stmt>,
    pub(crate) last: Last,
}

/// A level round the innermost: its statements, and the part of the last that waits for the block of the level within.
#[derive(Drop)]
pub(crate) struct Outer {
    pub(crate) place: Place,
    pub(crate) done: Vec<Stmt>,
    pub(crate) waiting: Waiting,
}

/// The levels round the innermost, outermost first, and the innermost.
#[derive(Drop)]
pub(crate) struct Open {
    pub(crate) outers: Vec<Outer>,
    pub(crate) place: Place,
    pub(crate) row: Row,
}

/// What the block that is waited for stands in.
pub(crate) fn body_within(place: Place, waiting: &Waiting) -> Body
    ensures { place_at (place.deep + 1) result ≡ machine.place_of (place_of place) (waiting_of waiting.now) }
{
    let outside = place.body;
    match waiting {
        Waiting::WhileBody(..) | Waiting::ForBody(..) => Body {
            in_def: outside.in_def,
            in_loop: true,
        },
        Waiting::DefBody(..) => Body {
            in_def: true,
            in_loop: false,
        },
        Waiting::ClassBody(..) => Body {
            in_def: false,
            in_loop: false,
        },
        Waiting::IfBody(..)
        | Waiting::IfElse(..)
        | Waiting::WhileElse(..)
        | Waiting::ForElse(..)
        | Waiting::TryBody(..)
        | Waiting::ExceptBody(..)
        | Waiting::TryElse(..)
        | Waiting::FinallyBody(..) => outside,
    }
}

// Whether a simple statement may stand in a body, however deep.
#[tactic(auto, using(crate::proofs::LevelForms::allowed_form))]
fn is_allowed(body: Body, statement: &Stmt) -> bool
    ensures { (deep : ℕ) → result ≡ is_allowed (place_at deep body) (view_stmt statement.now) }
{
    match statement {
        Stmt::Return(..) => body.in_def,
        Stmt::Break(..) | Stmt::Continue(..) => body.in_loop,
        Stmt::Expr(..)
        | Stmt::Assign(..)
        | Stmt::Augment(..)
        | Stmt::Pass(..)
        | Stmt::Raise(..)
        | Stmt::Global(..)
        | Stmt::Nonlocal(..)
        | Stmt::Del(..)
        | Stmt::Assert(..)
        | Stmt::If(..)
        | Stmt::While(..)
        | Stmt::For(..)
        | Stmt::Try(..)
        | Stmt::Def(..)
        | Stmt::Class(..) => true,
    }
}

/// Whether simple statements may all stand in a body, however deep.
pub(crate) fn may_stand(body: Body, statements: &[Stmt]) -> bool
    ensures { (deep : ℕ) → result ≡ list_all (is_allowed (place_at deep body)) (statements_of statements.now) }
{
    for statement in statements {
        if !is_allowed(body, statement) {
            return false;
        }
    }
    true
}
