// Targets among expressions.
ghost use Rattle.std.specs.Prelude.{◌≡◌, ◌&&◌, IfOk};
ghost use Rattle.py_ast.specs.View.{view, views};
ghost use Rattle.py_grammar.specs.Kept.{are_targets, deep, is_kept_place, is_kept_target, is_target, kept_target, may_be_target, some_of, target_of, targets_of, whole};
ghost use Rattle.py_line.specs.Views.{kept_of, shape_of};

use crate::kept::{Kept, Shape};
use flow_base::{NoMemory, Shared};
use py_ast::{Expr, Exprs};
use std::alloc::Global;

/// Whether an expression may be a target.
#[cycle(targets)]
pub(crate) fn is_target(e: &Expr) -> bool
    ensures { result ≡ is_target (view e.now) }
{
    match e {
        Expr::Name(..) | Expr::Attr(..) | Expr::Item(..) => true,
        Expr::Tuple(_, parts) | Expr::List(_, parts) => is_row(parts.as_slice()),
        _ => false,
    }
}

/// Whether there are expressions that may all be targets.
#[cycle(targets)]
pub(crate) fn is_row(all: &[Expr]) -> bool
    ensures { result ≡ (some_of (views all.now) && are_targets (views all.now)) }
{
    if all.is_empty() {
        return false;
    }
    are_targets(all)
}

/// Whether expressions may all be targets.
#[cycle(targets)]
pub(crate) fn are_targets(all: &[Expr]) -> bool
    ensures { result ≡ are_targets (views all.now) }
{
    for e in all {
        if !is_target(e) {
            return false;
        }
    }
    true
}

/// The target that an expression in its place is: a list of targets is the tuple of them.
#[cycle(made)]
pub(crate) fn target_of(alloc: Global, e: &Expr) -> Result<Expr, NoMemory>
    ensures { IfOk result (λ t. view t ≡ target_of (view e.now)) }
{
    match e {
        Expr::Tuple(i, parts) | Expr::List(i, parts) => Ok(Expr::Tuple(
            *i,
            targets_of(alloc, parts.as_slice())?,
        )),
        _ => copy(e),
    }
}

#[cycle(made)]
fn targets_of(alloc: Global, all: &[Expr]) -> Result<Exprs, NoMemory>
    ensures { IfOk result (λ ts. views ts ≡ targets_of (views all.now)) }
{
    let mut targets = Vec::with_capacity(alloc, all.len())?;
    for e in all {
        let target = target_of(alloc, e)?;
        targets.push(target)?;
    }
    Shared::from_vec(alloc, targets)
}

// The same expression. Its parts stay in the same memory.
fn copy(e: &Expr) -> Result<Expr, NoMemory>
    ensures { IfOk result (λ x. x ≡ e.now) }
{
    match e {
        Expr::Name(i, x) => Ok(Expr::Name(*i, x.copy()?)),
        Expr::Number(i, n) => Ok(Expr::Number(*i, *n)),
        Expr::Text(i, x) => Ok(Expr::Text(*i, x.copy()?)),
        Expr::Nil(i) => Ok(Expr::Nil(*i)),
        Expr::Truth(i, b) => Ok(Expr::Truth(*i, *b)),
        Expr::Tuple(i, parts) => Ok(Expr::Tuple(*i, parts.copy()?)),
        Expr::List(i, parts) => Ok(Expr::List(*i, parts.copy()?)),
        Expr::Dict(i, parts) => Ok(Expr::Dict(*i, parts.copy()?)),
        Expr::Lambda(i, names, defaults, body) => {
            Ok(Expr::Lambda(*i, names.copy()?, defaults.copy()?, body.copy()?))
        }
        Expr::Choice(i, a, test, b) => Ok(Expr::Choice(*i, a.copy()?, test.copy()?, b.copy()?)),
        Expr::And(i, a, b) => Ok(Expr::And(*i, a.copy()?, b.copy()?)),
        Expr::Or(i, a, b) => Ok(Expr::Or(*i, a.copy()?, b.copy()?)),
        Expr::Not(i, a) => Ok(Expr::Not(*i, a.copy()?)),
        Expr::Compare(i, ops, parts) => Ok(Expr::Compare(*i, ops.copy()?, parts.copy()?)),
        Expr::Binary(i, a, o, b) => Ok(Expr::Binary(*i, a.copy()?, *o, b.copy()?)),
        Expr::Sign(i, o, a) => Ok(Expr::Sign(*i, *o, a.copy()?)),
        Expr::Attr(i, a, x) => Ok(Expr::Attr(*i, a.copy()?, x.copy()?)),
        Expr::Item(i, a, b) => Ok(Expr::Item(*i, a.copy()?, b.copy()?)),
        Expr::Call(i, f, parts) => Ok(Expr::Call(*i, f.copy()?, parts.copy()?)),
    }
}

/// Whether what is kept of an expression may be a target.
pub(crate) fn is_kept_target(a: &Kept) -> bool
    ensures { result ≡ is_kept_target (kept_of a.now) }
{
    match a {
        Kept::Whole(e, _) => is_target(e),
        Kept::Deep(s) => may_be_target(*s),
    }
}

pub(crate) fn may_be_target(s: Shape) -> bool
    ensures { result ≡ may_be_target (shape_of s) }
{
    match s {
        Shape::Place | Shape::Target => true,
        Shape::Value => false,
    }
}

/// Whether what is kept of an expression is a name, an attribute or an item.
pub(crate) fn is_kept_place(a: &Kept) -> bool
    ensures { result ≡ is_kept_place (kept_of a.now) }
{
    match a {
        Kept::Whole(e, _) => is_place(e),
        Kept::Deep(s) => is_place_shape(*s),
    }
}

fn is_place(e: &Expr) -> bool
    ensures { result ≡ is_kept_place (whole (view e.now) 0) }
{
    matches!(e, Expr::Name(..) | Expr::Attr(..) | Expr::Item(..))
}

fn is_place_shape(s: Shape) -> bool
    ensures { result ≡ is_kept_place (deep (shape_of s)) }
{
    match s {
        Shape::Place => true,
        Shape::Target | Shape::Value => false,
    }
}

/// What is kept of the target that an expression in its place is.
pub(crate) fn kept_target(alloc: Global, a: Kept) -> Result<Kept, NoMemory>
    ensures { IfOk result (λ k. kept_of k ≡ kept_target (kept_of a)) }
{
    match a {
        Kept::Whole(e, d) => Ok(Kept::Whole(target_of(alloc, &e)?, d)),
        Kept::Deep(s) => Ok(Kept::Deep(s)),
    }
}
