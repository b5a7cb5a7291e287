// The walk through the nodes of a cell.
ghost use Rattle.std.specs.Prelude.{◌≡◌, ◌∷◌, IfOk, OnOk};
ghost use Rattle.py_scope.specs.Building.{before_nodes, with_spots};
ghost use Rattle.py_scope.specs.Scopes.{scope_of};
ghost use Rattle.py_scope.specs.Chart.{Gives, class_code, coded, def_code, spots_of_block, spots_of_branch, spots_of_branches, spots_of_cell, spots_of_expr, spots_of_exprs, spots_of_handler, spots_of_handlers, spots_of_maybe, spots_of_stmt};

use crate::Scopes;
use crate::builder::Builder;
use crate::fault::ScopeFault;
use crate::mark::Marks;
use crate::round::Round;
use crate::scope::Kind;
use flow_base::NoMemory;
use py_ast::{Branch, Cell, Expr, Exprs, Handler, Stmt, Stmts, Texts};
use std::alloc::Global;

/// The scopes of a cell, by the rules of names and bindings of the Python reference, 4.2 and 7.12 to 7.13, with `global` and `nonlocal`
/// valid for the whole body wherever they stand in it. `ScopeFault::At` comes exactly where a declaration has a scope fault, with the
/// first one that has. The time is that of sorting the names of the cell.
pub fn scopes(alloc: Global, c: &Cell) -> Result<Scopes, ScopeFault>
    ensures { Gives c.now result }
{
    let b = walk_cell(alloc, c)?;
    b.finish()
}

fn walk_cell(alloc: Global, c: &Cell) -> Result<Builder, NoMemory>
    ensures { IfOk result (λ b. b ≡ with_spots (before_nodes c.now) (spots_of_cell c.now)) }
{
    let round = Round::none(alloc)?;
    let mut b = Builder::new(alloc, c.statements.as_slice(), &round)?;
    walk_block(&mut b, c.statements.as_slice(), &round)?;
    Ok(b)
}

// Each of these puts last what is known of some nodes.

#[cycle(exprs)]
#[tactic(auto, using(crate::proofs::SpotForms::expr_Name, crate::proofs::SpotForms::expr_Number, crate::proofs::SpotForms::expr_Text, crate::proofs::SpotForms::expr_Nil, crate::proofs::SpotForms::expr_Truth, crate::proofs::SpotForms::expr_Tuple, crate::proofs::SpotForms::expr_List, crate::proofs::SpotForms::expr_Dict, crate::proofs::SpotForms::expr_Lambda, crate::proofs::SpotForms::expr_Choice, crate::proofs::SpotForms::expr_And, crate::proofs::SpotForms::expr_Or, crate::proofs::SpotForms::expr_Not, crate::proofs::SpotForms::expr_Compare, crate::proofs::SpotForms::expr_Binary, crate::proofs::SpotForms::expr_Sign, crate::proofs::SpotForms::expr_Attr, crate::proofs::SpotForms::expr_Item, crate::proofs::SpotForms::expr_Call, crate::proofs::Going::with_spots_append))]
fn walk_expr(b: &mut Builder, e: &Expr, round: &Round) -> Result<(), NoMemory>
    ensures { OnOk result (b.new ≡ with_spots b.old (spots_of_expr e.now round.now)) }
{
    match e {
        Expr::Name(..) | Expr::Number(..) | Expr::Text(..) | Expr::Nil(..) | Expr::Truth(..) =>
            b.pass(round),
        Expr::Tuple(_, parts)
        | Expr::List(_, parts)
        | Expr::Dict(_, parts)
        | Expr::Compare(_, _, parts) => {
            b.pass(round)?;
            walk_exprs(b, parts.as_slice(), round)
        }
        Expr::Lambda(_, params, defaults, value) => {
            let marks = Marks::new(b.alloc());
            let inside = b.enter(Kind::Function, params.as_slice(), &marks, round)?;
            walk_exprs(b, defaults.as_slice(), round)?;
            walk_expr(b, value.get(), &inside)
        }
        Expr::Choice(_, value, test, otherwise) => {
            b.pass(round)?;
            walk_expr(b, value.get(), round)?;
            walk_expr(b, test.get(), round)?;
            walk_expr(b, otherwise.get(), round)
        }
        Expr::And(_, left, right)
        | Expr::Or(_, left, right)
        | Expr::Binary(_, left, _, right)
        | Expr::Item(_, left, right) => {
            b.pass(round)?;
            walk_expr(b, left.get(), round)?;
            walk_expr(b, right.get(), round)
        }
        Expr::Not(_, part) | Expr::Sign(_, _, part) | Expr::Attr(_, part, _) => {
            b.pass(round)?;
            walk_expr(b, part.get(), round)
        }
        Expr::Call(_, function, arguments) => {
            b.pass(round)?;
            walk_expr(b, function.get(), round)?;
            walk_exprs(b, arguments.as_slice(), round)
        }
    }
}

#[cycle(exprs)]
fn walk_exprs(b: &mut Builder, all: &[Expr], round: &Round) -> Result<(), NoMemory>
    ensures { OnOk result (b.new ≡ with_spots b.old (spots_of_exprs all.now round.now)) }
{
    for e in all {
        walk_expr(b, e, round)?;
    }
    Ok(())
}

fn walk_maybe(b: &mut Builder, e: &Option<Expr>, round: &Round) -> Result<(), NoMemory>
    ensures { OnOk result (b.new ≡ with_spots b.old (spots_of_maybe e.now round.now)) }
{
    match e {
        Some(e) => walk_expr(b, e, round),
        None => Ok(()),
    }
}

// A `def` with its defaults; the answer is what is round the statements of its body.
fn enter_def(
    b: &mut Builder,
    params: &Texts,
    defaults: &Exprs,
    body: &Stmts,
    round: &Round,
) -> Result<Round, NoMemory>
    ensures spots { OnOk result (b.new ≡ with_spots b.old
        (coded round.now (def_code params.now body.now) ∷ spots_of_exprs defaults.now round.now)) }
    ensures inside { IfOk result (λ inside. inside ≡ scope_of (def_code params.now body.now) ∷ round.now) }
{
    let inside = b.enter_body(Kind::Function, params.as_slice(), body.as_slice(), round)?;
    walk_exprs(b, defaults.as_slice(), round)?;
    Ok(inside)
}

// A `class` with its base; the answer is what is round the statements of its body.
fn enter_class(
    b: &mut Builder,
    base: &Option<Expr>,
    body: &Stmts,
    round: &Round,
) -> Result<Round, NoMemory>
    ensures spots { OnOk result (b.new ≡ with_spots b.old (coded round.now (class_code body.now) ∷ spots_of_maybe base.now round.now)) }
    ensures inside { IfOk result (λ inside. inside ≡ scope_of (class_code body.now) ∷ round.now) }
{
    let inside = b.enter_body(Kind::Class, &[], body.as_slice(), round)?;
    walk_maybe(b, base, round)?;
    Ok(inside)
}

#[cycle(stmts)]
#[tactic(auto, using(crate::proofs::SpotForms::stmt_Expr, crate::proofs::SpotForms::stmt_Assign, crate::proofs::SpotForms::stmt_Augment, crate::proofs::SpotForms::stmt_Pass, crate::proofs::SpotForms::stmt_Break, crate::proofs::SpotForms::stmt_Continue, crate::proofs::SpotForms::stmt_Return, crate::proofs::SpotForms::stmt_Raise, crate::proofs::SpotForms::stmt_Global, crate::proofs::SpotForms::stmt_Nonlocal, crate::proofs::SpotForms::stmt_Del, crate::proofs::SpotForms::stmt_Assert, crate::proofs::SpotForms::stmt_If, crate::proofs::SpotForms::stmt_While, crate::proofs::SpotForms::stmt_For, crate::proofs::SpotForms::stmt_Try, crate::proofs::Going::with_spots_append))]
fn walk_stmt(b: &mut Builder, s: &Stmt, round: &Round) -> Result<(), NoMemory>
    ensures { OnOk result (b.new ≡ with_spots b.old (spots_of_stmt s.now round.now)) }
{
    match s {
        Stmt::Pass(..)
        | Stmt::Break(..)
        | Stmt::Continue(..)
        | Stmt::Global(..)
        | Stmt::Nonlocal(..) => b.pass(round),
        Stmt::Expr(_, e) | Stmt::Del(_, e) => {
            b.pass(round)?;
            walk_expr(b, e, round)
        }
        Stmt::Return(_, e) | Stmt::Raise(_, e) => {
            b.pass(round)?;
            walk_maybe(b, e, round)
        }
        Stmt::Assign(_, targets, e) => {
            b.pass(round)?;
            walk_exprs(b, targets.as_slice(), round)?;
            walk_expr(b, e, round)
        }
        Stmt::Augment(_, target, _, e) => {
            b.pass(round)?;
            walk_expr(b, target, round)?;
            walk_expr(b, e, round)
        }
        Stmt::Assert(_, test, e) => {
            b.pass(round)?;
            walk_expr(b, test, round)?;
            walk_maybe(b, e, round)
        }
        Stmt::If(_, branches, otherwise) => {
            b.pass(round)?;
            walk_branches(b, branches.as_slice(), round)?;
            walk_block(b, otherwise.as_slice(), round)
        }
        Stmt::While(_, test, body, otherwise) => {
            b.pass(round)?;
            walk_expr(b, test, round)?;
            walk_block(b, body.as_slice(), round)?;
            walk_block(b, otherwise.as_slice(), round)
        }
        Stmt::For(_, target, e, body, otherwise) => {
            b.pass(round)?;
            walk_expr(b, target, round)?;
            walk_expr(b, e, round)?;
            walk_block(b, body.as_slice(), round)?;
            walk_block(b, otherwise.as_slice(), round)
        }
        Stmt::Try(_, body, handlers, otherwise, finally) => {
            b.pass(round)?;
            walk_block(b, body.as_slice(), round)?;
            walk_handlers(b, handlers.as_slice(), round)?;
            walk_block(b, otherwise.as_slice(), round)?;
            walk_block(b, finally.as_slice(), round)
        }
        Stmt::Def(_, _, params, defaults, body) => {
            let inside = enter_def(b, params, defaults, body, round)?;
            walk_block(b, body.as_slice(), &inside)
        }
        Stmt::Class(_, _, base, body) => {
            let inside = enter_class(b, base, body, round)?;
            walk_block(b, body.as_slice(), &inside)
        }
    }
}

#[cycle(stmts)]
fn walk_block(b: &mut Builder, all: &[Stmt], round: &Round) -> Result<(), NoMemory>
    ensures { OnOk result (b.new ≡ with_spots b.old (spots_of_block all.now round.now)) }
{
    for s in all {
        walk_stmt(b, s, round)?;
    }
    Ok(())
}

#[cycle(stmts)]
#[tactic(auto, using(crate::proofs::SpotForms::in_branch, crate::proofs::Going::with_spots_append))]
fn walk_branch(b: &mut Builder, branch: &Branch, round: &Round) -> Result<(), NoMemory>
    ensures { OnOk result (b.new ≡ with_spots b.old (spots_of_branch branch.now round.now)) }
{
    walk_expr(b, &branch.test, round)?;
    walk_block(b, branch.body.as_slice(), round)
}

#[cycle(stmts)]
fn walk_branches(b: &mut Builder, all: &[Branch], round: &Round) -> Result<(), NoMemory>
    ensures { OnOk result (b.new ≡ with_spots b.old (spots_of_branches all.now round.now)) }
{
    for branch in all {
        walk_branch(b, branch, round)?;
    }
    Ok(())
}

#[cycle(stmts)]
#[tactic(auto, using(crate::proofs::SpotForms::in_handler, crate::proofs::Going::with_spots_append))]
fn walk_handler(b: &mut Builder, h: &Handler, round: &Round) -> Result<(), NoMemory>
    ensures { OnOk result (b.new ≡ with_spots b.old (spots_of_handler h.now round.now)) }
{
    b.pass(round)?;
    walk_maybe(b, &h.class, round)?;
    walk_block(b, h.body.as_slice(), round)
}

#[cycle(stmts)]
fn walk_handlers(b: &mut Builder, all: &[Handler], round: &Round) -> Result<(), NoMemory>
    ensures { OnOk result (b.new ≡ with_spots b.old (spots_of_handlers all.now round.now)) }
{
    for h in all {
        walk_handler(b, h, round)?;
    }
    Ok(())
}
