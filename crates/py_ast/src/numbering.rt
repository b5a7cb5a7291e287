// Whether the nodes of a cell are numbered by the rule, and how many they are.
ghost use Rattle.std.specs.Prelude.{◌≡◌, ◌==◌, ◌+◌, ◌^◌, ◌<◌, ◌↔◌, length, if◌then◌else◌, Some, None, IsTrue};
ghost use Rattle.py_ast.specs.Nodes.{IsNumbered, below, below_handler, below_stmt, nodes, nodes_of_all, nodes_of_block, nodes_of_branch, nodes_of_branches, nodes_of_cell, nodes_of_handler, nodes_of_handlers, nodes_of_maybe, nodes_of_stmt};
ghost use Rattle.py_ast.specs.Walks.{counted};

use crate::{Branch, Cell, Expr, Handler, Stmt};

/// The number of nodes: statements, `except` clauses and expressions.
pub fn size(c: &Cell) -> u32
    requires { IsNumbered c.now }
    ensures { result ≡ length (nodes_of_cell c.now) }
{
    match counted_block(c.statements.as_slice(), 0) {
        Some(last) => last,
        None => 0,
    }
}

/// Whether the nodes hold the numbers from 1 on, in the order in which they begin in the text, a parent before its parts.
pub fn is_numbered(c: &Cell) -> bool
    ensures { IsTrue result ↔ IsNumbered c.now }
{
    match counted_block(c.statements.as_slice(), 0) {
        Some(last) => fits(last),
        None => false,
    }
}

// Whether the number is one of a node.
fn fits(last: u32) -> bool
    ensures { IsTrue result ↔ (last < 2 ^ 32) }
{
    last <= u32::MAX
}

// The number of a node that comes next after the last.
fn next(node: u32, last: u32) -> Option<u32>
    ensures { result ≡ (if node == last + 1 then Some node else None) }
{
    if node != 0 && node - 1 == last {
        Some(node)
    } else {
        None
    }
}

// Each of these answers the number of the last of some nodes, where they are numbered on from `last`.

#[cycle(exprs)]
fn counted_expr(e: &Expr, last: u32) -> Option<u32>
    ensures { result ≡ counted last (nodes e.now) }
{
    match next(e.node(), last) {
        Some(last) => counted_below(e, last),
        None => None,
    }
}

#[cycle(exprs)]
#[tactic(auto, using(crate::proofs::Below::below_Name, crate::proofs::Below::below_Number, crate::proofs::Below::below_Text, crate::proofs::Below::below_Nil, crate::proofs::Below::below_Truth, crate::proofs::Below::below_Tuple, crate::proofs::Below::below_List, crate::proofs::Below::below_Dict, crate::proofs::Below::below_Lambda, crate::proofs::Below::below_Choice, crate::proofs::Below::below_And, crate::proofs::Below::below_Or, crate::proofs::Below::below_Not, crate::proofs::Below::below_Compare, crate::proofs::Below::below_Binary, crate::proofs::Below::below_Sign, crate::proofs::Below::below_Attr, crate::proofs::Below::below_Item, crate::proofs::Below::below_Call, crate::proofs::NodeLists::counted_append))]
fn counted_below(e: &Expr, last: u32) -> Option<u32>
    ensures { result ≡ counted last (below e.now) }
{
    match e {
        Expr::Name(..) | Expr::Number(..) | Expr::Text(..) | Expr::Nil(..) | Expr::Truth(..) =>
            Some(last),
        Expr::Tuple(_, parts)
        | Expr::List(_, parts)
        | Expr::Dict(_, parts)
        | Expr::Compare(_, _, parts) => { counted_exprs(parts.as_slice(), last) }
        Expr::Lambda(_, _, defaults, body) => {
            let last = counted_exprs(defaults.as_slice(), last)?;
            counted_expr(body.get(), last)
        }
        Expr::Choice(_, value, test, otherwise) => {
            let last = counted_expr(value.get(), last)?;
            let last = counted_expr(test.get(), last)?;
            counted_expr(otherwise.get(), last)
        }
        Expr::And(_, left, right) => {
            let last = counted_expr(left.get(), last)?;
            counted_expr(right.get(), last)
        }
        Expr::Or(_, left, right) => {
            let last = counted_expr(left.get(), last)?;
            counted_expr(right.get(), last)
        }
        Expr::Binary(_, left, _, right) => {
            let last = counted_expr(left.get(), last)?;
            counted_expr(right.get(), last)
        }
        Expr::Item(_, left, right) => {
            let last = counted_expr(left.get(), last)?;
            counted_expr(right.get(), last)
        }
        Expr::Not(_, part) | Expr::Sign(_, _, part) | Expr::Attr(_, part, _) => counted_expr(
            part.get(),
            last,
        ),
        Expr::Call(_, function, arguments) => {
            let last = counted_expr(function.get(), last)?;
            counted_exprs(arguments.as_slice(), last)
        }
    }
}

#[cycle(exprs)]
fn counted_exprs(all: &[Expr], last: u32) -> Option<u32>
    ensures { result ≡ counted last (nodes_of_all all.now) }
{
    let mut at = last;
    for e in all {
        match counted_expr(e, at) {
            Some(next) => at = next,
            None => return None,
        }
    }
    Some(at)
}

fn counted_maybe(e: &Option<Expr>, last: u32) -> Option<u32>
    ensures { result ≡ counted last (nodes_of_maybe e.now) }
{
    match e {
        Some(e) => counted_expr(e, last),
        None => Some(last),
    }
}

#[cycle(stmts)]
fn counted_stmt(s: &Stmt, last: u32) -> Option<u32>
    ensures { result ≡ counted last (nodes_of_stmt s.now) }
{
    match next(s.node(), last) {
        Some(last) => counted_below_stmt(s, last),
        None => None,
    }
}

#[cycle(stmts)]
#[tactic(auto, using(crate::proofs::Below::below_stmt_Expr, crate::proofs::Below::below_stmt_Assign, crate::proofs::Below::below_stmt_Augment, crate::proofs::Below::below_stmt_Pass, crate::proofs::Below::below_stmt_Break, crate::proofs::Below::below_stmt_Continue, crate::proofs::Below::below_stmt_Return, crate::proofs::Below::below_stmt_Raise, crate::proofs::Below::below_stmt_Global, crate::proofs::Below::below_stmt_Nonlocal, crate::proofs::Below::below_stmt_Del, crate::proofs::Below::below_stmt_Assert, crate::proofs::Below::below_stmt_If, crate::proofs::Below::below_stmt_While, crate::proofs::Below::below_stmt_For, crate::proofs::Below::below_stmt_Try, crate::proofs::Below::below_stmt_Def, crate::proofs::Below::below_stmt_Class, crate::proofs::NodeLists::counted_append))]
fn counted_below_stmt(s: &Stmt, last: u32) -> Option<u32>
    ensures { result ≡ counted last (below_stmt s.now) }
{
    match s {
        Stmt::Pass(..)
        | Stmt::Break(..)
        | Stmt::Continue(..)
        | Stmt::Global(..)
        | Stmt::Nonlocal(..) => Some(last),
        Stmt::Expr(_, e) | Stmt::Del(_, e) => counted_expr(e, last),
        Stmt::Return(_, e) | Stmt::Raise(_, e) => counted_maybe(e, last),
        Stmt::Assign(_, targets, e) => {
            let last = counted_exprs(targets.as_slice(), last)?;
            counted_expr(e, last)
        }
        Stmt::Augment(_, place, _, e) => {
            let last = counted_expr(place, last)?;
            counted_expr(e, last)
        }
        Stmt::Assert(_, test, e) => {
            let last = counted_expr(test, last)?;
            counted_maybe(e, last)
        }
        Stmt::If(_, branches, otherwise) => {
            let last = counted_branches(branches.as_slice(), last)?;
            counted_block(otherwise.as_slice(), last)
        }
        Stmt::While(_, test, body, otherwise) => {
            let last = counted_expr(test, last)?;
            let last = counted_block(body.as_slice(), last)?;
            counted_block(otherwise.as_slice(), last)
        }
        Stmt::For(_, target, e, body, otherwise) => {
            let last = counted_expr(target, last)?;
            let last = counted_expr(e, last)?;
            let last = counted_block(body.as_slice(), last)?;
            counted_block(otherwise.as_slice(), last)
        }
        Stmt::Try(_, body, handlers, otherwise, finally) => {
            let last = counted_block(body.as_slice(), last)?;
            let last = counted_handlers(handlers.as_slice(), last)?;
            let last = counted_block(otherwise.as_slice(), last)?;
            counted_block(finally.as_slice(), last)
        }
        Stmt::Def(_, _, _, defaults, body) => {
            let last = counted_exprs(defaults.as_slice(), last)?;
            counted_block(body.as_slice(), last)
        }
        Stmt::Class(_, _, base, body) => {
            let last = counted_maybe(base, last)?;
            counted_block(body.as_slice(), last)
        }
    }
}

#[cycle(stmts)]
fn counted_block(all: &[Stmt], last: u32) -> Option<u32>
    ensures { result ≡ counted last (nodes_of_block all.now) }
{
    let mut at = last;
    for s in all {
        match counted_stmt(s, at) {
            Some(next) => at = next,
            None => return None,
        }
    }
    Some(at)
}

#[cycle(stmts)]
#[tactic(auto, using(crate::proofs::Below::nodes_in_branch, crate::proofs::NodeLists::counted_append))]
fn counted_branch(b: &Branch, last: u32) -> Option<u32>
    ensures { result ≡ counted last (nodes_of_branch b.now) }
{
    let last = counted_expr(&b.test, last)?;
    counted_block(b.body.as_slice(), last)
}

#[cycle(stmts)]
fn counted_branches(all: &[Branch], last: u32) -> Option<u32>
    ensures { result ≡ counted last (nodes_of_branches all.now) }
{
    let mut at = last;
    for b in all {
        match counted_branch(b, at) {
            Some(next) => at = next,
            None => return None,
        }
    }
    Some(at)
}

#[cycle(stmts)]
#[tactic(auto, using(crate::proofs::Below::nodes_below_handler, crate::proofs::NodeLists::counted_append))]
fn counted_below_handler(h: &Handler, last: u32) -> Option<u32>
    ensures { result ≡ counted last (below_handler h.now) }
{
    let last = counted_maybe(&h.class, last)?;
    counted_block(h.body.as_slice(), last)
}

#[cycle(stmts)]
fn counted_handler(h: &Handler, last: u32) -> Option<u32>
    ensures { result ≡ counted last (nodes_of_handler h.now) }
{
    match next(h.node, last) {
        Some(last) => counted_below_handler(h, last),
        None => None,
    }
}

#[cycle(stmts)]
fn counted_handlers(all: &[Handler], last: u32) -> Option<u32>
    ensures { result ≡ counted last (nodes_of_handlers all.now) }
{
    let mut at = last;
    for h in all {
        match counted_handler(h, at) {
            Some(next) => at = next,
            None => return None,
        }
    }
    Some(at)
}
