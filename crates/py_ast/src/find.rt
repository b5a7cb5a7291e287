// The node that has a number.
ghost use Rattle.std.specs.Prelude.{◌≡◌, ◌<◌, ◌↔◌, ◌⊎◌, length, IsNone, option_map};
ghost use Rattle.py_ast.specs.Nodes.{IsNumbered, below, below_handler, below_stmt, node_at, nodes, nodes_of_all, nodes_of_block, nodes_of_branch, nodes_of_branches, nodes_of_cell, nodes_of_handler, nodes_of_handlers, nodes_of_maybe, nodes_of_stmt, seen};
ghost use Rattle.py_ast.specs.Walks.{with_number};

use crate::{Branch, Cell, Expr, Handler, Stmt};

/// A node of a cell.
#[derive(Clone, Copy)]
pub enum NodeRef<'a> {
    Expr(&'a Expr),
    Stmt(&'a Stmt),
    Handler(&'a Handler),
}

/// The node that has the number, and `None` for a number outside 1 to the size of the cell.
pub fn node<'a>(c: &'a Cell, i: u32) -> Option<NodeRef<'a>>
    requires { IsNumbered c.now }
    ensures value { option_map seen result ≡ node_at (nodes_of_cell c.now) i }
    ensures outside { IsNone result ↔ ((i ≡ 0) ⊎ (length (nodes_of_cell c.now) < i)) }
{
    in_block(c.statements.as_slice(), i)
}

// Each of these answers the first of some nodes that has the number.

#[cycle(exprs)]
fn in_expr<'a>(e: &'a Expr, i: u32) -> Option<NodeRef<'a>>
    ensures { option_map seen result ≡ with_number i (nodes e.now) }
{
    if e.node() == i {
        return Some(NodeRef::Expr(e));
    }
    parts_of_expr(e, i)
}

#[cycle(exprs)]
#[tactic(auto, using(crate::proofs::Below::below_Name, crate::proofs::Below::below_Number, crate::proofs::Below::below_Text, crate::proofs::Below::below_Nil, crate::proofs::Below::below_Truth, crate::proofs::Below::below_Tuple, crate::proofs::Below::below_List, crate::proofs::Below::below_Dict, crate::proofs::Below::below_Lambda, crate::proofs::Below::below_Choice, crate::proofs::Below::below_And, crate::proofs::Below::below_Or, crate::proofs::Below::below_Not, crate::proofs::Below::below_Compare, crate::proofs::Below::below_Binary, crate::proofs::Below::below_Sign, crate::proofs::Below::below_Attr, crate::proofs::Below::below_Item, crate::proofs::Below::below_Call, crate::proofs::NodeLists::with_number_append))]
fn parts_of_expr<'a>(e: &'a Expr, i: u32) -> Option<NodeRef<'a>>
    ensures { option_map seen result ≡ with_number i (below e.now) }
{
    match e {
        Expr::Name(..) | Expr::Number(..) | Expr::Text(..) | Expr::Nil(..) | Expr::Truth(..) =>
            None,
        Expr::Tuple(_, parts)
        | Expr::List(_, parts)
        | Expr::Dict(_, parts)
        | Expr::Compare(_, _, parts) => { in_exprs(parts.as_slice(), i) }
        Expr::Lambda(_, _, defaults, body) => match in_exprs(defaults.as_slice(), i) {
            Some(found) => Some(found),
            None => in_expr(body.get(), i)
        },
        Expr::Choice(_, value, test, otherwise) => match in_expr(value.get(), i) {
            Some(found) => Some(found),
            None => match in_expr(test.get(), i) {
                Some(found) => Some(found),
                None => in_expr(otherwise.get(), i)
            }
        },
        Expr::And(_, left, right) => match in_expr(left.get(), i) {
            Some(found) => Some(found),
            None => in_expr(right.get(), i)
        },
        Expr::Or(_, left, right) => match in_expr(left.get(), i) {
            Some(found) => Some(found),
            None => in_expr(right.get(), i)
        },
        Expr::Binary(_, left, _, right) => match in_expr(left.get(), i) {
            Some(found) => Some(found),
            None => in_expr(right.get(), i)
        },
        Expr::Item(_, left, right) => match in_expr(left.get(), i) {
            Some(found) => Some(found),
            None => in_expr(right.get(), i)
        },
        Expr::Not(_, part) | Expr::Sign(_, _, part) | Expr::Attr(_, part, _) => in_expr(
            part.get(),
            i,
        ),
        Expr::Call(_, function, arguments) => match in_expr(function.get(), i) {
            Some(found) => Some(found),
            None => in_exprs(arguments.as_slice(), i)
        },
    }
}

#[cycle(exprs)]
fn in_exprs<'a>(all: &'a [Expr], i: u32) -> Option<NodeRef<'a>>
    ensures { option_map seen result ≡ with_number i (nodes_of_all all.now) }
{
    for e in all {
        match in_expr(e, i) {
            Some(found) => return Some(found),
            None => {}
        }
    }
    None
}

fn in_maybe<'a>(e: &'a Option<Expr>, i: u32) -> Option<NodeRef<'a>>
    ensures { option_map seen result ≡ with_number i (nodes_of_maybe e.now) }
{
    match e {
        Some(e) => in_expr(e, i),
        None => None,
    }
}

#[cycle(stmts)]
fn in_stmt<'a>(s: &'a Stmt, i: u32) -> Option<NodeRef<'a>>
    ensures { option_map seen result ≡ with_number i (nodes_of_stmt s.now) }
{
    if s.node() == i {
        return Some(NodeRef::Stmt(s));
    }
    parts_of_stmt(s, i)
}

#[cycle(stmts)]
#[tactic(auto, using(crate::proofs::Below::below_stmt_Expr, crate::proofs::Below::below_stmt_Assign, crate::proofs::Below::below_stmt_Augment, crate::proofs::Below::below_stmt_Pass, crate::proofs::Below::below_stmt_Break, crate::proofs::Below::below_stmt_Continue, crate::proofs::Below::below_stmt_Return, crate::proofs::Below::below_stmt_Raise, crate::proofs::Below::below_stmt_Global, crate::proofs::Below::below_stmt_Nonlocal, crate::proofs::Below::below_stmt_Del, crate::proofs::Below::below_stmt_Assert, crate::proofs::Below::below_stmt_If, crate::proofs::Below::below_stmt_While, crate::proofs::Below::below_stmt_For, crate::proofs::Below::below_stmt_Try, crate::proofs::Below::below_stmt_Def, crate::proofs::Below::below_stmt_Class, crate::proofs::NodeLists::with_number_append))]
fn parts_of_stmt<'a>(s: &'a Stmt, i: u32) -> Option<NodeRef<'a>>
    ensures { option_map seen result ≡ with_number i (below_stmt s.now) }
{
    match s {
        Stmt::Pass(..)
        | Stmt::Break(..)
        | Stmt::Continue(..)
        | Stmt::Global(..)
        | Stmt::Nonlocal(..) => None,
        Stmt::Expr(_, e) | Stmt::Del(_, e) => in_expr(e, i),
        Stmt::Return(_, e) | Stmt::Raise(_, e) => in_maybe(e, i),
        Stmt::Assign(_, targets, e) => match in_exprs(targets.as_slice(), i) {
            Some(found) => Some(found),
            None => in_expr(e, i)
        },
        Stmt::Augment(_, place, _, e) => match in_expr(place, i) {
            Some(found) => Some(found),
            None => in_expr(e, i)
        },
        Stmt::Assert(_, test, e) => match in_expr(test, i) {
            Some(found) => Some(found),
            None => in_maybe(e, i)
        },
        Stmt::If(_, branches, otherwise) => match in_branches(branches.as_slice(), i) {
            Some(found) => Some(found),
            None => in_block(otherwise.as_slice(), i)
        },
        Stmt::While(_, test, body, otherwise) => match in_expr(test, i) {
            Some(found) => Some(found),
            None => match in_block(body.as_slice(), i) {
                Some(found) => Some(found),
                None => in_block(otherwise.as_slice(), i)
            }
        },
        Stmt::For(_, target, e, body, otherwise) => match in_expr(target, i) {
            Some(found) => Some(found),
            None => match in_expr(e, i) {
                Some(found) => Some(found),
                None => match in_block(body.as_slice(), i) {
                    Some(found) => Some(found),
                    None => in_block(otherwise.as_slice(), i)
                }
            }
        },
        Stmt::Try(_, body, handlers, otherwise, finally) => match in_block(body.as_slice(), i) {
            Some(found) => Some(found),
            None => match in_handlers(handlers.as_slice(), i) {
                Some(found) => Some(found),
                None => match in_block(otherwise.as_slice(), i) {
                    Some(found) => Some(found),
                    None => in_block(finally.as_slice(), i)
                }
            }
        },
        Stmt::Def(_, _, _, defaults, body) => match in_exprs(defaults.as_slice(), i) {
            Some(found) => Some(found),
            None => in_block(body.as_slice(), i)
        },
        Stmt::Class(_, _, base, body) => match in_maybe(base, i) {
            Some(found) => Some(found),
            None => in_block(body.as_slice(), i)
        },
    }
}

#[cycle(stmts)]
fn in_block<'a>(all: &'a [Stmt], i: u32) -> Option<NodeRef<'a>>
    ensures { option_map seen result ≡ with_number i (nodes_of_block all.now) }
{
    for s in all {
        match in_stmt(s, i) {
            Some(found) => return Some(found),
            None => {}
        }
    }
    None
}

#[cycle(stmts)]
#[tactic(auto, using(crate::proofs::Below::nodes_in_branch, crate::proofs::NodeLists::with_number_append))]
fn in_branch<'a>(b: &'a Branch, i: u32) -> Option<NodeRef<'a>>
    ensures { option_map seen result ≡ with_number i (nodes_of_branch b.now) }
{
    match in_expr(&b.test, i) {
        Some(found) => Some(found),
        None => in_block(b.body.as_slice(), i)
    }
}

#[cycle(stmts)]
fn in_branches<'a>(all: &'a [Branch], i: u32) -> Option<NodeRef<'a>>
    ensures { option_map seen result ≡ with_number i (nodes_of_branches all.now) }
{
    for b in all {
        match in_branch(b, i) {
            Some(found) => return Some(found),
            None => {}
        }
    }
    None
}

#[cycle(stmts)]
fn in_handler<'a>(h: &'a Handler, i: u32) -> Option<NodeRef<'a>>
    ensures { option_map seen result ≡ with_number i (nodes_of_handler h.now) }
{
    if h.node == i {
        return Some(NodeRef::Handler(h));
    }
    parts_of_handler(h, i)
}

#[cycle(stmts)]
#[tactic(auto, using(crate::proofs::Below::nodes_below_handler, crate::proofs::NodeLists::with_number_append))]
fn parts_of_handler<'a>(h: &'a Handler, i: u32) -> Option<NodeRef<'a>>
    ensures { option_map seen result ≡ with_number i (below_handler h.now) }
{
    match in_maybe(&h.class, i) {
        Some(found) => Some(found),
        None => in_block(h.body.as_slice(), i)
    }
}

#[cycle(stmts)]
fn in_handlers<'a>(all: &'a [Handler], i: u32) -> Option<NodeRef<'a>>
    ensures { option_map seen result ≡ with_number i (nodes_of_handlers all.now) }
{
    for h in all {
        match in_handler(h, i) {
            Some(found) => return Some(found),
            None => {}
        }
    }
    None
}
