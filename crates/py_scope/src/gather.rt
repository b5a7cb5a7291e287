// What the statements of a body bind and declare. The bodies that stand in it are not looked into.
ghost use Rattle.std.specs.Prelude.{◌≡◌, ◌++◌, IfOk, OnOk};
ghost use Rattle.py_scope.specs.Marks.{marks_of_as, marks_of_block, marks_of_branch, marks_of_branches, marks_of_handler, marks_of_handlers, marks_of_stmt, marks_of_target, marks_of_targets};

use crate::mark::{Marks, Way};
use flow_base::{NoMemory, PyText};
use py_ast::{Branch, Expr, Handler, Stmt};
use std::alloc::Global;

/// What a body of these statements binds and declares, in the order of the text.
pub fn marks_of_body(alloc: Global, body: &[Stmt]) -> Result<Marks, NoMemory>
    ensures { IfOk result (λ marks. marks ≡ marks_of_block body.now) }
{
    let mut marks = Marks::new(alloc);
    gather_block(&mut marks, body)?;
    Ok(marks)
}

// Each of these puts last what its statements, or its targets, bind and declare.

#[cycle(stmts)]
fn gather_block(marks: &mut Marks, all: &[Stmt]) -> Result<(), NoMemory>
    ensures { OnOk result (marks.new ≡ marks.old ++ marks_of_block all.now) }
{
    for s in all {
        gather_stmt(marks, s)?;
    }
    Ok(())
}

#[cycle(stmts)]
#[tactic(auto, using(crate::proofs::MarkForms::stmt_If, crate::proofs::MarkForms::stmt_While, crate::proofs::MarkForms::stmt_For, crate::proofs::MarkForms::stmt_Try, std::proofs::Common::append_assoc))]
fn gather_stmt(marks: &mut Marks, s: &Stmt) -> Result<(), NoMemory>
    ensures { OnOk result (marks.new ≡ marks.old ++ marks_of_stmt s.now) }
{
    match s {
        Stmt::Expr(..)
        | Stmt::Pass(..)
        | Stmt::Break(..)
        | Stmt::Continue(..)
        | Stmt::Return(..)
        | Stmt::Raise(..)
        | Stmt::Assert(..) => Ok(()),
        Stmt::Assign(_, targets, _) => gather_targets(marks, targets.as_slice()),
        Stmt::Augment(_, target, _, _) | Stmt::Del(_, target) => gather_target(marks, target),
        Stmt::Global(i, names) => marks.declare(*i, Way::Global, names),
        Stmt::Nonlocal(i, names) => marks.declare(*i, Way::Nonlocal, names),
        Stmt::If(_, branches, otherwise) => {
            gather_branches(marks, branches.as_slice())?;
            gather_block(marks, otherwise.as_slice())
        }
        Stmt::While(_, _, body, otherwise) => {
            gather_block(marks, body.as_slice())?;
            gather_block(marks, otherwise.as_slice())
        }
        Stmt::For(_, target, _, body, otherwise) => {
            gather_target(marks, target)?;
            gather_block(marks, body.as_slice())?;
            gather_block(marks, otherwise.as_slice())
        }
        Stmt::Try(_, body, handlers, otherwise, finally) => {
            gather_block(marks, body.as_slice())?;
            gather_handlers(marks, handlers.as_slice())?;
            gather_block(marks, otherwise.as_slice())?;
            gather_block(marks, finally.as_slice())
        }
        Stmt::Def(_, name, _, _, _) | Stmt::Class(_, name, _, _) => marks.bind(name),
    }
}

#[cycle(stmts)]
fn gather_branches(marks: &mut Marks, all: &[Branch]) -> Result<(), NoMemory>
    ensures { OnOk result (marks.new ≡ marks.old ++ marks_of_branches all.now) }
{
    for b in all {
        gather_branch(marks, b)?;
    }
    Ok(())
}

#[cycle(stmts)]
#[tactic(auto, using(crate::proofs::MarkForms::branch_marks))]
fn gather_branch(marks: &mut Marks, b: &Branch) -> Result<(), NoMemory>
    ensures { OnOk result (marks.new ≡ marks.old ++ marks_of_branch b.now) }
{
    gather_block(marks, b.body.as_slice())
}

#[cycle(stmts)]
fn gather_handlers(marks: &mut Marks, all: &[Handler]) -> Result<(), NoMemory>
    ensures { OnOk result (marks.new ≡ marks.old ++ marks_of_handlers all.now) }
{
    for h in all {
        gather_handler(marks, h)?;
    }
    Ok(())
}

#[cycle(stmts)]
#[tactic(auto, using(crate::proofs::MarkForms::handler_marks, std::proofs::Common::append_assoc))]
fn gather_handler(marks: &mut Marks, h: &Handler) -> Result<(), NoMemory>
    ensures { OnOk result (marks.new ≡ marks.old ++ marks_of_handler h.now) }
{
    gather_as(marks, &h.name)?;
    gather_block(marks, h.body.as_slice())
}

fn gather_as(marks: &mut Marks, name: &Option<PyText>) -> Result<(), NoMemory>
    ensures { OnOk result (marks.new ≡ marks.old ++ marks_of_as name.now) }
{
    match name {
        Some(name) => marks.bind(name),
        None => Ok(()),
    }
}

#[cycle(targets)]
#[tactic(auto, using(crate::proofs::MarkForms::target_Tuple))]
fn gather_target(marks: &mut Marks, target: &Expr) -> Result<(), NoMemory>
    ensures { OnOk result (marks.new ≡ marks.old ++ marks_of_target target.now) }
{
    match target {
        Expr::Name(_, name) => marks.bind(name),
        Expr::Tuple(_, parts) => gather_targets(marks, parts.as_slice()),
        Expr::Number(..)
        | Expr::Text(..)
        | Expr::Nil(..)
        | Expr::Truth(..)
        | Expr::List(..)
        | Expr::Dict(..)
        | Expr::Lambda(..)
        | Expr::Choice(..)
        | Expr::And(..)
        | Expr::Or(..)
        | Expr::Not(..)
        | Expr::Compare(..)
        | Expr::Binary(..)
        | Expr::Sign(..)
        | Expr::Attr(..)
        | Expr::Item(..)
        | Expr::Call(..) => Ok(()),
    }
}

#[cycle(targets)]
fn gather_targets(marks: &mut Marks, all: &[Expr]) -> Result<(), NoMemory>
    ensures { OnOk result (marks.new ≡ marks.old ++ marks_of_targets all.now) }
{
    for target in all {
        gather_target(marks, target)?;
    }
    Ok(())
}
