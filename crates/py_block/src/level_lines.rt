// A level after a line that stands at it.
ghost use Rattle.std.specs.Prelude.{◌≡◌, ◌==◌, ◌<◌, length, IfOk};
ghost use Rattle.py_line.specs.declared.form.LineForm.TheVariants as form;
ghost use Rattle.py_block.specs.LevelAnswers.{GoesOn, IsBegun, IsContinued, IsFilledRow, IsJoined, IsPut, IsSimples};

use crate::level_blocks::{filled, settled};
use crate::level_headers::{elif_next, else_next, except_next, finally_next};
use crate::level_parts::{Clause, Last, Place, Row, Waiting, body_within, may_stand};
use flow_base::{NoMemory, PyText, Shared};
use py_ast::{Expr, Exprs, Stmt, Stmts, Texts};
use py_line::LineForm;
use std::alloc::Global;

// ---- headers with the statements after their colons

fn has_none(statements: &Vec<Stmt>) -> bool
    ensures { result ≡ (length statements.now.items == 0) }
{
    statements.as_slice().is_empty()
}

// A level whose last statement gets a block.
fn filled_row(
    alloc: Global,
    done: Vec<Stmt>,
    waiting: Waiting,
    block: Stmts,
) -> Result<Option<Row>, NoMemory>
    ensures { IfOk result (IsFilledRow done.items waiting block) }
{
    match filled(alloc, waiting, block) {
        Ok(last) => Ok(Some(Row { done, last })),
        Err(fault) => Err(fault),
    }
}

fn with_block(
    alloc: Global,
    done: Vec<Stmt>,
    waiting: Waiting,
    statements: Vec<Stmt>,
) -> Result<Option<Row>, NoMemory>
    ensures { IfOk result (IsFilledRow done.items waiting statements.items) }
{
    match Shared::from_vec(alloc, statements) {
        Ok(block) => filled_row(alloc, done, waiting, block),
        Err(fault) => {
            drop(done);
            drop(waiting);
            Err(fault)
        }
    }
}

fn with_statements(
    alloc: Global,
    place: Place,
    done: Vec<Stmt>,
    waiting: Waiting,
    statements: Vec<Stmt>,
) -> Result<Option<Row>, NoMemory>
    requires { 0 < length statements.items }
    ensures { IfOk result (IsContinued place done.items waiting statements.items) }
{
    if may_stand(body_within(place, &waiting), statements.as_slice()) {
        with_block(alloc, done, waiting, statements)
    } else {
        drop(done);
        drop(waiting);
        drop(statements);
        Ok(None)
    }
}

fn continued(
    alloc: Global,
    place: Place,
    done: Vec<Stmt>,
    waiting: Waiting,
    statements: Vec<Stmt>,
) -> Result<Option<Row>, NoMemory>
    ensures { IfOk result (IsContinued place done.items waiting statements.items) }
{
    if has_none(&statements) {
        drop(statements);
        Ok(Some(Row {
            done,
            last: Last::Waits(waiting),
        }))
    } else {
        with_statements(alloc, place, done, waiting, statements)
    }
}

fn begun(
    alloc: Global,
    place: Place,
    row: Row,
    waiting: Waiting,
    statements: Vec<Stmt>,
) -> Result<Option<Row>, NoMemory>
    ensures { IfOk result (IsBegun place row.done.items row.last waiting statements.items) }
{
    let Row { done, last } = row;
    match settled(alloc, done, last) {
        Ok(Some(done)) => continued(alloc, place, done, waiting, statements),
        Ok(None) => {
            drop(waiting);
            drop(statements);
            Ok(None)
        }
        Err(fault) => {
            drop(waiting);
            drop(statements);
            Err(fault)
        }
    }
}

// ---- the lines

// A level without a last statement that may get more, behind which simple statements stand.
#[tactic(auto, using(crate::proofs::LevelLists::block_joined, crate::proofs::LevelLists::statements_joined, crate::proofs::LevelLists::nothing_more))]
fn appended(mut done: Vec<Stmt>, mut statements: Vec<Stmt>) -> Result<Option<Row>, NoMemory>
    ensures { IfOk result (IsJoined done.items statements.items) }
{
    done.append(&mut statements)?;
    Ok(Some(Row {
        done,
        last: Last::Nothing,
    }))
}

fn settled_simples(alloc: Global, row: Row, statements: Vec<Stmt>) -> Result<Option<Row>, NoMemory>
    ensures { IfOk result (IsSimples row.done row.last statements.items) }
{
    let Row { done, last } = row;
    match settled(alloc, done, last) {
        Ok(Some(done)) => appended(done, statements),
        Ok(None) => {
            drop(statements);
            Ok(None)
        }
        Err(fault) => {
            drop(statements);
            Err(fault)
        }
    }
}

fn some_simples(
    alloc: Global,
    place: Place,
    row: Row,
    statements: Vec<Stmt>,
) -> Result<Option<Row>, NoMemory>
    requires { 0 < length statements.items }
    ensures { IfOk result (IsPut place row.done.items row.last (form.Simples statements)) }
{
    if may_stand(place.body, statements.as_slice()) {
        settled_simples(alloc, row, statements)
    } else {
        drop(row);
        drop(statements);
        Ok(None)
    }
}

fn put_simples(
    alloc: Global,
    place: Place,
    row: Row,
    statements: Vec<Stmt>,
) -> Result<Option<Row>, NoMemory>
    ensures { IfOk result (IsPut place row.done.items row.last (form.Simples statements)) }
{
    if has_none(&statements) {
        drop(row);
        drop(statements);
        Ok(None)
    } else {
        some_simples(alloc, place, row, statements)
    }
}

fn put_if(
    alloc: Global,
    place: Place,
    row: Row,
    i: u32,
    test: Expr,
    statements: Vec<Stmt>,
) -> Result<Option<Row>, NoMemory>
    ensures { IfOk result (IsPut place row.done.items row.last (form.If i test statements)) }
{
    begun(
        alloc,
        place,
        row,
        Waiting::IfBody(i, Vec::new(alloc), test),
        statements,
    )
}

fn put_while(
    alloc: Global,
    place: Place,
    row: Row,
    i: u32,
    test: Expr,
    statements: Vec<Stmt>,
) -> Result<Option<Row>, NoMemory>
    ensures { IfOk result (IsPut place row.done.items row.last (form.While i test statements)) }
{
    begun(alloc, place, row, Waiting::WhileBody(i, test), statements)
}

fn put_for(
    alloc: Global,
    place: Place,
    row: Row,
    i: u32,
    target: Expr,
    items: Expr,
    statements: Vec<Stmt>,
) -> Result<Option<Row>, NoMemory>
    ensures { IfOk result (IsPut place row.done.items row.last (form.For i target items statements)) }
{
    begun(
        alloc,
        place,
        row,
        Waiting::ForBody(i, target, items),
        statements,
    )
}

fn put_try(
    alloc: Global,
    place: Place,
    row: Row,
    i: u32,
    statements: Vec<Stmt>,
) -> Result<Option<Row>, NoMemory>
    ensures { IfOk result (IsPut place row.done.items row.last (form.Try i statements)) }
{
    begun(alloc, place, row, Waiting::TryBody(i), statements)
}

fn put_def(
    alloc: Global,
    place: Place,
    row: Row,
    i: u32,
    name: PyText,
    params: Texts,
    defaults: Exprs,
    statements: Vec<Stmt>,
) -> Result<Option<Row>, NoMemory>
    ensures { IfOk result (IsPut place row.done.items row.last (form.Def i name params defaults statements)) }
{
    begun(
        alloc,
        place,
        row,
        Waiting::DefBody(i, name, params, defaults),
        statements,
    )
}

fn put_class(
    alloc: Global,
    place: Place,
    row: Row,
    i: u32,
    name: PyText,
    base: Option<Expr>,
    statements: Vec<Stmt>,
) -> Result<Option<Row>, NoMemory>
    ensures { IfOk result (IsPut place row.done.items row.last (form.Class i name base statements)) }
{
    begun(
        alloc,
        place,
        row,
        Waiting::ClassBody(i, name, base),
        statements,
    )
}

fn go_on(
    alloc: Global,
    place: Place,
    done: Vec<Stmt>,
    next: Option<Waiting>,
    statements: Vec<Stmt>,
) -> Result<Option<Row>, NoMemory>
    ensures { IfOk result (GoesOn place done.items next statements.items) }
{
    match next {
        Some(waiting) => continued(alloc, place, done, waiting, statements),
        None => {
            drop(done);
            drop(statements);
            Ok(None)
        }
    }
}

fn put_elif(
    alloc: Global,
    place: Place,
    row: Row,
    test: Expr,
    statements: Vec<Stmt>,
) -> Result<Option<Row>, NoMemory>
    ensures { IfOk result (IsPut place row.done.items row.last (form.Elif test statements)) }
{
    let Row { done, last } = row;
    let next = elif_next(last, test);
    go_on(alloc, place, done, next, statements)
}

fn put_else(
    alloc: Global,
    place: Place,
    row: Row,
    statements: Vec<Stmt>,
) -> Result<Option<Row>, NoMemory>
    ensures { IfOk result (IsPut place row.done.items row.last (form.Else statements)) }
{
    let Row { done, last } = row;
    let next = else_next(last);
    go_on(alloc, place, done, next, statements)
}

fn put_finally(
    alloc: Global,
    place: Place,
    row: Row,
    statements: Vec<Stmt>,
) -> Result<Option<Row>, NoMemory>
    ensures { IfOk result (IsPut place row.done.items row.last (form.Finally statements)) }
{
    let Row { done, last } = row;
    match finally_next(alloc, last) {
        Ok(next) => go_on(alloc, place, done, next, statements),
        Err(fault) => {
            drop(done);
            drop(statements);
            Err(fault)
        }
    }
}

fn put_except(
    alloc: Global,
    place: Place,
    row: Row,
    node: u32,
    class: Option<Expr>,
    name: Option<PyText>,
    statements: Vec<Stmt>,
) -> Result<Option<Row>, NoMemory>
    ensures { IfOk result (IsPut place row.done.items row.last (form.Except node class name statements)) }
{
    let Row { done, last } = row;
    let next = except_next(alloc, last, Clause { node, class, name });
    go_on(alloc, place, done, next, statements)
}

/// A level after a line that stands at it; `None` where the line may not.
pub(crate) fn on_line(
    alloc: Global,
    place: Place,
    row: Row,
    form: LineForm,
) -> Result<Option<Row>, NoMemory>
    ensures { IfOk result (IsPut place row.done.items row.last form) }
{
    match form {
        LineForm::Simples(xs) => put_simples(alloc, place, row, xs),
        LineForm::If(i, test, xs) => put_if(alloc, place, row, i, test, xs),
        LineForm::Elif(test, xs) => put_elif(alloc, place, row, test, xs),
        LineForm::Else(xs) => put_else(alloc, place, row, xs),
        LineForm::While(i, test, xs) => put_while(alloc, place, row, i, test, xs),
        LineForm::For(i, target, items, xs) => put_for(alloc, place, row, i, target, items, xs),
        LineForm::Try(i, xs) => put_try(alloc, place, row, i, xs),
        LineForm::Finally(xs) => put_finally(alloc, place, row, xs),
        LineForm::Except(i, class, name, xs) => put_except(alloc, place, row, i, class, name, xs),
        LineForm::Def(i, name, params, defaults, xs) => put_def(
            alloc, place, row, i, name, params, defaults, xs,
        ),
        LineForm::Class(i, name, base, xs) => put_class(alloc, place, row, i, name, base, xs),
    }
}
