// Numbers for the nodes of a line, in the order in which they begin in the text, a parent before its parts.
ghost use Rattle.std.specs.Prelude.{◌≡◌, ◌+◌, ◌≤◌, ◌^◌, option_map, IfOk};
ghost use Rattle.py_ast.specs.View.{view, views};
ghost use Rattle.py_grammar.specs.Line as plain;
ghost use Rattle.py_line.specs.Form.{Numbered, NumberedAll, NumberedLine, NumberedMaybe, NumberedStatement, NumberedStatements, raw_header_of, raw_line_of, raw_simple_of, raw_simples_of};
ghost use Rattle.py_line.specs.Numbers.{size, size_of_all, size_of_line, size_of_maybe, size_of_statement, size_of_statements};

use crate::form::LineForm;
use crate::line::LineRead;
use crate::raw::{RawHeader, RawLine, RawSimple};
use flow_base::{Held, NoMemory, PyText, Shared};
use py_ast::{Expr, Exprs, Stmt, Texts};
use std::alloc::Global;

// Each of these answers the same with the numbers from `next` on, and the number after the last.

#[cycle(expressions)]
fn numbered(alloc: Global, e: &Expr, next: u64) -> Result<(Expr, u64), NoMemory>
    requires { next + size (view e.now) ≤ 2 ^ 32 }
    ensures is { IfOk result (λ x. Numbered next (view e.now) x.0) }
    ensures after { IfOk result (λ x. x.1 ≡ next + size (view e.now)) }
{
    let node = next as u32;
    let below = next + 1;
    match e {
        Expr::Name(_, name) => Ok((Expr::Name(node, name.copy()?), below)),
        Expr::Number(_, n) => Ok((Expr::Number(node, *n), below)),
        Expr::Text(_, text) => Ok((Expr::Text(node, text.copy()?), below)),
        Expr::Nil(_) => Ok((Expr::Nil(node), below)),
        Expr::Truth(_, truth) => Ok((Expr::Truth(node, *truth), below)),
        Expr::Tuple(_, all) => {
            let (all, after) = numbered_all(alloc, all.as_slice(), below)?;
            Ok((Expr::Tuple(node, all), after))
        }
        Expr::List(_, all) => {
            let (all, after) = numbered_all(alloc, all.as_slice(), below)?;
            Ok((Expr::List(node, all), after))
        }
        Expr::Dict(_, all) => {
            let (all, after) = numbered_all(alloc, all.as_slice(), below)?;
            Ok((Expr::Dict(node, all), after))
        }
        Expr::Lambda(_, names, defaults, value) => {
            let (defaults, after) = numbered_all(alloc, defaults.as_slice(), below)?;
            let (value, after) = numbered_held(alloc, value.get(), after)?;
            Ok((Expr::Lambda(node, names.copy()?, defaults, value), after))
        }
        Expr::Choice(_, value, test, otherwise) => {
            let (value, after) = numbered_held(alloc, value.get(), below)?;
            let (test, after) = numbered_held(alloc, test.get(), after)?;
            let (otherwise, after) = numbered_held(alloc, otherwise.get(), after)?;
            Ok((Expr::Choice(node, value, test, otherwise), after))
        }
        Expr::And(_, left, right) => {
            let (left, after) = numbered_held(alloc, left.get(), below)?;
            let (right, after) = numbered_held(alloc, right.get(), after)?;
            Ok((Expr::And(node, left, right), after))
        }
        Expr::Or(_, left, right) => {
            let (left, after) = numbered_held(alloc, left.get(), below)?;
            let (right, after) = numbered_held(alloc, right.get(), after)?;
            Ok((Expr::Or(node, left, right), after))
        }
        Expr::Not(_, part) => {
            let (part, after) = numbered_held(alloc, part.get(), below)?;
            Ok((Expr::Not(node, part), after))
        }
        Expr::Compare(_, ops, all) => {
            let (all, after) = numbered_all(alloc, all.as_slice(), below)?;
            Ok((Expr::Compare(node, ops.copy()?, all), after))
        }
        Expr::Binary(_, left, op, right) => {
            let (left, after) = numbered_held(alloc, left.get(), below)?;
            let (right, after) = numbered_held(alloc, right.get(), after)?;
            Ok((Expr::Binary(node, left, *op, right), after))
        }
        Expr::Sign(_, op, part) => {
            let (part, after) = numbered_held(alloc, part.get(), below)?;
            Ok((Expr::Sign(node, *op, part), after))
        }
        Expr::Attr(_, part, name) => {
            let (part, after) = numbered_held(alloc, part.get(), below)?;
            Ok((Expr::Attr(node, part, name.copy()?), after))
        }
        Expr::Item(_, left, right) => {
            let (left, after) = numbered_held(alloc, left.get(), below)?;
            let (right, after) = numbered_held(alloc, right.get(), after)?;
            Ok((Expr::Item(node, left, right), after))
        }
        Expr::Call(_, function, arguments) => {
            let (function, after) = numbered_held(alloc, function.get(), below)?;
            let (arguments, after) = numbered_all(alloc, arguments.as_slice(), after)?;
            Ok((Expr::Call(node, function, arguments), after))
        }
    }
}

#[cycle(expressions)]
fn numbered_held(alloc: Global, e: &Expr, next: u64) -> Result<(Held<Expr>, u64), NoMemory>
    requires { next + size (view e.now) ≤ 2 ^ 32 }
    ensures is { IfOk result (λ x. Numbered next (view e.now) x.0) }
    ensures after { IfOk result (λ x. x.1 ≡ next + size (view e.now)) }
{
    let (e, after) = numbered(alloc, e, next)?;
    Ok((Held::new(alloc, e)?, after))
}

#[cycle(expressions)]
fn numbered_all(alloc: Global, all: &[Expr], next: u64) -> Result<(Exprs, u64), NoMemory>
    requires { next + size_of_all (views all.now) ≤ 2 ^ 32 }
    ensures is { IfOk result (λ x. NumberedAll next (views all.now) x.0) }
    ensures after { IfOk result (λ x. x.1 ≡ next + size_of_all (views all.now)) }
{
    let mut done = Vec::new(alloc);
    let mut at = next;
    for e in all {
        let (one, after) = numbered(alloc, e, at)?;
        done.push(one)?;
        at = after;
    }
    Ok((Shared::from_vec(alloc, done)?, at))
}

fn numbered_maybe(
    alloc: Global,
    e: &Option<Expr>,
    next: u64,
) -> Result<(Option<Expr>, u64), NoMemory>
    requires { next + size_of_maybe (option_map view e.now) ≤ 2 ^ 32 }
    ensures is { IfOk result (λ x. NumberedMaybe next (option_map view e.now) x.0) }
    ensures after { IfOk result (λ x. x.1 ≡ next + size_of_maybe (option_map view e.now)) }
{
    match e {
        Some(e) => {
            let (e, after) = numbered(alloc, e, next)?;
            Ok((Some(e), after))
        }
        None => Ok((None, next)),
    }
}

// The same names, in the same memory.
fn copied(alloc: Global, names: &[PyText]) -> Result<Texts, NoMemory>
    ensures { IfOk result (λ texts. texts ≡ names.now) }
{
    let mut done = Vec::new(alloc);
    for name in names {
        done.push(name.copy()?)?;
    }
    Shared::from_vec(alloc, done)
}

fn copied_maybe(name: &Option<PyText>) -> Result<Option<PyText>, NoMemory>
    ensures { IfOk result (λ text. text ≡ name.now) }
{
    match name {
        Some(name) => Ok(Some(name.copy()?)),
        None => Ok(None),
    }
}

fn numbered_simple(alloc: Global, s: &RawSimple, next: u64) -> Result<(Stmt, u64), NoMemory>
    requires { next + size_of_statement (raw_simple_of s.now) ≤ 2 ^ 32 }
    ensures is { IfOk result (λ x. NumberedStatement next (raw_simple_of s.now) x.0) }
    ensures after { IfOk result (λ x. x.1 ≡ next + size_of_statement (raw_simple_of s.now)) }
{
    let node = next as u32;
    let below = next + 1;
    match s {
        RawSimple::Expr(e) => {
            let (e, after) = numbered(alloc, e, below)?;
            Ok((Stmt::Expr(node, e), after))
        }
        RawSimple::Assign(targets, e) => {
            let (targets, after) = numbered_all(alloc, targets.as_slice(), below)?;
            let (e, after) = numbered(alloc, e, after)?;
            Ok((Stmt::Assign(node, targets, e), after))
        }
        RawSimple::Augment(place, op, e) => {
            let (place, after) = numbered(alloc, place, below)?;
            let (e, after) = numbered(alloc, e, after)?;
            Ok((Stmt::Augment(node, place, *op, e), after))
        }
        RawSimple::Pass => Ok((Stmt::Pass(node), below)),
        RawSimple::Break => Ok((Stmt::Break(node), below)),
        RawSimple::Continue => Ok((Stmt::Continue(node), below)),
        RawSimple::Return(e) => {
            let (e, after) = numbered_maybe(alloc, e, below)?;
            Ok((Stmt::Return(node, e), after))
        }
        RawSimple::Raise(e) => {
            let (e, after) = numbered_maybe(alloc, e, below)?;
            Ok((Stmt::Raise(node, e), after))
        }
        RawSimple::Global(names) => Ok((
            Stmt::Global(node, copied(alloc, names.as_slice())?),
            below,
        )),
        RawSimple::Nonlocal(names) => Ok((
            Stmt::Nonlocal(node, copied(alloc, names.as_slice())?),
            below,
        )),
        RawSimple::Del(target) => {
            let (target, after) = numbered(alloc, target, below)?;
            Ok((Stmt::Del(node, target), after))
        }
        RawSimple::Assert(test, message) => {
            let (test, after) = numbered(alloc, test, below)?;
            let (message, after) = numbered_maybe(alloc, message, after)?;
            Ok((Stmt::Assert(node, test, message), after))
        }
    }
}

fn numbered_simples(
    alloc: Global,
    all: &[RawSimple],
    next: u64,
) -> Result<(Vec<Stmt>, u64), NoMemory>
    requires { next + size_of_statements (raw_simples_of all.now) ≤ 2 ^ 32 }
    ensures is { IfOk result (λ x. NumberedStatements next (raw_simples_of all.now) x.0.items) }
    ensures after { IfOk result (λ x. x.1 ≡ next + size_of_statements (raw_simples_of all.now)) }
{
    let mut done = Vec::new(alloc);
    let mut at = next;
    for s in all {
        let (one, after) = numbered_simple(alloc, s, at)?;
        done.push(one)?;
        at = after;
    }
    Ok((done, at))
}

// Each of these answers a line whose header has one form, with the numbers from `first` on.

fn numbered_if(
    alloc: Global,
    test: &Expr,
    body: &[RawSimple],
    first: u64,
) -> Result<LineRead, NoMemory>
    requires { first + size_of_line (plain.header (plain.if (view test.now)) (raw_simples_of body.now)) ≤ 2 ^ 32 }
    ensures { IfOk result (λ read. NumberedLine first (plain.header (plain.if (view test.now)) (raw_simples_of body.now)) read) }
{
    let node = first as u32;
    let (test, next) = numbered(alloc, test, first + 1)?;
    let (body, after) = numbered_simples(alloc, body, next)?;
    Ok(LineRead {
        form: LineForm::If(node, test, body),
        next: after,
    })
}

fn numbered_elif(
    alloc: Global,
    test: &Expr,
    body: &[RawSimple],
    first: u64,
) -> Result<LineRead, NoMemory>
    requires { first + size_of_line (plain.header (plain.elif (view test.now)) (raw_simples_of body.now)) ≤ 2 ^ 32 }
    ensures { IfOk result (λ read. NumberedLine first (plain.header (plain.elif (view test.now)) (raw_simples_of body.now)) read) }
{
    let (test, next) = numbered(alloc, test, first)?;
    let (body, after) = numbered_simples(alloc, body, next)?;
    Ok(LineRead {
        form: LineForm::Elif(test, body),
        next: after,
    })
}

fn numbered_else(alloc: Global, body: &[RawSimple], first: u64) -> Result<LineRead, NoMemory>
    requires { first + size_of_line (plain.header plain.else (raw_simples_of body.now)) ≤ 2 ^ 32 }
    ensures { IfOk result (λ read. NumberedLine first (plain.header plain.else (raw_simples_of body.now)) read) }
{
    let (body, after) = numbered_simples(alloc, body, first)?;
    Ok(LineRead {
        form: LineForm::Else(body),
        next: after,
    })
}

fn numbered_while(
    alloc: Global,
    test: &Expr,
    body: &[RawSimple],
    first: u64,
) -> Result<LineRead, NoMemory>
    requires { first + size_of_line (plain.header (plain.while (view test.now)) (raw_simples_of body.now)) ≤ 2 ^ 32 }
    ensures { IfOk result (λ read. NumberedLine first (plain.header (plain.while (view test.now)) (raw_simples_of body.now)) read) }
{
    let node = first as u32;
    let (test, next) = numbered(alloc, test, first + 1)?;
    let (body, after) = numbered_simples(alloc, body, next)?;
    Ok(LineRead {
        form: LineForm::While(node, test, body),
        next: after,
    })
}

fn numbered_for(
    alloc: Global,
    target: &Expr,
    e: &Expr,
    body: &[RawSimple],
    first: u64,
) -> Result<LineRead, NoMemory>
    requires { first + size_of_line (plain.header (plain.for (view target.now) (view e.now)) (raw_simples_of body.now)) ≤ 2 ^ 32 }
    ensures { IfOk result (λ read. NumberedLine first (plain.header (plain.for (view target.now) (view e.now)) (raw_simples_of body.now)) read) }
{
    let node = first as u32;
    let (target, next) = numbered(alloc, target, first + 1)?;
    let (e, next) = numbered(alloc, e, next)?;
    let (body, after) = numbered_simples(alloc, body, next)?;
    Ok(LineRead {
        form: LineForm::For(node, target, e, body),
        next: after,
    })
}

fn numbered_try(alloc: Global, body: &[RawSimple], first: u64) -> Result<LineRead, NoMemory>
    requires { first + size_of_line (plain.header plain.try (raw_simples_of body.now)) ≤ 2 ^ 32 }
    ensures { IfOk result (λ read. NumberedLine first (plain.header plain.try (raw_simples_of body.now)) read) }
{
    let node = first as u32;
    let (body, after) = numbered_simples(alloc, body, first + 1)?;
    Ok(LineRead {
        form: LineForm::Try(node, body),
        next: after,
    })
}

fn numbered_finally(alloc: Global, body: &[RawSimple], first: u64) -> Result<LineRead, NoMemory>
    requires { first + size_of_line (plain.header plain.finally (raw_simples_of body.now)) ≤ 2 ^ 32 }
    ensures { IfOk result (λ read. NumberedLine first (plain.header plain.finally (raw_simples_of body.now)) read) }
{
    let (body, after) = numbered_simples(alloc, body, first)?;
    Ok(LineRead {
        form: LineForm::Finally(body),
        next: after,
    })
}

fn numbered_except(
    alloc: Global,
    class: &Option<Expr>,
    name: &Option<PyText>,
    body: &[RawSimple],
    first: u64,
) -> Result<LineRead, NoMemory>
    requires { first + size_of_line (plain.header (plain.except (option_map view class.now) name.now) (raw_simples_of body.now)) ≤ 2 ^ 32 }
    ensures { IfOk result (λ read. NumberedLine first (plain.header (plain.except (option_map view class.now) name.now) (raw_simples_of body.now)) read) }
{
    let node = first as u32;
    let (class, next) = numbered_maybe(alloc, class, first + 1)?;
    let name = copied_maybe(name)?;
    let (body, after) = numbered_simples(alloc, body, next)?;
    Ok(LineRead {
        form: LineForm::Except(node, class, name, body),
        next: after,
    })
}

fn numbered_def(
    alloc: Global,
    name: &PyText,
    names: &[PyText],
    defaults: &[Expr],
    body: &[RawSimple],
    first: u64,
) -> Result<LineRead, NoMemory>
    requires { first + size_of_line (plain.header (plain.define name.now names.now (views defaults.now)) (raw_simples_of body.now)) ≤ 2 ^ 32 }
    ensures { IfOk result (λ read. NumberedLine first (plain.header (plain.define name.now names.now (views defaults.now)) (raw_simples_of body.now)) read) }
{
    let node = first as u32;
    let name = name.copy()?;
    let names = copied(alloc, names)?;
    let (defaults, next) = numbered_all(alloc, defaults, first + 1)?;
    let (body, after) = numbered_simples(alloc, body, next)?;
    Ok(LineRead {
        form: LineForm::Def(node, name, names, defaults, body),
        next: after,
    })
}

fn numbered_class(
    alloc: Global,
    name: &PyText,
    base: &Option<Expr>,
    body: &[RawSimple],
    first: u64,
) -> Result<LineRead, NoMemory>
    requires { first + size_of_line (plain.header (plain.class name.now (option_map view base.now)) (raw_simples_of body.now)) ≤ 2 ^ 32 }
    ensures { IfOk result (λ read. NumberedLine first (plain.header (plain.class name.now (option_map view base.now)) (raw_simples_of body.now)) read) }
{
    let node = first as u32;
    let name = name.copy()?;
    let (base, next) = numbered_maybe(alloc, base, first + 1)?;
    let (body, after) = numbered_simples(alloc, body, next)?;
    Ok(LineRead {
        form: LineForm::Class(node, name, base, body),
        next: after,
    })
}

fn numbered_header(
    alloc: Global,
    head: &RawHeader,
    body: &[RawSimple],
    first: u64,
) -> Result<LineRead, NoMemory>
    requires { first + size_of_line (plain.header (raw_header_of head.now) (raw_simples_of body.now)) ≤ 2 ^ 32 }
    ensures { IfOk result (λ read. NumberedLine first (plain.header (raw_header_of head.now) (raw_simples_of body.now)) read) }
{
    match head {
        RawHeader::If(test) => numbered_if(alloc, test, body, first),
        RawHeader::Elif(test) => numbered_elif(alloc, test, body, first),
        RawHeader::Else => numbered_else(alloc, body, first),
        RawHeader::While(test) => numbered_while(alloc, test, body, first),
        RawHeader::For(target, e) => numbered_for(alloc, target, e, body, first),
        RawHeader::Try => numbered_try(alloc, body, first),
        RawHeader::Finally => numbered_finally(alloc, body, first),
        RawHeader::Except(class, name) => numbered_except(alloc, class, name, body, first),
        RawHeader::Def(name, names, defaults) => numbered_def(
            alloc,
            name,
            names.as_slice(),
            defaults.as_slice(),
            body,
            first,
        ),
        RawHeader::Class(name, base) => numbered_class(alloc, name, base, body, first),
    }
}

fn numbered_raw(alloc: Global, raw: &RawLine, first: u64) -> Result<LineRead, NoMemory>
    requires { first + size_of_line (raw_line_of raw.now) ≤ 2 ^ 32 }
    ensures { IfOk result (λ read. NumberedLine first (raw_line_of raw.now) read) }
{
    match raw {
        RawLine::Simples(all) => {
            let (all, after) = numbered_simples(alloc, all.as_slice(), first)?;
            Ok(LineRead {
                form: LineForm::Simples(all),
                next: after,
            })
        }
        RawLine::Header(head, body) => numbered_header(alloc, head, body.as_slice(), first),
    }
}

/// The line with its nodes numbered from `first` on, in the order in which they begin in the text, a parent before its parts, and the number
/// that follows theirs.
pub(crate) fn numbered_line(alloc: Global, raw: &RawLine, first: u32) -> Result<LineRead, NoMemory>
    requires { first + size_of_line (raw_line_of raw.now) ≤ 2 ^ 32 }
    ensures { IfOk result (λ read. NumberedLine first (raw_line_of raw.now) read) }
{
    numbered_raw(alloc, raw, first as u64)
}
