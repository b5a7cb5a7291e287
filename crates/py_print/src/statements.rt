// Statements and blocks printed.
ghost use Rattle.std.specs.Prelude.{◌≡◌, ◌+◌, ◌∷◌, [], OnOk, IfOk, map, option_map};
ghost use Rattle.py_ast.specs.View.{view};
ghost use Rattle.py_ast.specs.Statement.{branches_of, handlers_of, view_stmt, view_block};
ghost use Rattle.py_ast.specs.declared.stmt.Branch.{out-Branch};
ghost use Rattle.py_ast.specs.declared.stmt.Handler.{out-Handler};
ghost use Rattle.py_grammar.specs.Line as l;
ghost use Rattle.py_print.specs.Forms.{test_word, view_branch, view_handler, word_and};
ghost use Rattle.py_print.specs.Lines as lines;
ghost use Rattle.py_print.specs.Printed.{catches, lines_of, statement, tests};
ghost use Rattle.py_print.specs.Writing.{with_header, with_lines, with_otherwise};

use crate::lines::{
    print_class_line, print_def_line, print_except_line, print_for_line, print_simple_line,
    print_test_line, print_word_line,
};
use crate::writer::Writer;
use flow_base::NoMemory;
use py_ast::{Branch, Handler, Stmt};
use py_grammar::Mark;

/// Prints the lines of statements of one block, so deep.
#[cycle(stmts)]
pub(crate) fn print_block(w: &mut Writer, deep: u32, all: &[Stmt]) -> Result<(), NoMemory>
    ensures { OnOk result (w.new ≡ with_lines w.old (lines_of deep (view_block all.now))) }
{
    for s in all {
        print_stmt(w, deep, s)?;
    }
    Ok(())
}

/// Prints the lines of a statement, so deep.
#[cycle(stmts)]
#[tactic(auto, using(crate::proofs::PrintStatements::of_If, crate::proofs::PrintStatements::of_While, crate::proofs::PrintStatements::of_For, crate::proofs::PrintStatements::of_Try, crate::proofs::PrintStatements::of_Def, crate::proofs::PrintStatements::of_Class))]
pub(crate) fn print_stmt(w: &mut Writer, deep: u32, s: &Stmt) -> Result<(), NoMemory>
    ensures { OnOk result (w.new ≡ with_lines w.old (statement deep (view_stmt s.now))) }
{
    match s {
        Stmt::Expr(..)
        | Stmt::Assign(..)
        | Stmt::Augment(..)
        | Stmt::Pass(..)
        | Stmt::Break(..)
        | Stmt::Continue(..)
        | Stmt::Return(..)
        | Stmt::Raise(..)
        | Stmt::Global(..)
        | Stmt::Nonlocal(..)
        | Stmt::Del(..)
        | Stmt::Assert(..) => print_simple_line(w, deep, s),
        Stmt::If(_, branches, otherwise) => {
            print_tests(w, deep, branches.as_slice())?;
            print_otherwise(w, deep, Mark::Else, otherwise.as_slice())
        }
        Stmt::While(_, test, body, otherwise) => {
            print_test_line(w, deep, Mark::While, test)?;
            print_inside(w, deep, body.as_slice())?;
            print_otherwise(w, deep, Mark::Else, otherwise.as_slice())
        }
        Stmt::For(_, target, e, body, otherwise) => {
            print_for_line(w, deep, target, e)?;
            print_inside(w, deep, body.as_slice())?;
            print_otherwise(w, deep, Mark::Else, otherwise.as_slice())
        }
        Stmt::Try(_, body, handlers, otherwise, finally) => {
            print_word_line(w, deep, Mark::Try)?;
            print_inside(w, deep, body.as_slice())?;
            print_handlers(w, deep, handlers.as_slice())?;
            print_otherwise(w, deep, Mark::Else, otherwise.as_slice())?;
            print_otherwise(w, deep, Mark::Finally, finally.as_slice())
        }
        Stmt::Def(_, name, params, defaults, body) => {
            print_def_line(w, deep, name, params.as_slice(), defaults.as_slice())?;
            print_inside(w, deep, body.as_slice())
        }
        Stmt::Class(_, name, base, body) => {
            print_class_line(w, deep, name, base)?;
            print_inside(w, deep, body.as_slice())
        }
    }
}

// One deeper. `NoMemory` stands for a depth of 2^32.
fn deeper(deep: u32) -> Result<u32, NoMemory>
    ensures { IfOk result (λ inner. inner ≡ deep + 1) }
{
    match deep.checked_add(1) {
        Some(inner) => Ok(inner),
        None => Err(NoMemory),
    }
}

// Prints the block behind a header that stands so deep.
#[cycle(stmts)]
fn print_inside(w: &mut Writer, deep: u32, all: &[Stmt]) -> Result<(), NoMemory>
    ensures { OnOk result (w.new ≡ with_lines w.old (lines_of (deep + 1) (view_block all.now))) }
{
    let inner = deeper(deep)?;
    print_block(w, inner, all)
}

// Prints a header of one keyword with its block, where the block is there.
#[cycle(stmts)]
#[tactic(auto, using(crate::proofs::PrintStatements::otherwise_there, crate::proofs::PrintStatements::otherwise_missing))]
fn print_otherwise(w: &mut Writer, deep: u32, k: Mark, all: &[Stmt]) -> Result<(), NoMemory>
    ensures { OnOk result (w.new ≡ with_otherwise w.old deep k (view_block all.now)) }
{
    if all.is_empty() {
        return Ok(());
    }
    print_word_line(w, deep, k)?;
    print_inside(w, deep, all)
}

// Prints the tests of an `if`, each with its block.
#[cycle(stmts)]
fn print_tests(w: &mut Writer, deep: u32, all: &[Branch]) -> Result<(), NoMemory>
    ensures { OnOk result (w.new ≡ with_lines w.old (tests l.if deep (branches_of (map view_branch all.now)))) }
{
    let mut first = true;
    for b in all {
        print_branch(w, deep, test_word(first), b)?;
        first = false;
    }
    Ok(())
}

// The keyword of a test.
fn test_word(first: bool) -> Mark
    ensures { result ≡ test_word first }
{
    if first { Mark::If } else { Mark::Elif }
}

// Prints a test with its block.
#[cycle(stmts)]
fn print_branch(w: &mut Writer, deep: u32, k: Mark, b: &Branch) -> Result<(), NoMemory>
    ensures { OnOk result (w.new ≡ with_lines (with_header w.old deep (word_and k (view (out-Branch b.now).test)))
        (lines_of (deep + 1) (view_block (out-Branch b.now).body))) }
{
    print_test_line(w, deep, k, &b.test)?;
    print_inside(w, deep, b.body.as_slice())
}

// Prints `except` clauses.
#[cycle(stmts)]
fn print_handlers(w: &mut Writer, deep: u32, all: &[Handler]) -> Result<(), NoMemory>
    ensures { OnOk result (w.new ≡ with_lines w.old (catches deep (handlers_of (map view_handler all.now)))) }
{
    for h in all {
        print_handler(w, deep, h)?;
    }
    Ok(())
}

// Prints an `except` clause.
#[cycle(stmts)]
fn print_handler(w: &mut Writer, deep: u32, h: &Handler) -> Result<(), NoMemory>
    ensures { OnOk result (w.new ≡ with_lines
        (with_header w.old deep (lines.header (l.except (option_map view (out-Handler h.now).class) (out-Handler h.now).name)))
        (lines_of (deep + 1) (view_block (out-Handler h.now).body))) }
{
    print_except_line(w, deep, &h.class, &h.name)?;
    print_inside(w, deep, h.body.as_slice())
}
