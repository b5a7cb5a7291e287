// Simple statements and headers printed.
ghost use Rattle.std.specs.Prelude.{◌≡◌, ◌∷◌, [], OnOk, option_map};
ghost use Rattle.py_ast.specs.View.{view, views};
ghost use Rattle.py_ast.specs.Statement.{view_stmt};
ghost use Rattle.py_grammar.specs.Line as l;
ghost use Rattle.py_print.specs.Expressions.{members};
ghost use Rattle.py_print.specs.Forms.{message_of, word_and};
ghost use Rattle.py_print.specs.Lines as lines;
ghost use Rattle.py_print.specs.Pieces.{mark};
ghost use Rattle.py_print.specs.Printed.{simple};
ghost use Rattle.py_print.specs.Writing.{with_header, with_line, with_pieces};

use crate::expressions::{print_expr, print_params};
use crate::spelling::augmented;
use crate::writer::Writer;
use flow_base::{NoMemory, PyText};
use py_ast::{Expr, Stmt};
use py_grammar::Mark;

/// Prints the line of a simple statement.
#[tactic(auto, using(crate::proofs::PrintLists::simple_is))]
pub(crate) fn print_simple_line(w: &mut Writer, deep: u32, s: &Stmt) -> Result<(), NoMemory>
    ensures { OnOk result (w.new ≡ with_line w.old (record { deep = deep; row = simple (view_stmt s.now) })) }
{
    w.indent(deep)?;
    print_simple(w, s)?;
    w.end_line()
}

// Prints a simple statement, and nothing for any other.
#[tactic(auto, using(crate::proofs::PrintStatements::of_Assign, crate::proofs::PrintStatements::of_Augment, crate::proofs::PrintStatements::of_Assert))]
fn print_simple(w: &mut Writer, s: &Stmt) -> Result<(), NoMemory>
    ensures { OnOk result (w.new ≡ with_pieces w.old (lines.simple (view_stmt s.now))) }
{
    match s {
        Stmt::Expr(_, e) => print_expr(w, e),
        Stmt::Assign(_, targets, e) => {
            print_lefts(w, targets.as_slice())?;
            print_expr(w, e)
        }
        Stmt::Augment(_, place, o, e) => {
            print_expr(w, place)?;
            w.between(augmented(*o))?;
            print_expr(w, e)
        }
        Stmt::Pass(_) => w.mark(Mark::Pass),
        Stmt::Break(_) => w.mark(Mark::Break),
        Stmt::Continue(_) => w.mark(Mark::Continue),
        Stmt::Return(_, e) => print_maybe(w, Mark::Return, e),
        Stmt::Raise(_, e) => print_maybe(w, Mark::Raise, e),
        Stmt::Global(_, names) => {
            w.word(Mark::Global)?;
            print_names(w, names.as_slice())
        }
        Stmt::Nonlocal(_, names) => {
            w.word(Mark::Nonlocal)?;
            print_names(w, names.as_slice())
        }
        Stmt::Del(_, target) => {
            w.word(Mark::Del)?;
            print_expr(w, target)
        }
        Stmt::Assert(_, test, message) => {
            w.word(Mark::Assert)?;
            print_expr(w, test)?;
            print_message(w, message)
        }
        Stmt::If(..)
        | Stmt::While(..)
        | Stmt::For(..)
        | Stmt::Try(..)
        | Stmt::Def(..)
        | Stmt::Class(..) => Ok(()),
    }
}

// Prints targets, each before its `=`.
fn print_lefts(w: &mut Writer, all: &[Expr]) -> Result<(), NoMemory>
    ensures { OnOk result (w.new ≡ with_pieces w.old (lines.lefts (members (views all.now)))) }
{
    for e in all {
        print_expr(w, e)?;
        w.between(Mark::Equals)?;
    }
    Ok(())
}

// Prints a keyword, and maybe an expression behind it.
fn print_maybe(w: &mut Writer, k: Mark, e: &Option<Expr>) -> Result<(), NoMemory>
    ensures { OnOk result (w.new ≡ with_pieces w.old (lines.with_maybe k (option_map view e.now))) }
{
    match e {
        Some(e) => print_word_and(w, k, e),
        None => w.mark(k),
    }
}

// Prints a keyword and an expression behind it.
fn print_word_and(w: &mut Writer, k: Mark, e: &Expr) -> Result<(), NoMemory>
    ensures { OnOk result (w.new ≡ with_pieces w.old (word_and k (view e.now))) }
{
    w.word(k)?;
    print_expr(w, e)
}

// Prints names with commas between them.
fn print_names(w: &mut Writer, all: &[PyText]) -> Result<(), NoMemory>
    ensures { OnOk result (w.new ≡ with_pieces w.old (lines.names all.now)) }
{
    let mut before = None;
    for x in all {
        w.separate(before)?;
        w.name(x)?;
        before = Some(Mark::Comma);
    }
    Ok(())
}

// Prints what stands behind the test of an `assert`.
fn print_message(w: &mut Writer, message: &Option<Expr>) -> Result<(), NoMemory>
    ensures { OnOk result (w.new ≡ with_pieces w.old (message_of (option_map view message.now))) }
{
    match message {
        Some(e) => print_word_and(w, Mark::Comma, e),
        None => Ok(()),
    }
}

/// Prints the line of a header of one keyword.
#[tactic(auto, using(crate::proofs::PrintLists::header_is))]
pub(crate) fn print_word_line(w: &mut Writer, deep: u32, k: Mark) -> Result<(), NoMemory>
    ensures { OnOk result (w.new ≡ with_header w.old deep (mark k ∷ [])) }
{
    w.indent(deep)?;
    w.mark(k)?;
    w.end_header()
}

/// Prints the line of a header of a keyword and a test.
#[tactic(auto, using(crate::proofs::PrintLists::header_is))]
pub(crate) fn print_test_line(
    w: &mut Writer,
    deep: u32,
    k: Mark,
    test: &Expr,
) -> Result<(), NoMemory>
    ensures { OnOk result (w.new ≡ with_header w.old deep (word_and k (view test.now))) }
{
    w.indent(deep)?;
    print_word_and(w, k, test)?;
    w.end_header()
}

/// Prints the line of a `for`.
#[tactic(auto, using(crate::proofs::PrintLists::header_is, crate::proofs::PrintForms::with_between))]
pub(crate) fn print_for_line(
    w: &mut Writer,
    deep: u32,
    target: &Expr,
    e: &Expr,
) -> Result<(), NoMemory>
    ensures { OnOk result (w.new ≡ with_header w.old deep (lines.header (l.for (view target.now) (view e.now)))) }
{
    w.indent(deep)?;
    w.word(Mark::For)?;
    print_expr(w, target)?;
    w.between(Mark::In)?;
    print_expr(w, e)?;
    w.end_header()
}

/// Prints the line of an `except`.
#[tactic(auto, using(crate::proofs::PrintLists::header_is))]
pub(crate) fn print_except_line(
    w: &mut Writer,
    deep: u32,
    class: &Option<Expr>,
    name: &Option<PyText>,
) -> Result<(), NoMemory>
    ensures { OnOk result (w.new ≡ with_header w.old deep (lines.header (l.except (option_map view class.now) name.now))) }
{
    w.indent(deep)?;
    print_except(w, class, name)?;
    w.end_header()
}

#[tactic(auto, using(crate::proofs::PrintLists::with_pieces_append))]
fn print_except(w: &mut Writer, class: &Option<Expr>, name: &Option<PyText>) -> Result<(), NoMemory>
    ensures { OnOk result (w.new ≡ with_pieces w.old (lines.header (l.except (option_map view class.now) name.now))) }
{
    match class {
        Some(e) => {
            print_word_and(w, Mark::Except, e)?;
            print_as(w, name)
        }
        None => w.mark(Mark::Except),
    }
}

// Prints the name behind `as`.
fn print_as(w: &mut Writer, name: &Option<PyText>) -> Result<(), NoMemory>
    ensures { OnOk result (w.new ≡ with_pieces w.old (lines.as_name name.now)) }
{
    match name {
        Some(x) => {
            w.between(Mark::As)?;
            w.name(x)
        }
        None => Ok(()),
    }
}

/// Prints the line of a `def`.
#[tactic(auto, using(crate::proofs::PrintLists::header_is, crate::proofs::PrintLists::with_pieces_append))]
pub(crate) fn print_def_line(
    w: &mut Writer,
    deep: u32,
    name: &PyText,
    params: &[PyText],
    defaults: &[Expr],
) -> Result<(), NoMemory>
    ensures { OnOk result (w.new ≡ with_header w.old deep (lines.header (l.define name.now params.now (views defaults.now)))) }
{
    w.indent(deep)?;
    w.word(Mark::Def)?;
    w.name(name)?;
    w.mark(Mark::Open)?;
    print_params(w, params, defaults)?;
    w.mark(Mark::Close)?;
    w.end_header()
}

/// Prints the line of a `class`.
#[tactic(auto, using(crate::proofs::PrintLists::header_is))]
pub(crate) fn print_class_line(
    w: &mut Writer,
    deep: u32,
    name: &PyText,
    base: &Option<Expr>,
) -> Result<(), NoMemory>
    ensures { OnOk result (w.new ≡ with_header w.old deep (lines.header (l.class name.now (option_map view base.now)))) }
{
    w.indent(deep)?;
    print_class(w, name, base)?;
    w.end_header()
}

#[tactic(auto, using(crate::proofs::PrintLists::with_pieces_append))]
fn print_class(w: &mut Writer, name: &PyText, base: &Option<Expr>) -> Result<(), NoMemory>
    ensures { OnOk result (w.new ≡ with_pieces w.old (lines.header (l.class name.now (option_map view base.now)))) }
{
    w.word(Mark::Class)?;
    w.name(name)?;
    match base {
        Some(e) => {
            w.mark(Mark::Open)?;
            print_expr(w, e)?;
            w.mark(Mark::Close)
        }
        None => Ok(()),
    }
}
