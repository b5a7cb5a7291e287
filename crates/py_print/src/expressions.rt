// Expressions printed.
ghost use Rattle.std.specs.Prelude.{◌≡◌, ◌≤◌, length, OnOk};
ghost use Rattle.py_ast.specs.View.{view, views};
ghost use Rattle.py_print.specs.Expressions.{before_dot, compared, expr_at, members, operands, params_of, printed};
ghost use Rattle.py_print.specs.Parts.{before_operand, behind_part, default_of, space_before};
ghost use Rattle.py_print.specs.Pieces.{commas, one_comma, pairs};
ghost use Rattle.py_print.specs.Places.{level};
ghost use Rattle.py_print.specs.Writing.{with_pieces};

use crate::level::{Level, is_number, left_place, level_of, right_place};
use crate::spelling::{operator, sign_mark, truth_mark};
use crate::writer::Writer;
use flow_base::{NoMemory, PyText};
use py_ast::{CompareOp, Expr};
use py_grammar::Mark;

/// Prints an expression, without parentheses round it.
#[cycle(exprs)]
#[tactic(auto, using(crate::proofs::PrintForms::of_Tuple, crate::proofs::PrintForms::of_List, crate::proofs::PrintForms::of_Dict, crate::proofs::PrintForms::of_Lambda, crate::proofs::PrintForms::of_Choice, crate::proofs::PrintForms::of_And, crate::proofs::PrintForms::of_Or, crate::proofs::PrintForms::of_Binary, crate::proofs::PrintForms::of_Attr, crate::proofs::PrintForms::of_Item, crate::proofs::PrintForms::of_Call))]
pub(crate) fn print_expr(w: &mut Writer, e: &Expr) -> Result<(), NoMemory>
    ensures { OnOk result (w.new ≡ with_pieces w.old (printed (view e.now))) }
{
    match e {
        Expr::Name(_, x) => w.name(x),
        Expr::Number(_, n) => w.number(*n),
        Expr::Text(_, x) => w.quoted(x),
        Expr::Nil(_) => w.mark(Mark::None),
        Expr::Truth(_, v) => w.mark(truth_mark(*v)),
        Expr::Tuple(_, parts) => {
            w.mark(Mark::Open)?;
            print_parts(w, parts.as_slice())?;
            print_one_comma(w, parts.as_slice())?;
            w.mark(Mark::Close)
        }
        Expr::List(_, parts) => {
            w.mark(Mark::OpenSquare)?;
            print_parts(w, parts.as_slice())?;
            w.mark(Mark::CloseSquare)
        }
        Expr::Dict(_, parts) => {
            w.mark(Mark::OpenCurly)?;
            print_pairs(w, parts.as_slice())?;
            w.mark(Mark::CloseCurly)
        }
        Expr::Lambda(_, params, defaults, value) => {
            w.mark(Mark::Lambda)?;
            space_before(w, params.as_slice())?;
            print_params(w, params.as_slice(), defaults.as_slice())?;
            w.word(Mark::Colon)?;
            print_expr(w, value.get())
        }
        Expr::Choice(_, value, test, otherwise) => {
            print_at(w, Level::Or, value.get())?;
            w.between(Mark::If)?;
            print_at(w, Level::Or, test.get())?;
            w.between(Mark::Else)?;
            print_expr(w, otherwise.get())
        }
        Expr::And(_, left, right) => {
            print_at(w, Level::And, left.get())?;
            w.between(Mark::And)?;
            print_at(w, Level::Not, right.get())
        }
        Expr::Or(_, left, right) => {
            print_at(w, Level::Or, left.get())?;
            w.between(Mark::Or)?;
            print_at(w, Level::And, right.get())
        }
        Expr::Not(_, part) => {
            w.word(Mark::Not)?;
            print_at(w, Level::Not, part.get())
        }
        Expr::Compare(_, ops, parts) => print_compared(w, ops.as_slice(), parts.as_slice()),
        Expr::Binary(_, left, o, right) => {
            print_at(w, left_place(*o), left.get())?;
            w.between(operator(*o))?;
            print_at(w, right_place(*o), right.get())
        }
        Expr::Sign(_, o, part) => {
            w.mark(sign_mark(*o))?;
            print_at(w, Level::Factor, part.get())
        }
        Expr::Attr(_, part, x) => {
            print_before_dot(w, part.get())?;
            w.mark(Mark::Dot)?;
            w.name(x)
        }
        Expr::Item(_, part, index) => {
            print_at(w, Level::Primary, part.get())?;
            w.mark(Mark::OpenSquare)?;
            print_expr(w, index.get())?;
            w.mark(Mark::CloseSquare)
        }
        Expr::Call(_, function, arguments) => {
            print_at(w, Level::Primary, function.get())?;
            w.mark(Mark::Open)?;
            print_parts(w, arguments.as_slice())?;
            w.mark(Mark::Close)
        }
    }
}

// Prints an expression at a place that asks for a level.
#[cycle(exprs)]
#[tactic(auto, using(crate::proofs::PrintLists::with_pieces_append))]
fn print_at(w: &mut Writer, place: Level, e: &Expr) -> Result<(), NoMemory>
    ensures { OnOk result (w.new ≡ with_pieces w.old (expr_at (level place) (view e.now))) }
{
    if level_of(e).is_within(place) {
        return print_expr(w, e);
    }
    w.mark(Mark::Open)?;
    print_expr(w, e)?;
    w.mark(Mark::Close)
}

// Prints what stands before the dot of an attribute.
#[cycle(exprs)]
#[tactic(auto, using(crate::proofs::PrintLists::with_pieces_append))]
fn print_before_dot(w: &mut Writer, e: &Expr) -> Result<(), NoMemory>
    ensures { OnOk result (w.new ≡ with_pieces w.old (before_dot (view e.now) (printed (view e.now)))) }
{
    if !is_number(e) {
        return print_at(w, Level::Primary, e);
    }
    w.mark(Mark::Open)?;
    print_expr(w, e)?;
    w.mark(Mark::Close)
}

// Prints expressions with commas between them.
#[cycle(exprs)]
#[tactic(auto, using(crate::proofs::PrintLists::with_pieces_append))]
fn print_parts(w: &mut Writer, all: &[Expr]) -> Result<(), NoMemory>
    ensures { OnOk result (w.new ≡ with_pieces w.old (commas (members (views all.now)))) }
{
    let mut before = None;
    for e in all {
        w.separate(before)?;
        print_expr(w, e)?;
        before = Some(Mark::Comma);
    }
    Ok(())
}

// The comma of a tuple of one.
fn print_one_comma(w: &mut Writer, all: &[Expr]) -> Result<(), NoMemory>
    ensures { OnOk result (w.new ≡ with_pieces w.old (one_comma (members (views all.now)))) }
{
    if all.len() == 1 {
        w.mark(Mark::Comma)
    } else {
        Ok(())
    }
}

// Prints keys and values in turn.
#[cycle(exprs)]
#[tactic(auto, using(crate::proofs::PrintLists::with_pieces_append))]
fn print_pairs(w: &mut Writer, all: &[Expr]) -> Result<(), NoMemory>
    ensures { OnOk result (w.new ≡ with_pieces w.old (pairs (members (views all.now)))) }
{
    let mut before = None;
    for e in all {
        w.separate(before)?;
        print_expr(w, e)?;
        before = behind_part(before);
    }
    Ok(())
}

// What stands behind a key or value, by what stands before it: a colon behind a key, and a comma behind a value.
fn behind_part(before: Option<Mark>) -> Option<Mark>
    ensures { result ≡ behind_part before }
{
    match before {
        Some(Mark::Colon) => Some(Mark::Comma),
        _ => Some(Mark::Colon),
    }
}

// Prints operands with the operators between them.
#[cycle(exprs)]
#[tactic(auto, using(crate::proofs::PrintLists::with_pieces_append))]
fn print_compared(w: &mut Writer, ops: &[CompareOp], all: &[Expr]) -> Result<(), NoMemory>
    ensures { OnOk result (w.new ≡ with_pieces w.old (compared ops.now (operands (views all.now)))) }
{
    for (i, e) in all.iter().enumerate() {
        if i > ops.len() {
            return Ok(());
        }
        print_operator(w, ops, i)?;
        print_at(w, Level::Sum, e)?;
    }
    Ok(())
}

// Prints the operator before an operand, if it is not the first.
fn print_operator(w: &mut Writer, ops: &[CompareOp], i: usize) -> Result<(), NoMemory>
    requires { i ≤ length ops.now }
    ensures { OnOk result (w.new ≡ with_pieces w.old (before_operand i ops.now)) }
{
    if i == 0 {
        return Ok(());
    }
    w.comparison(ops[i - 1])
}

// A space before parameters, where there are some.
fn space_before(w: &mut Writer, names: &[PyText]) -> Result<(), NoMemory>
    ensures { OnOk result (w.new ≡ with_pieces w.old (space_before names.now)) }
{
    if names.is_empty() {
        return Ok(());
    }
    w.space()
}

/// Prints parameters, with the defaults of the last of them.
#[cycle(exprs)]
#[tactic(auto, using(crate::proofs::PrintLists::with_pieces_append))]
pub(crate) fn print_params(
    w: &mut Writer,
    names: &[PyText],
    defaults: &[Expr],
) -> Result<(), NoMemory>
    ensures { OnOk result (w.new ≡ with_pieces w.old (params_of names.now (members (views defaults.now)))) }
{
    let plain = names.len().saturating_sub(defaults.len());
    let mut before = None;
    for (i, x) in names.iter().enumerate() {
        w.separate(before)?;
        w.name(x)?;
        print_default(w, defaults, plain, i)?;
        before = Some(Mark::Comma);
    }
    Ok(())
}

// Prints the default of the parameter at a place, if it has one, where so many parameters have none.
#[cycle(exprs)]
#[tactic(auto, using(crate::proofs::PrintLists::with_pieces_append))]
fn print_default(w: &mut Writer, defaults: &[Expr], plain: usize, i: usize) -> Result<(), NoMemory>
    ensures { OnOk result (w.new ≡ with_pieces w.old (default_of plain i (members (views defaults.now)))) }
{
    if i < plain {
        return Ok(());
    }
    match defaults.get(i - plain) {
        Some(e) => {
            w.mark(Mark::Equals)?;
            print_expr(w, e)
        }
        None => Ok(()),
    }
}
