// Simple statements. Nothing is kept of one with an expression that is too deep.
ghost use Rattle.std.specs.Prelude.{◌≡◌, [], ◌∷◌, ◌++◌, IfOk, Some, option_map};
ghost use Rattle.py_ast.specs.Statement as s;
ghost use Rattle.py_ast.specs.View.{view, views};
ghost use Rattle.py_grammar.specs.Kept.{all_kept, kept};
ghost use Rattle.py_grammar.specs.LineReading as lines;
ghost use Rattle.py_grammar.specs.LineReading.{asserted, asserted_with, assigned, assigned_turn, augment, augmented, both, more_assigned, more_names, more_simples, name_turn, names, simple, simples, simples_turn, unmarked, with_simple, worded};
ghost use Rattle.py_line.specs.Form.{raw_simple_of, raw_simples_of};
ghost use Rattle.py_line.specs.Full.{full};
ghost use Rattle.py_line.specs.Gives.{Gives};
ghost use Rattle.py_line.specs.Joined.{word};
ghost use Rattle.py_line.specs.Views.{all_of, kept_of};

use crate::at::{begins, mark_at, name_at};
use crate::exprs::{exprs, is_none, targets};
use crate::fault::ReadFault;
use crate::kept::{Kept, KeptAll};
use crate::made::{no_trees, push};
use crate::phrase::expr;
use crate::raw::RawSimple;
use crate::targets::{is_kept_target, kept_target};
use crate::words::{
    Word, augment_at, comma_at, equals_at, is_place_before, next_simple_at, word_at,
};
use flow_base::{NoMemory, PyText};
use py_ast::{BinaryOp, Expr};
use py_grammar::{Mark, Sign};
use std::alloc::Global;

/// The tree, where it is kept.
pub(crate) fn tree(a: Kept) -> Option<Expr>
    ensures { option_map view result ≡ kept (kept_of a) }
{
    match a {
        Kept::Whole(e, _) => Some(e),
        Kept::Deep(_) => None,
    }
}

// ---- statements that begin with a word

fn return_of(a: Kept) -> Option<RawSimple>
    ensures { option_map raw_simple_of result ≡ option_map (λ a. s.return (Some a)) (kept (kept_of a)) }
{
    match a {
        Kept::Whole(e, _) => Some(RawSimple::Return(Some(e))),
        Kept::Deep(_) => None,
    }
}

#[tactic(auto, unfolding(py_grammar::specs::LineReading::worded))]
fn returned(alloc: Global, tokens: &[Sign]) -> Result<(Option<RawSimple>, &[Sign]), ReadFault>
    ensures { Gives (λ x. (option_map raw_simple_of x.0, x.1.now)) result (worded 60 (full 60) lines.return tokens.now) }
{
    if !begins(tokens) {
        return Ok((Some(RawSimple::Return(None)), tokens));
    }
    let (a, rest) = exprs(alloc, tokens)?;
    Ok((return_of(a), rest))
}

fn raise_of(a: Kept) -> Option<RawSimple>
    ensures { option_map raw_simple_of result ≡ option_map (λ a. s.raise (Some a)) (kept (kept_of a)) }
{
    match a {
        Kept::Whole(e, _) => Some(RawSimple::Raise(Some(e))),
        Kept::Deep(_) => None,
    }
}

#[tactic(auto, unfolding(py_grammar::specs::LineReading::worded))]
fn raised(alloc: Global, tokens: &[Sign]) -> Result<(Option<RawSimple>, &[Sign]), ReadFault>
    ensures { Gives (λ x. (option_map raw_simple_of x.0, x.1.now)) result (worded 60 (full 60) lines.raise tokens.now) }
{
    if !begins(tokens) {
        return Ok((Some(RawSimple::Raise(None)), tokens));
    }
    let (a, rest) = expr(alloc, tokens)?;
    Ok((raise_of(a), rest))
}

fn another_name(names: Vec<PyText>, tokens: &[Sign]) -> Result<(Vec<PyText>, &[Sign]), ReadFault>
    ensures { Gives (λ x. (x.0.items, x.1.now)) result (name_turn names.items tt tokens.now) }
{
    let Some((x, rest)) = name_at(tokens) else {
        return Err(ReadFault::NoLine);
    };
    let mut names = names;
    names.push(x.copy()?)?;
    Ok((names, rest))
}

fn more_names(first: Vec<PyText>, tokens: &[Sign]) -> Result<(Vec<PyText>, &[Sign]), ReadFault>
    ensures { Gives (λ x. (x.0.items, x.1.now)) result (more_names first.items tokens.now) }
{
    let mut names = first;
    let mut rest = tokens;
    while let Some(after) = comma_at(rest) {
        let (longer, after) = another_name(names, after)?;
        names = longer;
        rest = after;
    }
    Ok((names, rest))
}

/// Names with commas between them.
#[tactic(auto, unfolding(py_grammar::specs::LineReading::names))]
fn names(alloc: Global, tokens: &[Sign]) -> Result<(Vec<PyText>, &[Sign]), ReadFault>
    ensures { Gives (λ x. (x.0.items, x.1.now)) result (names tokens.now) }
{
    let (first, rest) = another_name(Vec::new(alloc), tokens)?;
    more_names(first, rest)
}

#[tactic(auto, unfolding(py_grammar::specs::LineReading::worded))]
fn global(alloc: Global, tokens: &[Sign]) -> Result<(Option<RawSimple>, &[Sign]), ReadFault>
    ensures { Gives (λ x. (option_map raw_simple_of x.0, x.1.now)) result (worded 60 (full 60) lines.global tokens.now) }
{
    let (names, rest) = names(alloc, tokens)?;
    Ok((Some(RawSimple::Global(names)), rest))
}

#[tactic(auto, unfolding(py_grammar::specs::LineReading::worded))]
fn nonlocal(alloc: Global, tokens: &[Sign]) -> Result<(Option<RawSimple>, &[Sign]), ReadFault>
    ensures { Gives (λ x. (option_map raw_simple_of x.0, x.1.now)) result (worded 60 (full 60) lines.nonlocal tokens.now) }
{
    let (names, rest) = names(alloc, tokens)?;
    Ok((Some(RawSimple::Nonlocal(names)), rest))
}

fn deletion_of(a: Kept) -> Option<RawSimple>
    ensures { option_map raw_simple_of result ≡ option_map s.delete (kept (kept_of a)) }
{
    match a {
        Kept::Whole(e, _) => Some(RawSimple::Del(e)),
        Kept::Deep(_) => None,
    }
}

#[tactic(auto, unfolding(py_grammar::specs::LineReading::worded))]
fn deleted(alloc: Global, tokens: &[Sign]) -> Result<(Option<RawSimple>, &[Sign]), ReadFault>
    ensures { Gives (λ x. (option_map raw_simple_of x.0, x.1.now)) result (worded 60 (full 60) lines.delete tokens.now) }
{
    let (a, rest) = targets(alloc, tokens)?;
    Ok((deletion_of(a), rest))
}

fn assertion_of(a: Kept) -> Option<RawSimple>
    ensures { option_map raw_simple_of result ≡ asserted (kept_of a) }
{
    match a {
        Kept::Whole(e, _) => Some(RawSimple::Assert(e, None)),
        Kept::Deep(_) => None,
    }
}

fn assertion_with(a: Kept, message: Kept) -> Option<RawSimple>
    ensures { option_map raw_simple_of result ≡ asserted_with (kept_of a) (kept_of message) }
{
    match (tree(a), tree(message)) {
        (Some(a), Some(message)) => Some(RawSimple::Assert(a, Some(message))),
        _ => None,
    }
}

#[tactic(auto, unfolding(py_grammar::specs::LineReading::worded))]
fn asserted(alloc: Global, tokens: &[Sign]) -> Result<(Option<RawSimple>, &[Sign]), ReadFault>
    ensures { Gives (λ x. (option_map raw_simple_of x.0, x.1.now)) result (worded 60 (full 60) lines.assert tokens.now) }
{
    let (a, rest) = expr(alloc, tokens)?;
    let Some(after) = mark_at(Mark::Comma, rest) else {
        return Ok((assertion_of(a), rest));
    };
    let (message, rest) = expr(alloc, after)?;
    Ok((assertion_with(a, message), rest))
}

/// What stands behind a word.
#[tactic(auto, unfolding(py_grammar::specs::LineReading::worded))]
fn worded(
    alloc: Global,
    w: Word,
    tokens: &[Sign],
) -> Result<(Option<RawSimple>, &[Sign]), ReadFault>
    ensures { Gives (λ x. (option_map raw_simple_of x.0, x.1.now)) result (worded 60 (full 60) (word w) tokens.now) }
{
    match w {
        Word::Pass => Ok((Some(RawSimple::Pass), tokens)),
        Word::Break => Ok((Some(RawSimple::Break), tokens)),
        Word::Continue => Ok((Some(RawSimple::Continue), tokens)),
        Word::Return => returned(alloc, tokens),
        Word::Raise => raised(alloc, tokens),
        Word::Global => global(alloc, tokens),
        Word::Nonlocal => nonlocal(alloc, tokens),
        Word::Delete => deleted(alloc, tokens),
        Word::Assert => asserted(alloc, tokens),
    }
}

// ---- statements that begin with an expression

// Another target, and the expression behind its `=`.
#[tactic(auto, unfolding(py_grammar::specs::LineReading::assigned_turn))]
fn another_value(
    alloc: Global,
    all: KeptAll,
    value: Kept,
    tokens: &[Sign],
) -> Result<(KeptAll, Kept, &[Sign]), ReadFault>
    ensures { Gives (λ x. ((all_of x.0, kept_of x.1), x.2.now)) result (assigned_turn 60 (full 60) (all_of all, kept_of value) tt tokens.now) }
{
    if !is_kept_target(&value) {
        return Err(ReadFault::NoLine);
    }
    let (a, rest) = exprs(alloc, tokens)?;
    Ok((push(all, kept_target(alloc, value)?)?, a, rest))
}

fn more_assigned(
    alloc: Global,
    first: KeptAll,
    start: Kept,
    tokens: &[Sign],
) -> Result<(KeptAll, Kept, &[Sign]), ReadFault>
    ensures { Gives (λ x. ((all_of x.0, kept_of x.1), x.2.now)) result (more_assigned 60 (full 60) (all_of first, kept_of start) tokens.now) }
{
    let mut all = first;
    let mut value = start;
    let mut rest = tokens;
    while let Some(after) = equals_at(rest) {
        let (longer, last, after) = another_value(alloc, all, value, after)?;
        all = longer;
        value = last;
        rest = after;
    }
    Ok((all, value, rest))
}

fn expression_of(a: Kept) -> Option<RawSimple>
    ensures { option_map raw_simple_of result ≡ option_map s.expression (kept (kept_of a)) }
{
    match a {
        Kept::Whole(e, _) => Some(RawSimple::Expr(e)),
        Kept::Deep(_) => None,
    }
}

pub(crate) fn trees(all: KeptAll) -> Option<Vec<Expr>>
    ensures { option_map (λ es. views es.items) result ≡ all_kept (all_of all) }
{
    match all {
        KeptAll::All(trees, _) => Some(trees),
        KeptAll::OneDeep(_) | KeptAll::SomeDeep(_) => None,
    }
}

fn assignment_of(all: KeptAll, value: Kept) -> Option<RawSimple>
    ensures { option_map raw_simple_of result ≡ both s.assign (all_kept (all_of all)) (kept (kept_of value)) }
{
    match (trees(all), tree(value)) {
        (Some(targets), Some(value)) => Some(RawSimple::Assign(targets, value)),
        _ => None,
    }
}

fn assigned(all: KeptAll, value: Kept) -> Option<RawSimple>
    ensures { option_map raw_simple_of result ≡ assigned (all_of all, kept_of value) }
{
    if is_none(&all) {
        return expression_of(value);
    }
    assignment_of(all, value)
}

fn augmentation_of(place: Kept, o: BinaryOp, a: Kept) -> Option<RawSimple>
    ensures { option_map raw_simple_of result ≡ augmented (kept_of place) o (kept_of a) }
{
    match (tree(place), tree(a)) {
        (Some(place), Some(a)) => Some(RawSimple::Augment(place, o, a)),
        _ => None,
    }
}

// A place that was read from the first of the signs up to the rest, with what follows the operator behind it.
#[tactic(auto, unfolding(py_grammar::specs::LineReading::augment))]
fn augment<'a>(
    alloc: Global,
    tokens: &[Sign],
    place: Kept,
    rest: &[Sign],
    o: BinaryOp,
    after: &'a [Sign],
) -> Result<(Option<RawSimple>, &'a [Sign]), ReadFault>
    ensures { Gives (λ x. (option_map raw_simple_of x.0, x.1.now)) result (augment 60 (full 60) tokens.now (kept_of place, rest.now) (o, after.now)) }
{
    if !is_place_before(tokens, &place, rest) {
        return Err(ReadFault::NoLine);
    }
    let (a, rest) = exprs(alloc, after)?;
    Ok((augmentation_of(place, o, a), rest))
}

#[tactic(auto, unfolding(py_grammar::specs::LineReading::unmarked))]
fn unmarked(alloc: Global, tokens: &[Sign]) -> Result<(Option<RawSimple>, &[Sign]), ReadFault>
    ensures { Gives (λ x. (option_map raw_simple_of x.0, x.1.now)) result (unmarked 60 (full 60) tokens.now) }
{
    let (a, rest) = exprs(alloc, tokens)?;
    match augment_at(rest) {
        Some((o, after)) => augment(alloc, tokens, a, rest, o, after),
        None => {
            let (all, value, rest) = more_assigned(alloc, no_trees(alloc), a, rest)?;
            Ok((assigned(all, value), rest))
        }
    }
}

// ---- simple statements

/// A simple statement.
#[tactic(auto, unfolding(py_grammar::specs::LineReading::simple))]
pub(crate) fn simple(
    alloc: Global,
    tokens: &[Sign],
) -> Result<(Option<RawSimple>, &[Sign]), ReadFault>
    ensures { Gives (λ x. (option_map raw_simple_of x.0, x.1.now)) result (simple 60 (full 60) tokens.now) }
{
    match word_at(tokens) {
        Some((w, rest)) => worded(alloc, w, rest),
        None => unmarked(alloc, tokens),
    }
}

fn pushed(before: Vec<RawSimple>, x: RawSimple) -> Result<Vec<RawSimple>, NoMemory>
    ensures { IfOk result (λ v. v.items ≡ before.items ++ x ∷ []) }
{
    let mut all = before;
    all.push(x)?;
    Ok(all)
}

fn with_kept(
    before: Vec<RawSimple>,
    x: Option<RawSimple>,
) -> Result<Option<Vec<RawSimple>>, NoMemory>
    ensures { IfOk result (λ v. option_map (λ v. raw_simples_of v.items) v ≡ with_simple (Some (raw_simples_of before.items)) (option_map raw_simple_of x)) }
{
    let Some(x) = x else {
        return Ok(None);
    };
    Ok(Some(pushed(before, x)?))
}

fn with_simple(
    before: Option<Vec<RawSimple>>,
    x: Option<RawSimple>,
) -> Result<Option<Vec<RawSimple>>, NoMemory>
    ensures { IfOk result (λ v. option_map (λ v. raw_simples_of v.items) v ≡ with_simple (option_map (λ v. raw_simples_of v.items) before) (option_map raw_simple_of x)) }
{
    let Some(before) = before else {
        drop(x);
        return Ok(None);
    };
    with_kept(before, x)
}

#[tactic(auto, unfolding(py_grammar::specs::LineReading::simples_turn))]
fn another_simple(
    alloc: Global,
    before: Option<Vec<RawSimple>>,
    tokens: &[Sign],
) -> Result<(Option<Vec<RawSimple>>, &[Sign]), ReadFault>
    ensures { Gives (λ x. (option_map (λ v. raw_simples_of v.items) x.0, x.1.now)) result (simples_turn 60 (full 60) (option_map (λ v. raw_simples_of v.items) before) tt tokens.now) }
{
    let (x, rest) = simple(alloc, tokens)?;
    Ok((with_simple(before, x)?, rest))
}

fn more_simples(
    alloc: Global,
    first: Option<Vec<RawSimple>>,
    tokens: &[Sign],
) -> Result<(Option<Vec<RawSimple>>, &[Sign]), ReadFault>
    ensures { Gives (λ x. (option_map (λ v. raw_simples_of v.items) x.0, x.1.now)) result (more_simples 60 (full 60) (option_map (λ v. raw_simples_of v.items) first) tokens.now) }
{
    let mut all = first;
    let mut rest = tokens;
    while let Some(after) = next_simple_at(rest) {
        let (longer, after) = another_simple(alloc, all, after)?;
        all = longer;
        rest = after;
    }
    Ok((all, rest))
}

/// Simple statements with semicolons between them.
#[tactic(auto, unfolding(py_grammar::specs::LineReading::simples))]
pub(crate) fn simples(
    alloc: Global,
    tokens: &[Sign],
) -> Result<(Option<Vec<RawSimple>>, &[Sign]), ReadFault>
    ensures { Gives (λ x. (option_map (λ v. raw_simples_of v.items) x.0, x.1.now)) result (simples 60 (full 60) tokens.now) }
{
    let (x, rest) = simple(alloc, tokens)?;
    let first = with_simple(Some(Vec::new(alloc)), x)?;
    let (all, rest) = more_simples(alloc, first, rest)?;
    match mark_at(Mark::Semicolon, rest) {
        Some(after) => Ok((all, after)),
        None => Ok((all, rest)),
    }
}
