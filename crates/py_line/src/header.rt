// Headers. Nothing is kept of one with an expression that is too deep.
ghost use Rattle.std.specs.Prelude.{◌≡◌, None, Some, option_map};
ghost use Rattle.py_grammar.specs.Kept.{kept};
ghost use Rattle.py_grammar.specs.Line as l;
ghost use Rattle.py_grammar.specs.LineReading as lines;
ghost use Rattle.py_grammar.specs.LineReading.{base_of, caught, class_of, define_of, defined, except_of, header, looped, tested, with_base};
ghost use Rattle.py_line.specs.Form.{raw_header_of};
ghost use Rattle.py_line.specs.Full.{full};
ghost use Rattle.py_line.specs.Gives.{Gives};
ghost use Rattle.py_line.specs.Joined.{head};
ghost use Rattle.py_line.specs.Views.{kept_of, params_of};

use crate::at::{begins, mark_at, name_at};
use crate::exprs::{distinct_params, expect, exprs, params, targets};
use crate::fault::ReadFault;
use crate::kept::{Kept, Parameters};
use crate::phrase::expr;
use crate::raw::RawHeader;
use crate::simple::{tree, trees};
use crate::words::Head;
use flow_base::PyText;
use py_grammar::{Mark, Sign};
use std::alloc::Global;

// ---- if, elif and while

fn if_of(a: Kept) -> Option<RawHeader>
    ensures { option_map raw_header_of result ≡ tested l.if (kept_of a) }
{
    match a {
        Kept::Whole(e, _) => Some(RawHeader::If(e)),
        Kept::Deep(_) => None,
    }
}

#[tactic(auto, unfolding(py_grammar::specs::LineReading::header))]
fn an_if(alloc: Global, tokens: &[Sign]) -> Result<(Option<RawHeader>, &[Sign]), ReadFault>
    ensures { Gives (λ x. (option_map raw_header_of x.0, x.1.now)) result (header 60 (full 60) lines.an_if tokens.now) }
{
    let (a, rest) = expr(alloc, tokens)?;
    Ok((if_of(a), rest))
}

fn elif_of(a: Kept) -> Option<RawHeader>
    ensures { option_map raw_header_of result ≡ tested l.elif (kept_of a) }
{
    match a {
        Kept::Whole(e, _) => Some(RawHeader::Elif(e)),
        Kept::Deep(_) => None,
    }
}

#[tactic(auto, unfolding(py_grammar::specs::LineReading::header))]
fn an_elif(alloc: Global, tokens: &[Sign]) -> Result<(Option<RawHeader>, &[Sign]), ReadFault>
    ensures { Gives (λ x. (option_map raw_header_of x.0, x.1.now)) result (header 60 (full 60) lines.an_elif tokens.now) }
{
    let (a, rest) = expr(alloc, tokens)?;
    Ok((elif_of(a), rest))
}

fn while_of(a: Kept) -> Option<RawHeader>
    ensures { option_map raw_header_of result ≡ tested l.while (kept_of a) }
{
    match a {
        Kept::Whole(e, _) => Some(RawHeader::While(e)),
        Kept::Deep(_) => None,
    }
}

#[tactic(auto, unfolding(py_grammar::specs::LineReading::header))]
fn a_while(alloc: Global, tokens: &[Sign]) -> Result<(Option<RawHeader>, &[Sign]), ReadFault>
    ensures { Gives (λ x. (option_map raw_header_of x.0, x.1.now)) result (header 60 (full 60) lines.a_while tokens.now) }
{
    let (a, rest) = expr(alloc, tokens)?;
    Ok((while_of(a), rest))
}

// ---- for

fn for_of(target: Kept, a: Kept) -> Option<RawHeader>
    ensures { option_map raw_header_of result ≡ looped (kept_of target) (kept_of a) }
{
    match (tree(target), tree(a)) {
        (Some(target), Some(a)) => Some(RawHeader::For(target, a)),
        _ => None,
    }
}

#[tactic(auto, unfolding(py_grammar::specs::LineReading::header))]
fn a_for(alloc: Global, tokens: &[Sign]) -> Result<(Option<RawHeader>, &[Sign]), ReadFault>
    ensures { Gives (λ x. (option_map raw_header_of x.0, x.1.now)) result (header 60 (full 60) lines.a_for tokens.now) }
{
    let (target, rest) = targets(alloc, tokens)?;
    let rest = expect(Mark::In, rest)?;
    let (a, rest) = exprs(alloc, rest)?;
    Ok((for_of(target, a), rest))
}

// ---- except

fn except_with(a: Kept, x: Option<PyText>) -> Option<RawHeader>
    ensures { option_map raw_header_of result ≡ caught (kept_of a) x }
{
    match a {
        Kept::Whole(e, _) => Some(RawHeader::Except(Some(e), x)),
        Kept::Deep(_) => None,
    }
}

#[tactic(auto, unfolding(py_grammar::specs::LineReading::except_of))]
fn except_of(alloc: Global, tokens: &[Sign]) -> Result<(Option<RawHeader>, &[Sign]), ReadFault>
    ensures { Gives (λ x. (option_map raw_header_of x.0, x.1.now)) result (except_of 60 (full 60) tokens.now) }
{
    let (a, rest) = expr(alloc, tokens)?;
    let Some(after) = mark_at(Mark::As, rest) else {
        return Ok((except_with(a, None), rest));
    };
    let Some((x, rest)) = name_at(after) else {
        return Err(ReadFault::NoLine);
    };
    Ok((except_with(a, Some(x.copy()?)), rest))
}

#[tactic(auto, unfolding(py_grammar::specs::LineReading::header))]
fn an_except(alloc: Global, tokens: &[Sign]) -> Result<(Option<RawHeader>, &[Sign]), ReadFault>
    ensures { Gives (λ x. (option_map raw_header_of x.0, x.1.now)) result (header 60 (full 60) lines.an_except tokens.now) }
{
    if !begins(tokens) {
        return Ok((Some(RawHeader::Except(None, None)), tokens));
    }
    except_of(alloc, tokens)
}

// ---- def

fn definition_of(x: PyText, s: Parameters) -> Option<RawHeader>
    ensures { option_map raw_header_of result ≡ defined x (params_of s) }
{
    let Parameters { names, defaults } = s;
    match trees(defaults) {
        Some(defaults) => Some(RawHeader::Def(x, names, defaults)),
        None => None,
    }
}

#[tactic(auto, unfolding(py_grammar::specs::LineReading::define_of))]
fn define_of(alloc: Global, tokens: &[Sign]) -> Result<(Option<RawHeader>, &[Sign]), ReadFault>
    ensures { Gives (λ x. (option_map raw_header_of x.0, x.1.now)) result (define_of 60 (full 60) tokens.now) }
{
    let Some((x, rest)) = name_at(tokens) else {
        return Err(ReadFault::NoLine);
    };
    let rest = expect(Mark::Open, rest)?;
    let (s, rest) = params(alloc, rest)?;
    let (s, rest) = distinct_params(alloc, s, rest)?;
    let rest = expect(Mark::Close, rest)?;
    Ok((definition_of(x.copy()?, s), rest))
}

// ---- class

fn class_with(x: PyText, a: Kept) -> Option<RawHeader>
    ensures { option_map raw_header_of result ≡ with_base x (kept_of a) }
{
    match a {
        Kept::Whole(e, _) => Some(RawHeader::Class(x, Some(e))),
        Kept::Deep(_) => None,
    }
}

// What stands in the parentheses of a class.
#[tactic(auto, unfolding(py_grammar::specs::LineReading::base_of))]
fn base_of(
    alloc: Global,
    x: PyText,
    tokens: &[Sign],
) -> Result<(Option<RawHeader>, &[Sign]), ReadFault>
    ensures { Gives (λ x. (option_map raw_header_of x.0, x.1.now)) result (base_of 60 (full 60) x tokens.now) }
{
    if let Some(after) = mark_at(Mark::Close, tokens) {
        return Ok((Some(RawHeader::Class(x, None)), after));
    }
    let (a, rest) = expr(alloc, tokens)?;
    let rest = expect(Mark::Close, rest)?;
    Ok((class_with(x, a), rest))
}

#[tactic(auto, unfolding(py_grammar::specs::LineReading::class_of))]
fn class_of(alloc: Global, tokens: &[Sign]) -> Result<(Option<RawHeader>, &[Sign]), ReadFault>
    ensures { Gives (λ x. (option_map raw_header_of x.0, x.1.now)) result (class_of 60 (full 60) tokens.now) }
{
    let Some((x, rest)) = name_at(tokens) else {
        return Err(ReadFault::NoLine);
    };
    let x = x.copy()?;
    match mark_at(Mark::Open, rest) {
        Some(after) => base_of(alloc, x, after),
        None => Ok((Some(RawHeader::Class(x, None)), rest)),
    }
}

// ---- headers

/// What stands behind the word of a header, up to its colon.
#[tactic(auto, unfolding(py_grammar::specs::LineReading::header))]
pub(crate) fn header(
    alloc: Global,
    word: Head,
    tokens: &[Sign],
) -> Result<(Option<RawHeader>, &[Sign]), ReadFault>
    ensures { Gives (λ x. (option_map raw_header_of x.0, x.1.now)) result (header 60 (full 60) (head word) tokens.now) }
{
    match word {
        Head::If => an_if(alloc, tokens),
        Head::Elif => an_elif(alloc, tokens),
        Head::Else => Ok((Some(RawHeader::Else), tokens)),
        Head::While => a_while(alloc, tokens),
        Head::For => a_for(alloc, tokens),
        Head::Try => Ok((Some(RawHeader::Try), tokens)),
        Head::Finally => Ok((Some(RawHeader::Finally), tokens)),
        Head::Except => an_except(alloc, tokens),
        Head::Def => define_of(alloc, tokens),
        Head::Class => class_of(alloc, tokens),
    }
}
