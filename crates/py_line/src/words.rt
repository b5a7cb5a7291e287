// What stands first in statements and headers.
ghost use Rattle.std.specs.Prelude.{◌≡◌, IfOk, option_map};
ghost use Rattle.py_grammar.specs.LineReading.{augment_of, comma_at, ends_in_close, before, equals_at, head_of, is_close, is_empty, is_place_before, next_simple_at, word_of};
ghost use Rattle.py_grammar.specs.Reading.{is_distinct, marked, more_literals};
ghost use Rattle.py_line.specs.Joined.{head, text_at, word};
ghost use Rattle.py_line.specs.Views.{kept_of};

use crate::at::{is_same, mark_at};
use crate::kept::Kept;
use crate::targets::is_kept_place;
use flow_base::{Names, NoMemory, PyText};
use py_ast::BinaryOp;
use py_grammar::{Mark, Sign};
use std::alloc::Global;

/// The words with which a simple statement begins.
#[derive(Clone, Copy, Debug, PartialEq, Eq)]
pub(crate) enum Word {
    Pass,
    Break,
    Continue,
    Return,
    Raise,
    Global,
    Nonlocal,
    Delete,
    Assert,
}

/// The words with which a header begins.
#[derive(Clone, Copy, Debug, PartialEq, Eq)]
pub(crate) enum Head {
    If,
    Elif,
    Else,
    While,
    For,
    Try,
    Finally,
    Except,
    Def,
    Class,
}

/// A word of a simple statement that stands first, and the signs after it.
pub(crate) fn word_at(tokens: &[Sign]) -> Option<(Word, &[Sign])>
    ensures { option_map (λ o. (word o.0, o.1.now)) result ≡ marked word_of tokens.now }
{
    match tokens {
        [Sign::Mark(k), rest @ ..] => match word_of(*k) {
            Some(w) => Some((w, rest)),
            None => None,
        },
        _ => None,
    }
}

fn word_of(k: Mark) -> Option<Word>
    ensures { option_map word result ≡ word_of k }
{
    match k {
        Mark::Pass => Some(Word::Pass),
        Mark::Break => Some(Word::Break),
        Mark::Continue => Some(Word::Continue),
        Mark::Return => Some(Word::Return),
        Mark::Raise => Some(Word::Raise),
        Mark::Global => Some(Word::Global),
        Mark::Nonlocal => Some(Word::Nonlocal),
        Mark::Del => Some(Word::Delete),
        Mark::Assert => Some(Word::Assert),
        _ => None,
    }
}

/// A word of a header that stands first, and the signs after it.
pub(crate) fn head_at(tokens: &[Sign]) -> Option<(Head, &[Sign])>
    ensures { option_map (λ o. (head o.0, o.1.now)) result ≡ marked head_of tokens.now }
{
    match tokens {
        [Sign::Mark(k), rest @ ..] => match head_of(*k) {
            Some(h) => Some((h, rest)),
            None => None,
        },
        _ => None,
    }
}

fn head_of(k: Mark) -> Option<Head>
    ensures { option_map head result ≡ head_of k }
{
    match k {
        Mark::If => Some(Head::If),
        Mark::Elif => Some(Head::Elif),
        Mark::Else => Some(Head::Else),
        Mark::While => Some(Head::While),
        Mark::For => Some(Head::For),
        Mark::Try => Some(Head::Try),
        Mark::Finally => Some(Head::Finally),
        Mark::Except => Some(Head::Except),
        Mark::Def => Some(Head::Def),
        Mark::Class => Some(Head::Class),
        _ => None,
    }
}

/// An operator of an augmented assignment that stands first, and the signs after it.
pub(crate) fn augment_at(tokens: &[Sign]) -> Option<(BinaryOp, &[Sign])>
    ensures { option_map (λ o. (o.0, o.1.now)) result ≡ marked augment_of tokens.now }
{
    match tokens {
        [Sign::Mark(k), rest @ ..] => match augment_of(*k) {
            Some(o) => Some((o, rest)),
            None => None,
        },
        _ => None,
    }
}

fn augment_of(k: Mark) -> Option<BinaryOp>
    ensures { result ≡ augment_of k }
{
    match k {
        Mark::PlusEquals => Some(BinaryOp::Add),
        Mark::MinusEquals => Some(BinaryOp::Sub),
        Mark::StarEquals => Some(BinaryOp::Mul),
        Mark::SlashesEquals => Some(BinaryOp::FloorDiv),
        Mark::PercentEquals => Some(BinaryOp::Mod),
        Mark::StarsEquals => Some(BinaryOp::Pow),
        _ => None,
    }
}

/// The signs after `=`, where it stands first.
pub(crate) fn equals_at(tokens: &[Sign]) -> Option<&[Sign]>
    ensures { option_map (λ rest. (tt, rest.now)) result ≡ equals_at tokens.now }
{
    mark_at(Mark::Equals, tokens)
}

/// The signs after a comma, where it stands first.
pub(crate) fn comma_at(tokens: &[Sign]) -> Option<&[Sign]>
    ensures { option_map (λ rest. (tt, rest.now)) result ≡ comma_at tokens.now }
{
    mark_at(Mark::Comma, tokens)
}

/// The signs after a semicolon that stands first, where there are any.
pub(crate) fn next_simple_at(tokens: &[Sign]) -> Option<&[Sign]>
    ensures { option_map (λ rest. (tt, rest.now)) result ≡ next_simple_at tokens.now }
{
    match mark_at(Mark::Semicolon, tokens) {
        Some(rest) => if rest.is_empty() { None } else { Some(rest) },
        None => None,
    }
}

/// Whether an expression that was read from the first of the signs is a name, an attribute or an item that does not stand in
/// parentheses. The rest are the signs after it.
pub(crate) fn is_place_before(tokens: &[Sign], a: &Kept, rest: &[Sign]) -> bool
    ensures { result ≡ is_place_before tokens.now (kept_of a.now, rest.now) }
{
    is_kept_place(a) && !ends_in_close(tokens, rest)
}

// Whether the last sign before the rest is `)`.
fn ends_in_close(tokens: &[Sign], rest: &[Sign]) -> bool
    ensures { result ≡ ends_in_close (before tokens.now rest.now) }
{
    let len = tokens.len().saturating_sub(rest.len());
    len != 0 && is_close(&tokens[len - 1])
}

fn is_close(sign: &Sign) -> bool
    ensures { result ≡ is_close sign.now }
{
    match sign {
        Sign::Mark(k) => is_same(Mark::Close, *k),
        _ => false,
    }
}

/// A text literal with those that stand first among the signs, which are one text, and the signs after them.
pub(crate) fn more_literals<'a>(
    alloc: Global,
    first: &PyText,
    tokens: &'a [Sign],
) -> Result<(PyText, &'a [Sign]), NoMemory>
    ensures { IfOk result (λ o. (o.0, o.1.now) ≡ more_literals first.now tokens.now) }
{
    let mut points = Vec::from_slice(alloc, first.as_slice())?;
    let mut rest = tokens;
    while let Some((more, after)) = text_at(rest) {
        points.extend_from_slice(more.as_slice())?;
        rest = after;
    }
    Ok((PyText::from_points(alloc, points)?, rest))
}

fn text_at(tokens: &[Sign]) -> Option<(&PyText, &[Sign])>
    ensures { option_map (λ o. (o.0.now, o.1.now)) result ≡ text_at tokens.now }
{
    match tokens {
        [Sign::Text(x), rest @ ..] => Some((x, rest)),
        _ => None,
    }
}

/// Whether no name stands in the list twice. The time is that of sorting them.
pub(crate) fn names_distinct(alloc: Global, names: &[PyText]) -> Result<bool, NoMemory>
    ensures { IfOk result (λ distinct. distinct ≡ is_distinct names.now) }
{
    let mut seen = Names::new(alloc);
    for name in names {
        if seen.known(name).is_some() {
            return Ok(false);
        }
        seen.intern(name)?;
    }
    Ok(true)
}
