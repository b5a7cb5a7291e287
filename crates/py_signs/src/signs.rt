// What the tokens of a line stand for.
ghost use Rattle.std.specs.Prelude.{◌≡◌, ◌≤◌, ◌↔◌, ◌<◌, IfOk, IsTrue, length, slice_range, Some};
ghost use Rattle.std.specs.List.{All};
ghost use Rattle.py_lexer.specs.Form.{kind_of};
ghost use Rattle.py_lexer.specs.Span.{IsSpan, AreSpans};
ghost use Rattle.py_lexer.specs.declared.token.TokenKind.TheVariants as k;
ghost use Rattle.unicode_normalization.specs.Forms.{nfkc};
ghost use Rattle.py_signs.specs.Signs.{name_sign, sign_of, text_of_token};
ghost use Rattle.py_signs.specs.Signed.{IsSign, AreSigns};

use crate::keywords::{is_keyword, keyword_of};
use crate::operators::operator_of;
use flow_base::{NoMemory, PyText};
use py_grammar::Sign;
use py_lexer::{Token, TokenKind};
use py_scalars::{TextFault, read_number, read_text};
use std::alloc::{AllocError, AllocFailed, Global};
use unicode_normalization::slice::extend_nfkc;

/// Why tokens stand for no signs: a number is over i128, or memory is wanting.
#[derive(Clone, Copy, Debug, PartialEq, Eq)]
pub enum SignFault {
    Wide,
    NoMemory,
}

impl From<NoMemory> for SignFault {
    ghost use Rattle.py_signs.specs.declared.signs.SignFault.TheVariants.{NoMemory};
    ghost use Rattle.std.specs.Prelude.{◌≡◌};

    ghost from_gives = { λ _ fault. fault ≡ NoMemory };

    fn from(_: NoMemory) -> Self {
        SignFault::NoMemory
    }
}

impl From<AllocError> for SignFault {
    ghost use Rattle.py_signs.specs.declared.signs.SignFault.TheVariants.{NoMemory};
    ghost use Rattle.std.specs.Prelude.{◌≡◌};

    ghost from_gives = { λ _ fault. fault ≡ NoMemory };

    fn from(_: AllocError) -> Self {
        SignFault::NoMemory
    }
}

impl<T: Drop> From<AllocFailed<T>> for SignFault {
    ghost use Rattle.py_signs.specs.declared.signs.SignFault.TheVariants.{NoMemory};
    ghost use Rattle.std.specs.Prelude.{◌≡◌};

    ghost from_gives = { λ _ fault. fault ≡ NoMemory };

    fn from(_: AllocFailed<T>) -> Self {
        SignFault::NoMemory
    }
}

/// The signs of tokens, one for each; `Wide` exactly where a number is over i128.
pub fn read_signs(alloc: Global, text: &PyText, tokens: &[Token]) -> Result<Vec<Sign>, SignFault>
    requires { AreSpans text.now 0 tokens.now }
    ensures { AreSigns text.now tokens.now result }
{
    let mut signs = Vec::with_capacity(alloc, tokens.len())?;
    for t in tokens {
        match read_sign(alloc, text, *t) {
            Ok(sign) => signs.push(sign)?,
            Err(fault) => return Err(fault),
        }
    }
    Ok(signs)
}

fn read_sign(alloc: Global, text: &PyText, t: Token) -> Result<Sign, SignFault>
    requires { IsSpan text.now t }
    ensures { IsSign t.kind (text_of_token text.now t) result }
{
    match t.kind {
        TokenKind::Word => Ok(word_sign(alloc, text, t.start, t.end)?),
        TokenKind::Number => number_sign(alloc, text, t.start, t.end),
        TokenKind::Text => Ok(text_sign(alloc, text, t.start, t.end)?),
        TokenKind::Op => Ok(operator_sign(&text.as_slice()[t.start..t.end])),
        TokenKind::LineEnd | TokenKind::Unsupported => Ok(Sign::Other),
    }
}

fn operator_sign(text: &[char]) -> Sign
    ensures { result ≡ sign_of k.Op text.now }
{
    match operator_of(text) {
        Some(mark) => Sign::Mark(mark),
        None => Sign::Other,
    }
}

fn word_sign(alloc: Global, text: &PyText, from: usize, to: usize) -> Result<Sign, NoMemory>
    requires in_order { from ≤ to }
    requires in_bounds { to ≤ length text.now }
    ensures { IfOk result (λ sign. sign ≡ sign_of k.Word (slice_range text.now from to)) }
{
    match keyword_of(&text.as_slice()[from..to]) {
        Some(mark) => Ok(Sign::Mark(mark)),
        None => named_sign(alloc, text, from, to),
    }
}

// The sign of a word that is no keyword, by its NFKC form, which is the word itself where it is ASCII.
fn named_sign(alloc: Global, text: &PyText, from: usize, to: usize) -> Result<Sign, NoMemory>
    requires in_order { from ≤ to }
    requires in_bounds { to ≤ length text.now }
    ensures { IfOk result (λ sign. sign ≡ name_sign (nfkc (slice_range text.now from to))) }
{
    let word = &text.as_slice()[from..to];
    if !is_ascii(word) {
        return composed_sign(alloc, word);
    }
    if is_keyword(word) {
        return Ok(Sign::Other);
    }
    Ok(Sign::Name(text.part(alloc, from, to)?))
}

fn composed_sign(alloc: Global, word: &[char]) -> Result<Sign, NoMemory>
    ensures { IfOk result (λ sign. sign ≡ name_sign (nfkc word.now)) }
{
    let mut name = Vec::new(alloc);
    extend_nfkc(&mut name, word)?;
    let name = PyText::from_points(alloc, name)?;
    if is_keyword(name.as_slice()) {
        return Ok(Sign::Other);
    }
    Ok(Sign::Name(name))
}

fn is_ascii(text: &[char]) -> bool
    ensures { IsTrue result ↔ All (λ c. c < 128) text.now }
{
    text.iter().all(|c| *c < '\u{80}')
}

fn number_sign(alloc: Global, text: &PyText, from: usize, to: usize) -> Result<Sign, SignFault>
    requires in_order { from ≤ to }
    requires in_bounds { to ≤ length text.now }
    requires number { kind_of (slice_range text.now from to) ≡ Some k.Number }
    ensures { IsSign k.Number (slice_range text.now from to) result }
{
    let digits = text.part(alloc, from, to)?;
    match read_number(&digits) {
        Some(n) => Ok(Sign::Number(n)),
        None => Err(SignFault::Wide),
    }
}

fn text_sign(alloc: Global, text: &PyText, from: usize, to: usize) -> Result<Sign, NoMemory>
    requires in_order { from ≤ to }
    requires in_bounds { to ≤ length text.now }
    ensures { IfOk result (λ sign. sign ≡ sign_of k.Text (slice_range text.now from to)) }
{
    let literal = text.part(alloc, from, to)?;
    match read_text(alloc, &literal) {
        Ok(text) => Ok(Sign::Text(text)),
        Err(TextFault::Malformed) => Ok(Sign::Other),
        Err(TextFault::NoMemory) => Err(NoMemory),
    }
}
