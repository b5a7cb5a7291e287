// Literals between quotes, after "String and Bytes literals" of the Python language reference.
ghost use Rattle.std.specs.Prelude.{◌≡◌, ◌≤◌, ◌<◌, ◌+◌, ◌^◌, ◌∷◌, [], ◌==◌, ◌&&◌, length, IfSome, IfOk, IsTrue, false};
ghost use Rattle.py_scalars.specs.Search.{begins_with};
ghost use Rattle.py_lexer.specs.Form.{is_quote, is_literal};
ghost use Rattle.py_lexer.specs.Scan.{closed_len, longer, quoted_len, literal_len, if_literal, literal_front};

use crate::token::TokenKind;
use flow_base::{NoMemory, PyText};
use py_scalars::{TextFault, read_text};
use std::alloc::Global;

/// The text literal at the front of a text that begins with a quote, if one fits.
pub(crate) fn literal_front(
    alloc: Global,
    text: &[char],
) -> Result<Option<(TokenKind, usize)>, NoMemory>
    ensures { IfOk result (λ found. found ≡ literal_front text.now) }
{
    match literal_len(alloc, text)? {
        Some(n) => Ok(Some((TokenKind::Text, n))),
        None => Ok(None),
    }
}

fn literal_len(alloc: Global, text: &[char]) -> Result<Option<usize>, NoMemory>
    ensures { IfOk result (λ found. found ≡ literal_len text.now) }
{
    let [quote, rest @ ..] = text else {
        return Ok(None);
    };
    if !begins_with_two(rest, *quote) {
        return if_literal(
            alloc,
            text,
            longer(1, closed_len([*quote].as_slice(), rest)),
        );
    }
    let closed = closed_len([*quote, *quote, *quote].as_slice(), &rest[2..]);
    match if_literal(alloc, text, longer(3, closed))? {
        Some(n) => Ok(Some(n)),
        None => Ok(Some(2)),
    }
}

// The length where it is that of a literal, with its escapes.
fn if_literal(alloc: Global, text: &[char], found: Option<usize>) -> Result<Option<usize>, NoMemory>
    requires { IfSome found (λ n. n ≤ length text.now) }
    ensures { IfOk result (λ answer. answer ≡ if_literal text.now found) }
{
    let Some(n) = found else {
        return Ok(None);
    };
    if is_literal(alloc, &text[..n])? {
        Ok(Some(n))
    } else {
        Ok(None)
    }
}

fn is_literal(alloc: Global, text: &[char]) -> Result<bool, NoMemory>
    ensures { IfOk result (λ answer. answer ≡ is_literal text.now) }
{
    let part = PyText::from_points(alloc, Vec::from_slice(alloc, text)?)?;
    match read_text(alloc, &part) {
        Ok(_) => Ok(true),
        Err(TextFault::Malformed) => Ok(false),
        Err(TextFault::NoMemory) => Err(NoMemory),
    }
}

/// How long the literal at the front is, its escapes not looked at; None where the text does not begin with a quote or
/// nothing closes it.
pub(crate) fn quoted_len(text: &[char]) -> Option<usize>
    ensures value { result ≡ quoted_len text.now }
    ensures within { IfSome result (λ n. n ≤ length text.now) }
{
    let [quote, rest @ ..] = text else {
        return None;
    };
    if !is_quote(*quote) {
        return None;
    }
    if !begins_with_two(rest, *quote) {
        return longer(1, closed_len([*quote].as_slice(), rest));
    }
    let closed = closed_len([*quote, *quote, *quote].as_slice(), &rest[2..]);
    match longer(3, closed) {
        Some(n) => Some(n),
        None => Some(2),
    }
}

fn longer(n: usize, found: Option<usize>) -> Option<usize>
    requires { IfSome found (λ m. n + m < 2 ^ 64) }
    ensures { result ≡ longer n found }
{
    match found {
        Some(m) => Some(n + m),
        None => None,
    }
}

/// Whether a code point is a quote.
pub(crate) fn is_quote(c: char) -> bool
    ensures { result ≡ is_quote c }
{
    c == '\'' || c == '"'
}

fn begins_with_two(text: &[char], quote: char) -> bool
    ensures { result ≡ begins_with (quote ∷ quote ∷ []) text.now }
{
    match text {
        [a, b, ..] => *a == quote && *b == quote,
        _ => false,
    }
}

// How many code points there are up to the closing quotes and with them.
fn closed_len(quotes: &[char], text: &[char]) -> Option<usize>
    ensures value { result ≡ closed_len quotes.now false text.now }
    ensures within { IfSome result (λ n. n ≤ length text.now) }
{
    let mut behind = false;
    let mut at = 0;
    while at < text.len() {
        if behind {
            behind = false;
            at += 1;
            continue;
        }
        if begins(&text[at..], quotes) {
            return Some(at + quotes.len());
        }
        let c = text[at];
        if ends_line(c, quotes) {
            return None;
        }
        behind = c == '\\';
        at += 1;
    }
    None
}

fn begins(text: &[char], part: &[char]) -> bool
    ensures value { result ≡ begins_with part.now text.now }
    ensures within { IsTrue result → length part.now ≤ length text.now }
{
    if text.len() < part.len() {
        return false;
    }
    &text[..part.len()] == part
}

// Whether a code point is a line end, which no short literal holds.
fn ends_line(c: char, quotes: &[char]) -> bool
    ensures { result ≡ ((c == 10) && (length quotes.now == 1)) }
{
    c == '\n' && quotes.len() == 1
}
