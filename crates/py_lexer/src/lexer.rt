// A text cut into tokens.
ghost use Rattle.std.specs.Prelude.{◌≡◌, ◌≤◌, ◌<◌, ◌+◌, ◌-◌, ◌^◌, ℕ, List, length, IfOk, Ok, Err};
ghost use Rattle.std.specs.List.{prefix_len};
ghost use Rattle.py_lexer.specs.declared.token.Token.{Token};
ghost use Rattle.py_lexer.specs.Scan.{other_front};
ghost use Rattle.py_lexer.specs.Span.{AreSpans};
ghost use Rattle.py_lexer.specs.Cut.{AreTokens, Stops, IsLexed, Gives, IsFront, blank_len, is_inside_line, begins_with_end, ends_in, open_after};

use crate::fault::LexFault;
use crate::number::{begins_with_digit, number_front, real_len};
use crate::quoted::{is_quote, literal_front};
use crate::sign::sign_front;
use crate::token::{Token, TokenKind, Tokens};
use crate::word::{is_name_start, word_front};
use flow_base::{NoMemory, PyText};
use std::alloc::Global;

/// The tokens of a text, after "Lexical analysis" of the Python language reference: at each place the longest that fits.
/// Spaces, tabs and comments stand between tokens; lines are joined inside brackets and by a backslash at a line's end.
/// `At` exactly where a place before the end has neither, and with the line of the first such place.
pub fn lex(alloc: Global, text: &PyText) -> Result<Tokens, LexFault>
    requires { length text.now < 2 ^ 32 - 1 }
    ensures sound { IsLexed text.now result }
    // what the text is cut into is answered
    ensures complete { (tokens : List Token) → AreTokens text.now tokens → Gives result (Ok tokens) }
    ensures refused { (line : ℕ) → Stops text.now line → Gives result (Err (LexFault.At line)) }
{
    cut(alloc, text.as_slice())
}

/// The law of cuts: a text is cut into tokens in one way or stops on one line, and never both.
pub fn cut_law()
    ensures one { (text : List ℕ) (ts us : List Token) → AreTokens text ts → AreTokens text us → ts ≡ us }
    ensures stops { (text : List ℕ) (line other : ℕ) → Stops text line → Stops text other → line ≡ other }
    ensures not_both { (text : List ℕ) (ts : List Token) (line : ℕ) → AreTokens text ts → Stops text line → ⊥ }
{}

/// The law of spans: the tokens of a text stand one behind another, each is as its kind says, and its line is that of its
/// first code point.
pub fn span_law()
    ensures { (text : List ℕ) (tokens : List Token) → AreTokens text tokens → AreSpans text 0 tokens }
{}

// Takes the longest token at each place, one after another.
fn cut(alloc: Global, text: &[char]) -> Result<Tokens, LexFault>
    requires { length text.now < 2 ^ 32 - 1 }
    ensures { IsLexed text.now result }
{
    let mut tokens = Tokens::new(alloc);
    let mut at = 0;
    let mut line = 1;
    let mut nested = 0;
    while at < text.len() {
        let rest = &text[at..];
        let blank = blank_len(nested, rest);
        if 0 < blank {
            line += ends_in(&rest[..blank]);
            at += blank;
            continue;
        }
        let Some((kind, n)) = front(alloc, nested, rest)? else {
            return Err(LexFault::At(line));
        };
        let token = Token {
            kind,
            start: at,
            end: at + n,
            line,
        };
        tokens.push(token)?;
        line += ends_in(&rest[..n]);
        nested = open_after(nested, kind, &rest[..n]);
        at += n;
    }
    Ok(tokens)
}

// The longest token at the front of a text, if one fits.
fn front(
    alloc: Global,
    nested: usize,
    text: &[char],
) -> Result<Option<(TokenKind, usize)>, NoMemory>
    ensures { IfOk result (λ found. IsFront nested text.now found) }
{
    let [c, ..] = text else {
        return Ok(None);
    };
    if is_name_start(*c) {
        return Ok(Some(word_front(text)));
    }
    if c.is_digit(10) {
        return Ok(number_front(text));
    }
    if is_quote(*c) {
        return literal_front(alloc, text);
    }
    Ok(other_front(nested, text))
}

fn other_front(nested: usize, text: &[char]) -> Option<(TokenKind, usize)>
    ensures { result ≡ other_front nested text.now }
{
    let [c, rest @ ..] = text else {
        return None;
    };
    if *c == '\n' {
        return if nested == 0 {
            Some((TokenKind::LineEnd, 1))
        } else {
            None
        };
    }
    if *c == '.' && begins_with_digit(10, rest) {
        return Some((TokenKind::Unsupported, real_len(text)));
    }
    sign_front(text)
}

// How many code points at the front stand between tokens.
fn blank_len(nested: usize, text: &[char]) -> usize
    ensures value { result ≡ blank_len nested text.now }
    ensures within { result ≤ length text.now }
{
    let [c, rest @ ..] = text else {
        return 0;
    };
    match *c {
        ' ' | '\t' => 1,
        '#' => 1 + line_len(rest),
        '\\' if begins_with_end(rest) => 2,
        '\n' if 0 < nested => 1,
        _ => 0,
    }
}

// How many code points there are before the line's end.
fn line_len(text: &[char]) -> usize
    ensures value { result ≡ prefix_len is_inside_line text.now }
    ensures within { result ≤ length text.now }
{
    for (i, c) in text.iter().enumerate() {
        if *c == '\n' {
            return i;
        }
    }
    text.len()
}

fn begins_with_end(text: &[char]) -> bool
    ensures { result ≡ begins_with_end text.now }
{
    match text {
        [c, ..] => *c == '\n',
        [] => false,
    }
}

fn ends_in(text: &[char]) -> u32
    requires { length text.now < 2 ^ 32 - 1 }
    ensures value { result ≡ ends_in text.now }
    ensures within { result ≤ length text.now }
{
    let mut n = 0;
    for c in text {
        if *c == '\n' {
            n += 1;
        }
    }
    n
}

// How many brackets are open behind a token.
fn open_after(nested: usize, kind: TokenKind, text: &[char]) -> usize
    requires { nested < 2 ^ 32 }
    ensures value { result ≡ open_after nested kind text.now }
    ensures within { result ≤ nested + 1 }
{
    if kind != TokenKind::Op {
        return nested;
    }
    let [c] = text else {
        return nested;
    };
    match *c {
        '(' | '[' | '{' => nested + 1,
        ')' | ']' | '}' => nested.saturating_sub(1),
        _ => nested,
    }
}
