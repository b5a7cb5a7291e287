// Tokens put into logical lines.
ghost use Rattle.std.specs.Prelude.{◌≡◌, ◌≤◌, ◌<◌, ◌+◌, ◌-◌, ◌^◌, ℕ, List, length, Ok, Err};
ghost use Rattle.py_lexer.specs.declared.token.Token.{Token};
ghost use Rattle.py_lexer.specs.Cut.{AreTokens};
ghost use Rattle.py_layout.specs.declared.line.LogicalLine.{LogicalLine};
ghost use Rattle.py_layout.specs.Layout.{AreInOrder, AreLines, Stops, IsLaid, Gives, indent_of, line_len, is_line_end};

use crate::fault::LayoutFault;
use crate::line::{Lines, LogicalLine};
use crate::stack::Stack;
use flow_base::PyText;
use py_lexer::{Token, TokenKind, Tokens};
use std::alloc::Global;

/// The logical lines of a text, by its tokens, after "Logical lines" and "Indentation" of the Python language reference.
/// Leading spaces give a line its width; a larger width than that of the line before opens a block, and a smaller one
/// closes those above it. `At` exactly where a line's width is that of no open block or a tab is in its indentation, and
/// with the line of the first such line.
pub fn layout(alloc: Global, text: &PyText, tokens: &Tokens) -> Result<Lines, LayoutFault>
    requires few { length text.now < 2 ^ 32 - 1 }
    requires lexed { AreTokens text.now tokens.now }
    ensures sound { IsLaid text.now tokens.now result }
    // what the tokens are put into is answered
    ensures complete { (lines : List LogicalLine) → AreLines text.now tokens.now lines → Gives result (Ok lines) }
    ensures refused { (line : ℕ) → Stops text.now tokens.now line → Gives result (Err (LayoutFault.At line)) }
{
    lay_out(alloc, text.as_slice(), tokens.as_slice())
}

/// The law of lines: tokens are put into lines in one way or stop on one line, and never both.
pub fn layout_law()
    ensures one { (text : List ℕ) (tokens : List Token) (ls ms : List LogicalLine) → AreLines text tokens ls → AreLines text tokens ms → ls ≡ ms }
    ensures stops { (text : List ℕ) (tokens : List Token) (line other : ℕ) → Stops text tokens line → Stops text tokens other → line ≡ other }
    ensures not_both { (text : List ℕ) (tokens : List Token) (ls : List LogicalLine) (line : ℕ) → AreLines text tokens ls → Stops text tokens line → ⊥ }
{}

/// The law of places: the lines stand one behind another in the tokens, and each has a token and no line end.
pub fn place_law()
    ensures { (text : List ℕ) (tokens : List Token) (lines : List LogicalLine) → AreLines text tokens lines → AreInOrder tokens 0 lines }
{}

// Takes one line after another.
fn lay_out(alloc: Global, text: &[char], tokens: &[Token]) -> Result<Lines, LayoutFault>
    requires few { length text.now < 2 ^ 32 - 1 }
    requires lexed { AreTokens text.now tokens.now }
    ensures { IsLaid text.now tokens.now result }
{
    let mut lines = Lines::new(alloc);
    let mut stack = Stack::new(alloc)?;
    let mut begin = 0;
    let mut index = 0;
    while index < tokens.len() {
        let token = tokens[index];
        if is_line_end(token.kind) {
            begin = token.end;
            index += 1;
            continue;
        }
        let Some(width) = indent(&text[begin..]) else {
            return Err(LayoutFault::At(token.line));
        };
        if !stack.enter(width)? {
            return Err(LayoutFault::At(token.line));
        }
        let n = line_len(&tokens[index..]);
        let line = LogicalLine {
            first: index,
            end: index + n,
            depth: stack.len().saturating_sub(1) as u32,
            line: token.line,
        };
        lines.push(line)?;
        index += n;
    }
    Ok(lines)
}

fn is_line_end(kind: TokenKind) -> bool
    ensures { result ≡ is_line_end kind }
{
    match kind {
        TokenKind::LineEnd => true,
        _ => false,
    }
}

// The leading spaces of a text, if no tab stands behind them.
fn indent(text: &[char]) -> Option<usize>
    ensures { result ≡ indent_of text.now }
{
    for (i, c) in text.iter().enumerate() {
        if *c == '\t' {
            return None;
        }
        if *c != ' ' {
            return Some(i);
        }
    }
    Some(text.len())
}

// How many tokens stand before the next line end.
fn line_len(tokens: &[Token]) -> usize
    ensures value { result ≡ line_len tokens.now }
    ensures within { result ≤ length tokens.now }
{
    for (i, token) in tokens.iter().enumerate() {
        if is_line_end(token.kind) {
            return i;
        }
    }
    tokens.len()
}
