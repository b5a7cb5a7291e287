// The line in which a node begins.
ghost use Rattle.std.specs.Prelude.{◌≡◌, ◌≤◌, ◌<◌, ◌-◌, ◌^◌, IfOk, length, map};
ghost use Rattle.py_lexer.specs.Cut.{AreTokens};
ghost use Rattle.py_lexer.specs.Span.{AreSpans};
ghost use Rattle.py_layout.specs.Layout.{AreLines};
ghost use Rattle.py_block.specs.Lexing.{laid, lexed};
ghost use Rattle.py_block.specs.NodeLines.{line_from, line_in_laid, line_in_tokens, nodes_in};
ghost use Rattle.py_block.specs.Parsed.{of_laid, of_lines, of_tokens, told};
ghost use Rattle.py_block.specs.Pass.{HasNodeIn, IsLineOfForm, IsWithin};

use flow_base::{NoMemory, PyText};
use py_layout::{LayoutFault, LogicalLine, layout};
use py_lexer::{LexFault, Token, Tokens, lex};
use py_line::{LineFault, LineRead, parse_line_from};
use std::alloc::Global;

/// The number of the line in which a node begins, of a text in which each line ends in `\n`.
pub(crate) fn line_in_text(alloc: Global, text: &PyText, node: u32) -> Result<u32, NoMemory>
    requires short { length text.now < 2 ^ 32 - 1 }
    requires there { HasNodeIn (of_tokens text.now (lexed text.now)) node }
    ensures { IfOk result (λ line. line ≡ line_in_tokens text.now (lexed text.now) node) }
{
    match lex(alloc, text) {
        Ok(tokens) => line_in_tokens(alloc, text, &tokens, node),
        Err(LexFault::At(_)) => unreachable!(),
        Err(LexFault::NoMemory) => Err(NoMemory),
    }
}

fn line_in_tokens(alloc: Global, text: &PyText, tokens: &Tokens, node: u32) -> Result<u32, NoMemory>
    requires short { length text.now < 2 ^ 32 - 1 }
    requires lexed { AreTokens text.now tokens.now }
    requires there { HasNodeIn (of_laid text.now tokens.now (laid text.now tokens.now)) node }
    ensures { IfOk result (λ line. line ≡ line_in_laid text.now tokens.now (laid text.now tokens.now) node) }
{
    match layout(alloc, text, tokens) {
        Ok(lines) => line_in_lines(alloc, text, tokens.as_slice(), lines.as_slice(), node),
        Err(LayoutFault::At(_)) => unreachable!(),
        Err(LayoutFault::NoMemory) => Err(NoMemory),
    }
}

// Counts the nodes of one line after another.
fn line_in_lines(
    alloc: Global,
    text: &PyText,
    tokens: &[Token],
    lines: &[LogicalLine],
    node: u32,
) -> Result<u32, NoMemory>
    requires short { length text.now < 2 ^ 32 - 1 }
    requires lexed { AreTokens text.now tokens.now }
    requires laid { AreLines text.now tokens.now lines.now }
    requires there { HasNodeIn (of_lines (map (told text.now tokens.now) lines.now)) node }
    ensures { IfOk result (λ line. line ≡ line_from 0 (map (told text.now tokens.now) lines.now) node) }
{
    let mut before = 0;
    for line in lines {
        let up_to = before + nodes_in(alloc, text, tokens, *line)?;
        if u64::from(node) <= up_to {
            return Ok(line.line);
        }
        before = up_to;
    }
    unreachable!()
}

// How many nodes begin in a line.
fn nodes_in(
    alloc: Global,
    text: &PyText,
    tokens: &[Token],
    line: LogicalLine,
) -> Result<u64, NoMemory>
    requires few { length tokens.now < 2 ^ 32 - 1 }
    requires within { IsWithin (length tokens.now) line }
    requires spans { AreSpans text.now 0 tokens.now }
    requires is { IsLineOfForm (told text.now tokens.now line) }
    ensures value { IfOk result (λ n. n ≡ nodes_in (told text.now tokens.now line).form) }
    ensures small { IfOk result (λ n. n ≤ 2 ^ 32) }
{
    match parse_line_from(alloc, text, &tokens[line.first..line.end], 1) {
        Ok(read) => Ok(nodes_read(read)),
        Err(LineFault::NoMemory) => Err(NoMemory),
        Err(LineFault::Unsupported) => unreachable!(),
        Err(LineFault::Limit) => unreachable!(),
        Err(LineFault::NotALine) => unreachable!(),
    }
}

// How many numbers from 1 on a line's nodes have.
fn nodes_read(read: LineRead) -> u64
    requires { 1 ≤ read.next }
    ensures { result ≡ read.next - 1 }
{
    let next = read.next;
    drop(read);
    next - 1
}
