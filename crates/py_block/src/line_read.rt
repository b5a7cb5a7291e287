// What one logical line is.
ghost use Rattle.std.specs.Prelude.{◌≡◌, ◌≤◌, ◌<◌, ◌+◌, ◌-◌, ◌^◌, ℕ, List, false, length, map};
ghost use Rattle.std.specs.List.{All};
ghost use Rattle.py_lexer.specs.Span.{AreSpans};
ghost use Rattle.py_line.specs.Form.{line_of, statements_of};
ghost use Rattle.py_signs.specs.Limits.{has_unsupported};
ghost use Rattle.py_block.specs.Parsed.{a_line, depth_of, first_number, is_unsupported, told, tokens_of};
ghost use Rattle.py_block.specs.Pass.{is_filled, IsKept, IsReadOrLimit, IsWithin};

use crate::fault::SyntaxFault;
use flow_base::{PyText, SyntaxKind};
use py_ast::Stmt;
use py_layout::LogicalLine;
use py_lexer::Token;
use py_line::{LineFault, LineForm, LineRead, parse_line_from};
use py_signs::has_unsupported;
use std::alloc::Global;

/// How deep a line may stand.
const MOST: u32 = 60;

/// The number of the first line with a token that is not of this language.
pub(crate) fn first_unsupported(tokens: &[Token], lines: &[LogicalLine]) -> Option<u32>
    requires { All (IsWithin (length tokens.now)) lines.now }
    ensures { (text : List ℕ) → result ≡ first_number is_unsupported (map (told text tokens.now) lines.now) }
{
    for line in lines {
        if has_unsupported(&tokens[line.first..line.end]) {
            return Some(line.line);
        }
    }
    None
}

/// The form of a line, with its nodes numbered from `first` on, or `None` where it is no line.
pub(crate) fn read_line(
    alloc: Global,
    text: &PyText,
    tokens: &[Token],
    line: LogicalLine,
    first: u32,
) -> Result<Option<LineRead>, SyntaxFault>
    requires within { IsWithin (length tokens.now) line }
    requires spans { AreSpans text.now 0 tokens.now }
    requires supported { has_unsupported (tokens_of tokens.now line) ≡ false }
    requires fits { first + (line.end - line.first) < 2 ^ 32 }
    ensures { IsReadOrLimit text.now tokens.now line first result }
{
    if MOST < line.depth {
        return Err(over(line));
    }
    match parse_line_from(alloc, text, &tokens[line.first..line.end], first) {
        Ok(read) => kept(line, read),
        Err(LineFault::NotALine) => Ok(None),
        Err(LineFault::Limit) => Err(over(line)),
        Err(LineFault::NoMemory) => Err(SyntaxFault::NoMemory),
        Err(LineFault::Unsupported) => unreachable!(),
    }
}

fn over(line: LogicalLine) -> SyntaxFault
    ensures { result ≡ SyntaxFault.At line.line SyntaxKind.Limit }
{
    SyntaxFault::At {
        line: line.line,
        kind: SyntaxKind::Limit,
    }
}

// A line, unless it counts too deep.
fn kept(line: LogicalLine, read: LineRead) -> Result<Option<LineRead>, SyntaxFault>
    requires { line.depth ≤ 60 }
    ensures { IsKept line read result }
{
    if MOST < depth_of(line.depth, &read.form) {
        drop(read);
        return Err(over(line));
    }
    Ok(Some(read))
}

// How deep a line counts: one deeper with statements after a header's colon.
fn depth_of(deep: u32, form: &LineForm) -> u32
    requires { deep ≤ 60 }
    ensures { result ≡ depth_of deep (a_line (line_of form.now)) }
{
    let more = match form {
        LineForm::Simples(_) => false,
        LineForm::If(_, _, xs) => is_filled(xs),
        LineForm::Elif(_, xs) => is_filled(xs),
        LineForm::Else(xs) => is_filled(xs),
        LineForm::While(_, _, xs) => is_filled(xs),
        LineForm::For(_, _, _, xs) => is_filled(xs),
        LineForm::Try(_, xs) => is_filled(xs),
        LineForm::Finally(xs) => is_filled(xs),
        LineForm::Except(_, _, _, xs) => is_filled(xs),
        LineForm::Def(_, _, _, _, xs) => is_filled(xs),
        LineForm::Class(_, _, _, xs) => is_filled(xs),
    };
    if more { deep + 1 } else { deep }
}

fn is_filled(xs: &Vec<Stmt>) -> bool
    ensures { result ≡ is_filled (statements_of xs.now.items) }
{
    !xs.is_empty()
}
