// The cell that a text spells.
ghost use Rattle.std.specs.Prelude.{◌≡◌, ◌<◌, ◌-◌, ◌^◌, length, map, IfOk, Err};
ghost use Rattle.py_ast.specs.Lawful.{IsLawful};
ghost use Rattle.py_lexer.specs.Cut.{AreTokens};
ghost use Rattle.py_layout.specs.Layout.{AreLines};
ghost use Rattle.py_grammar.specs.Reading.{on};
ghost use Rattle.py_block.specs.Answer.{IsAnswer};
ghost use Rattle.py_block.specs.Lexing.{laid, lexed};
ghost use Rattle.py_block.specs.Machine.{start};
ghost use Rattle.py_block.specs.NodeLines.{HasNode, line_at};
ghost use Rattle.py_block.specs.Parsed.{blocks, first_number, is_over, is_unsupported, of_laid, of_lines, of_tokens, told};
ghost use Rattle.py_block.specs.Pass.{Answers};

use crate::ends::line_ends;
use crate::fault::SyntaxFault;
use crate::line_read::first_unsupported;
use crate::node_line::line_in_text;
use crate::stage::Stage;
use flow_base::{NoMemory, PyText, SyntaxKind};
use py_ast::Cell;
use py_layout::{LayoutFault, LogicalLine, layout};
use py_lexer::{LexFault, Token, Tokens, lex};
use std::alloc::Global;

/// The cell that a text spells (Python reference 2 to 8; the rules stand in docs/LANGUAGE.md), with its nodes numbered, or the first fault
/// by the order of the kinds: lex, layout, unsupported, limit, syntax, each for the whole text. `\r\n` and any other `\r` are read as line
/// ends. The kind `Scope` is never answered.
pub fn parse(alloc: Global, text: &PyText) -> Result<Cell, SyntaxFault>
    requires short { length text.now < 2 ^ 32 - 1 }
    ensures exact { IsAnswer text.now result }
    ensures lawful { IfOk result (λ cell. IsLawful cell) }
{
    let text = line_ends(alloc, text)?;
    parse_text(alloc, &text)
}

// The cell of a text in which each line ends in `\n`.
fn parse_text(alloc: Global, text: &PyText) -> Result<Cell, SyntaxFault>
    requires short { length text.now < 2 ^ 32 - 1 }
    ensures { Answers (of_tokens text.now (lexed text.now)) result }
{
    match lex(alloc, text) {
        Ok(tokens) => parse_tokens(alloc, text, &tokens),
        Err(LexFault::At(line)) => Err(SyntaxFault::At {
            line,
            kind: SyntaxKind::Lex,
        }),
        Err(LexFault::NoMemory) => Err(SyntaxFault::NoMemory),
    }
}

fn parse_tokens(alloc: Global, text: &PyText, tokens: &Tokens) -> Result<Cell, SyntaxFault>
    requires short { length text.now < 2 ^ 32 - 1 }
    requires lexed { AreTokens text.now tokens.now }
    ensures { Answers (of_laid text.now tokens.now (laid text.now tokens.now)) result }
{
    match layout(alloc, text, tokens) {
        Ok(lines) => parse_lines(alloc, text, tokens.as_slice(), lines.as_slice()),
        Err(LayoutFault::At(line)) => Err(SyntaxFault::At {
            line,
            kind: SyntaxKind::Layout,
        }),
        Err(LayoutFault::NoMemory) => Err(SyntaxFault::NoMemory),
    }
}

fn parse_lines(
    alloc: Global,
    text: &PyText,
    tokens: &[Token],
    lines: &[LogicalLine],
) -> Result<Cell, SyntaxFault>
    requires short { length text.now < 2 ^ 32 - 1 }
    requires lexed { AreTokens text.now tokens.now }
    requires laid { AreLines text.now tokens.now lines.now }
    ensures { Answers (of_lines (map (told text.now tokens.now) lines.now)) result }
{
    match first_unsupported(tokens, lines) {
        Some(line) => Err(SyntaxFault::At {
            line,
            kind: SyntaxKind::Unsupported,
        }),
        None => parse_supported(alloc, text, tokens, lines),
    }
}

// Limits come before faults of form and place: lines behind a misplaced one are read for the limits.
fn parse_supported(
    alloc: Global,
    text: &PyText,
    tokens: &[Token],
    lines: &[LogicalLine],
) -> Result<Cell, SyntaxFault>
    requires short { length text.now < 2 ^ 32 - 1 }
    requires lexed { AreTokens text.now tokens.now }
    requires laid { AreLines text.now tokens.now lines.now }
    requires supported { first_number is_unsupported (map (told text.now tokens.now) lines.now) ≡ None }
    ensures { let these = map (told text.now tokens.now) lines.now in Answers (on (first_number is_over these) (blocks 0 start these) (λ line. Err (line, SyntaxKind.Limit))) result }
{
    let mut stage = Stage::new(alloc)?;
    let mut last = 0;
    for line in lines {
        match stage.with_line(alloc, text, tokens, *line) {
            Ok(next) => stage = next,
            Err(fault) => return Err(fault),
        }
        last = line.line;
    }
    stage.end(alloc, last)
}

/// The number of the logical line in which a node of the cell that a text spells begins, from 1: that of the line's first token.
pub fn line_of(alloc: Global, text: &PyText, node: u32) -> Result<u32, NoMemory>
    requires short { length text.now < 2 ^ 32 - 1 }
    requires there { HasNode text.now node }
    ensures { IfOk result (λ line. line ≡ line_at text.now node) }
{
    let text = line_ends(alloc, text)?;
    line_in_text(alloc, &text, node)
}
