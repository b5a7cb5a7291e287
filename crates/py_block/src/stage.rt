// What was read of a text up to some line.
ghost use Rattle.std.specs.Prelude.{◌≡◌, ◌<◌, ◌+◌, ◌-◌, ◌^◌, [], false, length, IfOk};
ghost use Rattle.py_lexer.specs.Span.{AreSpans};
ghost use Rattle.py_signs.specs.Limits.{has_unsupported};
ghost use Rattle.py_block.specs.Parsed.{blocks, tokens_of};
ghost use Rattle.py_block.specs.Pass.{Answers, AreCounted, AreFromOne, Ends, IsNew, IsPlacedOrNot, IsTakenOrLimit, IsWith, IsWithOpen, IsWithin, next_number};

use crate::fault::SyntaxFault;
use crate::levels::Levels;
use crate::line_read::read_line;
use flow_base::{NoMemory, PyText, SyntaxKind};
use py_ast::Cell;
use py_layout::LogicalLine;
use py_lexer::Token;
use py_line::LineRead;
use std::alloc::Global;

/// The open levels, with the number that the next node gets; or the number of the first line that may not stand where it does, after which
/// lines are read for the limits alone.
#[derive(Drop)]
pub(crate) enum Stage {
    Open(Levels, u64),
    Misplaced(u32),
}

impl Stage {
    pub(crate) fn new(alloc: Global) -> Result<Stage, NoMemory>
        ensures { IfOk result (λ stage. IsNew stage) }
    {
        Ok(Stage::Open(Levels::new(alloc)?, 1))
    }

    /// Takes a line more.
    pub(crate) fn with_line(
        self,
        alloc: Global,
        text: &PyText,
        tokens: &[Token],
        line: LogicalLine,
    ) -> Result<Stage, SyntaxFault>
        requires within { IsWithin (length tokens.now) line }
        requires spans { AreSpans text.now 0 tokens.now }
        requires supported { has_unsupported (tokens_of tokens.now line) ≡ false }
        requires fits { next_number self + (line.end - line.first) < 2 ^ 32 }
        ensures { IsTakenOrLimit text.now tokens.now line self result }
    {
        let first = self.next_number();
        match read_line(alloc, text, tokens, line, first) {
            Ok(read) => Ok(self.with(line, read)?),
            Err(fault) => {
                drop(self);
                Err(fault)
            }
        }
    }

    fn next_number(&self) -> u32
        requires { next_number self.now < 2 ^ 32 }
        ensures { result ≡ next_number self.now }
    {
        match self {
            Stage::Open(_, next) => *next as u32,
            Stage::Misplaced(_) => 1,
        }
    }

    // What is read of a line is placed, if none was misplaced before.
    fn with(self, line: LogicalLine, read: Option<LineRead>) -> Result<Stage, NoMemory>
        ensures { IfOk result (λ after. IsWith line self read after) }
    {
        match self {
            Stage::Open(levels, _) => opened_with(levels, line, read),
            Stage::Misplaced(first) => {
                drop(read);
                Ok(Stage::Misplaced(first))
            }
        }
    }

    /// The cell, when no more lines follow the last one, whose number is told.
    pub(crate) fn end(self, alloc: Global, last: u32) -> Result<Cell, SyntaxFault>
        requires { AreCounted self }
        ensures { Ends last self result }
    {
        match self {
            Stage::Open(levels, _) => ended(levels, alloc, last),
            Stage::Misplaced(line) => Err(misplaced(line)),
        }
    }
}

fn opened_with(levels: Levels, line: LogicalLine, read: Option<LineRead>) -> Result<Stage, NoMemory>
    ensures { IfOk result (λ after. IsWithOpen line levels read after) }
{
    match read {
        Some(read) => placed_with(levels, line, read),
        None => {
            drop(levels);
            Ok(Stage::Misplaced(line.line))
        }
    }
}

fn placed_with(levels: Levels, line: LogicalLine, read: LineRead) -> Result<Stage, NoMemory>
    ensures { IfOk result (λ after. IsPlacedOrNot line read levels after) }
{
    let mut levels = levels;
    let LineRead { form, next } = read;
    if levels.place(line.depth, form)? {
        return Ok(Stage::Open(levels, next));
    }
    drop(levels);
    Ok(Stage::Misplaced(line.line))
}

// The cell that the levels are, unless they end too early.
fn ended(levels: Levels, alloc: Global, last: u32) -> Result<Cell, SyntaxFault>
    requires { AreFromOne levels }
    ensures { Answers (blocks last levels.state []) result }
{
    match levels.end(alloc)? {
        Some(cell) => Ok(cell),
        None => Err(misplaced(last)),
    }
}

fn misplaced(line: u32) -> SyntaxFault
    ensures { result ≡ SyntaxFault.At line SyntaxKind.Syntax }
{
    SyntaxFault::At {
        line,
        kind: SyntaxKind::Syntax,
    }
}
