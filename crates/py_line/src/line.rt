// The line that tokens spell.
ghost use Rattle.std.specs.Prelude.{◌≡◌, ◌<◌, ◌+◌, ◌-◌, ◌^◌, Some, length};
ghost use Rattle.py_grammar.specs.LineReading.{read_line};
ghost use Rattle.py_lexer.specs.Span.{AreSpans};
ghost use Rattle.py_line.specs.Answer.{IsAnswer, IsAnswerFrom, IsLineOf};
ghost use Rattle.py_line.specs.Form.{raw_line_of};

use crate::fault::ReadFault;
use crate::form::LineForm;
use crate::numbering::numbered_line;
use crate::raw::RawLine;
use crate::read::read;
use flow_base::{NoMemory, PyText};
use py_grammar::Sign;
use py_lexer::Token;
use py_signs::{SignFault, has_unsupported, is_crowded, read_signs};
use std::alloc::Global;

/// Why tokens are no line: one of them is not of this language; or more than 200 brackets are open at some place, or a number is over
/// i128, or the line has an expression of more than 60 levels; or the tokens are in no form of a line. `NoMemory` stands for want of
/// memory alone.
#[derive(Clone, Copy, Debug, PartialEq, Eq)]
pub enum LineFault {
    Unsupported,
    Limit,
    NotALine,
    NoMemory,
}

impl From<NoMemory> for LineFault {
    ghost use Rattle.py_line.specs.declared.line.LineFault.TheVariants.{NoMemory};
    ghost use Rattle.std.specs.Prelude.{◌≡◌};

    ghost from_gives = { λ _ fault. fault ≡ NoMemory };

    fn from(_: NoMemory) -> Self {
        LineFault::NoMemory
    }
}

/// A line with its nodes numbered, and the number that follows theirs.
#[derive(Drop)]
pub struct LineRead {
    pub form: LineForm,
    pub next: u64,
}

/// The line that the tokens of one logical line spell (the grammar is in `py_grammar`), with its nodes numbered from 1. A fault is told in
/// the order Unsupported, Limit, NotALine, each exactly where it is one.
pub fn parse_line(alloc: Global, text: &PyText, tokens: &[Token]) -> Result<LineForm, LineFault>
    requires short { length text.now < 2 ^ 32 - 1 }
    requires spans { AreSpans text.now 0 tokens.now }
    ensures { IsAnswer text.now tokens.now 1 result }
{
    match parse_line_from(alloc, text, tokens, 1) {
        Ok(read) => Ok(read.form),
        Err(fault) => Err(fault),
    }
}

/// The same, with the nodes numbered from `first` on, and the number that follows theirs.
#[tactic(auto, using(crate::proofs::Answering::plain_answer))]
pub fn parse_line_from(
    alloc: Global,
    text: &PyText,
    tokens: &[Token],
    first: u32,
) -> Result<LineRead, LineFault>
    requires fits { first + length tokens.now < 2 ^ 32 }
    requires spans { AreSpans text.now 0 tokens.now }
    ensures { IsAnswerFrom text.now tokens.now first result }
{
    if has_unsupported(tokens) {
        return Err(LineFault::Unsupported);
    }
    if is_crowded(text, tokens) {
        return Err(LineFault::Limit);
    }
    match read_signs(alloc, text, tokens) {
        Ok(signs) => of_signs(alloc, signs.as_slice(), first),
        Err(SignFault::Wide) => Err(LineFault::Limit),
        Err(SignFault::NoMemory) => Err(LineFault::NoMemory),
    }
}

#[tactic(auto, using(crate::proofs::Answering::too_deep, crate::proofs::Answering::no_line))]
fn of_signs(alloc: Global, signs: &[Sign], first: u32) -> Result<LineRead, LineFault>
    requires { first + length signs.now < 2 ^ 32 }
    ensures { IsLineOf signs.now first result }
{
    match read(alloc, signs) {
        Ok(Some(raw)) => {
            let read = numbered(alloc, signs, &raw, first);
            drop(raw);
            read
        }
        Ok(None) => Err(LineFault::Limit),
        Err(ReadFault::NoLine) => Err(LineFault::NotALine),
        Err(ReadFault::NoMemory) => Err(LineFault::NoMemory),
    }
}

#[tactic(auto, using(crate::proofs::Answering::nodes_fit, crate::proofs::Answering::a_line))]
fn numbered(alloc: Global, signs: &[Sign], raw: &RawLine, first: u32) -> Result<LineRead, LineFault>
    requires fits { first + length signs.now < 2 ^ 32 }
    requires read { read_line 60 signs.now ≡ Some (Some (raw_line_of raw.now)) }
    ensures { IsLineOf signs.now first result }
{
    let _ = signs;
    Ok(numbered_line(alloc, raw, first)?)
}
