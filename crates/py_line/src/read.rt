// Lines that have no numbers yet.
ghost use Rattle.std.specs.Prelude.{◌≡◌, IfOk, None, Some, option_map};
ghost use Rattle.py_grammar.specs.Line as l;
ghost use Rattle.py_grammar.specs.LineReading.{after_colon, both, header_line, read_line, simple_line, simples, whole};
ghost use Rattle.py_line.specs.Form.{raw_header_of, raw_line_of, raw_simples_of};
ghost use Rattle.py_line.specs.Full.{full};
ghost use Rattle.py_line.specs.Gives.{Gives};
ghost use Rattle.py_line.specs.Joined.{head};

use crate::at::mark_at;
use crate::fault::ReadFault;
use crate::header::header;
use crate::raw::{RawHeader, RawLine, RawSimple};
use crate::simple::simples;
use crate::words::{Head, head_at};
use py_grammar::{Mark, Sign};
use std::alloc::Global;

// Simple statements that are all of the signs.
#[tactic(auto, using(crate::proofs::LineEnds::whole_of, crate::proofs::LineEnds::whole_not))]
fn all_simples(alloc: Global, tokens: &[Sign]) -> Result<Option<Vec<RawSimple>>, ReadFault>
    ensures { Gives (option_map (λ v. raw_simples_of v.items)) result (whole (simples 60 (full 60) tokens.now)) }
{
    let (statements, rest) = simples(alloc, tokens)?;
    if !rest.is_empty() {
        return Err(ReadFault::NoLine);
    }
    Ok(statements)
}

fn header_of(head: RawHeader, statements: Option<Vec<RawSimple>>) -> Option<RawLine>
    ensures { option_map raw_line_of result ≡ both l.header (Some (raw_header_of head)) (option_map (λ v. raw_simples_of v.items) statements) }
{
    let Some(statements) = statements else {
        drop(head);
        return None;
    };
    Some(RawLine::Header(head, statements))
}

fn header_with(head: Option<RawHeader>, statements: Option<Vec<RawSimple>>) -> Option<RawLine>
    ensures { option_map raw_line_of result ≡ both l.header (option_map raw_header_of head) (option_map (λ v. raw_simples_of v.items) statements) }
{
    let Some(head) = head else {
        return None;
    };
    header_of(head, statements)
}

// A header with the statements after its colon.
#[tactic(auto, using(crate::proofs::LineEnds::colon_ends, crate::proofs::LineEnds::colon_goes, crate::proofs::LineEnds::fails_map))]
fn after_colon(
    alloc: Global,
    head: Option<RawHeader>,
    tokens: &[Sign],
) -> Result<Option<RawLine>, ReadFault>
    ensures { Gives (option_map raw_line_of) result (after_colon 60 (full 60) (option_map raw_header_of head) tokens.now) }
{
    match tokens {
        [] => Ok(header_with(head, Some(Vec::new(alloc)))),
        _ => match all_simples(alloc, tokens) {
            Ok(statements) => Ok(header_with(head, statements)),
            Err(fault) => {
                drop(head);
                Err(fault)
            }
        },
    }
}

#[tactic(auto, unfolding(py_grammar::specs::LineReading::header_line))]
fn header_line(alloc: Global, word: Head, tokens: &[Sign]) -> Result<Option<RawLine>, ReadFault>
    ensures { Gives (option_map raw_line_of) result (header_line 60 (full 60) (head word, tokens.now)) }
{
    let (head, rest) = header(alloc, word, tokens)?;
    let Some(rest) = mark_at(Mark::Colon, rest) else {
        drop(head);
        return Err(ReadFault::NoLine);
    };
    after_colon(alloc, head, rest)
}

fn line_of(statements: Option<Vec<RawSimple>>) -> Option<RawLine>
    ensures { option_map raw_line_of result ≡ option_map l.simples (option_map (λ v. raw_simples_of v.items) statements) }
{
    match statements {
        Some(statements) => Some(RawLine::Simples(statements)),
        None => None,
    }
}

#[tactic(auto, unfolding(py_grammar::specs::LineReading::simple_line))]
fn simple_line(alloc: Global, tokens: &[Sign]) -> Result<Option<RawLine>, ReadFault>
    ensures { Gives (option_map raw_line_of) result (simple_line 60 (full 60) tokens.now) }
{
    Ok(line_of(all_simples(alloc, tokens)?))
}

/// The line that the signs spell, and nothing of it where an expression of it is too deep.
#[tactic(auto, using(crate::proofs::AlikeLines::line_full))]
pub(crate) fn read(alloc: Global, signs: &[Sign]) -> Result<Option<RawLine>, ReadFault>
    ensures { Gives (option_map raw_line_of) result (read_line 60 signs.now) }
{
    match head_at(signs) {
        Some((word, rest)) => header_line(alloc, word, rest),
        None => simple_line(alloc, signs),
    }
}
