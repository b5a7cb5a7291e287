// The cell as which a text is accepted.
ghost use Rattle.std.specs.Prelude.{◌≡◌, ◌<◌, ◌-◌, ◌^◌, length, IfOk};
ghost use Rattle.py_ast.specs.Lawful.{IsLawful};
ghost use Rattle.py_block.specs.Answer.{IsCellOf};
ghost use Rattle.py_accepted.specs.Accepted.{IsAnswer};

use flow_base::{PyText, SyntaxKind};
use py_ast::Cell;
use py_block::{SyntaxFault, line_of, parse};
use py_numbered::numbered_law;
use py_scope::{Coded, ScopeFault, scopes};
use std::alloc::Global;

/// The cell that a text spells, with its scopes; or its first fault by the order of the kinds: lex, layout, unsupported, limit, syntax and,
/// of a text that spells a cell, scope, at the line of the first declaration that has a scope fault (docs/LANGUAGE.md).
pub fn accept(alloc: Global, text: &PyText) -> Result<Coded, SyntaxFault>
    requires short { length text.now < 2 ^ 32 - 1 }
    ensures exact { IsAnswer text.now result }
    ensures lawful { IfOk result (λ coded. IsLawful coded.cell) }
{
    match parse(alloc, text) {
        Ok(cell) => with_scopes(alloc, text, cell),
        Err(fault) => Err(fault),
    }
}

// The cell that the text spells, if no declaration in it has a scope fault.
fn with_scopes(alloc: Global, text: &PyText, cell: Cell) -> Result<Coded, SyntaxFault>
    requires short { length text.now < 2 ^ 32 - 1 }
    requires spelled { IsCellOf text.now cell }
    requires lawful { IsLawful cell }
    ensures exact { IsAnswer text.now result }
    ensures lawful { IfOk result (λ coded. IsLawful coded.cell) }
{
    numbered_law();
    match scopes(alloc, &cell) {
        Ok(scopes) => Ok(Coded { cell, scopes }),
        Err(ScopeFault::At { node }) => {
            let line = line_of(alloc, text, node);
            drop(cell);
            match line {
                Ok(line) => Err(SyntaxFault::At {
                    line,
                    kind: SyntaxKind::Scope,
                }),
                Err(_) => Err(SyntaxFault::NoMemory),
            }
        }
        Err(ScopeFault::NoMemory) => {
            drop(cell);
            Err(SyntaxFault::NoMemory)
        }
    }
}
