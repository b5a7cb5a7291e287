// What is kept for a cell.
ghost use Rattle.std.specs.Prelude.{◌≡◌, IfOk, Ok, option_map};
ghost use Rattle.std.specs.Option.{option_copied};
ghost use Rattle.py_accepted.specs.Accepted.{cell_of};
ghost use Rattle.py_ast.specs.Statement.{Block, view_cell, view_block};
ghost use Rattle.py_print.specs.Printed.{printed};
ghost use Rattle.kernel_core.specs.Program.{program_of};

use flow_base::{NoMemory, PyText};
use plain_cells::is_plain;
use py_ast::{Cell, Stmts};
use py_print::print_cell;
use std::alloc::Global;
use std::marker::Model;

/// What is kept for a cell: the text that was accepted, the cell that it spells, and whether that is plain. Contracts see the text, to
/// which the others are tied.
#[derive(Drop)]
pub struct Kept {
    text: PyText,
    cell: Cell,
    plain: bool,
}

impl Model for Kept {
    ghost use Rattle.std.specs.Prelude.{◌≡◌, ℕ, List, Ok};
    ghost use Rattle.std.specs.Coded.{coded_list, coded_ℕ};

    ghost Value = { List ℕ };

    ghost coded = { coded_list coded_ℕ };

    ghost use Rattle.plain_cells.specs.Plain.{is_plain};
    ghost use Rattle.py_accepted.specs.Accepted.{cell_of};
    ghost use Rattle.py_ast.specs.Statement.{view_cell};

    ghost view = { λ k. k.text };

    ghost invariant = { λ k. (cell_of k.text ≡ Ok (view_cell k.cell)) × (k.plain ≡ is_plain (view_cell k.cell)) };
}

impl Kept {
    /// What is kept for a cell that is given a text, which is accepted as this cell.
    pub fn new(text: PyText, cell: Cell) -> Kept
        requires { cell_of text ≡ Ok (view_cell cell) }
        ensures { result ≡ text }
    {
        let plain = is_plain(cell.statements.as_slice());
        Kept { text, cell, plain }
    }

    /// The text.
    pub fn text(&self) -> &PyText
        ensures { result.now ≡ self.now }
    {
        &self.text
    }

    /// The statements that are run, and `None` where the cell is not plain. Takes no memory.
    pub fn program(&self) -> Option<&Stmts>
        ensures { option_map view_block (option_copied result) ≡ program_of self.now }
    {
        if self.plain {
            Some(&self.cell.statements)
        } else {
            None
        }
    }

    /// The printed text of the cell.
    pub fn print(&self, alloc: Global) -> Result<PyText, NoMemory>
        ensures { IfOk result (λ shown. (b : Block) × (cell_of self.now ≡ Ok b) × (shown ≡ printed b)) }
    {
        print_cell(alloc, &self.cell)
    }

    /// The same text and cell, in the same memory.
    pub fn copy(&self) -> Result<Kept, NoMemory>
        ensures { IfOk result (λ kept. kept ≡ self.now) }
    {
        let text = self.text.copy()?;
        let statements = self.cell.statements.copy()?;
        Ok(Kept {
            text,
            cell: Cell { statements },
            plain: self.plain,
        })
    }
}
