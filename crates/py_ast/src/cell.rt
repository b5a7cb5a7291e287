// Cells.
use crate::Stmts;

/// A cell: its statements. A lawful one is as `specs/Lawful.antt` says.
#[derive(Drop)]
pub struct Cell {
    pub statements: Stmts,
}
