// The levels of blocks that are open while the lines of a cell are placed one after another.
ghost use Rattle.std.specs.Prelude.{◌≡◌, IfOk};
ghost use Rattle.py_block.specs.Opened.{IsEnded, IsPlaced, start};

use crate::level_parts::{Body, Open, Place};
use crate::level_steps::{empty_row, ended, step};
use flow_base::NoMemory;
use py_ast::Cell;
use py_line::LineForm;
use std::alloc::Global;
use std::marker::Model;

/// The open levels.
#[derive(Drop)]
pub(crate) struct Levels {
    alloc: Global,
    state: Open,
}

impl Model for Levels {
    ghost use Rattle.std.specs.Coded.{codes};
    ghost use Rattle.py_block.specs.LevelViews.{opened_of};
    ghost use Rattle.py_block.specs.Opened.{Opened};
    ghost use Rattle.py_block.specs.PlainCodes.{block_code, statement_code, tree_code, trees_code};

    ghost Value = { Opened };

    ghost coded = { Prim.hlevel (codes, tree_code, trees_code, statement_code, block_code) };

    ghost view = { λ l. opened_of l.state };
}

impl Levels {
    #[tactic(auto, using(crate::proofs::LevelLists::no_outers, crate::proofs::LevelLists::no_outers_numbers, crate::proofs::LevelLists::no_block_numbers))]
    pub(crate) fn new(alloc: Global) -> Result<Levels, NoMemory>
        ensures { IfOk result (λ levels. levels ≡ start) }
    {
        let body = Body {
            in_def: false,
            in_loop: false,
        };
        let state = Open {
            outers: Vec::new(alloc),
            place: Place { deep: 0, body },
            row: empty_row(alloc),
        };
        Ok(Levels { alloc, state })
    }

    /// Places a line at its depth. `false` where it may not stand there; then and after want of memory the levels are given up.
    pub(crate) fn place(&mut self, deep: u32, form: LineForm) -> Result<bool, NoMemory>
        ensures { IsPlaced self.old deep form result self.new }
    {
        step(self.alloc, &mut self.state, deep, form)
    }

    /// The cell, or `None` where the lines end too early.
    pub(crate) fn end(self, alloc: Global) -> Result<Option<Cell>, NoMemory>
        ensures { IsEnded self result }
    {
        ended(alloc, self.state)
    }
}
