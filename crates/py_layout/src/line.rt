// Logical lines.
ghost use Rattle.std.specs.Prelude.{◌≡◌, ◌<◌, ◌++◌, ◌∷◌, [], OnOk, length, get_or};

use flow_base::NoMemory;
use std::alloc::Global;
use std::marker::Model;

/// A logical line: its tokens, from the place of the first in the list of tokens to the place behind the last; how many
/// lines it stands in; and the line of its first token, from 1.
#[derive(Clone, Copy, Debug, PartialEq, Eq)]
pub struct LogicalLine {
    pub first: usize,
    pub end: usize,
    pub depth: u32,
    pub line: u32,
}

/// The logical lines of a text. Contracts see the list of them.
#[derive(Drop)]
pub struct Lines {
    items: Vec<LogicalLine>,
}

impl Model for Lines {
    ghost use Rattle.std.specs.Prelude.{List};
    ghost use Rattle.py_layout.specs.declared.line.LogicalLine.{LogicalLine};

    ghost Value = { List LogicalLine };

    ghost view = { λ l. l.items.items };
}

impl Lines {
    pub(crate) fn new(alloc: Global) -> Lines
        ensures { result ≡ [] }
    {
        Lines {
            items: Vec::new(alloc),
        }
    }

    pub(crate) fn push(&mut self, line: LogicalLine) -> Result<(), NoMemory>
        ensures { OnOk result (self.new ≡ self.old ++ line ∷ []) }
    {
        self.items.push(line)?;
        Ok(())
    }

    pub fn len(&self) -> usize
        ensures { result ≡ length self.now }
    {
        self.items.len()
    }

    /// The line at a place from 0.
    pub fn at(&self, i: usize) -> LogicalLine
        requires { i < length self.now }
        ensures { result ≡ get_or self.now i result }
    {
        self.items[i]
    }

    pub fn as_slice(&self) -> &[LogicalLine]
        ensures { result.now ≡ self.now }
    {
        self.items.as_slice()
    }
}
