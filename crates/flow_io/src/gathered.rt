// A line that is being read.
ghost use Rattle.std.specs.Prelude.{◌≡◌, ◌↔◌, ◌++◌, List, ℕ, [], IsTrue, OnOk};
ghost use Rattle.flow_io.specs.Gathered.{Holds};

use crate::{LINE_LIMIT, Line};
use flow_base::{Bytes, NoMemory};
use std::alloc::Global;

// What is kept of a line that is being read: of one that is too long, nothing.
#[derive(Drop)]
pub(crate) struct Gathered {
    kept: Vec<u8>,
    too_long: bool,
}

impl Gathered {
    ghost use Rattle.flow_io.specs.Reading.{IsLineOf};

    pub(crate) fn new(alloc: Global) -> Gathered
        ensures { Holds result [] }
    {
        Gathered {
            kept: Vec::new(alloc),
            too_long: false,
        }
    }

    pub(crate) fn extend(&mut self, bytes: &[u8]) -> Result<(), NoMemory>
        ensures { (line : List ℕ) → Holds self.old line → OnOk result (Holds self.new (line ++ bytes.now)) }
    {
        if self.too_long {
            return Ok(());
        }
        if self.kept.len() + bytes.len() > LINE_LIMIT {
            self.kept.clear();
            self.too_long = true;
            return Ok(());
        }
        self.kept.extend_from_slice(bytes)?;
        Ok(())
    }

    pub(crate) fn is_empty(&self) -> bool
        ensures { (line : List ℕ) → Holds self.now line → IsTrue result ↔ (line ≡ []) }
    {
        self.kept.is_empty() && !self.too_long
    }

    pub(crate) fn into_line(self) -> Line
        ensures { (line : List ℕ) → Holds self line → IsLineOf line result }
    {
        if self.too_long {
            Line::TooLong
        } else {
            Line::Text(Bytes::from_vec(self.kept))
        }
    }
}
