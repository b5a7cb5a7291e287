// What the statements of one body bind and declare.
ghost use Rattle.std.specs.Prelude.{◌≡◌, ◌++◌, ◌∷◌, [], OnOk};

use flow_base::{NoMemory, PyText};
use py_ast::Texts;
use std::alloc::Global;
use std::marker::Model;

/// How a declaration declares its names (Python reference 7.12 and 7.13).
#[derive(Clone, Copy, Debug, PartialEq, Eq)]
pub enum Way {
    Global,
    Nonlocal,
}

/// A name that a body binds, or a declaration in it: the number of its node, its way and its names.
#[derive(Drop)]
pub enum Mark {
    Binds(PyText),
    Declares(u32, Way, Texts),
}

/// What a body binds and declares, in the order of its text. Contracts see the list.
#[derive(Drop)]
pub struct Marks {
    items: Vec<Mark>,
}

impl Model for Marks {
    ghost use Rattle.std.specs.Prelude.{List};
    ghost use Rattle.py_scope.specs.declared.mark.Mark.{Mark};

    ghost Value = { List Mark };

    ghost view = { λ m. m.items.items };
}

impl Marks {
    pub fn new(alloc: Global) -> Marks
        ensures { result ≡ [] }
    {
        Marks {
            items: Vec::new(alloc),
        }
    }

    pub fn as_slice(&self) -> &[Mark]
        ensures { result.now ≡ self.now }
    {
        self.items.as_slice()
    }

    pub fn push(&mut self, mark: Mark) -> Result<(), NoMemory>
        ensures { OnOk result (self.new ≡ self.old ++ mark ∷ []) }
    {
        self.items.push(mark)?;
        Ok(())
    }

    pub fn bind(&mut self, name: &PyText) -> Result<(), NoMemory>
        ensures { OnOk result (self.new ≡ self.old ++ Mark.Binds name.now ∷ []) }
    {
        self.push(Mark::Binds(name.copy()?))
    }

    pub fn declare(&mut self, node: u32, way: Way, names: &Texts) -> Result<(), NoMemory>
        ensures { OnOk result (self.new ≡ self.old ++ Mark.Declares node way names.now ∷ []) }
    {
        self.push(Mark::Declares(node, way, names.copy()?))
    }
}
