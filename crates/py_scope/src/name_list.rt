// A list of names.
ghost use Rattle.std.specs.Prelude.{◌≡◌, ◌≢◌, ◌<◌, ◌^◌, [], length, slice_get, AllPairs, OnOk, Some};
ghost use Rattle.flow_base.specs.Names.{with_name};
ghost use Rattle.py_scope.specs.NameLists.{has, place_in_list};

use flow_base::{Names, NoMemory, PyText, Sym, names_law};
use std::alloc::Global;
use std::marker::Model;

/// A list of names, fewer than 2^32, each of which stands there once. Contracts see the list.
#[derive(Drop)]
pub struct NameList {
    names: Names,
}

impl Model for NameList {
    ghost use Rattle.std.specs.Prelude.{◌<◌, ◌^◌, List, ℕ, length};

    ghost Value = { List (List ℕ) };

    ghost view = { λ l. l.names };

    ghost invariant = { λ l. length l.names < 2 ^ 32 };
}

impl NameList {
    /// A list without names. Takes no memory.
    pub fn new(alloc: Global) -> NameList
        ensures { result ≡ [] }
    {
        NameList {
            names: Names::new(alloc),
        }
    }

    /// The number of names. No name stands in the list twice.
    pub fn len(&self) -> u32
        ensures value { result ≡ length self.now }
        ensures distinct { AllPairs (λ s t. s ≢ t) self.now }
    {
        self.names.len() as u32
    }

    /// The name at a place from 0. Takes no memory.
    pub fn text(&self, place: u32) -> &PyText
        requires { place < length self.now }
        ensures { Some result.now ≡ slice_get self.now place }
    {
        self.names.text(Sym(place as u64))
    }

    /// The place of a name, from 0, and `None` exactly where the list does not have it. Takes no memory, and time logarithmic in the
    /// length of the list.
    pub fn place(&self, name: &PyText) -> Option<u32>
        ensures { result ≡ place_in_list self.now name.now }
    {
        names_law();
        match self.names.known(name) {
            Some(symbol) => Some(symbol.0 as u32),
            None => None,
        }
    }

    /// Whether the list has the name.
    pub(crate) fn has(&self, name: &PyText) -> bool
        ensures { result ≡ has self.now name.now }
    {
        self.names.known(name).is_some()
    }

    /// Puts a name last, if the list does not have it yet. `NoMemory` stands for a list that is full, too.
    pub(crate) fn add(&mut self, name: &PyText) -> Result<(), NoMemory>
        ensures { OnOk result (self.new ≡ with_name self.old name.now) }
    {
        if self.names.len() >= u32::MAX as usize {
            return Err(NoMemory);
        }
        self.names.intern(name)?;
        Ok(())
    }
}
