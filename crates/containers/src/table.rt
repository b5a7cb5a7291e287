// What is kept under texts.
ghost use Rattle.std.specs.Prelude.{◌≡◌, OnOk, OnErr};
ghost use Rattle.std.specs.Option.{option_copied};
ghost use Rattle.std.specs.FinMap as map;

use flow_base::{NoMemory, PyText};
use std::alloc::Global;
use std::collections::BTreeMap;
use std::marker::Model;

/// A value for each name that has one: that of a cell, or one in a cell. Contracts see the finite map from the names, in the order of
/// their code points.
#[derive(Drop)]
pub struct Table<V> {
    alloc: Global,
    cells: BTreeMap<Vec<char>, V>,
}

impl<V> Model for Table<V> {
    ghost use Rattle.std.specs.Prelude.{ℕ, List, map as each};
    ghost use Rattle.std.specs.Coded.{coded_list, coded_ℕ};
    ghost use Rattle.std.specs.Ordering.{nat_cmp};
    ghost use Rattle.std.specs.Cmp.Lexicographic.{slice_cmp};
    ghost use Rattle.std.specs.FinMap as map;

    ghost Value = { map.FinMap (slice_cmp nat_cmp) V };

    ghost coded = { map.code (coded_list coded_ℕ) V.code };

    ghost view = { λ t. map.from_entries (each (λ e. (e.0.items, e.1)) t.cells.entries) };
}

impl<V> Table<V> {
    /// A table without names. Takes no memory.
    pub fn new(alloc: Global) -> Table<V>
        ensures { result ≡ map.empty }
    {
        Table {
            alloc,
            cells: BTreeMap::new(alloc),
        }
    }

    /// What is kept for a name, and `None` where nothing is. Takes no memory.
    pub fn get(&self, cell: &PyText) -> Option<&V>
        ensures { option_copied result ≡ map.get self.now cell.now }
    {
        self.cells.get(cell.as_slice())
    }
}

impl<V: Drop> Table<V> {
    /// Keeps a value for a name, in place of an earlier one. Where memory is wanting, the table stays as it was.
    pub fn set(&mut self, cell: &PyText, value: V) -> Result<(), NoMemory>
        ensures ok { OnOk result (self.new ≡ map.insert self.old cell.now value) }
        ensures err { OnErr result (self.new ≡ self.old) }
    {
        let key = Vec::from_slice(self.alloc, cell.as_slice())?;
        self.cells.insert(key, value)?;
        Ok(())
    }
}
