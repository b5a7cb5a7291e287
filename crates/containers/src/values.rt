// The values of names.
ghost use Rattle.std.specs.Prelude.{◌≡◌, OnOk, OnErr};
ghost use Rattle.std.specs.FinMap as map;

use flow_base::{NoMemory, Sym};
use std::alloc::Global;
use std::collections::BTreeMap;
use std::marker::Model;

/// The value of each name that has one. Contracts see the finite map from the symbols of the names.
#[derive(Drop)]
pub struct Values {
    numbers: BTreeMap<u64, i128>,
}

impl Model for Values {
    ghost use Rattle.std.specs.Prelude.{ℤ, map as each};
    ghost use Rattle.std.specs.Coded.{coded_ℕ, coded_ℤ};
    ghost use Rattle.std.specs.Ordering.{nat_cmp};
    ghost use Rattle.std.specs.FinMap as map;

    ghost Value = { map.FinMap nat_cmp ℤ };

    ghost coded = { map.code coded_ℕ coded_ℤ };

    ghost view = { λ v. map.from_entries (each (λ e. (e.0, e.1)) v.numbers.entries) };
}

impl Values {
    /// No name has a value. Takes no memory.
    pub fn new(alloc: Global) -> Values
        ensures { result ≡ map.empty }
    {
        Values {
            numbers: BTreeMap::new(alloc),
        }
    }

    /// The value of a name, and `None` where it has none. Takes no memory.
    pub fn get(&self, s: Sym) -> Option<i128>
        ensures { result ≡ map.get self.now s.0 }
    {
        self.numbers.get(&s.0).copied()
    }

    /// Gives a name a value, in place of an earlier one. Where memory is wanting, the values stay as they were.
    pub fn set(&mut self, s: Sym, n: i128) -> Result<(), NoMemory>
        ensures ok { OnOk result (self.new ≡ map.insert self.old s.0 n) }
        ensures err { OnErr result (self.new ≡ self.old) }
    {
        self.numbers.insert(s.0, n)?;
        Ok(())
    }
}
