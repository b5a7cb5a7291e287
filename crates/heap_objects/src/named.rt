// Values by name.
ghost use Rattle.std.specs.Prelude.{◌≡◌, ℕ, IfOk, OnOk, is_some};
ghost use Rattle.std.specs.BTreeMap.{IsOrdered, get, keys};
ghost use Rattle.std.specs.List.{list_any};
ghost use Rattle.std.specs.Ordering.{eq_by_cmp, nat_cmp};
ghost use Rattle.std.specs.FinMap as map;
ghost use Rattle.std.specs.Option.{option_copied};
ghost use Rattle.heap_objects.specs.Names.{AreNumbers, with_name};

use crate::value::Value;
use flow_base::{NoMemory, Sym};
use std::alloc::Global;
use std::collections::BTreeMap;
use std::marker::Model;

/// The names that hold a value, each with its value. Contracts see a finite map from the numbers of symbols.
#[derive(Drop)]
pub struct Named {
    held: BTreeMap<u64, Value>,
}

impl Model for Named {
    ghost use Rattle.std.specs.Coded.{coded_ℕ};
    ghost use Rattle.std.specs.FinMap as map;
    ghost use Rattle.heap_objects.specs.contracts.value.Value as value;
    ghost use Rattle.heap_objects.specs.Names.{Names};

    ghost Value = { Names };

    ghost coded = { map.code coded_ℕ value.the_row.coded };

    ghost view = { λ n. map.from_entries n.held.entries };
}

impl Named {
    pub fn new(alloc: Global) -> Named
        ensures { result ≡ map.empty }
    {
        Named {
            held: BTreeMap::new(alloc),
        }
    }

    pub fn get(&self, name: Sym) -> Option<&Value>
        ensures { option_copied result ≡ map.get self.now name.0 }
    {
        self.held.get(&name.0)
    }

    pub fn set(&mut self, name: Sym, value: Option<Value>) -> Result<(), NoMemory>
        ensures { OnOk result (self.new ≡ with_name self.old name value) }
    {
        match value {
            Some(v) => {
                self.held.insert(name.0, v)?;
                Ok(())
            }
            None => {
                self.held.remove(&name.0);
                Ok(())
            }
        }
    }

    /// The numbers of the names, in ascending order.
    pub fn numbers(&self, alloc: Global) -> Result<Vec<u64>, NoMemory>
        ensures { IfOk result (λ ns. AreNumbers (λ n. map.get self.now n.0) ns.items) }
    {
        let numbers = numbers_of(alloc, &self.held)?;
        Ok(numbers)
    }
}

/// The keys of a map, in ascending order.
pub fn numbers_of<V>(alloc: Global, map: &BTreeMap<u64, V>) -> Result<Vec<u64>, NoMemory>
    ensures keys { IfOk result (λ ns. ns.items ≡ keys map.now) }
    ensures ordered { OnOk result (IsOrdered nat_cmp map.now) }
    ensures all { OnOk result ((q : ℕ) → is_some (get nat_cmp map.now q) ≡ list_any (eq_by_cmp nat_cmp q) (keys map.now)) }
{
    let numbers: Vec<u64> = map.keys().copied().collect(alloc)?;
    Ok(numbers)
}
