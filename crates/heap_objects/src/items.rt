// The items of a list.
ghost use Rattle.std.specs.Prelude.{◌≡◌, ◌<◌, ◌^◌, ◌++◌, IfOk, OnOk, length, set, slice_get, take};
ghost use Rattle.std.specs.Option.{option_copied};

use crate::value::{Value, Values};
use flow_base::NoMemory;
use std::alloc::Global;
use std::marker::Model;

/// The items of a list. Contracts see the list of them.
#[derive(Drop)]
pub struct Items {
    items: Vec<Value>,
}

impl Model for Items {
    ghost use Rattle.std.specs.Coded.{coded_list};
    ghost use Rattle.heap_objects.specs.contracts.value.Value as value;
    ghost use Rattle.heap_objects.specs.Nesting.{ValueList};

    ghost Value = { ValueList };

    ghost coded = { coded_list value.the_row.coded };

    ghost view = { λ l. l.items.items };
}

impl Items {
    pub fn from_values(alloc: Global, values: &[Value]) -> Result<Items, NoMemory>
        ensures { IfOk result (λ l. l ≡ values.now) }
    {
        Ok(Items {
            items: copies(alloc, values)?,
        })
    }

    pub fn len(&self) -> usize
        ensures len { result ≡ length self.now }
        ensures small { result < 2 ^ 63 }
    {
        self.items.len()
    }

    pub fn get(&self, at: usize) -> Option<&Value>
        ensures { option_copied result ≡ slice_get self.now at }
    {
        self.items.as_slice().get(at)
    }

    /// Puts a value in the place of an item. Nothing changes where there is none. Takes no memory.
    pub fn set(&mut self, at: usize, value: Value)
        ensures { self.new ≡ set self.old at value }
    {
        if at < self.items.len() {
            self.items[at] = value;
        }
    }

    /// Puts the values in the place of all items from a place on. The items before it are not touched.
    pub fn splice(&mut self, from: usize, values: Vec<Value>) -> Result<(), NoMemory>
        ensures { OnOk result (self.new ≡ take from self.old ++ values.items) }
    {
        let mut tail = values;
        self.items.truncate(from);
        self.items.append(&mut tail)?;
        Ok(())
    }
}

/// The same values, in a list of their own.
pub fn copies(alloc: Global, values: &[Value]) -> Result<Vec<Value>, NoMemory>
    ensures { IfOk result (λ list. list.items ≡ values.now) }
{
    let mut list = Vec::with_capacity(alloc, values.len())?;
    for v in values {
        list.push(v.copy()?)?;
    }
    Ok(list)
}
