// The slots of a function's frame.
ghost use Rattle.std.specs.Prelude.{◌≡◌, ◌≢◌, ◌<◌, AllPairs, IfOk, Option, None, length, set, slice_get, slice_index_or};
ghost use Rattle.std.specs.Option.{option_copied};
ghost use Rattle.std.specs.Vec.{vec_len};
ghost use Rattle.flow_base.specs.declared.numbers.Sym.{Sym};
ghost use Rattle.heap_objects.specs.declared.value.Value.{Value};
ghost use Rattle.heap_objects.specs.Names.{AreNumbers, name_at, new_slots, slot_names, slot_value, with_slot};

use crate::named::numbers_of;
use crate::value::Value;
use flow_base::{NoMemory, Sym};
use std::alloc::Global;
use std::collections::BTreeMap;
use std::marker::Model;

/// The slots of a frame, each with its name and the value that it holds, if it holds one. Contracts see the list of them.
/// A name is found by its place, which stands in an index.
#[derive(Drop)]
pub struct Slots {
    slots: Vec<(Sym, Option<Value>)>,
    places: BTreeMap<u64, usize>,
}

impl Model for Slots {
    ghost use Rattle.std.specs.Coded.{codes};
    ghost use Rattle.heap_objects.specs.contracts.value.Value as value;
    ghost use Rattle.heap_objects.specs.Names.{SlotList};
    ghost use Rattle.heap_objects.specs.Places.{AreSlots};

    ghost Value = { SlotList };

    ghost coded = { Prim.hlevel (codes, value.the_row.coded) };

    ghost view = { λ s. s.slots.items };

    ghost invariant = { λ s. AreSlots s.places s.slots.items };
}

impl Slots {
    /// Slots that hold nothing, for different names.
    pub fn new(alloc: Global, names: &[Sym]) -> Result<Slots, NoMemory>
        requires { AllPairs (λ m n. m ≢ n) names.now }
        ensures { IfOk result (λ s. s ≡ new_slots names.now) }
    {
        let mut slots = Vec::with_capacity(alloc, names.len())?;
        let mut places = BTreeMap::new(alloc);
        for (i, name) in names.iter().enumerate() {
            slots.push((*name, None))?;
            places.insert(name.0, i)?;
        }
        Ok(Slots { slots, places })
    }

    pub fn len(&self) -> usize
        ensures { result ≡ length self.now }
    {
        self.slots.len()
    }

    pub fn get(&self, name: Sym) -> Option<&Value>
        ensures { option_copied result ≡ slot_value self.now name }
    {
        match self.places.get(&name.0) {
            Some(at) => self.slots[*at].1.as_ref(),
            None => None,
        }
    }

    /// Nothing changes where no slot has the name. Takes no memory.
    pub fn set(&mut self, name: Sym, value: Option<Value>)
        ensures { self.new ≡ with_slot self.old name value }
    {
        match self.places.get(&name.0) {
            Some(at) => put(&mut self.slots, *at, value),
            None => {}
        }
    }

    /// The numbers of the names, in ascending order.
    pub fn numbers(&self, alloc: Global) -> Result<Vec<u64>, NoMemory>
        ensures { IfOk result (λ ns. AreNumbers (slot_value self.now) ns.items) }
    {
        let numbers = numbers_of(alloc, &self.places)?;
        Ok(numbers)
    }

    /// The name of the slot at a place from 0.
    pub fn name(&self, at: usize) -> Sym
        requires { at < length self.now }
        ensures { result ≡ name_at (slot_names self.now) at }
    {
        self.slots[at].0
    }

    /// What the slot at a place holds, as by its name.
    pub fn value(&self, at: usize) -> Option<&Value>
        requires { at < length self.now }
        ensures { option_copied result ≡ slot_value self.now (name_at (slot_names self.now) at) }
    {
        self.slots[at].1.as_ref()
    }

    /// The slot at a place holds the value, or nothing, as by its name. Takes no memory.
    pub fn set_at(&mut self, at: usize, value: Option<Value>)
        requires { at < length self.old }
        ensures { self.new ≡ with_slot self.old (name_at (slot_names self.old) at) value }
    {
        put(&mut self.slots, at, value);
    }
}

fn put(slots: &mut Vec<(Sym, Option<Value>)>, at: usize, value: Option<Value>)
    requires { at < vec_len slots.old }
    ensures { (d : Sym × Option Value) → slots.new.items ≡ set slots.old.items at ((slice_index_or slots.old.items at d).0, value) }
{
    slots[at].1 = value;
}
