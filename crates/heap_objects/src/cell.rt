// What the locations of one object hold.
ghost use Rattle.std.specs.Prelude.{◌≡◌, ◌<◌, ◌++◌, ◌∷◌, [], IfOk, OnOk, if◌then◌else◌, is_some, length, slice_get, None};
ghost use Rattle.std.specs.Option.{option_copied};
ghost use Rattle.flow_base.specs.declared.key.Key.{out-Key};
ghost use Rattle.flow_base.specs.declared.key.Key.TheOpen as key;
ghost use Rattle.heap_objects.specs.Calls as spec;
ghost use Rattle.heap_objects.specs.Names.{AreNumbers, IsSymbols, name_at};
ghost use Rattle.heap_objects.specs.State as spec_state;

use crate::items::Items;
use crate::object::Cell;
use crate::value::Value;
use flow_base::{Key, NoMemory, Sym};
use std::alloc::Global;

impl Cell {
    /// What a name of a frame holds.
    pub fn name(&self, name: Sym) -> Option<&Value>
        ensures { option_copied result ≡ spec_state.name_in self.now name }
    {
        match self {
            Cell::Global(names) => names.get(name),
            Cell::Frame(slots) => slots.get(name),
            _ => None,
        }
    }

    /// What an attribute of an instance or a class holds.
    pub fn attr(&self, name: Sym) -> Option<&Value>
        ensures { option_copied result ≡ spec_state.attr_in self.now name }
    {
        match self {
            Cell::Attrs(names) => names.get(name),
            _ => None,
        }
    }

    /// What an item of a list or a dictionary holds.
    pub fn item(&self, key: &Key) -> Option<&Value>
        ensures { option_copied result ≡ spec_state.item_in self.now key.now }
    {
        match self {
            Cell::List(items) => list_item(items, key),
            Cell::Dict(dict) => match dict.get(key) {
                Some(entry) => Some(&entry.value),
                None => None,
            },
            _ => None,
        }
    }

    /// Whether a key stands in a dictionary.
    pub fn has_key(&self, key: &Key) -> bool
        ensures { result ≡ spec_state.key_in self.now key.now }
    {
        match self {
            Cell::Dict(dict) => dict.get(key).is_some(),
            _ => false,
        }
    }

    /// The length of a list, or the number of keys of a dictionary.
    pub fn count(&self) -> usize
        ensures { result ≡ spec_state.count_in self.now }
    {
        match self {
            Cell::List(items) => items.len(),
            Cell::Dict(dict) => dict.len(),
            _ => 0,
        }
    }

    /// What a symbol holds in a frame, an instance or a class.
    pub fn symbol(&self, name: Sym) -> Option<&Value>
        ensures { option_copied result ≡ spec_state.symbol_in self.now name }
    {
        match self {
            Cell::Global(names) => names.get(name),
            Cell::Frame(slots) => slots.get(name),
            Cell::Attrs(names) => names.get(name),
            Cell::List(_) | Cell::Dict(_) | Cell::Nothing => None,
        }
    }

    /// The symbols that hold a value, in ascending order of their numbers.
    pub fn symbols(&self, alloc: Global) -> Result<Vec<Sym>, NoMemory>
        ensures { IfOk result (λ names. IsSymbols (spec_state.symbol_in self.now) names.items) }
    {
        let numbers = self.numbers(alloc)?;
        let mut names = Vec::new(alloc);
        for number in &numbers {
            self.push_if_held(&mut names, Sym(*number))?;
        }
        Ok(names)
    }

    fn push_if_held(&self, names: &mut Vec<Sym>, name: Sym) -> Result<(), NoMemory>
        ensures { OnOk result (names.new.items
            ≡ names.old.items ++ (if is_some (spec_state.symbol_in self.now name) then name ∷ [] else [])) }
    {
        if self.symbol(name).is_some() {
            names.push(name)?;
        }
        Ok(())
    }

    fn numbers(&self, alloc: Global) -> Result<Vec<u64>, NoMemory>
        ensures { IfOk result (λ ns. AreNumbers (spec_state.symbol_in self.now) ns.items) }
    {
        match self {
            Cell::Global(names) => names.numbers(alloc),
            Cell::Frame(slots) => slots.numbers(alloc),
            Cell::Attrs(names) => names.numbers(alloc),
            Cell::List(_) | Cell::Dict(_) | Cell::Nothing => no_numbers(alloc),
        }
    }

    /// The number of slots of a frame.
    pub fn slot_count(&self) -> usize
        ensures { result ≡ length (spec_state.slots_in self.now) }
    {
        match self {
            Cell::Frame(slots) => slots.len(),
            _ => 0,
        }
    }

    /// The number of keys of a dictionary.
    pub fn key_count(&self) -> usize
        ensures { result ≡ length (spec_state.keys_in self.now) }
    {
        match self {
            Cell::Dict(dict) => dict.len(),
            _ => 0,
        }
    }

    /// The name of the slot of a frame at a place from 0.
    pub fn slot_name(&self, at: usize) -> Sym
        requires { at < length (spec_state.slots_in self.now) }
        ensures { result ≡ name_at (spec_state.slots_in self.now) at }
    {
        match self {
            Cell::Frame(slots) => slots.name(at),
            _ => unreachable!(),
        }
    }

    /// What the slot of a frame at a place holds.
    pub fn slot(&self, at: usize) -> Option<&Value>
        requires { at < length (spec_state.slots_in self.now) }
        ensures { option_copied result ≡ spec_state.name_in self.now (name_at (spec_state.slots_in self.now) at) }
    {
        match self {
            Cell::Frame(slots) => slots.value(at),
            _ => unreachable!(),
        }
    }

    /// The slot of a frame at a place holds the value, or nothing. Takes no memory.
    pub fn set_slot(&mut self, at: usize, value: Option<Value>)
        requires { at < length (spec_state.slots_in self.old) }
        ensures { self.new ≡ spec.store_name (name_at (spec_state.slots_in self.old) at) value self.old }
    {
        match self {
            Cell::Frame(slots) => slots.set_at(at, value),
            _ => unreachable!(),
        }
    }

    /// The key of a dictionary at a place from 0, as it was first written.
    pub fn key(&self, at: usize) -> Option<&Value>
        ensures { option_copied result ≡ slice_get (spec_state.keys_in self.now) at }
    {
        match self {
            Cell::Dict(dict) => match dict.at(at) {
                Some(entry) => Some(&entry.spelled),
                None => None,
            },
            _ => None,
        }
    }

    /// A name of a frame holds the value, or nothing.
    pub fn store_name(&mut self, name: Sym, value: Option<Value>) -> Result<(), NoMemory>
        ensures { OnOk result (self.new ≡ spec.store_name name value self.old) }
    {
        match self {
            Cell::Global(names) => names.set(name, value),
            Cell::Frame(slots) => {
                slots.set(name, value);
                Ok(())
            }
            _ => Ok(()),
        }
    }

    /// An attribute of an instance or a class holds the value, or nothing.
    pub fn store_attr(&mut self, name: Sym, value: Option<Value>) -> Result<(), NoMemory>
        ensures { OnOk result (self.new ≡ spec.store_attr name value self.old) }
    {
        match self {
            Cell::Attrs(names) => names.set(name, value),
            _ => Ok(()),
        }
    }

    /// An item of a list that is there holds the value. Takes no memory.
    pub fn put_item(&mut self, at: usize, value: Value)
        ensures { self.new ≡ spec.put_item at value self.old }
    {
        match self {
            Cell::List(items) => items.set(at, value),
            _ => {}
        }
    }

    /// A list has the values in the place of all items from a place on.
    pub fn splice_items(&mut self, from: usize, values: Vec<Value>) -> Result<(), NoMemory>
        ensures { OnOk result (self.new ≡ spec.splice_items from values.items self.old) }
    {
        match self {
            Cell::List(items) => items.splice(from, values),
            _ => Ok(()),
        }
    }

    /// A dictionary has the value at the key.
    pub fn put_entry(&mut self, key: Key, spelled: Value, value: Value) -> Result<(), NoMemory>
        ensures { OnOk result (self.new ≡ spec.put_entry key spelled value self.old) }
    {
        match self {
            Cell::Dict(dict) => dict.put(key, spelled, value),
            _ => Ok(()),
        }
    }

    /// A dictionary lacks the key. Takes no memory.
    pub fn remove_entry(&mut self, key: &Key)
        ensures { self.new ≡ spec.remove_entry key.now self.old }
    {
        match self {
            Cell::Dict(dict) => dict.remove(key),
            _ => {}
        }
    }

    /// A dictionary has no keys. Takes no memory.
    pub fn clear_entries(&mut self)
        ensures { self.new ≡ spec.clear_entries self.old }
    {
        match self {
            Cell::Dict(dict) => dict.clear(),
            _ => {}
        }
    }
}

// The numbers of no names.
fn no_numbers(alloc: Global) -> Result<Vec<u64>, NoMemory>
    ensures { IfOk result (λ ns. AreNumbers (λ _. None) ns.items) }
{
    Ok(Vec::new(alloc))
}

// The item of a list at a key, which is its place from 0.
fn list_item<'a>(items: &'a Items, key: &Key) -> Option<&'a Value>
    ensures { option_copied result ≡ spec_state.list_item items.now (out-Key key.now) }
{
    match key {
        Key::Int(at) => item_at(items, *at),
        _ => None,
    }
}

fn item_at(items: &Items, at: i128) -> Option<&Value>
    ensures { option_copied result ≡ spec_state.list_item items.now (key.Int at) }
{
    if at < 0 || at >= items.len() as i128 {
        return None;
    }
    items.get(at as usize)
}
