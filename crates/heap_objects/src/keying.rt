// Dictionaries: their keys and the values at them.
ghost use Rattle.std.specs.Prelude.{◌≡◌, ◌<◌, ◌++◌, ◌∷◌, [], Some, IfOk, OnOk, length, slice_get};
ghost use Rattle.flow_base.specs.declared.event.Event.TheVariants.{Write};
ghost use Rattle.flow_base.specs.declared.loc.Loc.TheVariants.{Present};
ghost use Rattle.heap_objects.specs.Calls as calls;
ghost use Rattle.heap_objects.specs.Keyed as keyed;
ghost use Rattle.heap_objects.specs.State as spec;

use crate::dict::Dict;
use crate::heap::{Heap, cell_of};
use crate::keyed::key_of;
use crate::object::{Cell, Node};
use crate::value::Value;
use flow_base::{Event, Key, Loc, NoMemory, ObjRef, ReadHow};

impl Heap {
    /// Whether a key is present in a dictionary, with a read of that as an event.
    #[tactic(auto, unfolding(crate::specs::State::present_at))]
    pub fn present(&mut self, o: ObjRef, k: &Key, how: ReadHow) -> Result<bool, NoMemory>
        ensures value { IfOk result (λ b. b ≡ spec.present_at self.old o k.now) }
        ensures event { OnOk result (self.new ≡ spec.logged (spec.read_event how (Present o k.now)) self.old) }
    {
        let found = self.has_key(o, k);
        self.read(Loc::Present(o, k.copy()?), how)?;
        Ok(found)
    }

    #[tactic(auto, unfolding(crate::specs::State::present_at))]
    fn has_key(&self, o: ObjRef, k: &Key) -> bool
        ensures { result ≡ spec.present_at self.now o k.now }
    {
        match self.cell(o) {
            Some(cell) => cell.has_key(k),
            None => false,
        }
    }

    /// The number of keys of a dictionary, and 0 for any other object, without an event. Takes no memory.
    #[tactic(auto, unfolding(crate::specs::State::keys_at))]
    pub fn key_count(&self, o: ObjRef) -> usize
        ensures { result ≡ length (spec.keys_at self.now o) }
    {
        match self.cell(o) {
            Some(cell) => cell.key_count(),
            None => 0,
        }
    }

    /// The key of a dictionary at a place from 0, as it was first written, without an event.
    #[tactic(auto, unfolding(crate::specs::State::keys_at))]
    pub fn key_at(&self, o: ObjRef, i: usize) -> Result<Value, NoMemory>
        requires { i < length (spec.keys_at self.now o) }
        ensures { IfOk result (λ v. Some v ≡ slice_get (spec.keys_at self.now o) i) }
    {
        match self.cell(o) {
            Some(cell) => match cell.key(i) {
                Some(key) => Ok(key.copy()?),
                None => unreachable!(),
            },
            None => unreachable!(),
        }
    }

    /// Puts a value at a key of a dictionary, for a value that has a key. A key that is present has its value written alone,
    /// and stays where it is and as it was first written. A new key comes last.
    #[tactic(auto, unfolding(crate::specs::Calls::put_at))]
    pub fn dict_put(&mut self, o: ObjRef, k: &Value, v: Value) -> Result<(), NoMemory>
        ensures { OnOk result (self.new ≡ calls.put_at o (keyed.key_of k.now) k.now v self.old) }
    {
        match key_of(self.alloc, k)? {
            Some(key) => self.put_key(o, key, k.copy()?, v),
            None => let_go(v),
        }
    }

    #[tactic(auto, unfolding(crate::specs::Calls::dict_put, crate::specs::State::logged_all, crate::specs::State::with_cell))]
    fn put_key(&mut self, o: ObjRef, key: Key, spelled: Value, v: Value) -> Result<(), NoMemory>
        ensures { OnOk result (self.new ≡ calls.dict_put o key spelled v self.old) }
    {
        log_put(&mut self.events, self.nodes.as_slice(), o, &key)?;
        put_entry(&mut self.nodes, o.0 as usize, key, spelled, v)
    }

    /// Takes a key that is present out of a dictionary.
    #[tactic(auto, unfolding(crate::specs::Calls::dict_remove, crate::specs::State::logged_all, crate::specs::State::with_cell))]
    pub fn dict_remove(&mut self, o: ObjRef, k: &Key) -> Result<(), NoMemory>
        ensures { OnOk result (self.new ≡ calls.dict_remove o k.now self.old) }
    {
        log_remove(&mut self.events, self.nodes.as_slice(), o, k)?;
        remove_entry(&mut self.nodes, o.0 as usize, k);
        Ok(())
    }

    /// Takes all keys out of a dictionary: of each key in order the item and the presence are written, and then the shape.
    #[tactic(auto, unfolding(crate::specs::Calls::dict_clear, crate::specs::State::logged_all, crate::specs::State::with_cell))]
    pub fn dict_clear(&mut self, o: ObjRef) -> Result<(), NoMemory>
        ensures { OnOk result (self.new ≡ calls.dict_clear o self.old) }
    {
        log_clear(&mut self.events, self.nodes.as_slice(), o)?;
        clear_entries(&mut self.nodes, o.0 as usize);
        Ok(())
    }
}

fn let_go(_value: Value) -> Result<(), NoMemory> {
    Ok(())
}

fn put_entry(
    nodes: &mut Vec<Node>,
    at: usize,
    key: Key,
    spelled: Value,
    v: Value,
) -> Result<(), NoMemory>
    ensures { OnOk result (nodes.new.items ≡ spec.changed (calls.put_entry key spelled v) nodes.old.items at) }
{
    match nodes.get_mut(at) {
        Some(node) => node.cell.put_entry(key, spelled, v),
        None => let_go_all(key, spelled, v),
    }
}

fn let_go_all(_key: Key, _spelled: Value, _value: Value) -> Result<(), NoMemory> {
    Ok(())
}

fn remove_entry(nodes: &mut Vec<Node>, at: usize, key: &Key)
    ensures { nodes.new.items ≡ spec.changed (calls.remove_entry key.now) nodes.old.items at }
{
    match nodes.get_mut(at) {
        Some(node) => node.cell.remove_entry(key),
        None => {}
    }
}

fn clear_entries(nodes: &mut Vec<Node>, at: usize)
    ensures { nodes.new.items ≡ spec.changed calls.clear_entries nodes.old.items at }
{
    match nodes.get_mut(at) {
        Some(node) => node.cell.clear_entries(),
        None => {}
    }
}

#[tactic(auto, using(crate::proofs::EventLaws::no_more))]
fn log_put(events: &mut Vec<Event>, nodes: &[Node], d: ObjRef, key: &Key) -> Result<(), NoMemory>
    ensures { OnOk result (events.new.items ≡ events.old.items ++ calls.put_events d key.now (spec.cell_in (slice_get nodes.now d.0))) }
{
    match cell_of(nodes, d) {
        Some(cell) => log_put_in(events, cell, d, key),
        None => Ok(()),
    }
}

#[tactic(auto, using(crate::proofs::EventLaws::no_more))]
fn log_put_in(events: &mut Vec<Event>, cell: &Cell, d: ObjRef, key: &Key) -> Result<(), NoMemory>
    ensures { OnOk result (events.new.items ≡ events.old.items ++ calls.put_events d key.now cell.now) }
{
    match cell {
        Cell::Dict(dict) => log_put_writes(events, d, key, dict.get(key).is_some()),
        Cell::Global(_) | Cell::Frame(_) | Cell::List(_) | Cell::Attrs(_) | Cell::Nothing => Ok(()),
    }
}

fn log_put_writes(
    events: &mut Vec<Event>,
    d: ObjRef,
    key: &Key,
    present: bool,
) -> Result<(), NoMemory>
    ensures { OnOk result (events.new.items ≡ events.old.items ++ calls.put_writes d key.now present) }
{
    events.push(Event::Place(Loc::Present(d, key.copy()?)))?;
    if present {
        events.push(Event::Write(Loc::Item(d, key.copy()?)))?;
        return Ok(());
    }
    events.push(Event::Place(Loc::Shape(d)))?;
    events.push(Event::Write(Loc::Item(d, key.copy()?)))?;
    events.push(Event::Write(Loc::Present(d, key.copy()?)))?;
    events.push(Event::Write(Loc::Shape(d)))?;
    Ok(())
}

#[tactic(auto, using(crate::proofs::EventLaws::no_more))]
fn log_remove(events: &mut Vec<Event>, nodes: &[Node], d: ObjRef, key: &Key) -> Result<(), NoMemory>
    ensures { OnOk result (events.new.items ≡ events.old.items ++ calls.remove_events d key.now (spec.cell_in (slice_get nodes.now d.0))) }
{
    match cell_of(nodes, d) {
        Some(cell) => log_remove_in(events, cell, d, key),
        None => Ok(()),
    }
}

#[tactic(auto, using(crate::proofs::EventLaws::no_more))]
fn log_remove_in(events: &mut Vec<Event>, cell: &Cell, d: ObjRef, key: &Key) -> Result<(), NoMemory>
    ensures { OnOk result (events.new.items ≡ events.old.items ++ calls.remove_events d key.now cell.now) }
{
    match cell {
        Cell::Dict(_) => log_remove_writes(events, d, key),
        Cell::Global(_) | Cell::Frame(_) | Cell::List(_) | Cell::Attrs(_) | Cell::Nothing => Ok(()),
    }
}

fn log_remove_writes(events: &mut Vec<Event>, d: ObjRef, key: &Key) -> Result<(), NoMemory>
    ensures { OnOk result (events.new.items ≡ events.old.items ++ calls.remove_writes d key.now) }
{
    events.push(Event::Place(Loc::Shape(d)))?;
    events.push(Event::Write(Loc::Item(d, key.copy()?)))?;
    events.push(Event::Write(Loc::Present(d, key.copy()?)))?;
    events.push(Event::Write(Loc::Shape(d)))?;
    Ok(())
}

#[tactic(auto, using(crate::proofs::EventLaws::no_more))]
fn log_clear(events: &mut Vec<Event>, nodes: &[Node], d: ObjRef) -> Result<(), NoMemory>
    ensures { OnOk result (events.new.items ≡ events.old.items ++ calls.clear_events d (spec.cell_in (slice_get nodes.now d.0))) }
{
    match cell_of(nodes, d) {
        Some(cell) => log_clear_in(events, cell, d),
        None => Ok(()),
    }
}

#[tactic(auto, using(crate::proofs::EventLaws::no_more))]
fn log_clear_in(events: &mut Vec<Event>, cell: &Cell, d: ObjRef) -> Result<(), NoMemory>
    ensures { OnOk result (events.new.items ≡ events.old.items ++ calls.clear_events d cell.now) }
{
    match cell {
        Cell::Dict(dict) => log_entries(events, d, dict),
        Cell::Global(_) | Cell::Frame(_) | Cell::List(_) | Cell::Attrs(_) | Cell::Nothing => Ok(()),
    }
}

/// Writes of the item and the presence of each key in order, and then of the shape.
pub fn log_entries(events: &mut Vec<Event>, d: ObjRef, dict: &Dict) -> Result<(), NoMemory>
    ensures { OnOk result (events.new.items ≡ events.old.items ++ calls.entry_writes d dict.now) }
{
    for i in 0..dict.len() {
        match dict.at(i) {
            Some(entry) => log_entry(events, d, &entry.key)?,
            None => unreachable!(),
        }
    }
    events.push(Event::Write(Loc::Shape(d)))?;
    Ok(())
}

fn log_entry(events: &mut Vec<Event>, d: ObjRef, key: &Key) -> Result<(), NoMemory>
    ensures { OnOk result (events.new.items ≡ (events.old.items ++ Write (Loc.Item d key.now) ∷ []) ++ Write (Loc.Present d key.now) ∷ []) }
{
    events.push(Event::Write(Loc::Item(d, key.copy()?)))?;
    events.push(Event::Write(Loc::Present(d, key.copy()?)))?;
    Ok(())
}
