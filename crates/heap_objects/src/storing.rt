// Names, attributes and slots, read and written.
ghost use Rattle.std.specs.Prelude.{◌≡◌, ◌<◌, IfOk, OnOk, length, slice_get};
ghost use Rattle.flow_base.specs.declared.numbers.ObjRef.{ObjRef};
ghost use Rattle.heap_objects.specs.Calls as calls;
ghost use Rattle.heap_objects.specs.Names.{IsSymbols, name_at};
ghost use Rattle.heap_objects.specs.State as spec;
ghost use Rattle.std.specs.Option.{option_copied};

use crate::heap::{Heap, cell_of};
use crate::object::{Cell, Node};
use crate::value::Value;
use flow_base::{Event, Loc, NoMemory, ObjRef, ReadHow, Shared, Sym};
use std::alloc::Global;

/// Symbols. Contracts see the list of them.
pub type Syms = Shared<Sym>;

impl Heap {
    /// What a name, an attribute or an item holds, and `None` exactly where it holds nothing, without an event.
    #[tactic(auto, unfolding(crate::specs::State::value_at))]
    pub fn peek(&self, loc: &Loc) -> Result<Option<Value>, NoMemory>
        ensures { IfOk result (λ v. v ≡ spec.value_at self.now loc.now) }
    {
        match self.value_at(loc) {
            Some(value) => Ok(Some(value.copy()?)),
            None => Ok(None),
        }
    }

    /// The same, with a read of the location as an event.
    pub fn load(&mut self, loc: &Loc, how: ReadHow) -> Result<Option<Value>, NoMemory>
        ensures value { IfOk result (λ v. v ≡ spec.value_at self.old loc.now) }
        ensures event { OnOk result (self.new ≡ spec.logged (spec.read_event how loc.now) self.old) }
    {
        let value = self.peek(loc)?;
        self.read(loc.copy()?, how)?;
        Ok(value)
    }

    /// Writes a name or an attribute: it holds the value, or nothing. A name of a function's frame is that of one of its slots.
    #[tactic(auto, unfolding(crate::specs::Calls::stored, crate::specs::State::logged, crate::specs::State::with_cell))]
    pub fn store(&mut self, loc: &Loc, v: Option<Value>) -> Result<(), NoMemory>
        ensures { OnOk result (self.new ≡ calls.stored loc.now v self.old) }
    {
        self.log(Event::Write(loc.copy()?))?;
        match loc {
            Loc::Name(f, name) => store_name(&mut self.nodes, f.0 as usize, *name, v),
            Loc::Attr(o, name) => store_attr(&mut self.nodes, o.0 as usize, *name, v),
            Loc::Item(_, _) | Loc::Present(_, _) | Loc::Shape(_) => let_go(v),
        }
    }

    /// The number of slots of a function's frame, and 0 for any other object, without an event. Takes no memory.
    pub fn slot_count(&self, f: ObjRef) -> usize
        ensures { result ≡ length (spec.slots_at self.now f) }
    {
        match self.cell(f) {
            Some(cell) => cell.slot_count(),
            None => 0,
        }
    }

    /// Reads the slot of a function's frame at a place below the number of its slots, as `load` of its name does.
    #[tactic(auto, unfolding(crate::specs::State::value_at))]
    pub fn load_slot(
        &mut self,
        f: ObjRef,
        i: usize,
        how: ReadHow,
    ) -> Result<Option<Value>, NoMemory>
        requires { i < length (spec.slots_at self.old f) }
        ensures value { IfOk result (λ v. v ≡ spec.value_at self.old (spec.slot_of self.old f i)) }
        ensures event { OnOk result (self.new ≡ spec.logged (spec.read_event how (spec.slot_of self.old f i)) self.old) }
        ensures slots { OnOk result ((g : ObjRef) → spec.slots_at self.new g ≡ spec.slots_at self.old g) }
    {
        let value = copy_of(slot(self.nodes.as_slice(), f, i))?;
        let name = slot_name(self.nodes.as_slice(), f, i);
        self.read(Loc::Name(f, name), how)?;
        Ok(value)
    }

    /// Writes the slot of a function's frame at a place below the number of its slots, as `store` of its name does.
    #[tactic(auto, unfolding(crate::specs::Calls::stored, crate::specs::State::logged, crate::specs::State::with_cell))]
    pub fn store_slot(&mut self, f: ObjRef, i: usize, v: Option<Value>) -> Result<(), NoMemory>
        requires { i < length (spec.slots_at self.old f) }
        ensures state { OnOk result (self.new ≡ calls.stored (spec.slot_of self.old f i) v self.old) }
        ensures slots { OnOk result ((g : ObjRef) → spec.slots_at self.new g ≡ spec.slots_at self.old g) }
    {
        let name = slot_name(self.nodes.as_slice(), f, i);
        self.log(Event::Write(Loc::Name(f, name)))?;
        set_slot(&mut self.nodes, f.0 as usize, i, v);
        Ok(())
    }

    /// The symbols at which a frame, an instance or a class holds a value, in ascending order of their numbers, without an
    /// event.
    #[tactic(auto, unfolding(crate::specs::State::symbol_at))]
    pub fn syms(&self, o: ObjRef) -> Result<Syms, NoMemory>
        ensures { IfOk result (λ names. IsSymbols (spec.symbol_at self.now o) names) }
    {
        let names = symbols(self.alloc, self.nodes.as_slice(), o)?;
        Ok(Shared::from_vec(self.alloc, names)?)
    }
}

fn symbols(alloc: Global, nodes: &[Node], o: ObjRef) -> Result<Vec<Sym>, NoMemory>
    ensures { IfOk result (λ names. IsSymbols (spec.symbol_in (spec.cell_in (slice_get nodes.now o.0))) names.items) }
{
    match cell_of(nodes, o) {
        Some(cell) => cell.symbols(alloc),
        None => Cell::Nothing.symbols(alloc),
    }
}

fn copy_of(value: Option<&Value>) -> Result<Option<Value>, NoMemory>
    ensures { IfOk result (λ v. v ≡ option_copied value.entry) }
{
    match value {
        Some(v) => Ok(Some(v.copy()?)),
        None => Ok(None),
    }
}

fn slot(nodes: &[Node], f: ObjRef, i: usize) -> Option<&Value>
    requires { i < length (spec.slots_in (spec.cell_in (slice_get nodes.now f.0))) }
    ensures { option_copied result
        ≡ spec.name_in (spec.cell_in (slice_get nodes.now f.0)) (name_at (spec.slots_in (spec.cell_in (slice_get nodes.now f.0))) i) }
{
    match cell_of(nodes, f) {
        Some(cell) => cell.slot(i),
        None => unreachable!(),
    }
}

fn slot_name(nodes: &[Node], f: ObjRef, i: usize) -> Sym
    requires { i < length (spec.slots_in (spec.cell_in (slice_get nodes.now f.0))) }
    ensures { result ≡ name_at (spec.slots_in (spec.cell_in (slice_get nodes.now f.0))) i }
{
    match cell_of(nodes, f) {
        Some(cell) => cell.slot_name(i),
        None => unreachable!(),
    }
}

fn set_slot(nodes: &mut Vec<Node>, at: usize, i: usize, v: Option<Value>)
    requires { i < length (spec.slots_in (spec.cell_in (slice_get nodes.old.items at))) }
    ensures { nodes.new.items
        ≡ spec.changed (calls.store_name (name_at (spec.slots_in (spec.cell_in (slice_get nodes.old.items at))) i) v) nodes.old.items at }
{
    match nodes.get_mut(at) {
        Some(node) => node.cell.set_slot(i, v),
        None => unreachable!(),
    }
}

fn store_name(nodes: &mut Vec<Node>, at: usize, name: Sym, v: Option<Value>) -> Result<(), NoMemory>
    ensures { OnOk result (nodes.new.items ≡ spec.changed (calls.store_name name v) nodes.old.items at) }
{
    match nodes.get_mut(at) {
        Some(node) => node.cell.store_name(name, v),
        None => let_go(v),
    }
}

fn store_attr(nodes: &mut Vec<Node>, at: usize, name: Sym, v: Option<Value>) -> Result<(), NoMemory>
    ensures { OnOk result (nodes.new.items ≡ spec.changed (calls.store_attr name v) nodes.old.items at) }
{
    match nodes.get_mut(at) {
        Some(node) => node.cell.store_attr(name, v),
        None => let_go(v),
    }
}

fn let_go(_value: Option<Value>) -> Result<(), NoMemory> {
    Ok(())
}
