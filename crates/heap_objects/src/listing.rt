// Lists: their items and their lengths.
ghost use Rattle.std.specs.Prelude.{◌≡◌, ◌-◌, ◌+◌, ◌≤◌, ◌<◌, ◌^◌, ◌++◌, IfOk, OnOk, length, min, slice_get};
ghost use Rattle.heap_objects.specs.Calls as calls;
ghost use Rattle.heap_objects.specs.State as spec;

use crate::heap::{Heap, cell_of};
use crate::items::copies;
use crate::object::{Cell, Node};
use crate::value::{Value, Values};
use flow_base::{Event, Key, Loc, NoMemory, ObjRef, ReadHow};

impl Heap {
    /// The length of a list, or the number of keys of a dictionary, without an event. Takes no memory.
    #[tactic(auto, unfolding(crate::specs::State::count_at))]
    pub fn count(&self, o: ObjRef) -> usize
        ensures { result ≡ spec.count_at self.now o }
    {
        match self.cell(o) {
            Some(cell) => cell.count(),
            None => 0,
        }
    }

    /// The same, with a read of the shape as an event.
    pub fn shape(&mut self, o: ObjRef, how: ReadHow) -> Result<usize, NoMemory>
        ensures count { IfOk result (λ n. n ≡ spec.count_at self.old o) }
        ensures event { OnOk result (self.new ≡ spec.logged (spec.read_event how (Loc.Shape o)) self.old) }
    {
        let count = self.count(o);
        self.read(Loc::Shape(o), how)?;
        Ok(count)
    }

    /// Writes an item of a list, for a place below its length.
    #[tactic(auto, unfolding(crate::specs::Calls::list_put, crate::specs::State::logged, crate::specs::State::with_cell))]
    pub fn list_put(&mut self, o: ObjRef, i: usize, v: Value) -> Result<(), NoMemory>
        ensures { OnOk result (self.new ≡ calls.list_put o i v self.old) }
    {
        self.log(Event::Write(item(o, i)))?;
        put_item(&mut self.nodes, o.0 as usize, i, v);
        Ok(())
    }

    /// Puts values in the place of the items of a list from a place on, which is at most its length. Each item from there up
    /// to the greater of the two lengths is written, and then the shape where the length changed.
    #[tactic(auto, unfolding(crate::specs::Calls::spliced, crate::specs::State::logged_all, crate::specs::State::with_cell))]
    pub fn list_splice(&mut self, o: ObjRef, from: usize, tail: Values) -> Result<(), NoMemory>
        ensures { OnOk result (self.new ≡ calls.spliced o from tail self.old) }
    {
        let values = copies(self.alloc, tail.as_slice())?;
        log_splice(&mut self.events, self.nodes.as_slice(), o, from, &values)?;
        splice_items(&mut self.nodes, o.0 as usize, from, values)
    }
}

/// An item of a list by its place.
pub fn item(o: ObjRef, i: usize) -> Loc
    ensures { result ≡ spec.item o i }
{
    Loc::Item(o, Key::Int(i as i128))
}

fn put_item(nodes: &mut Vec<Node>, at: usize, i: usize, v: Value)
    ensures { nodes.new.items ≡ spec.changed (calls.put_item i v) nodes.old.items at }
{
    match nodes.get_mut(at) {
        Some(node) => node.cell.put_item(i, v),
        None => let_go(v),
    }
}

fn let_go(_value: Value) {}

fn splice_items(
    nodes: &mut Vec<Node>,
    at: usize,
    from: usize,
    tail: Vec<Value>,
) -> Result<(), NoMemory>
    ensures { OnOk result (nodes.new.items ≡ spec.changed (calls.splice_items from tail.items) nodes.old.items at) }
{
    match nodes.get_mut(at) {
        Some(node) => node.cell.splice_items(from, tail),
        None => Ok(()),
    }
}

// The events of a splice.
#[tactic(auto, using(crate::proofs::EventLaws::no_more))]
fn log_splice(
    events: &mut Vec<Event>,
    nodes: &[Node],
    o: ObjRef,
    from: usize,
    tail: &Vec<Value>,
) -> Result<(), NoMemory>
    ensures { OnOk result (events.new.items
        ≡ events.old.items ++ calls.splice_events o from tail.now.items (spec.cell_in (slice_get nodes.now o.0))) }
{
    match cell_of(nodes, o) {
        Some(cell) => log_splice_in(events, cell, o, from, tail),
        None => Ok(()),
    }
}

#[tactic(auto, using(crate::proofs::EventLaws::no_more))]
fn log_splice_in(
    events: &mut Vec<Event>,
    cell: &Cell,
    o: ObjRef,
    from: usize,
    tail: &Vec<Value>,
) -> Result<(), NoMemory>
    ensures { OnOk result (events.new.items ≡ events.old.items ++ calls.splice_events o from tail.now.items cell.now) }
{
    match cell {
        Cell::List(items) => log_splice_writes(events, o, from, items.len(), tail.len()),
        Cell::Global(_) | Cell::Frame(_) | Cell::Dict(_) | Cell::Attrs(_) | Cell::Nothing => Ok(()),
    }
}

fn log_splice_writes(
    events: &mut Vec<Event>,
    o: ObjRef,
    from: usize,
    old: usize,
    count: usize,
) -> Result<(), NoMemory>
    requires old { old < 2 ^ 63 }
    requires new { count < 2 ^ 63 }
    ensures { OnOk result (events.new.items ≡ events.old.items ++ calls.splice_writes o from old (min from old + count)) }
{
    let new = from.min(old) + count;
    log_items(events, o, from, old.max(new))?;
    if old != new {
        events.push(Event::Write(Loc::Shape(o)))?;
    }
    Ok(())
}

/// Writes of the items between two places, the second left out.
pub fn log_items(events: &mut Vec<Event>, o: ObjRef, from: usize, to: usize) -> Result<(), NoMemory>
    ensures { OnOk result (events.new.items ≡ events.old.items ++ calls.item_writes o from (to - from)) }
{
    for i in from..to {
        events.push(Event::Write(item(o, i)))?;
    }
    Ok(())
}
