// The heap: objects, what their locations hold, and the events of a run.
ghost use Rattle.std.specs.Prelude.{◌≡◌, ◌<◌, ◌++◌, ◌∷◌, [], Some, IfOk, OnOk, length, slice_get};
ghost use Rattle.std.specs.Option.{option_copied};
ghost use Rattle.heap_objects.specs.State as spec;

use crate::named::Named;
use crate::object::{Cell, Node, Object};
use crate::starts::Starts;
use crate::value::Value;
use flow_base::{Event, Loc, NoMemory, ObjRef, ReadHow, RunNo};
use std::alloc::Global;
use std::marker::Model;

/// The objects of a session with what their locations hold, and the events of the run under way. Objects are never taken
/// away, and each is named by its place in the order of making. After `NoMemory` of a call that changes the heap nothing is
/// known of it, and it is not to be used any more.
#[derive(Drop)]
pub struct Heap {
    pub(crate) alloc: Global,
    pub(crate) nodes: Vec<Node>,
    pub(crate) events: Vec<Event>,
    run: RunNo,
    starts: Starts,
}

impl Model for Heap {
    ghost use Rattle.heap_objects.specs.State.{State};
    ghost use Rattle.heap_objects.specs.StateCode.{state_code};

    ghost Value = { State };

    ghost coded = { state_code };

    ghost view = { λ h. record { nodes = h.nodes.items; events = h.events.items; run = h.run; starts = h.starts } };
}

impl Heap {
    /// A heap with the global frame alone, which is object 0.
    #[tactic(auto, unfolding(crate::specs::State::start))]
    pub fn new(alloc: Global) -> Result<Heap, NoMemory>
        ensures start { IfOk result (λ h. h ≡ spec.start) }
        ensures count { IfOk result (λ h. length h.nodes ≡ 1) }
    {
        let mut nodes = Vec::new(alloc);
        nodes.push(Node {
            object: Object::Frame(None),
            cell: Cell::Global(Named::new(alloc)),
        })?;
        Ok(Heap {
            alloc,
            nodes,
            events: Vec::new(alloc),
            run: RunNo(0),
            starts: Starts::new(alloc),
        })
    }

    /// Begins a run: the event list is empty, and what is made from then on is of that run. Takes no memory.
    #[tactic(auto, unfolding(crate::specs::State::begun))]
    pub fn begin_run(&mut self, run: RunNo)
        ensures { self.new ≡ spec.begun run self.old }
    {
        self.run = run;
        self.events.clear();
    }

    /// The number of objects, without an event. The objects are those with a number below it. Takes no memory.
    pub fn object_count(&self) -> usize
        ensures { result ≡ length self.now.nodes }
    {
        self.nodes.len()
    }

    /// The kind and the fixed part of an object, without an event. Takes no memory.
    pub fn object(&self, o: ObjRef) -> &Object
        requires { o.0 < length self.now.nodes }
        ensures { Some result.now ≡ spec.object_at self.now o }
    {
        &self.nodes[o.0 as usize].object
    }

    /// The events of the run so far, in order. Takes no memory.
    pub fn events(&self) -> &[Event]
        ensures { result.now ≡ self.now.events }
    {
        self.events.as_slice()
    }

    /// The name of an object: the run that made it, and its place, from 0, among the objects of that run. The global frame is
    /// object 0 of run 0. Takes no memory.
    #[tactic(auto, unfolding(crate::specs::State::origin_of))]
    pub fn origin(&self, o: ObjRef) -> (RunNo, u64)
        ensures { result ≡ spec.origin_of self.now o }
    {
        self.starts.origin(o.0)
    }

    /// Puts an event at the end of the event list: the begin or the end of a statement or of a call.
    #[tactic(auto, unfolding(crate::specs::State::logged))]
    pub fn log(&mut self, e: Event) -> Result<(), NoMemory>
        ensures { OnOk result (self.new ≡ spec.logged e self.old) }
    {
        self.events.push(e)?;
        Ok(())
    }

    /// Puts a read of a location at the end of the event list.
    pub(crate) fn read(&mut self, loc: Loc, how: ReadHow) -> Result<(), NoMemory>
        ensures { OnOk result (self.new ≡ spec.logged (spec.read_event how loc) self.old) }
    {
        match how {
            ReadHow::Use => self.log(Event::Use(loc)),
            ReadHow::Place => self.log(Event::Place(loc)),
        }
    }

    /// What the locations of an object hold.
    pub(crate) fn cell(&self, o: ObjRef) -> Option<&Cell>
        ensures { spec.cell_or_nothing (option_copied result) ≡ spec.cell_at self.now o }
    {
        cell_of(self.nodes.as_slice(), o)
    }

    /// What a name, an attribute or an item holds.
    #[tactic(auto, unfolding(crate::specs::State::value_at))]
    pub(crate) fn value_at(&self, loc: &Loc) -> Option<&Value>
        ensures { option_copied result ≡ spec.value_at self.now loc.now }
    {
        match loc {
            Loc::Name(f, name) => match self.cell(*f) {
                Some(cell) => cell.name(*name),
                None => None,
            },
            Loc::Attr(o, name) => match self.cell(*o) {
                Some(cell) => cell.attr(*name),
                None => None,
            },
            Loc::Item(o, key) => match self.cell(*o) {
                Some(cell) => cell.item(key),
                None => None,
            },
            Loc::Present(_, _) => None,
            Loc::Shape(_) => None,
        }
    }

    /// One object more, which is the last.
    #[tactic(auto, unfolding(crate::specs::State::made))]
    pub(crate) fn make(&mut self, object: Object, cell: Cell) -> Result<ObjRef, NoMemory>
        ensures made { OnOk result (self.new ≡ spec.made object cell self.old) }
        ensures object { IfOk result (λ o. o ≡ spec.next_object self.old) }
        ensures there { IfOk result (λ o. o.0 < length self.new.nodes) }
    {
        let o = ObjRef(self.nodes.len() as u64);
        self.nodes.push(Node { object, cell })?;
        self.starts.add(self.run, o.0)?;
        Ok(o)
    }
}

/// What the locations of an object hold.
pub(crate) fn cell_of(nodes: &[Node], o: ObjRef) -> Option<&Cell>
    ensures { spec.cell_or_nothing (option_copied result) ≡ spec.cell_in (slice_get nodes.now o.0) }
{
    match nodes.get(o.0 as usize) {
        Some(node) => Some(&node.cell),
        None => None,
    }
}
