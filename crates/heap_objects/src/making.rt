// New objects.
ghost use Rattle.std.specs.Prelude.{◌≡◌, ◌≢◌, ◌<◌, ◌++◌, ◌∷◌, [], AllPairs, IfOk, OnOk, length};
ghost use Rattle.flow_base.specs.declared.event.Event.TheVariants.{Write};
ghost use Rattle.flow_base.specs.declared.loc.Loc.TheVariants.{Shape};
ghost use Rattle.heap_objects.specs.Calls as calls;
ghost use Rattle.heap_objects.specs.Entries.{with_all, with_keyed};
ghost use Rattle.heap_objects.specs.Keyed as keyed;
ghost use Rattle.heap_objects.specs.State as spec;

use crate::dict::Dict;
use crate::heap::Heap;
use crate::items::Items;
use crate::keyed::key_of;
use crate::keying::log_entries;
use crate::listing::log_items;
use crate::named::Named;
use crate::object::{Cell, Object};
use crate::slots::Slots;
use crate::value::{Value, Values};
use flow_base::{CodeRef, Event, Loc, NoMemory, ObjRef, Sym};
use std::alloc::Global;

impl Heap {
    /// Makes the frame of a function: its slots have these different names and hold nothing.
    #[tactic(auto, unfolding(crate::specs::Calls::new_frame))]
    pub fn new_frame(&mut self, parent: ObjRef, syms: &[Sym]) -> Result<ObjRef, NoMemory>
        requires { AllPairs (λ m n. m ≢ n) syms.now }
        ensures state { OnOk result (self.new ≡ calls.new_frame parent syms.now self.old) }
        ensures object { IfOk result (λ o. o ≡ spec.next_object self.old) }
        ensures there { IfOk result (λ o. o.0 < length self.new.nodes) }
        ensures slots { IfOk result (λ f. spec.slots_at self.new f ≡ syms.now) }
    {
        let slots = Slots::new(self.alloc, syms)?;
        self.make(Object::Frame(Some(parent)), Cell::Frame(slots))
    }

    /// Makes a list: each item in order and then the shape are written.
    #[tactic(auto, unfolding(crate::specs::Calls::new_list, crate::specs::State::logged_all, crate::specs::State::made))]
    pub fn new_list(&mut self, items: Values) -> Result<ObjRef, NoMemory>
        ensures state { OnOk result (self.new ≡ calls.new_list items self.old) }
        ensures object { IfOk result (λ o. o ≡ spec.next_object self.old) }
        ensures there { IfOk result (λ o. o.0 < length self.new.nodes) }
    {
        let list = Items::from_values(self.alloc, items.as_slice())?;
        let count = list.len();
        let o = self.make(Object::List, Cell::List(list))?;
        log_list(&mut self.events, o, count)?;
        Ok(o)
    }

    /// Makes a dictionary of as many keys as values: the item and the presence of each key in order and then the shape are
    /// written. Of equal keys the first spelling and place stay, and the last value counts.
    #[tactic(auto, unfolding(crate::specs::Calls::new_dict, crate::specs::State::logged_all, crate::specs::State::made))]
    pub fn new_dict(&mut self, keys: Values, values: Values) -> Result<ObjRef, NoMemory>
        ensures state { OnOk result (self.new ≡ calls.new_dict keys values self.old) }
        ensures object { IfOk result (λ o. o ≡ spec.next_object self.old) }
        ensures there { IfOk result (λ o. o.0 < length self.new.nodes) }
    {
        let dict = dict_of(self.alloc, keys.as_slice(), values.as_slice())?;
        let o = ObjRef(self.nodes.len() as u64);
        log_entries(&mut self.events, o, &dict)?;
        self.make(Object::Dict, Cell::Dict(dict))
    }

    /// Makes an instance of a class object or of a built-in exception class.
    #[tactic(auto, unfolding(crate::specs::Calls::new_instance))]
    pub fn new_instance(&mut self, class: Value) -> Result<ObjRef, NoMemory>
        ensures state { OnOk result (self.new ≡ calls.new_instance class self.old) }
        ensures object { IfOk result (λ o. o ≡ spec.next_object self.old) }
        ensures there { IfOk result (λ o. o.0 < length self.new.nodes) }
    {
        let attrs = Named::new(self.alloc);
        self.make(Object::Instance(class), Cell::Attrs(attrs))
    }

    /// Makes a class.
    #[tactic(auto, unfolding(crate::specs::Calls::new_class))]
    pub fn new_class(&mut self, name: Sym, base: Option<Value>) -> Result<ObjRef, NoMemory>
        ensures state { OnOk result (self.new ≡ calls.new_class name base self.old) }
        ensures object { IfOk result (λ o. o ≡ spec.next_object self.old) }
        ensures there { IfOk result (λ o. o.0 < length self.new.nodes) }
    {
        let attrs = Named::new(self.alloc);
        self.make(Object::Class { name, base }, Cell::Attrs(attrs))
    }

    /// Makes a function.
    #[tactic(auto, unfolding(crate::specs::Calls::new_function))]
    pub fn new_function(
        &mut self,
        name: Sym,
        code: CodeRef,
        defaults: Values,
        parent: ObjRef,
    ) -> Result<ObjRef, NoMemory>
        ensures state { OnOk result (self.new ≡ calls.new_function name code defaults parent self.old) }
        ensures object { IfOk result (λ o. o ≡ spec.next_object self.old) }
        ensures there { IfOk result (λ o. o.0 < length self.new.nodes) }
    {
        let function = Object::Function {
            name,
            code,
            defaults,
            parent,
        };
        self.make(function, Cell::Nothing)
    }
}

fn log_list(events: &mut Vec<Event>, o: ObjRef, count: usize) -> Result<(), NoMemory>
    ensures { OnOk result (events.new.items ≡ events.old.items ++ calls.item_writes o 0 count ++ Write (Shape o) ∷ []) }
{
    log_items(events, o, 0, count)?;
    events.push(Event::Write(Loc::Shape(o)))?;
    Ok(())
}

// The entries with a value at each of these keys in turn.
fn dict_of(alloc: Global, keys: &[Value], values: &[Value]) -> Result<Dict, NoMemory>
    ensures { IfOk result (λ d. d ≡ with_all [] keys.now values.now) }
{
    let mut dict = Dict::new(alloc);
    let mut left = keys;
    let mut given = values;
    while let [key, keys @ ..] = left {
        match given {
            [value, values @ ..] => {
                put(alloc, &mut dict, key, value)?;
                left = keys;
                given = values;
            }
            [] => return Ok(dict),
        }
    }
    Ok(dict)
}

fn put(alloc: Global, dict: &mut Dict, key: &Value, value: &Value) -> Result<(), NoMemory>
    ensures { OnOk result (dict.new ≡ with_keyed dict.old (keyed.key_of key.now) key.now value.now) }
{
    match key_of(alloc, key)? {
        Some(found) => dict.put(found, key.copy()?, value.copy()?),
        None => Ok(()),
    }
}
