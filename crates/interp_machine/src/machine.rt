// The machine that runs cells, and its primitive operations.
ghost use Rattle.std.specs.Prelude.{◌≡◌, IfOk};
ghost use Rattle.std.specs.Option.{option_copied};
ghost use Rattle.heap_objects.specs.State.{object_at};
ghost use Rattle.interp_machine.specs.Meaning as spec;
ghost use Rattle.interp_machine.specs.Meaning.{Runs};

use crate::stop::Stop;
use crate::symbols::fresh_names;
use flow_base::{Event, Key, Loc, Names, NoMemory, ObjRef, PyText, ReadHow};
use heap_objects::{Heap, Object, Value, Values};
use std::alloc::Global;

/// How many executions and evaluations may be open at once.
pub const MAX_DEPTH: u32 = 1500;

/// What a run goes on with: the objects and the events so far, the table of names, the steps that are left, how many executions and
/// evaluations are open, and what was printed.
#[derive(Drop)]
pub struct Machine {
    pub alloc: Global,
    pub heap: Heap,
    pub names: Names,
    pub left: u32,
    pub depth: u32,
    pub out: PyText,
}

impl Machine {
    /// The machine before every run: the global frame alone, and the names that every table begins with; no step is left and nothing printed.
    pub fn new(alloc: Global) -> Result<Machine, NoMemory>
        ensures { IfOk result (λ m. m ≡ spec.start m.alloc) }
    {
        Ok(Machine {
            alloc,
            heap: Heap::new(alloc)?,
            names: fresh_names(alloc)?,
            left: 0,
            depth: 0,
            out: PyText::from_points(alloc, Vec::new(alloc))?,
        })
    }

    /// Takes so many steps. `Stop::Steps` exactly where fewer are left; then all that are left are taken. Takes no memory.
    #[tactic(auto, unfolding(crate::specs::Meaning::steps))]
    pub fn steps(&mut self, n: u128) -> Result<(), Stop>
        ensures { Runs (spec.steps n self.old) result self.new }
    {
        if n <= self.left as u128 {
            self.left -= n as u32;
            return Ok(());
        }
        self.left = 0;
        Err(Stop::Steps)
    }

    /// Takes a step. `Stop::Steps` exactly where none is left. Takes no memory.
    pub fn step(&mut self) -> Result<(), Stop>
        ensures { Runs (spec.steps 1 self.old) result self.new }
    {
        self.steps(1)
    }

    /// How many levels may be open below what is open now. Takes no memory.
    pub fn levels_left(&self) -> u32
        ensures { result ≡ spec.levels_left self.now }
    {
        MAX_DEPTH.saturating_sub(self.depth)
    }

    /// The kind and the fixed part of an object, and `None` exactly where there is no such object, without an event. Takes no memory.
    pub fn fixed(&self, o: ObjRef) -> Option<&Object>
        ensures { option_copied result ≡ object_at self.now.heap o }
    {
        if o.0 < self.heap.object_count() as u64 {
            Some(self.heap.object(o))
        } else {
            None
        }
    }

    /// Uses a name, an attribute or an item: its value, and `None` exactly where it holds nothing. Takes memory for the event, and fails only
    /// for want of it.
    #[tactic(auto, unfolding(crate::specs::Meaning::load))]
    pub fn load(&mut self, loc: &Loc) -> Result<Option<Value>, Stop>
        ensures { Runs (spec.load loc.now self.old) result self.new }
    {
        let value = self.heap.load(loc, ReadHow::Use)?;
        Ok(value)
    }

    /// Uses the presence of a key in a dictionary: whether it is there. Takes memory for the event, and fails only for want of it.
    #[tactic(auto, unfolding(crate::specs::Meaning::present))]
    pub fn present(&mut self, d: ObjRef, k: &Key) -> Result<bool, Stop>
        ensures { Runs (spec.present d k.now self.old) result self.new }
    {
        let found = self.heap.present(d, k, ReadHow::Use)?;
        Ok(found)
    }

    /// Reads the length of a list, or the number of keys of a dictionary; that of another object is 0. Takes memory for the event, and fails
    /// only for want of it.
    #[tactic(auto, unfolding(crate::specs::Meaning::shape))]
    pub fn shape(&mut self, how: ReadHow, o: ObjRef) -> Result<usize, Stop>
        ensures { Runs (spec.shape how o self.old) result self.new }
    {
        let count = self.heap.shape(o, how)?;
        Ok(count)
    }

    /// The key of a dictionary at a place from 0, as it was first written, and `None` exactly where there is none, without an event. The key
    /// is shared with the dictionary.
    pub fn key_at(&self, d: ObjRef, i: usize) -> Result<Option<Value>, NoMemory>
        ensures { IfOk result (λ key. key ≡ spec.key_in self.now d i) }
    {
        if i < self.heap.key_count(d) {
            let key = self.heap.key_at(d, i)?;
            return Ok(Some(key));
        }
        Ok(None)
    }

    /// Writes a name or an attribute: it holds the value, or nothing. Takes memory, and fails only for want of it.
    #[tactic(auto, unfolding(crate::specs::Meaning::store))]
    pub fn store(&mut self, loc: &Loc, v: Option<Value>) -> Result<(), Stop>
        ensures { Runs (spec.store loc.now v self.old) result self.new }
    {
        self.heap.store(loc, v)?;
        Ok(())
    }

    /// Writes an item of a list, for a place below its length. Takes memory, and fails only for want of it.
    #[tactic(auto, unfolding(crate::specs::Meaning::list_put))]
    pub fn list_put(&mut self, o: ObjRef, i: usize, v: Value) -> Result<(), Stop>
        ensures { Runs (spec.list_put o i v self.old) result self.new }
    {
        self.heap.list_put(o, i, v)?;
        Ok(())
    }

    /// Puts values in the place of the items of a list from a place on, which is at most its length. Each item that changes is written, and
    /// then the shape where the length changed. Takes memory, and fails only for want of it.
    #[tactic(auto, unfolding(crate::specs::Meaning::list_splice))]
    pub fn list_splice(&mut self, o: ObjRef, i: usize, tail: Values) -> Result<(), Stop>
        ensures { Runs (spec.list_splice o i tail self.old) result self.new }
    {
        self.heap.list_splice(o, i, tail)?;
        Ok(())
    }

    /// Puts a value at the key of a value that has one, in a dictionary. Takes memory, and fails only for want of it.
    #[tactic(auto, unfolding(crate::specs::Meaning::dict_put))]
    pub fn dict_put(&mut self, d: ObjRef, k: &Value, v: Value) -> Result<(), Stop>
        ensures { Runs (spec.dict_put d k.now v self.old) result self.new }
    {
        self.heap.dict_put(d, k, v)?;
        Ok(())
    }

    /// Takes a key out of a dictionary. Takes memory, and fails only for want of it.
    #[tactic(auto, unfolding(crate::specs::Meaning::dict_remove))]
    pub fn dict_remove(&mut self, d: ObjRef, k: &Key) -> Result<(), Stop>
        ensures { Runs (spec.dict_remove d k.now self.old) result self.new }
    {
        self.heap.dict_remove(d, k)?;
        Ok(())
    }

    /// Makes a list, whose items and shape are written. Takes memory, and fails only for want of it.
    #[tactic(auto, unfolding(crate::specs::Meaning::new_list))]
    pub fn new_list(&mut self, items: Values) -> Result<ObjRef, Stop>
        ensures { Runs (spec.new_list items self.old) result self.new }
    {
        let o = self.heap.new_list(items)?;
        Ok(o)
    }

    /// Makes a dictionary of as many keys as values, each key with a key of its own; of equal keys the first stays, and the last value. Takes
    /// memory, and fails only for want of it.
    #[tactic(auto, unfolding(crate::specs::Meaning::new_dict))]
    pub fn new_dict(&mut self, keys: Values, values: Values) -> Result<ObjRef, Stop>
        ensures { Runs (spec.new_dict keys values self.old) result self.new }
    {
        let o = self.heap.new_dict(keys, values)?;
        Ok(o)
    }

    /// Makes an instance of a class object or of a built-in exception class. Takes memory, and fails only for want of it.
    #[tactic(auto, unfolding(crate::specs::Meaning::new_instance))]
    pub fn new_instance(&mut self, class: Value) -> Result<ObjRef, Stop>
        ensures { Runs (spec.new_instance class self.old) result self.new }
    {
        let o = self.heap.new_instance(class)?;
        Ok(o)
    }
}
