// At which objects runs began to make objects.
ghost use Rattle.std.specs.Prelude.{◌≡◌, ◌<◌, ◌≤◌, [], OnOk, length, slice_index_or};
ghost use Rattle.flow_base.specs.declared.numbers.RunNo.{RunNo};
ghost use Rattle.heap_objects.specs.State.{last_run, origin_from, started};
ghost use Rattle.heap_objects.specs.Starts.{AreAscending, IsBefore};

use flow_base::{NoMemory, RunNo};
use std::alloc::Global;
use std::marker::Model;

/// Each run that made objects, with the number of its first one, in the order of the runs. Contracts see the list of them.
#[derive(Drop)]
pub struct Starts {
    starts: Vec<(RunNo, u64)>,
}

impl Model for Starts {
    ghost use Rattle.std.specs.Prelude.{List, ℕ};
    ghost use Rattle.flow_base.specs.declared.numbers.RunNo.{RunNo};
    ghost use Rattle.heap_objects.specs.Starts.{AreAscending};

    ghost Value = { List (RunNo × ℕ) };

    ghost view = { λ s. s.starts.items };

    ghost invariant = { λ s. AreAscending s.starts.items };
}

impl Starts {
    pub fn new(alloc: Global) -> Starts
        ensures { result ≡ [] }
    {
        Starts {
            starts: Vec::new(alloc),
        }
    }

    /// The run makes the object with this number. A number that is not above those of all starts is answered by `NoMemory`;
    /// the numbers of objects only grow, so that it does not come.
    pub fn add(&mut self, run: RunNo, object: u64) -> Result<(), NoMemory>
        ensures { OnOk result (self.new ≡ started self.old run object) }
    {
        if last_run(self.starts.as_slice()) == run {
            return Ok(());
        }
        if object == 0 {
            return Err(NoMemory);
        }
        if before(self.starts.as_slice(), object - 1) < self.starts.len() {
            return Err(NoMemory);
        }
        self.starts.push((run, object))?;
        Ok(())
    }

    /// The run that made an object, and the place of the object, from 0, among those of that run.
    pub fn origin(&self, object: u64) -> (RunNo, u64)
        ensures { result ≡ origin_from (record { 0 = 0 }, 0) self.now object }
    {
        let before = before(self.starts.as_slice(), object);
        if before == 0 {
            return (RunNo(0), object);
        }
        let start = self.starts[before - 1];
        (start.0, object.saturating_sub(start.1))
    }
}

// How many starts are at or before an object.
fn before(starts: &[(RunNo, u64)], object: u64) -> usize
    requires { AreAscending starts.now }
    ensures { IsBefore starts.now object result }
{
    let mut low = 0;
    let mut high = starts.len();
    while low < high {
        let middle = low + (high - low) / 2;
        if starts[middle].1 <= object {
            low = middle + 1;
        } else {
            high = middle;
        }
    }
    low
}

// The last run that made objects.
fn last_run(starts: &[(RunNo, u64)]) -> RunNo
    ensures { result ≡ last_run starts.now }
{
    match starts.last() {
        Some(start) => start.0,
        None => RunNo(0),
    }
}
