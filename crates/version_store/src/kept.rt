// What versions rest on, as it is kept.
ghost use Rattle.std.specs.Prelude.{◌≡◌, [], ◌∷◌, ◌++◌, OnErr, OnOk, slice_index_or, take};

use flow_base::NoMemory;
use std::alloc::Global;
use std::marker::Model;
use trace_events::Version;

/// What a version directly rests on.
#[derive(Drop)]
pub struct Dependences {
    versions: Vec<Version>,
}

impl Model for Dependences {
    ghost use Rattle.std.specs.Prelude.{List};
    ghost use Rattle.std.specs.Coded.{codes};
    ghost use Rattle.flow_base.specs.contracts.key.Key as key;
    ghost use Rattle.trace_events.specs.declared.version.Version.{Version};

    ghost Value = { List Version };

    ghost coded = { Prim.hlevel (codes, key.the_row.coded) };

    ghost view = { λ d. d.versions.items };
}

impl Dependences {
    pub fn new(alloc: Global) -> Dependences
        ensures { result ≡ [] }
    {
        Dependences {
            versions: Vec::new(alloc),
        }
    }

    pub fn push(&mut self, version: Version) -> Result<(), NoMemory>
        ensures { OnOk result (self.new ≡ self.old ++ version ∷ []) }
    {
        self.versions.push(version)?;
        Ok(())
    }

    pub fn as_slice(&self) -> &[Version]
        ensures { result.now ≡ self.now }
    {
        self.versions.as_slice()
    }
}

/// What each of the versions that a run wrote directly rests on, in the order of their places.
#[derive(Drop)]
pub struct RunDependences {
    of_writes: Vec<Dependences>,
}

impl Model for RunDependences {
    ghost use Rattle.std.specs.Prelude.{List};
    ghost use Rattle.std.specs.Coded.{codes};
    ghost use Rattle.flow_base.specs.contracts.key.Key as key;
    ghost use Rattle.trace_events.specs.declared.version.Version.{Version};

    ghost Value = { List (List Version) };

    ghost coded = { Prim.hlevel (codes, key.the_row.coded) };

    ghost view = { λ d. d.of_writes.items };
}

impl RunDependences {
    pub fn new(alloc: Global) -> RunDependences
        ensures { result ≡ [] }
    {
        RunDependences {
            of_writes: Vec::new(alloc),
        }
    }

    pub fn push(&mut self, dependences: Dependences) -> Result<(), NoMemory>
        ensures { OnOk result (self.new ≡ self.old ++ dependences ∷ []) }
    {
        self.of_writes.push(dependences)?;
        Ok(())
    }

    pub fn at(&self, index: usize) -> &[Version]
        ensures { result.now ≡ slice_index_or self.now index [] }
    {
        match self.of_writes.get(index) {
            Some(dependences) => dependences.as_slice(),
            None => &[],
        }
    }
}

/// Keeps one item more after the first `count`.
pub fn keep<T: Drop>(kept: &mut Vec<T>, count: usize, found: T) -> Result<(), NoMemory>
    ensures ok { OnOk result (kept.new.items ≡ take count kept.old.items ++ found ∷ []) }
    ensures err { OnErr result (kept.new.items ≡ take count kept.old.items) }
{
    kept.truncate(count);
    kept.push(found)?;
    Ok(())
}

/// What is kept at the index of a run and the index of a write.
pub fn kept_at(kept: &[RunDependences], run: usize, write: usize) -> &[Version]
    ensures { result.now ≡ slice_index_or (slice_index_or kept.now run []) write [] }
{
    match kept.get(run) {
        Some(dependences) => dependences.at(write),
        None => &[],
    }
}
