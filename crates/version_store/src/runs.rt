// What the runs of a session did, and what each version directly rests on.
ghost use Rattle.std.specs.Prelude.{◌≡◌, ◌+◌, ◌^◌, ◌<◌, [], ◌∷◌, ◌++◌, OnErr, OnOk, length};
ghost use Rattle.std.specs.Option.{option_copied};
ghost use Rattle.trace_events.specs.History.{deps, location_of, writes_of, wrote};
ghost use Rattle.trace_events.specs.Lawful.{AllLawful, IsAscendingFrom};
ghost use Rattle.version_store.specs.Kept.{resolved};

use crate::kept::{RunDependences, keep, kept_at};
use flow_base::{Loc, NoMemory, RunNo};
use std::alloc::Global;
use std::marker::Model;
use trace_events::{Summary, Version, Write, find_write, has_location};

/// What each run did, run 1 first, and what each version directly rests on, which is found once. Contracts see the list
/// of what is kept of the runs.
#[derive(Drop)]
pub struct Runs {
    summaries: Vec<Summary>,
    kept: Vec<RunDependences>,
}

impl Model for Runs {
    ghost use Rattle.std.specs.Coded.{codes};
    ghost use Rattle.flow_base.specs.contracts.key.Key as key;
    ghost use Rattle.trace_events.specs.History.{History};
    ghost use Rattle.version_store.specs.Kept.{IsKept};

    ghost Value = { History };

    ghost coded = { Prim.hlevel (codes, key.the_row.coded) };

    ghost view = { λ r. r.summaries.items };

    ghost invariant = { λ r. IsKept r.summaries.items r.kept.items };
}

impl Runs {
    pub fn new(alloc: Global) -> Runs
        ensures { result ≡ [] }
    {
        Runs {
            summaries: Vec::new(alloc),
            kept: Vec::new(alloc),
        }
    }

    pub fn len(&self) -> usize
        ensures len { result ≡ length self.now }
        ensures small { result < 2 ^ 63 }
        ensures lawful { AllLawful self.now }
    {
        self.summaries.len()
    }

    /// Adds what is kept of one more run, with what its versions rest on.
    pub fn add(&mut self, s: Summary, found: RunDependences) -> Result<(), NoMemory>
        requires { found ≡ resolved self.old (length self.old + 1) s.writes }
        ensures ok { OnOk result (self.new ≡ self.old ++ s ∷ []) }
        ensures err { OnErr result (self.new ≡ self.old) }
    {
        keep(&mut self.kept, self.summaries.len(), found)?;
        self.summaries.push(s)?;
        Ok(())
    }

    /// What a run wrote, in the order of the places. Run 0, and a run to come, wrote nothing.
    pub fn writes(&self, run: RunNo) -> &[Write]
        ensures writes { result.now ≡ writes_of self.now run.0 }
        ensures lawful { IsAscendingFrom 0 result.now }
    {
        if run.0 == 0 {
            return &[];
        }
        match self.summaries.get(run.0 as usize - 1) {
            Some(summary) => summary.writes(),
            None => &[],
        }
    }

    /// What a version directly rests on. Takes no memory.
    pub fn deps(&self, v: &Version) -> &[Version]
        ensures { result.now ≡ deps self.now v.now }
    {
        let Version::Written(run, place) = v else {
            return &[];
        };
        let Some(index) = find_write(self.writes(*run), *place) else {
            return &[];
        };
        kept_at(
            self.kept.as_slice(),
            (run.0 as usize).saturating_sub(1),
            index,
        )
    }

    /// The location of a version, if there is such a version.
    pub fn location<'a>(&'a self, v: &'a Version) -> Option<&'a Loc>
        ensures { option_copied result ≡ location_of self.now v.now }
    {
        match v {
            Version::Empty(location) => Some(location),
            Version::Written(run, place) => {
                let writes = self.writes(*run);
                match find_write(writes, *place) {
                    Some(index) => Some(&writes[index].location),
                    None => None,
                }
            }
        }
    }

    /// Whether a run wrote the location of a version.
    pub fn wrote(&self, run: RunNo, v: &Version) -> bool
        ensures { result ≡ wrote self.now run.0 v.now }
    {
        match self.location(v) {
            Some(location) => has_location(self.writes(run), location),
            None => false,
        }
    }
}
