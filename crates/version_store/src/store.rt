// The versions of a session.
ghost use Rattle.std.specs.Prelude.{◌≡◌, ◌⊎◌, ℕ, ◌+◌, ◌^◌, ◌<◌, ◌≤◌, [], ◌∷◌, ◌++◌, IfOk, IsTrue, MatchOption, OnErr, OnOk, length, map};
ghost use Rattle.std.specs.Option.{option_copied};
ghost use Rattle.trace_events.specs.History.{current, deps, location_of, version_seen, writes_of, wrote};
ghost use Rattle.trace_events.specs.Lawful.{AllLawful, IsAscendingFrom};
ghost use Rattle.trace_events.specs.declared.version.Version.{Version};
ghost use Rattle.version_store.specs.Dependents.{Touches};
ghost use Rattle.version_store.specs.Kept.{resolved};

use crate::followers::{Followers, follow_run, keep_followed};
use crate::kept::{Dependences, RunDependences};
use crate::latest::{Latest, latest_at, make_room, settle};
use crate::locations::Locations;
use crate::runs::Runs;
use flow_base::{Loc, NoMemory, RunNo};
use std::alloc::Global;
use std::marker::Model;
use trace_events::{Seen, Summary, Version, Write};

/// What each run of a session did, run 1 first. Contracts see the list of what is kept of the runs. What a version rests
/// on, and what a run touches of the versions before it, is found once, when the run is added.
#[derive(Drop)]
pub struct Versions {
    alloc: Global,
    runs: Runs,
    locations: Locations,
    latest: Vec<Latest>,
    followers: Followers,
}

impl Model for Versions {
    ghost use Rattle.std.specs.Coded.{codes};
    ghost use Rattle.flow_base.specs.contracts.key.Key as key;
    ghost use Rattle.trace_events.specs.History.{History};
    ghost use Rattle.version_store.specs.Dependents.{IsFollowed};
    ghost use Rattle.version_store.specs.Table.{IsCurrent};

    ghost Value = { History };

    ghost coded = { Prim.hlevel (codes, key.the_row.coded) };

    ghost view = { λ v. v.runs };

    ghost invariant = { λ v. IsCurrent v.runs v.locations v.latest.items × IsFollowed v.runs v.followers.index v.followers.held.items v.followers.touched.items };
}

impl Versions {
    pub fn new(alloc: Global) -> Versions
        ensures { result ≡ [] }
    {
        Versions {
            alloc,
            runs: Runs::new(alloc),
            locations: Locations::new(alloc),
            latest: Vec::new(alloc),
            followers: Followers::new(alloc),
        }
    }

    /// How many runs there are.
    pub fn len(&self) -> usize
        ensures len { result ≡ length self.now }
        ensures small { result < 2 ^ 63 }
        ensures lawful { AllLawful self.now }
    {
        self.runs.len()
    }

    /// What a run wrote, in the order of the places. Run 0, and a run to come, wrote nothing.
    pub fn writes(&self, run: RunNo) -> &[Write]
        ensures writes { result.now ≡ writes_of self.now run.0 }
        ensures lawful { IsAscendingFrom 0 result.now }
    {
        self.runs.writes(run)
    }

    /// The version of a location now, if a run wrote it.
    pub fn current(&self, loc: &Loc) -> Option<(RunNo, u64)>
        ensures { MatchOption result (current self.now (length self.now) loc.now ≡ Version.Empty loc.now) (λ p. current self.now (length self.now) loc.now ≡ Version.Written p.0 p.1) }
    {
        match self.locations.find(loc) {
            Some(number) => latest_at(self.latest.as_slice(), number),
            None => None,
        }
    }

    /// The last run that wrote the location of a version, or run 0 where none did. Takes no time that grows with the runs.
    pub fn last_writer(&self, v: &Version) -> RunNo
        ensures writer { (result.0 ≡ 0) ⊎ IsTrue (wrote self.now result.0 v.now) }
        ensures last { (m : ℕ) → IsTrue (wrote self.now m v.now) → m ≤ result.0 }
    {
        match self.location(v) {
            Some(location) => match self.current(location) {
                Some((run, _)) => run,
                None => RunNo(0),
            },
            None => RunNo(0),
        }
    }

    /// The version that a read of the run after the last saw.
    fn version_seen(&self, run: RunNo, seen: &Seen) -> Result<Version, NoMemory>
        requires { run.0 ≡ length self.now + 1 }
        ensures { IfOk result (λ version. version ≡ version_seen self.now run.0 seen.now) }
    {
        match seen {
            Seen::Before(location) => match self.current(location) {
                Some((earlier, place)) => Ok(Version::Written(earlier, place)),
                None => Ok(Version::Empty(location.copy()?)),
            },
            Seen::Own(place) => Ok(Version::Written(run, *place)),
        }
    }

    /// The versions that reads of the run after the last saw.
    fn versions_seen(&self, run: RunNo, uses: &[Seen]) -> Result<Dependences, NoMemory>
        requires { run.0 ≡ length self.now + 1 }
        ensures { IfOk result (λ versions. versions ≡ map (version_seen self.now run.0) uses.now) }
    {
        let mut versions = Dependences::new(self.alloc);
        for seen in uses {
            versions.push(self.version_seen(run, seen)?)?;
        }
        Ok(versions)
    }

    /// What the writes of the run after the last rest on.
    fn resolve(&self, run: RunNo, writes: &[Write]) -> Result<RunDependences, NoMemory>
        requires { run.0 ≡ length self.now + 1 }
        ensures { IfOk result (λ found. found ≡ resolved self.now run.0 writes.now) }
    {
        let mut found = RunDependences::new(self.alloc);
        for write in writes {
            found.push(self.versions_seen(run, write.uses.as_slice())?)?;
        }
        Ok(found)
    }

    /// Adds what is kept of the run after the last.
    pub fn add_run(&mut self, run: RunNo, s: Summary) -> Result<(), NoMemory>
        requires { run.0 ≡ length self.old + 1 }
        ensures ok { OnOk result (self.new ≡ self.old ++ s ∷ []) }
        ensures err { OnErr result (self.new ≡ self.old) }
    {
        let found = self.resolve(run, s.writes())?;
        let followed = follow_run(
            self.alloc,
            &self.runs,
            &self.followers,
            &self.locations,
            self.latest.as_slice(),
            run,
            &s,
            &found,
        )?;
        make_room(&mut self.locations, &mut self.latest, s.writes())?;
        keep_followed(
            self.alloc,
            &mut self.followers,
            self.runs.len(),
            run,
            &s,
            &found,
            followed,
        )?;
        self.runs.add(s, found)?;
        let writes = self.runs.writes(run);
        settle(&self.locations, run, &mut self.latest, writes);
        Ok(())
    }

    /// What a version directly rests on. Takes no memory.
    pub fn deps(&self, v: &Version) -> &[Version]
        ensures { result.now ≡ deps self.now v.now }
    {
        self.runs.deps(v)
    }

    /// What a run touched: versions of earlier runs with an ancestor whose location it wrote. Those that were stale before
    /// may be left out, and a version may stand there more than once. Run 0, and a run to come, touched nothing.
    pub fn touched(&self, run: RunNo) -> &[(RunNo, u64)]
        ensures { Touches self.now run.0 result.now }
    {
        if run.0 == 0 {
            return &[];
        }
        if run.0 > self.runs.len() as u64 {
            return &[];
        }
        match self.followers.touched.get(run.0 as usize - 1) {
            Some(places) => places.as_slice(),
            None => &[],
        }
    }

    /// The location of a version, if there is such a version.
    pub fn location<'a>(&'a self, v: &'a Version) -> Option<&'a Loc>
        ensures { option_copied result ≡ location_of self.now v.now }
    {
        self.runs.location(v)
    }

    /// Whether a run wrote the location of a version.
    pub fn wrote(&self, run: RunNo, v: &Version) -> bool
        ensures { result ≡ wrote self.now run.0 v.now }
    {
        self.runs.wrote(run, v)
    }
}
