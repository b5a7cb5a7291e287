// What is kept beside the runs, to find what rests on a location without going over all versions.
ghost use Rattle.std.specs.Prelude.{◌≡◌, ◌+◌, ◌++◌, [], ◌∷◌, IfOk, OnOk, if◌then◌else◌, length, take};
ghost use Rattle.std.specs.List.{Contains};
ghost use Rattle.trace_events.specs.declared.version.Version.{Version};
ghost use Rattle.trace_events.specs.History.{current, History};
ghost use Rattle.version_store.specs.Dependents.{holders, listed_at, Follows, FollowsWrite, Grows, IsIndexed, KeepsFirst, ListsAll};
ghost use Rattle.version_store.specs.Hash.{hash_version};
ghost use Rattle.version_store.specs.Kept.{resolved};
ghost use Rattle.version_store.specs.Table.{number_of, version_in, IsCurrent};

use crate::dependents::{Places, Reached, list_with, reached_from, rests};
use crate::kept::{RunDependences, keep};
use crate::latest::{Latest, latest_at};
use crate::locations::Locations;
use crate::runs::Runs;
use flow_base::{Loc, NoMemory, RunNo, Shared};
use std::alloc::Global;
use std::collections::BTreeMap;
use trace_events::{Summary, Version, Write, find_last};

/// Where the versions are listed that directly rest on a version; of each run, what of it rests on a location that it
/// wrote; and of each run, what it touched that was not stale before.
#[derive(Drop)]
pub struct Followers {
    pub index: BTreeMap<u64, Places>,
    pub held: Vec<Shared<(u64, u64)>>,
    pub touched: Vec<Shared<(RunNo, u64)>>,
}

impl Followers {
    pub fn new(alloc: Global) -> Followers {
        Followers {
            index: BTreeMap::new(alloc),
            held: Vec::new(alloc),
            touched: Vec::new(alloc),
        }
    }
}

/// The same of one run.
#[derive(Drop)]
pub struct FollowedRun {
    pub held: Vec<(u64, u64)>,
    pub touched: Vec<(RunNo, u64)>,
}

/// What is kept of the run after the last.
pub fn follow_run(
    alloc: Global,
    runs: &Runs,
    followers: &Followers,
    locations: &Locations,
    latest: &[Latest],
    run: RunNo,
    s: &Summary,
    found: &RunDependences,
) -> Result<FollowedRun, NoMemory>
    requires next { run.0 ≡ length runs.now + 1 }
    requires found { found.now ≡ resolved runs.now run.0 s.now.writes }
    requires indexed { IsIndexed runs.now followers.now.index }
    requires current { IsCurrent runs.now locations.now latest.now }
    ensures { IfOk result (λ f. Follows runs.now s.now followers.now.held.items s.now.writes f.held.items f.touched.items) }
{
    let mut followed = FollowedRun {
        held: Vec::new(alloc),
        touched: Vec::new(alloc),
    };
    for write in s.writes() {
        let from = last_version(locations, latest, &write.location)?;
        follow_write(
            alloc,
            runs,
            followers,
            &from,
            run,
            s,
            found,
            write,
            &mut followed,
        )?;
    }
    Ok(followed)
}

// The version of a location when the last run has ended.
fn last_version(
    locations: &Locations,
    latest: &[Latest],
    location: &Loc,
) -> Result<Version, NoMemory>
    ensures { IfOk result (λ version. version ≡ version_in latest.now location.now (number_of location.now locations.now)) }
{
    let version = match locations.find(location) {
        Some(number) => latest_at(latest, number),
        None => None,
    };
    match version {
        Some((run, place)) => Ok(Version::Written(run, place)),
        None => Ok(Version::Empty(location.copy()?)),
    }
}

fn follow_write(
    alloc: Global,
    runs: &Runs,
    followers: &Followers,
    from: &Version,
    run: RunNo,
    s: &Summary,
    found: &RunDependences,
    write: &Write,
    followed: &mut FollowedRun,
) -> Result<(), NoMemory>
    requires next { run.0 ≡ length runs.now + 1 }
    requires found { found.now ≡ resolved runs.now run.0 s.now.writes }
    requires indexed { IsIndexed runs.now followers.now.index }
    requires from { from.now ≡ current runs.now (length runs.now) write.now.location }
    ensures { OnOk result (FollowsWrite runs.now s.now followers.now.held.items write.now followed.old.held.items followed.new.held.items followed.old.touched.items followed.new.touched.items) }
{
    if find_last(s.writes(), &write.location) != Some(write.place) {
        return Ok(());
    }
    let reached = reached_from(
        alloc,
        runs,
        &followers.index,
        followers.held.as_slice(),
        from,
    )?;
    hold(runs, run, s, found, write, &reached, &mut followed.held)?;
    followed.touched.extend_from_slice(reached.as_slice())?;
    Ok(())
}

// What of the run rests on the location of a write.
fn hold(
    runs: &Runs,
    run: RunNo,
    s: &Summary,
    found: &RunDependences,
    write: &Write,
    reached: &Reached,
    held: &mut Vec<(u64, u64)>,
) -> Result<(), NoMemory>
    requires next { run.0 ≡ length runs.now + 1 }
    requires found { found.now ≡ resolved runs.now run.0 s.now.writes }
    ensures { OnOk result (held.new.items ≡ held.old.items ++ holders runs.now s.now reached.now write.now s.now.writes) }
{
    for (i, other) in s.writes().iter().enumerate() {
        let test = rests(runs, s, run, &write.location, reached, found.at(i));
        push_if(held, (write.place, other.place), test)?;
    }
    Ok(())
}

fn push_if(held: &mut Vec<(u64, u64)>, pair: (u64, u64), test: bool) -> Result<(), NoMemory>
    ensures { OnOk result (held.new.items ≡ held.old.items ++ (if test then pair ∷ [] else [])) }
{
    if test {
        held.push(pair)?;
    }
    Ok(())
}

/// Keeps what was found of the run after the first `count`.
pub fn keep_followed(
    alloc: Global,
    followers: &mut Followers,
    count: usize,
    run: RunNo,
    s: &Summary,
    found: &RunDependences,
    followed: FollowedRun,
) -> Result<(), NoMemory>
    ensures grown { Grows followers.old.index followers.new.index }
    ensures held { KeepsFirst count followers.old.held.items followers.new.held.items }
    ensures touched { KeepsFirst count followers.old.touched.items followers.new.touched.items }
    ensures listed { OnOk result ((h : History) → run.0 ≡ length h + 1 → found.now ≡ resolved h run.0 s.now.writes → ListsAll h followers.new.index s.now.writes) }
    ensures new_held { OnOk result (followers.new.held.items ≡ take count followers.old.held.items ++ followed.held.items ∷ []) }
    ensures new_touched { OnOk result (followers.new.touched.items ≡ take count followers.old.touched.items ++ followed.touched.items ∷ []) }
{
    let FollowedRun { held, touched } = followed;
    let held = Shared::from_vec(alloc, held)?;
    let touched = Shared::from_vec(alloc, touched)?;
    list_all(alloc, &mut followers.index, run, s, found)?;
    keep(&mut followers.held, count, held)?;
    keep(&mut followers.touched, count, touched)?;
    Ok(())
}

// Lists each version of a run with each version that it directly rests on.
fn list_all(
    alloc: Global,
    index: &mut BTreeMap<u64, Places>,
    run: RunNo,
    s: &Summary,
    found: &RunDependences,
) -> Result<(), NoMemory>
    ensures grown { Grows index.old index.new }
    ensures listed { OnOk result ((h : History) → run.0 ≡ length h + 1 → found.now ≡ resolved h run.0 s.now.writes → ListsAll h index.new s.now.writes) }
{
    for (i, write) in s.writes().iter().enumerate() {
        list_write(alloc, index, found.at(i), run, write.place)?;
    }
    Ok(())
}

fn list_write(
    alloc: Global,
    index: &mut BTreeMap<u64, Places>,
    deps: &[Version],
    run: RunNo,
    place: u64,
) -> Result<(), NoMemory>
    ensures grown { Grows index.old index.new }
    ensures listed { OnOk result ((u : Version) → Contains deps.now u → Contains (listed_at index.new (hash_version u)) (run, place)) }
{
    for on in deps {
        list_with(alloc, index, on, run, place)?;
    }
    Ok(())
}
