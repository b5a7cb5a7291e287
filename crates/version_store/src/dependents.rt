// Which versions rest on a location.
ghost use Rattle.std.specs.Prelude.{◌≡◌, ◌↔◌, ℕ, ◌+◌, ◌<◌, ◌++◌, [], ◌∷◌, IfOk, IsTrue, OnErr, OnOk, length};
ghost use Rattle.std.specs.Option.{option_copied};
ghost use Rattle.std.specs.List.{Contains};
ghost use Rattle.trace_events.specs.declared.version.Version.{Version};
ghost use Rattle.trace_events.specs.History.{deps, location_of};
ghost use Rattle.version_store.specs.Dependents.{held_among, held_at, held_of, is_at, is_listed, listed_at, nth, rests, AddsAll, AddsAt, AddsIf, AddsPlace, IsIndexed, IsListed, Reaches};
ghost use Rattle.version_store.specs.Hash.{hash_version};

use crate::hash::hash_version;
use crate::locations::same;
use crate::runs::Runs;
use crate::within::push_within;
use flow_base::{Loc, NoMemory, RunNo, Shared, same_loc};
use std::alloc::Global;
use std::collections::{BTreeMap, BTreeSet};
use std::marker::Model;
use trace_events::{Summary, Version, find_write};

// ---- versions that runs wrote

/// Versions that runs wrote, each as its run and its place. Contracts see the list of them.
#[derive(Drop)]
pub struct Places {
    list: Vec<(RunNo, u64)>,
}

impl Model for Places {
    ghost use Rattle.std.specs.Prelude.{List, ℕ};
    ghost use Rattle.flow_base.specs.declared.numbers.RunNo.{RunNo};

    ghost Value = { List (RunNo × ℕ) };

    ghost view = { λ p. p.list.items };
}

impl Places {
    fn new(alloc: Global) -> Places
        ensures { result ≡ [] }
    {
        Places {
            list: Vec::new(alloc),
        }
    }

    fn push(&mut self, run: RunNo, place: u64) -> Result<(), NoMemory>
        ensures ok { OnOk result (self.new ≡ self.old ++ (run, place) ∷ []) }
        ensures err { OnErr result (self.new ≡ self.old) }
    {
        self.list.push((run, place))?;
        Ok(())
    }

    fn as_slice(&self) -> &[(RunNo, u64)]
        ensures { result.now ≡ self.now }
    {
        self.list.as_slice()
    }
}

/// What is reached, each version once, in the order in which it was found. Contracts see the list of it.
#[derive(Drop)]
pub struct Reached {
    list: Vec<(RunNo, u64)>,
    seen: BTreeSet<(RunNo, u64)>,
}

impl Model for Reached {
    ghost use Rattle.std.specs.Prelude.{List, ℕ};
    ghost use Rattle.flow_base.specs.declared.numbers.RunNo.{RunNo};
    ghost use Rattle.version_store.specs.Dependents.{IsSeen};

    ghost Value = { List (RunNo × ℕ) };

    ghost view = { λ r. r.list.items };

    ghost invariant = { λ r. IsSeen r.seen r.list.items };
}

impl Reached {
    fn new(alloc: Global) -> Reached
        ensures { result ≡ [] }
    {
        Reached {
            list: Vec::new(alloc),
            seen: BTreeSet::new(alloc),
        }
    }

    /// Puts a version at the end, if it is not in the list.
    fn add(&mut self, run: RunNo, place: u64) -> Result<(), NoMemory>
        ensures { OnOk result (AddsPlace self.old self.new (run, place)) }
    {
        if self.seen.contains(&(run, place)) {
            return Ok(());
        }
        self.list.reserve(1)?;
        self.seen.insert((run, place))?;
        push_within(&mut self.list, (run, place));
        Ok(())
    }

    fn add_if(&mut self, run: RunNo, place: u64, test: bool) -> Result<(), NoMemory>
        ensures { OnOk result (AddsIf test self.old self.new (run, place)) }
    {
        if test {
            self.add(run, place)?;
        }
        Ok(())
    }

    fn has(&self, version: &Version) -> bool
        ensures { result ≡ is_listed self.now version.now }
    {
        match version {
            Version::Empty(_) => false,
            Version::Written(run, place) => self.seen.contains(&(*run, *place)),
        }
    }

    pub fn as_slice(&self) -> &[(RunNo, u64)]
        ensures { result.now ≡ self.now }
    {
        self.list.as_slice()
    }
}

// ---- where the versions are listed that directly rest on a version

/// Lists a version with one that it directly rests on.
pub fn list_with(
    alloc: Global,
    index: &mut BTreeMap<u64, Places>,
    on: &Version,
    run: RunNo,
    place: u64,
) -> Result<(), NoMemory>
    ensures ok { OnOk result (AddsAt index.old index.new (hash_version on.now) (run, place)) }
    ensures err { OnErr result ((number : ℕ) → listed_at index.new number ≡ listed_at index.old number) }
{
    list_at(alloc, index, hash_version(on), run, place)
}

fn list_at(
    alloc: Global,
    index: &mut BTreeMap<u64, Places>,
    number: u64,
    run: RunNo,
    place: u64,
) -> Result<(), NoMemory>
    ensures ok { OnOk result (AddsAt index.old index.new number (run, place)) }
    ensures err { OnErr result ((n : ℕ) → listed_at index.new n ≡ listed_at index.old n) }
{
    if let Some(places) = index.get_mut(&number) {
        return places.push(run, place);
    }
    let mut places = Places::new(alloc);
    places.push(run, place)?;
    index.insert(number, places)?;
    Ok(())
}

fn listed_with<'a>(index: &'a BTreeMap<u64, Places>, on: &Version) -> &'a [(RunNo, u64)]
    ensures { result.now ≡ listed_at index.now (hash_version on.now) }
{
    match index.get(&hash_version(on)) {
        Some(places) => places.as_slice(),
        None => &[],
    }
}

// ---- what is reached from a version

fn same_version(a: &Version, b: &Version) -> bool
    ensures { IsTrue result ↔ (a.now ≡ b.now) }
{
    match (a, b) {
        (Version::Empty(location), Version::Empty(other)) => same_loc(location, other),
        (Version::Written(run, place), Version::Written(other, at)) => {
            run == other && place == at
        }
        _ => false,
    }
}

// Whether the version of a write directly rests on a version.
fn rests_directly(runs: &Runs, run: RunNo, place: u64, on: &Version) -> bool
    ensures { IsTrue result ↔ Contains (deps runs.now (Version.Written run place)) on.now }
{
    runs.deps(&Version::Written(run, place))
        .iter()
        .any(|v| same_version(v, on))
}

// All versions that directly rest on a version.
fn add_dependents(
    runs: &Runs,
    index: &BTreeMap<u64, Places>,
    on: &Version,
    reached: &mut Reached,
) -> Result<(), NoMemory>
    requires { IsIndexed runs.now index.now }
    ensures { OnOk result (AddsAll reached.old reached.new (λ v. Contains (deps runs.now v) on.now)) }
{
    for at in listed_with(index, on) {
        let (run, place) = *at;
        let test = rests_directly(runs, run, place, on);
        reached.add_if(run, place, test)?;
    }
    Ok(())
}

// The versions of its run that are kept as resting on its location.
fn add_held(
    held: &[Shared<(u64, u64)>],
    version: &Version,
    reached: &mut Reached,
) -> Result<(), NoMemory>
    ensures { OnOk result (AddsAll reached.old reached.new (λ v. Contains (held_at held.now version.now) v)) }
{
    let Version::Written(run, place) = version else {
        return Ok(());
    };
    add_held_at(held_of(held, *run), *run, *place, reached)
}

fn add_held_at(
    pairs: &[(u64, u64)],
    run: RunNo,
    place: u64,
    reached: &mut Reached,
) -> Result<(), NoMemory>
    ensures { OnOk result (AddsAll reached.old reached.new (λ v. Contains (held_among run place pairs.now) v)) }
{
    for pair in pairs {
        let (of, at) = *pair;
        let test = of == place;
        reached.add_if(run, at, test)?;
    }
    Ok(())
}

fn held_of(held: &[Shared<(u64, u64)>], run: RunNo) -> &[(u64, u64)]
    ensures { result.now ≡ held_of held.now run.0 }
{
    if run.0 == 0 {
        return &[];
    }
    match held.get(run.0 as usize - 1) {
        Some(pairs) => pairs.as_slice(),
        None => &[],
    }
}

/// What rests on the location of its last version.
pub fn reached_from(
    alloc: Global,
    runs: &Runs,
    index: &BTreeMap<u64, Places>,
    held: &[Shared<(u64, u64)>],
    from: &Version,
) -> Result<Reached, NoMemory>
    requires { IsIndexed runs.now index.now }
    ensures { IfOk result (λ reached. (v : Version) → IsListed reached v ↔ Reaches runs.now held.now from.now v) }
{
    let mut reached = Reached::new(alloc);
    add_held(held, from, &mut reached)?;
    add_dependents(runs, index, from, &mut reached)?;
    let mut next = 0;
    while next < reached.as_slice().len() {
        go_on(runs, index, next, &mut reached)?;
        next += 1;
    }
    Ok(reached)
}

// All versions that directly rest on one of those reached.
fn go_on(
    runs: &Runs,
    index: &BTreeMap<u64, Places>,
    next: usize,
    reached: &mut Reached,
) -> Result<(), NoMemory>
    requires indexed { IsIndexed runs.now index.now }
    requires within { next < length reached.old }
    ensures { OnOk result (AddsAll reached.old reached.new (λ v. Contains (deps runs.now v) (nth reached.old next))) }
{
    let (run, place) = reached.as_slice()[next];
    add_dependents(runs, index, &Version::Written(run, place), reached)
}

// ---- what rests on a location that its own run writes

// Whether a version of a history with one run more is of a location.
fn is_at(runs: &Runs, s: &Summary, run: RunNo, version: &Version, location: &Loc) -> bool
    requires { run.0 ≡ length runs.now + 1 }
    ensures { result ≡ is_at (location_of (runs.now ++ s.now ∷ []) version.now) location.now }
{
    match location_with(runs, s, run, version) {
        Some(other) => same(other, location),
        None => false,
    }
}

fn location_with<'a>(
    runs: &'a Runs,
    s: &'a Summary,
    run: RunNo,
    version: &'a Version,
) -> Option<&'a Loc>
    requires { run.0 ≡ length runs.now + 1 }
    ensures { option_copied result ≡ location_of (runs.now ++ s.now ∷ []) version.now }
{
    match version {
        Version::Written(of, place) if *of == run => match find_write(s.writes(), *place) {
            Some(index) => Some(&s.writes()[index].location),
            None => None,
        },
        _ => runs.location(version),
    }
}

/// Whether one of the versions is of the location, or is reached.
pub fn rests(
    runs: &Runs,
    s: &Summary,
    run: RunNo,
    location: &Loc,
    reached: &Reached,
    deps: &[Version],
) -> bool
    requires { run.0 ≡ length runs.now + 1 }
    ensures { result ≡ rests (runs.now ++ s.now ∷ []) location.now reached.now deps.now }
{
    deps.iter()
        .any(|u| is_at(runs, s, run, u, location) || reached.has(u))
}
