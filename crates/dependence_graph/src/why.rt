// Why a version is stale.
ghost use Rattle.std.specs.Prelude.{◌≡◌, ◌+◌, ◌-◌, ◌<◌, ◌≤◌, ◌&&◌, ◌++◌, [], ◌∷◌, if◌then◌else◌, IfOk, OnOk, filter, is_some, length, nat_lt};
ghost use Rattle.std.specs.Option.{option_copied};
ghost use Rattle.trace_events.specs.History.{run_of, made_upto};
ghost use Rattle.trace_events.specs.Lawful.{AllLawful};
ghost use Rattle.trace_events.specs.Staleness.{Stale};
ghost use Rattle.trace_events.specs.Why.{first_overwrite, least, least_overwritten, least_stale_near, lesser, reason_of_dep, why_of};
ghost use Rattle.dependence_graph.specs.Answer.{IsStep, answer_of, number_of};
ghost use Rattle.dependence_graph.specs.Marks.{is_marked, MarksExactly};

use crate::gather::reached_from;
use crate::graph::pass_run;
use crate::marks::is_marked;
use crate::order::compare_versions;
use flow_base::{Loc, Names, NoMemory, RunNo};
use std::alloc::Global;
use std::collections::BTreeSet;
use trace_events::Version;
use version_store::Versions;

/// What a stale version rests on that was overwritten: its location, the run that computed what rests on it, and the first
/// run that overwrote it.
#[derive(Drop)]
pub struct Why {
    pub dep: Loc,
    pub computed: RunNo,
    pub overwritten: RunNo,
}

// The answer, or the near version that has the same answer.
#[derive(Drop)]
pub enum Step {
    Done(Option<Why>),
    Next(Version),
}

/// Why a version is stale when the last run has ended, and `None` exactly where it is not.
pub fn find_why(
    alloc: Global,
    versions: &Versions,
    names: &Names,
    version: &Version,
) -> Result<Option<Why>, NoMemory>
    ensures { IfOk result (λ o. o ≡ answer_of versions.now (why_of names.now versions.now (length versions.now) version.now)) }
{
    let mut last = RunNo(versions.len() as u64);
    let mut at = version.copy()?;
    loop {
        match next_step(alloc, versions, names, last, &at)? {
            Step::Done(answer) => return Ok(answer),
            Step::Next(near) => {
                last = RunNo(at.run().0 - 1);
                at = near;
            }
        }
    }
}

fn next_step(
    alloc: Global,
    versions: &Versions,
    names: &Names,
    last: RunNo,
    version: &Version,
) -> Result<Step, NoMemory>
    requires { AllLawful versions.now }
    ensures { IfOk result (λ s. IsStep names.now versions.now last.0 version.now s) }
{
    if let Some(dep) = least_overwritten(alloc, versions, names, last, version)? {
        return Ok(Step::Done(answer(versions, last, version, &dep)?));
    }
    match least_stale_near(alloc, versions, names, version)? {
        Some(near) => Ok(Step::Next(near)),
        None => Ok(Step::Done(None)),
    }
}

fn answer(
    versions: &Versions,
    last: RunNo,
    version: &Version,
    dep: &Version,
) -> Result<Option<Why>, NoMemory>
    ensures { IfOk result (λ o. o ≡ answer_of versions.now (reason_of_dep versions.now last.0 version.now (Some dep.now))) }
{
    let Some(overwritten) = first_overwrite(versions, version.run(), last, dep) else {
        return Ok(None);
    };
    match versions.location(dep) {
        Some(location) => Ok(Some(Why {
            dep: location.copy()?,
            computed: version.run(),
            overwritten,
        })),
        None => Ok(None),
    }
}

// The first run after `after`, up to `last`, that wrote the location of a version.
fn first_overwrite(
    versions: &Versions,
    after: RunNo,
    last: RunNo,
    version: &Version,
) -> Option<RunNo>
    ensures { number_of result ≡ first_overwrite versions.now after.0 last.0 version.now }
{
    let upto = last.0.min(versions.last_writer(version).0);
    for before in after.0..upto {
        if versions.wrote(RunNo(before + 1), version) {
            return Some(RunNo(before + 1));
        }
    }
    None
}

fn is_overwritten(versions: &Versions, after: RunNo, last: RunNo, version: &Version) -> bool
    ensures { result ≡ is_some (first_overwrite versions.now after.0 last.0 version.now) }
{
    first_overwrite(versions, after, last, version).is_some()
}

// The least ancestor whose location was written after the version's run, up to `last`.
fn least_overwritten(
    alloc: Global,
    versions: &Versions,
    names: &Names,
    last: RunNo,
    version: &Version,
) -> Result<Option<Version>, NoMemory>
    requires { AllLawful versions.now }
    ensures { IfOk result (λ o. o ≡ least_overwritten names.now versions.now last.0 version.now) }
{
    let run = version.run();
    if run.0 == 0 {
        return Ok(None);
    }
    let found = reached_from(alloc, versions, RunNo(1), version)?;
    let kept = overwritten_among(alloc, versions, run, last, &found)?;
    least_of(names, &kept)
}

fn overwritten_among(
    alloc: Global,
    versions: &Versions,
    after: RunNo,
    last: RunNo,
    found: &[Version],
) -> Result<Vec<Version>, NoMemory>
    ensures { IfOk result (λ kept. kept.items ≡ filter (λ u. is_some (first_overwrite versions.now after.0 last.0 u)) found.now) }
{
    let mut kept = Vec::new(alloc);
    for version in found {
        let test = is_overwritten(versions, after, last, version);
        push_if(&mut kept, version, test)?;
    }
    Ok(kept)
}

// The least near version that was stale when the version's run began.
fn least_stale_near(
    alloc: Global,
    versions: &Versions,
    names: &Names,
    version: &Version,
) -> Result<Option<Version>, NoMemory>
    requires { AllLawful versions.now }
    ensures { IfOk result (λ o. o ≡ least_stale_near names.now versions.now version.now) }
{
    let run = version.run();
    if run.0 == 0 {
        return Ok(None);
    }
    let stale = stale_after(alloc, versions, RunNo(run.0 - 1))?;
    let found = reached_from(alloc, versions, run, version)?;
    let kept = stale_among(alloc, &stale, run, &found)?;
    least_of(names, &kept)
}

fn stale_among(
    alloc: Global,
    stale: &BTreeSet<(RunNo, u64)>,
    run: RunNo,
    found: &[Version],
) -> Result<Vec<Version>, NoMemory>
    ensures { IfOk result (λ kept. kept.items ≡ filter (λ u. nat_lt (run_of u) run.0 && is_marked stale.now u) found.now) }
{
    let mut kept = Vec::new(alloc);
    for version in found {
        let test = version.run().0 < run.0 && is_marked(stale, version);
        push_if(&mut kept, version, test)?;
    }
    Ok(kept)
}

// The versions that were stale when a run had ended.
fn stale_after(
    alloc: Global,
    versions: &Versions,
    run: RunNo,
) -> Result<BTreeSet<(RunNo, u64)>, NoMemory>
    requires { AllLawful versions.now }
    ensures { IfOk result (λ marks. MarksExactly (made_upto versions.now run.0) (Stale versions.now run.0) marks) }
{
    let mut stale = BTreeSet::new(alloc);
    for before in 0..run.0 {
        pass_run(alloc, versions, RunNo(before + 1), &mut stale)?;
    }
    Ok(stale)
}

fn push_if(kept: &mut Vec<Version>, version: &Version, test: bool) -> Result<(), NoMemory>
    ensures { OnOk result (kept.new.items ≡ kept.old.items ++ (if test then version.now ∷ [] else [])) }
{
    if test {
        kept.push(version.copy()?)?;
    }
    Ok(())
}

fn least_of(names: &Names, versions: &[Version]) -> Result<Option<Version>, NoMemory>
    ensures { IfOk result (λ o. o ≡ least names.now versions.now) }
{
    match least(names, versions) {
        Some(version) => Ok(Some(version.copy()?)),
        None => Ok(None),
    }
}

fn least<'a>(names: &Names, versions: &'a [Version]) -> Option<&'a Version>
    ensures { option_copied result ≡ least names.now versions.now }
{
    let mut best = None;
    let mut left = versions.len();
    while left > 0 {
        left -= 1;
        best = Some(lesser(names, &versions[left], best));
    }
    best
}

fn lesser<'a>(names: &Names, version: &'a Version, best: Option<&'a Version>) -> &'a Version
    ensures { result.now ≡ lesser names.now version.now (option_copied best.entry) }
{
    match best {
        Some(other) if compare_versions(names, other, version).is_lt() => other,
        _ => version,
    }
}
