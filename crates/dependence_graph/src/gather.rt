// What a version rests on, gathered over runs from a first one on.
ghost use Rattle.std.specs.Prelude.{◌≡◌, ◌↔◌, ℕ, ◌-◌, ◌<◌, ◌≤◌, [], ◌∷◌, ◌++◌, IfOk, OnOk, length, take};
ghost use Rattle.std.specs.List.{Contains};
ghost use Rattle.trace_events.specs.declared.version.Version.{Version};
ghost use Rattle.trace_events.specs.History.{made, made_upto, run_of};
ghost use Rattle.trace_events.specs.Lawful.{AllLawful};
ghost use Rattle.dependence_graph.specs.Visits.{AddsWritten, AreGathered, Reached, Visits};

use crate::marks::{is_marked, mark};
use flow_base::{NoMemory, RunNo};
use std::alloc::Global;
use std::collections::BTreeSet;
use trace_events::Version;
use version_store::Versions;

/// What is reached from a version of a run where the versions passed on the way are of runs from `floor` on. Each version
/// is visited once, the last ones first; what is reached may be listed several times.
pub fn reached_from(
    alloc: Global,
    versions: &Versions,
    floor: RunNo,
    target: &Version,
) -> Result<Vec<Version>, NoMemory>
    requires lawful { AllLawful versions.now }
    requires first { 0 < floor.0 }
    requires in_reach { floor.0 ≤ run_of target.now }

    ensures { IfOk result (λ found. (u : Version) → Contains found.items u ↔ Reached versions.now floor.0 target.now u) }
{
    let mut marks = BTreeSet::new(alloc);
    let mut found = Vec::new(alloc);
    mark_one(&mut marks, target)?;
    let mut left = target.run().0.min(versions.len() as u64);
    while left >= floor.0 {
        visit_run(versions, RunNo(left), floor, target, &mut marks, &mut found)?;
        left -= 1;
    }
    Ok(found)
}

fn visit_run(
    versions: &Versions,
    run: RunNo,
    floor: RunNo,
    target: &Version,
    marks: &mut BTreeSet<(RunNo, u64)>,
    found: &mut Vec<Version>,
) -> Result<(), NoMemory>
    requires lawful { AllLawful versions.now }
    requires first { 0 < run.0 }
    requires in_reach { floor.0 ≤ run.0 }
    requires before { AreGathered versions.now floor.0 target.now (made_upto versions.now run.0) marks.old found.old.items }

    ensures { OnOk result (AreGathered versions.now floor.0 target.now (made_upto versions.now (run.0 - 1)) marks.new found.new.items) }
{
    let writes = versions.writes(run);
    let mut left = writes.len();
    while left > 0 {
        left -= 1;
        visit(versions, run, writes[left].place, marks, found)?;
    }
    Ok(())
}

fn visit(
    versions: &Versions,
    run: RunNo,
    place: u64,
    marks: &mut BTreeSet<(RunNo, u64)>,
    found: &mut Vec<Version>,
) -> Result<(), NoMemory>
    ensures { OnOk result (Visits versions.now (Version.Written run place) marks.old marks.new found.old.items found.new.items) }
{
    let version = Version::Written(run, place);
    if is_marked(marks, &version) {
        let deps = versions.deps(&version);
        list_all(found, deps)?;
        mark_written(marks, deps)?;
    }
    Ok(())
}

fn list_all(found: &mut Vec<Version>, versions: &[Version]) -> Result<(), NoMemory>
    ensures { OnOk result (found.new.items ≡ found.old.items ++ versions.now) }
{
    for version in versions {
        found.push(version.copy()?)?;
    }
    Ok(())
}

fn mark_written(marks: &mut BTreeSet<(RunNo, u64)>, versions: &[Version]) -> Result<(), NoMemory>
    ensures { OnOk result (AddsWritten marks.old marks.new versions.now) }
{
    for version in versions {
        mark_one(marks, version)?;
    }
    Ok(())
}

fn mark_one(marks: &mut BTreeSet<(RunNo, u64)>, version: &Version) -> Result<(), NoMemory>
    ensures { OnOk result (AddsWritten marks.old marks.new (version.now ∷ [])) }
{
    if let Version::Written(run, place) = version {
        mark(marks, *run, *place)?;
    }
    Ok(())
}
