// Sets of versions that runs wrote, each as its run and its place.
ghost use Rattle.std.specs.Prelude.{◌≡◌, OnOk};
ghost use Rattle.trace_events.specs.declared.version.Version.{Version};
ghost use Rattle.dependence_graph.specs.Marks.{is_marked, AddsListed, AddsMark, AddsMarks, MarksIf};

use flow_base::{NoMemory, RunNo};
use std::collections::BTreeSet;
use trace_events::Version;

/// Whether a version is in a set.
pub fn is_marked(marks: &BTreeSet<(RunNo, u64)>, version: &Version) -> bool
    ensures { result ≡ is_marked marks.now version.now }
{
    match version {
        Version::Empty(_) => false,
        Version::Written(run, place) => marks.contains(&(*run, *place)),
    }
}

/// Marks the write at a place of a run.
pub fn mark(marks: &mut BTreeSet<(RunNo, u64)>, run: RunNo, place: u64) -> Result<(), NoMemory>
    ensures { OnOk result (AddsMark marks.old marks.new (Version.Written run place)) }
{
    marks.insert((run, place))?;
    Ok(())
}

/// Marks the write at a place of a run, where the test holds.
pub fn mark_if(
    marks: &mut BTreeSet<(RunNo, u64)>,
    run: RunNo,
    place: u64,
    test: bool,
) -> Result<(), NoMemory>
    ensures { OnOk result (MarksIf test marks.old marks.new (Version.Written run place)) }
{
    if test {
        mark(marks, run, place)?;
    }
    Ok(())
}

/// Marks all versions of a list.
pub fn mark_listed(
    marks: &mut BTreeSet<(RunNo, u64)>,
    places: &[(RunNo, u64)],
) -> Result<(), NoMemory>
    ensures { OnOk result (AddsListed marks.old places.now marks.new) }
{
    for (run, place) in places {
        mark(marks, *run, *place)?;
    }
    Ok(())
}

/// Adds all of other marks, which are used up.
pub fn mark_all(
    marks: &mut BTreeSet<(RunNo, u64)>,
    mut more: BTreeSet<(RunNo, u64)>,
) -> Result<(), NoMemory>
    ensures { OnOk result (AddsMarks marks.old more marks.new) }
{
    marks.append(&mut more)?;
    Ok(())
}
