// The stale versions, kept from run to run.
ghost use Rattle.std.specs.Prelude.{◌≡◌, ℕ, ◌-◌, ◌<◌, ◌||◌, [], IfOk, OnOk, length, take};
ghost use Rattle.std.specs.List.{list_any};
ghost use Rattle.trace_events.specs.declared.version.Version.{Version};
ghost use Rattle.trace_events.specs.History.{made, made_upto};
ghost use Rattle.trace_events.specs.Staleness.{Stale};
ghost use Rattle.trace_events.specs.Lawful.{AllLawful};
ghost use Rattle.trace_events.specs.Why.{why_of};
ghost use Rattle.dependence_graph.specs.Answer.{answer_of};
ghost use Rattle.dependence_graph.specs.Marks.{carries, is_marked, IsExact, MarksExactly, MarksIf};
ghost use Rattle.version_store.specs.Dependents.{IsCarried};

use crate::marks::{is_marked, mark_all, mark_if, mark_listed};
use crate::why::{Why, find_why};
use flow_base::{Names, NoMemory, RunNo};
use std::alloc::Global;
use std::collections::BTreeSet;
use trace_events::Version;
use version_store::Versions;

/// The stale versions that runs wrote, each as its run and its place.
#[derive(Drop)]
pub struct Graph {
    pub stale: BTreeSet<(RunNo, u64)>,
}

impl Graph {
    /// No version is stale before the first run. Takes no memory.
    pub fn new(alloc: Global) -> Graph
        ensures { IsExact [] result.stale }
    {
        Graph {
            stale: BTreeSet::new(alloc),
        }
    }

    /// Goes on from the stale versions before the last run to those after it: what the run touched, and those of its own
    /// versions that directly rest on a stale one.
    pub fn after_run(&mut self, alloc: Global, versions: &Versions) -> Result<(), NoMemory>
        requires some { 0 < length versions.now }
        requires before { IsExact (take (length versions.now - 1) versions.now) self.old.stale }

        ensures { OnOk result (IsExact versions.now self.new.stale) }
    {
        let last = RunNo(versions.len() as u64);
        pass_run(alloc, versions, last, &mut self.stale)
    }

    /// Why a version is stale when the last run has ended, and `None` exactly where it is not.
    pub fn why(
        &self,
        alloc: Global,
        versions: &Versions,
        names: &Names,
        version: &Version,
    ) -> Result<Option<Why>, NoMemory>
        ensures { IfOk result (λ o. o ≡ answer_of versions.now (why_of names.now versions.now (length versions.now) version.now)) }
    {
        find_why(alloc, versions, names, version)
    }

    /// Whether a version is stale.
    pub fn is_stale(&self, version: &Version) -> bool
        ensures { result ≡ is_marked self.now.stale version.now }
    {
        is_marked(&self.stale, version)
    }
}

// From the stale versions before a run to those after it.
pub fn pass_run(
    alloc: Global,
    versions: &Versions,
    run: RunNo,
    stale: &mut BTreeSet<(RunNo, u64)>,
) -> Result<(), NoMemory>
    requires lawful { AllLawful versions.now }
    requires first { 0 < run.0 }
    requires before { MarksExactly (made_upto versions.now (run.0 - 1)) (Stale versions.now (run.0 - 1)) stale.old }

    ensures { OnOk result (MarksExactly (made_upto versions.now run.0) (Stale versions.now run.0) stale.new) }
{
    let fresh = carried_into(alloc, versions, run, stale)?;
    mark_listed(stale, versions.touched(run))?;
    mark_all(stale, fresh)?;
    Ok(())
}

// The versions of a run with a near version that was stale before it.
fn carried_into(
    alloc: Global,
    versions: &Versions,
    run: RunNo,
    stale: &BTreeSet<(RunNo, u64)>,
) -> Result<BTreeSet<(RunNo, u64)>, NoMemory>
    requires lawful { AllLawful versions.now }
    requires first { 0 < run.0 }
    requires before { MarksExactly (made_upto versions.now (run.0 - 1)) (Stale versions.now (run.0 - 1)) stale.now }

    ensures { IfOk result (λ marks. MarksExactly (made versions.now run.0) (IsCarried versions.now (run.0 - 1)) marks) }
{
    let mut fresh = BTreeSet::new(alloc);
    for write in versions.writes(run) {
        carry_write(versions, run, write.place, stale, &mut fresh)?;
    }
    Ok(fresh)
}

fn carry_write(
    versions: &Versions,
    run: RunNo,
    place: u64,
    stale: &BTreeSet<(RunNo, u64)>,
    fresh: &mut BTreeSet<(RunNo, u64)>,
) -> Result<(), NoMemory>
    ensures { OnOk result (MarksIf (carries versions.now stale.now fresh.old (Version.Written run place)) fresh.old fresh.new (Version.Written run place)) }
{
    let version = Version::Written(run, place);
    let hit = is_carried(stale, fresh, versions.deps(&version));
    mark_if(fresh, run, place, hit)
}

// Whether one of the versions has either mark.
fn is_carried(
    stale: &BTreeSet<(RunNo, u64)>,
    fresh: &BTreeSet<(RunNo, u64)>,
    deps: &[Version],
) -> bool
    ensures { result ≡ list_any (λ u. is_marked stale.now u || is_marked fresh.now u) deps.now }
{
    deps.iter()
        .any(|u| is_marked(stale, u) || is_marked(fresh, u))
}
