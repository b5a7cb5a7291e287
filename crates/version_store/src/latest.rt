// The last version of each numbered location.
ghost use Rattle.std.specs.Prelude.{◌≡◌, ◌≤◌, ℕ, OnOk, length, slice_index_or};
ghost use Rattle.trace_events.specs.History.{History};
ghost use Rattle.version_store.specs.Table.{AllNumbered, IsCurrent, IsGrown, put, settled};

use crate::locations::Locations;
use flow_base::{NoMemory, RunNo};
use trace_events::Write;

/// The run and the place of the last write of a location, or none.
pub type Latest = Option<(RunNo, u64)>;

/// The version of the location with this number.
pub fn latest_at(latest: &[Latest], number: usize) -> Latest
    ensures { result ≡ slice_index_or latest.now number None }
{
    match latest.get(number) {
        Some(version) => *version,
        None => None,
    }
}

fn put(latest: &mut Vec<Latest>, number: Option<usize>, run: RunNo, place: u64)
    ensures { latest.new.items ≡ put latest.old.items number (Some (run, place)) }
{
    let Some(number) = number else {
        return;
    };
    if number < latest.len() {
        latest[number] = Some((run, place));
    }
}

/// Takes over the writes of a run. Takes no memory.
pub fn settle(locations: &Locations, run: RunNo, latest: &mut Vec<Latest>, writes: &[Write])
    ensures { latest.new.items ≡ settled locations.now run latest.old.items writes.now }
{
    for write in writes {
        put(latest, locations.find(&write.location), run, write.place);
    }
}

/// Gives a number to each location that is written.
fn number_all(locations: &mut Locations, writes: &[Write]) -> Result<(), NoMemory>
    ensures grown { IsGrown locations.old locations.new }
    ensures numbered { OnOk result (AllNumbered locations.new writes.now) }
{
    for write in writes {
        locations.add(&write.location)?;
    }
    Ok(())
}

/// Makes as many entries as there are locations.
fn fill(latest: &mut Vec<Latest>, count: usize) -> Result<(), NoMemory>
    requires { length latest.old.items ≤ count }
    ensures same { (i : ℕ) → slice_index_or latest.new.items i None ≡ slice_index_or latest.old.items i None }
    ensures within { length latest.new.items ≤ count }
    ensures enough { OnOk result (count ≤ length latest.new.items) }
{
    while latest.len() < count {
        latest.push(None)?;
    }
    Ok(())
}

/// Makes an entry for each location that is written. No version changes.
pub fn make_room(
    locations: &mut Locations,
    latest: &mut Vec<Latest>,
    writes: &[Write],
) -> Result<(), NoMemory>
    requires { length latest.old.items ≤ length locations.old }
    ensures same { (h : History) → IsCurrent h locations.old latest.old.items → IsCurrent h locations.new latest.new.items }
    ensures numbered { OnOk result (AllNumbered locations.new writes.now) }
    ensures enough { OnOk result (length locations.new ≤ length latest.new.items) }
{
    number_all(locations, writes)?;
    fill(latest, locations.len())
}
