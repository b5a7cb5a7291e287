// What is kept of a run.
ghost use Rattle.std.specs.Prelude.{◌≡◌, ◌<◌, ◌≤◌, MatchOption, IfOk, drop, length, slice_get, slice_index_or};
ghost use Rattle.std.specs.List.{list_any};
ghost use Rattle.flow_base.specs.Same.{loc_eq};
ghost use Rattle.flow_base.specs.declared.loc.Loc.{Loc};
ghost use Rattle.trace_events.specs.History.{write_at};
ghost use Rattle.trace_events.specs.Lawful.{IsAscendingFrom, IsLawful};
ghost use Rattle.trace_events.specs.Trace.{Written, last_write};

use flow_base::{Loc, NoMemory, ReadHow, Shared, same_loc};
use std::marker::Model;

/// What a read saw: what stood at the location before the run, or what the run itself wrote at an earlier place.
#[derive(Drop)]
pub enum Seen {
    Before(Loc),
    Own(u64),
}

impl Seen {
    /// The same, in the same memory.
    pub fn copy(&self) -> Result<Seen, NoMemory>
        ensures { IfOk result (λ seen. seen ≡ self.now) }
    {
        match self {
            Seen::Before(location) => Ok(Seen::Before(location.copy()?)),
            Seen::Own(place) => Ok(Seen::Own(*place)),
        }
    }
}

/// A read of what stood at the location before the run.
#[derive(Drop)]
pub struct StartRead {
    pub location: Loc,
    pub how: ReadHow,
}

/// A write: its place among the events, its location, and what was seen by the uses gathered on the statements open
/// there.
#[derive(Drop)]
pub struct Write {
    pub place: u64,
    pub location: Loc,
    pub uses: Shared<Seen>,
}

/// How many writes stand at places before this one, where the places ascend.
fn count_before(writes: &[Write], place: u64) -> usize
    requires { IsAscendingFrom 0 writes.now }
    ensures within { result ≤ length writes.now }
    ensures rest { write_at (drop result writes.now) place ≡ write_at writes.now place }
    ensures next { (d : Written) → result < length writes.now → place ≤ (slice_index_or writes.now result d).place }
{
    let mut low = 0;
    let mut high = writes.len();
    while low < high {
        let middle = low + (high - low) / 2;
        if writes[middle].place < place {
            low = middle + 1;
        } else {
            high = middle;
        }
    }
    low
}

/// The index of the write at a place, where the places ascend.
pub fn find_write(writes: &[Write], place: u64) -> Option<usize>
    requires { IsAscendingFrom 0 writes.now }
    ensures { MatchOption result (write_at writes.now place ≡ None) (λ k. (k < length writes.now) × (write_at writes.now place ≡ slice_get writes.now k)) }
{
    let index = count_before(writes, place);
    if index == writes.len() {
        return None;
    }
    if writes[index].place == place {
        Some(index)
    } else {
        None
    }
}

/// Whether a write is of a location.
fn is_of(write: &Write, location: &Loc) -> bool
    ensures { result ≡ loc_eq write.now.location location.now }
{
    same_loc(&write.location, location)
}

/// The place of the last write of a location.
#[tactic(auto, using(crate::proofs::Writes::last_write_at, crate::proofs::Writes::last_write_past))]
pub fn find_last(writes: &[Write], location: &Loc) -> Option<u64>
    ensures { result ≡ last_write location.now writes.now }
{
    let mut found = None;
    for write in writes {
        if is_of(write, location) {
            found = Some(write.place);
        }
    }
    found
}

/// Whether one of the writes is of a location.
pub fn has_location(writes: &[Write], location: &Loc) -> bool
    ensures { result ≡ list_any (λ w. loc_eq w.location location.now) writes.now }
{
    writes.iter().any(|write| is_of(write, location))
}

/// What is kept of a run: its reads of what stood before it, and its writes. Contracts see both as lists.
#[derive(Drop)]
pub struct Summary {
    reads: Vec<StartRead>,
    writes: Vec<Write>,
}

impl Model for Summary {
    ghost use Rattle.trace_events.specs.Lawful.{IsLawful};
    ghost use Rattle.trace_events.specs.Trace.{Summary};
    ghost use Rattle.flow_base.specs.contracts.key.Key as key;
    ghost use Rattle.std.specs.Coded.{codes};

    ghost Value = { Summary };

    ghost coded = { Prim.hlevel (codes, key.the_row.coded) };

    ghost view = { λ s. record { reads = s.reads.items; writes = s.writes.items } };

    ghost invariant = { λ s. IsLawful (record { reads = s.reads.items; writes = s.writes.items }) };
}

impl Summary {
    pub(crate) fn new(reads: Vec<StartRead>, writes: Vec<Write>) -> Summary
        requires { IsAscendingFrom 0 writes.items }
        ensures reads { result.reads ≡ reads.items }
        ensures writes { result.writes ≡ writes.items }
    {
        Summary { reads, writes }
    }

    /// The reads of what stood before the run.
    pub fn reads(&self) -> &[StartRead]
        ensures reads { result.now ≡ self.now.reads }
        ensures lawful { IsLawful self.now }
    {
        self.reads.as_slice()
    }

    /// The writes, in the order of their places.
    pub fn writes(&self) -> &[Write]
        ensures writes { result.now ≡ self.now.writes }
        ensures lawful { IsLawful self.now }
    {
        self.writes.as_slice()
    }
}
