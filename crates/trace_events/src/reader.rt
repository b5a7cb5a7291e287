// Reads the events of a run, one after another.
ghost use Rattle.std.specs.Prelude.{◌≡◌, ◌^◌, ◌<◌, ◌++◌, [], ◌∷◌, IfOk, OnOk, reverse};
ghost use Rattle.trace_events.specs.Lawful.{IsAscendingFrom};
ghost use Rattle.trace_events.specs.Trace.{all_uses, close, gather, seen_after, start_read, step, summary_of};

use crate::summary::{Seen, StartRead, Summary, Write, find_last};
use flow_base::{Event, How, Loc, NoMemory, ReadHow, Shared};
use std::alloc::Global;
use std::marker::Model;

/// What the uses gathered on an open statement saw.
#[derive(Drop)]
struct Gathering {
    uses: Vec<Seen>,
}

impl Model for Gathering {
    ghost use Rattle.std.specs.Prelude.{List};
    ghost use Rattle.std.specs.Coded.{codes};
    ghost use Rattle.flow_base.specs.contracts.key.Key as key;
    ghost use Rattle.trace_events.specs.Trace.{Seen};

    ghost Value = { List Seen };

    ghost coded = { Prim.hlevel (codes, key.the_row.coded) };

    ghost view = { λ g. g.uses.items };
}

impl Gathering {
    fn new(alloc: Global) -> Gathering
        ensures { result ≡ [] }
    {
        Gathering {
            uses: Vec::new(alloc),
        }
    }

    fn push(&mut self, seen: Seen) -> Result<(), NoMemory>
        ensures { OnOk result (self.new ≡ self.old ++ seen ∷ []) }
    {
        self.uses.push(seen)?;
        Ok(())
    }

    fn as_slice(&self) -> &[Seen]
        ensures { result.now ≡ self.now }
    {
        self.uses.as_slice()
    }

    /// Moves all of another one to the end.
    fn take_all(&mut self, mut other: Gathering) -> Result<(), NoMemory>
        ensures { OnOk result (self.new ≡ self.old ++ other) }
    {
        self.uses.append(&mut other.uses)?;
        Ok(())
    }
}

/// A use is gathered on the innermost open statement, the last of the stack.
fn gather(stack: &mut Vec<Gathering>, seen: Seen) -> Result<(), NoMemory>
    ensures { OnOk result (reverse stack.new.items ≡ gather seen (reverse stack.old.items)) }
{
    if let Some(mut innermost) = stack.pop() {
        innermost.push(seen)?;
        stack.push(innermost)?;
    }
    Ok(())
}

/// A statement ends: its uses go to the next one outwards, or are forgotten.
fn close(stack: &mut Vec<Gathering>, how: How, calls: u64) -> Result<(), NoMemory>
    ensures { OnOk result (reverse stack.new.items ≡ close how calls (reverse stack.old.items)) }
{
    let Some(innermost) = stack.pop() else {
        return Ok(());
    };
    if how == How::Normal && calls == 0 {
        return Ok(());
    }
    if let Some(mut outer) = stack.pop() {
        outer.take_all(innermost)?;
        stack.push(outer)?;
    }
    Ok(())
}

/// Puts copies at the end.
fn push_copies(uses: &mut Vec<Seen>, more: &[Seen]) -> Result<(), NoMemory>
    ensures { OnOk result (uses.new.items ≡ uses.old.items ++ more.now) }
{
    for seen in more {
        uses.push(seen.copy()?)?;
    }
    Ok(())
}

/// What the uses of all open statements saw.
fn all_uses(alloc: Global, stack: &[Gathering]) -> Result<Shared<Seen>, NoMemory>
    ensures { IfOk result (λ uses. uses ≡ all_uses (reverse stack.now)) }
{
    let mut uses = Vec::new(alloc);
    for gathering in stack {
        push_copies(&mut uses, gathering.as_slice())?;
    }
    Shared::from_vec(alloc, uses)
}

/// What a read of a location sees.
fn seen_after(writes: &[Write], location: &Loc) -> Result<Seen, NoMemory>
    ensures { IfOk result (λ seen. seen ≡ seen_after writes.now location.now) }
{
    match find_last(writes, location) {
        Some(place) => Ok(Seen::Own(place)),
        None => Ok(Seen::Before(location.copy()?)),
    }
}

fn add_read(reads: &mut Vec<StartRead>, seen: &Seen, how: ReadHow) -> Result<(), NoMemory>
    ensures { OnOk result (reads.new.items ≡ reads.old.items ++ start_read seen.now how) }
{
    if let Seen::Before(location) = seen {
        reads.push(StartRead {
            location: location.copy()?,
            how,
        })?;
    }
    Ok(())
}

/// What the events so far leave.
#[derive(Drop)]
struct TraceReader {
    place: u64,
    stack: Vec<Gathering>,
    calls: u64,
    reads: Vec<StartRead>,
    writes: Vec<Write>,
}

impl Model for TraceReader {
    ghost use Rattle.std.specs.Prelude.{◌≤◌, reverse};
    ghost use Rattle.std.specs.Coded.{codes};
    ghost use Rattle.flow_base.specs.contracts.key.Key as key;
    ghost use Rattle.trace_events.specs.Trace.{Reading};

    ghost Value = { Reading };

    ghost coded = { Prim.hlevel (codes, key.the_row.coded) };

    ghost view = { λ r. record { place = r.place; open_uses = reverse r.stack.items; calls = r.calls; reads = r.reads.items; writes = r.writes.items } };

    ghost invariant = { λ r. r.calls ≤ r.place };
}

impl TraceReader {
    ghost use Rattle.trace_events.specs.Trace.{start};

    fn new(alloc: Global) -> TraceReader
        ensures { result ≡ start }
    {
        TraceReader {
            place: 0,
            stack: Vec::new(alloc),
            calls: 0,
            reads: Vec::new(alloc),
            writes: Vec::new(alloc),
        }
    }

    /// Takes one more event.
    fn read(&mut self, alloc: Global, event: &Event) -> Result<(), NoMemory>
        requires { self.old.place < 2 ^ 63 }
        ensures { OnOk result (self.new ≡ step self.old event.now) }
    {
        match event {
            Event::Use(location) => {
                let seen = seen_after(self.writes.as_slice(), location)?;
                add_read(&mut self.reads, &seen, ReadHow::Use)?;
                gather(&mut self.stack, seen)?;
            }
            Event::Place(location) => {
                let seen = seen_after(self.writes.as_slice(), location)?;
                add_read(&mut self.reads, &seen, ReadHow::Place)?;
            }
            Event::Write(location) => {
                let uses = all_uses(alloc, self.stack.as_slice())?;
                self.writes.push(Write {
                    place: self.place,
                    location: location.copy()?,
                    uses,
                })?;
            }
            Event::Open => self.stack.push(Gathering::new(alloc))?,
            Event::Close(how) => close(&mut self.stack, *how, self.calls)?,
            Event::CallIn => self.calls += 1,
            Event::CallOut => self.calls = self.calls.saturating_sub(1),
        }
        self.place += 1;
        Ok(())
    }

    fn finish(self) -> Summary
        requires { IsAscendingFrom 0 self.writes }
        ensures reads { result.reads ≡ self.reads }
        ensures writes { result.writes ≡ self.writes }
    {
        let TraceReader { reads, writes, .. } = self;
        Summary::new(reads, writes)
    }
}

/// What is kept of a run with these events.
pub fn summarize(alloc: Global, events: &[Event]) -> Result<Summary, NoMemory>
    ensures { IfOk result (λ s. s ≡ summary_of events.now) }
{
    let mut reader = TraceReader::new(alloc);
    for event in events {
        reader.read(alloc, event)?;
    }
    Ok(reader.finish())
}
