// What is kept of runs that raise, call, and read what they wrote.
use crate::{Seen, Version, find_last, find_write, has_location, summarize};
use flow_base::{Event, How, Loc, NoMemory, ObjRef, ReadHow, RunNo, Sym};
use std::alloc::Global;
use std::test::Fail;

fn name(symbol: u64) -> Loc {
    Loc::Name(ObjRef(0), Sym(symbol))
}

// A statement around one that uses name 0 and ends in this way, in a call or not, and then a write of name 1.
fn nested(a: Global, how: How, in_call: bool) -> Result<Vec<Event>, NoMemory> {
    let mut events = vec![in a; Event::Open]?;
    if in_call {
        events.push(Event::CallIn)?;
    }
    events.push(Event::Open)?;
    events.push(Event::Use(name(0)))?;
    events.push(Event::Close(how))?;
    if in_call {
        events.push(Event::CallOut)?;
    }
    events.push(Event::Write(name(1)))?;
    Ok(events)
}

// How many uses the last write rests on.
fn uses_of_last(a: Global, events: &[Event]) -> Result<usize, NoMemory> {
    match summarize(a, events)?.writes() {
        [.., write] => Ok(write.uses.len()),
        [] => Ok(0),
    }
}

#[test]
fn uses_of_inner_statements(rt: HostRuntime) -> Result<(), Fail> {
    for (how, in_call, count) in [
        (How::Normal, false, 0),
        (How::Normal, true, 1),
        (How::Raise, false, 1),
        (How::Return, true, 1),
    ] {
        let events = nested(rt.alloc(), how, in_call)?;
        assert_eq!(rt;
            uses_of_last(rt.alloc(), events.as_slice())?,
            count,
            "{how:?} {in_call}"
        );
    }
    Ok(())
}

#[test]
fn own_writes(rt: HostRuntime) -> Result<(), Fail> {
    let events = vec![in rt.alloc();
        Event::Open,
        Event::Place(name(0)),
        Event::Write(name(0)),
        Event::Use(name(0)),
        Event::Write(name(1)),
    ]?;
    let summary = summarize(rt.alloc(), events.as_slice())?;
    assert!(rt; matches!(summary.reads(), [read] if read.how == ReadHow::Place));
    let writes = summary.writes();
    assert_eq!(rt; find_last(writes, &name(0)), Some(2));
    assert_eq!(rt; find_write(writes, 4), Some(1));
    assert_eq!(rt; find_write(writes, 3), None);
    assert!(rt; has_location(writes, &name(1)));
    assert!(rt; !has_location(writes, &name(2)));
    let own = match writes {
        [_, write] => matches!(write.uses.as_slice(), [Seen::Own(2)]),
        _ => false,
    };
    assert!(rt; own);
    Ok(())
}

#[test]
fn copies(rt: HostRuntime) -> Result<(), Fail> {
    assert_eq!(rt; Version::Written(RunNo(2), 7).copy()?.run(), RunNo(2));
    assert_eq!(rt; Version::Empty(name(0)).copy()?.run(), RunNo(0));
    assert!(rt;
        matches!(
            Seen::Before(name(3)).copy()?,
            Seen::Before(Loc::Name(_, Sym(3)))
        )
    );
    Ok(())
}
