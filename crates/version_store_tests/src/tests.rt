// A session of four lines: x = 1, y = x, z = y and x = 2, with the symbols 0, 1 and 2.
use flow_base::{Event, How, Key, Loc, NoMemory, ObjRef, RunNo, Sym};
use std::alloc::Global;
use std::test::Fail;
use trace_events::{Seen, Version, summarize};
use version_store::Versions;

fn name(symbol: u64) -> Loc {
    Loc::Name(ObjRef(0), Sym(symbol))
}

// A line that binds a name to a number, or to what another name has.
fn line(a: Global, used: Option<u64>, bound: u64) -> Result<Vec<Event>, NoMemory> {
    let mut events = vec![in a; Event::Open]?;
    if let Some(symbol) = used {
        events.push(Event::Use(name(symbol)))?;
    }
    events.push(Event::Write(name(bound)))?;
    events.push(Event::Close(How::Normal))?;
    Ok(events)
}

fn add(a: Global, versions: &mut Versions, events: &[Event]) -> Result<(), NoMemory> {
    let run = RunNo(versions.len() as u64 + 1);
    versions.add_run(run, summarize(a, events)?)
}

fn session(a: Global) -> Result<Versions, NoMemory> {
    let mut versions = Versions::new(a);
    for (used, bound) in [(None, 0), (Some(0), 1), (Some(1), 2), (None, 0)] {
        let events = line(a, used, bound)?;
        add(a, &mut versions, events.as_slice())?;
    }
    Ok(versions)
}

#[test]
fn dependences(rt: HostRuntime) -> Result<(), Fail> {
    let versions = session(rt.alloc())?;
    assert_eq!(rt; versions.len(), 4);
    for (run, place, on) in [
        (1, 1, None),
        (2, 2, Some((RunNo(1), 1))),
        (3, 2, Some((RunNo(2), 2))),
        (4, 1, None),
        (3, 1, None),
        (9, 1, None),
    ] {
        let deps = versions.deps(&Version::Written(RunNo(run), place));
        let first = match deps {
            [Version::Written(run, place)] => Some((*run, *place)),
            _ => None,
        };
        assert_eq!(rt; first, on, "{run} {place}");
        assert_eq!(rt; deps.is_empty(), on.is_none(), "{run} {place}");
    }
    assert!(rt; versions.deps(&Version::Empty(name(0))).is_empty());
    Ok(())
}

#[test]
fn locations_now(rt: HostRuntime) -> Result<(), Fail> {
    let versions = session(rt.alloc())?;
    for (symbol, last) in [
        (0, Some((RunNo(4), 1))),
        (1, Some((RunNo(2), 2))),
        (2, Some((RunNo(3), 2))),
        (3, None),
    ] {
        assert_eq!(rt; versions.current(&name(symbol)), last, "{symbol}");
    }
    assert_eq!(rt; versions.current(&Loc::Item(ObjRef(0), Key::Int(-1))), None);
    Ok(())
}

#[test]
fn written_locations(rt: HostRuntime) -> Result<(), Fail> {
    let versions = session(rt.alloc())?;
    for (writer, run, place, want) in [
        (4, 1, 1, true),
        (2, 1, 1, false),
        (3, 3, 2, true),
        (0, 1, 1, false),
        (4, 1, 0, false),
    ] {
        let version = Version::Written(RunNo(run), place);
        assert_eq!(rt;
            versions.wrote(RunNo(writer), &version),
            want,
            "{writer} {run} {place}"
        );
    }
    assert!(rt; versions.wrote(RunNo(1), &Version::Empty(name(0))));
    assert!(rt;
        matches!(
            versions.location(&Version::Written(RunNo(2), 2)),
            Some(Loc::Name(_, Sym(1)))
        )
    );
    Ok(())
}

#[test]
fn writes_of_runs(rt: HostRuntime) -> Result<(), Fail> {
    let versions = session(rt.alloc())?;
    for (run, count) in [(0, 0), (1, 1), (4, 1), (5, 0)] {
        assert_eq!(rt; versions.writes(RunNo(run)).len(), count, "{run}");
    }
    let saw = match versions.writes(RunNo(3)) {
        [write] => matches!(write.uses.as_slice(), [Seen::Before(Loc::Name(_, Sym(1)))]),
        _ => false,
    };
    assert!(rt; saw);
    Ok(())
}

// The number of listed versions, and whether these two are listed.
fn lists(places: &[(RunNo, u64)], wanted: &[(u64, u64)]) -> bool {
    places.len() == wanted.len()
        && wanted
            .iter()
            .all(|w| places.iter().any(|p| p.0.0 == w.0 && p.1 == w.1))
}

#[test]
fn touched_versions(rt: HostRuntime) -> Result<(), Fail> {
    let a = rt.alloc();
    let mut versions = session(a)?;
    for (run, wanted) in [(0, 0), (1, 0), (2, 0), (3, 0), (4, 2), (5, 0)] {
        assert_eq!(rt; versions.touched(RunNo(run)).len(), wanted, "{run}");
    }
    assert!(rt; lists(versions.touched(RunNo(4)), &[(3, 2), (2, 2)]));

    // run 5 makes w of x and then overwrites x; run 6 touches that w, and makes x of itself
    let mut events = line(a, Some(0), 3)?;
    for event in line(a, None, 0)? {
        events.push(event)?;
    }
    add(a, &mut versions, events.as_slice())?;
    assert!(rt; versions.touched(RunNo(5)).is_empty());
    let again = line(a, Some(0), 0)?;
    add(a, &mut versions, again.as_slice())?;
    assert!(rt; lists(versions.touched(RunNo(6)), &[(5, 2)]));

    // and then x is touched, and no other
    let next = line(a, None, 0)?;
    add(a, &mut versions, next.as_slice())?;
    assert!(rt; lists(versions.touched(RunNo(7)), &[(6, 2)]));
    Ok(())
}
