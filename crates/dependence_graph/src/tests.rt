// Sessions of lines that bind a name to a number, or to what is made of another name. The symbols 0 to 3 are x, y, z, w.
ghost use Rattle.std.specs.Prelude.{◌≡◌, ◌∷◌, [], ◌++◌, IfOk, OnOk};
ghost use Rattle.dependence_graph.specs.Marks.{IsExact};

use crate::{Graph, Why};
use flow_base::{Event, How, Loc, Names, NoMemory, ObjRef, PyText, RunNo, Sym};
use std::alloc::Global;
use std::test::Fail;
use trace_events::{Version, summarize};
use version_store::Versions;

type Line = (Option<u64>, u64);

fn name(symbol: u64) -> Loc {
    Loc::Name(ObjRef(0), Sym(symbol))
}

fn events_of(a: Global, line: Line) -> Result<Vec<Event>, NoMemory> {
    let mut events = vec![in a; Event::Open]?;
    if let Some(symbol) = line.0 {
        events.push(Event::Use(name(symbol)))?;
    }
    events.push(Event::Write(name(line.1)))?;
    events.push(Event::Close(How::Normal))?;
    Ok(events)
}

fn run(a: Global, versions: &mut Versions, graph: &mut Graph, line: Line) -> Result<(), NoMemory>
    requires { IsExact versions.old graph.old.stale }
    ensures { OnOk result (IsExact versions.new graph.new.stale) }
{
    let events = events_of(a, line)?;
    let kept = summarize(a, events.as_slice())?;
    let number = (versions.len() as u64).checked_add(1).ok_or(NoMemory)?;
    versions.add_run(RunNo(number), kept)?;
    graph.after_run(a, versions)
}

fn session(a: Global, lines: &[Line]) -> Result<(Versions, Graph), NoMemory>
    ensures { IfOk result (λ s. IsExact s.0 s.1.stale) }
{
    let mut versions = Versions::new(a);
    let mut graph = Graph::new(a);
    for line in lines {
        run(a, &mut versions, &mut graph, *line)?;
    }
    Ok((versions, graph))
}

fn names(a: Global) -> Result<Names, NoMemory> {
    let mut names = Names::new(a);
    for text in ["x", "y", "z", "w"] {
        names.intern(&PyText::from_str(a, text)?)?;
    }
    Ok(names)
}

// x = 1; y = x; z = y; x = 2; w = z
const LINES: [Line; 5] = [
    (None, 0),
    (Some(0), 1),
    (Some(1), 2),
    (None, 0),
    (Some(2), 3),
];

#[test]
fn stale_versions(rt: HostRuntime) -> Result<(), Fail> {
    let (_, graph) = session(rt.alloc(), &LINES)?;
    for (run, place, stale) in [
        (1, 1, false),
        (2, 2, true),
        (3, 2, true),
        (4, 1, false),
        (5, 2, true),
        (2, 1, false),
        (6, 2, false),
    ] {
        let version = Version::Written(RunNo(run), place);
        assert_eq!(rt; graph.is_stale(&version), stale, "{run} {place}");
    }
    assert!(rt; !graph.is_stale(&Version::Empty(name(0))));
    Ok(())
}

// What a run itself overwrites does not make what it computes stale: x is made of itself, run after run.
#[test]
fn own_run_makes_nothing_stale(rt: HostRuntime) -> Result<(), Fail> {
    let lines = [(None, 0), (Some(0), 0), (Some(0), 0), (Some(0), 0)];
    for (runs, place) in [(1, 1), (2, 2), (3, 2), (4, 2)] {
        let (_, graph) = session(rt.alloc(), &lines[..runs])?;
        let now = Version::Written(RunNo(runs as u64), place);
        assert!(rt; !graph.is_stale(&now), "{runs}");
    }
    Ok(())
}

fn numbers(why: Option<Why>) -> Option<(u64, u64, u64)> {
    match why {
        Some(
            Why {
                dep: Loc::Name(_, symbol),
                computed,
                overwritten,
            },
        ) => Some((symbol.0, computed.0, overwritten.0)),
        _ => None,
    }
}

#[test]
fn reasons(rt: HostRuntime) -> Result<(), Fail> {
    let a = rt.alloc();
    let names = names(a)?;
    let (versions, graph) = session(a, &LINES)?;
    for (run, place, want) in [
        (1, 1, None),
        (2, 2, Some((0, 2, 4))),
        (3, 2, Some((0, 3, 4))),
        (4, 1, None),
        (5, 2, Some((0, 3, 4))),
    ] {
        let version = Version::Written(RunNo(run), place);
        let why = graph.why(a, &versions, &names, &version)?;
        assert_eq!(rt; numbers(why), want, "{run}");
    }
    Ok(())
}
