// The mark of a cell and the stale names that a run uses, by the history before the run.
ghost use Rattle.std.specs.Prelude.{◌≡◌, ◌≤◌, ◌&&◌, ◌||◌, ℕ, List, [], ◌∷◌, ◌++◌, IfOk, OnOk, length, option_map};
ghost use Rattle.std.specs.Ordering.{is_lt};
ghost use Rattle.std.specs.Option.{option_copied};
ghost use Rattle.dependence_graph.specs.Marks.{IsExact};
ghost use Rattle.kernel_core.specs.Lineage as spec;
ghost use Rattle.kernel_core.specs.Marking as pass;
ghost use Rattle.kernel_core.specs.Naming.{binds};
ghost use Rattle.plain_cells.specs.Plain.{assigned, name_bound, names_read};
ghost use Rattle.plain_cells.specs.Run as meaning;
ghost use Rattle.py_ast.specs.Statement.{view_stmt, view_block};
ghost use Rattle.trace_events.specs.Decided.{is_stale};
ghost use Rattle.trace_events.specs.Order.{text_of, version_cmp};
ghost use Rattle.trace_events.specs.Why.{least, lesser, why_of};

use containers::Table;
use dependence_graph::Graph;
use flow_base::{Loc, Names, NoMemory, PyText, ReadHow, RunNo, Shared, Sym};
use flow_wire::{MarkText, TextList};
use plain_cells::{bound_name, global, used_names};
use py_ast::Stmt;
use std::alloc::Global;
use std::cmp::Ordering;
use trace_events::{StartRead, Summary, Version};
use version_store::Versions;

/// The mark of a cell: clean, or why the least stale version is stale that a live name has.
pub fn mark(
    alloc: Global,
    names: &Names,
    versions: &Versions,
    graph: &Graph,
    statements: &[Stmt],
) -> Result<MarkText, NoMemory>
    requires { IsExact versions.now graph.now.stale }
    ensures { IfOk result (λ mark. mark ≡ spec.mark_of names.now versions.now (view_block statements.now)) }
{
    let live = live_names(alloc, statements)?;
    let stale = stale_versions(alloc, names, versions, graph, live.as_slice())?;
    match least(stale) {
        Some((run, place)) => {
            stale_mark(alloc, names, versions, graph, &Version::Written(run, place))
        }
        None => Ok(MarkText::Clean),
    }
}

/// The paths of the locations whose stale version a run used before it wrote them.
pub fn stale_paths(
    alloc: Global,
    names: &Names,
    versions: &Versions,
    graph: &Graph,
    summary: &Summary,
) -> Result<TextList, NoMemory>
    requires { IsExact versions.now graph.now.stale }
    ensures { IfOk result (λ paths. paths ≡ spec.read_paths names.now versions.now summary.now.reads) }
{
    let mut sorted = Vec::new(alloc);
    for read in summary.reads() {
        if is_stale_use(versions, graph, read) {
            let path = path_of(alloc, names, Some(&read.location))?;
            add_path(&mut sorted, path)?;
        }
    }
    Shared::from_vec(alloc, sorted)
}

// ---- live names

// The names that some statement uses and no earlier statement binds.
fn live_names(alloc: Global, statements: &[Stmt]) -> Result<Vec<PyText>, NoMemory>
    ensures { IfOk result (λ live. live.items ≡ spec.live_names (view_block statements.now)) }
{
    let mut live = Vec::new(alloc);
    let mut bound = Table::new(alloc);
    for s in statements {
        add_used(alloc, &bound, s, &mut live)?;
        add_bound(&mut bound, s)?;
    }
    Ok(live)
}

fn add_used(
    alloc: Global,
    bound: &Table<()>,
    s: &Stmt,
    live: &mut Vec<PyText>,
) -> Result<(), NoMemory>
    ensures { OnOk result (live.new.items ≡ live.old.items ++ pass.live_in (pass.has_name bound.now) (names_read (assigned (view_stmt s.now)))) }
{
    let used = used_names(alloc, s)?;
    add_live(bound, used.as_slice(), live)
}

fn add_bound(bound: &mut Table<()>, s: &Stmt) -> Result<(), NoMemory>
    ensures { OnOk result ((other : List ℕ) → pass.has_name bound.new other
        ≡ (binds (name_bound (assigned (view_stmt s.now))) other || pass.has_name bound.old other)) }
{
    if let Some(name) = bound_name(s) {
        bound.set(name, ())?;
    }
    Ok(())
}

fn add_live(bound: &Table<()>, used: &[PyText], live: &mut Vec<PyText>) -> Result<(), NoMemory>
    ensures { OnOk result (live.new.items ≡ live.old.items ++ pass.live_in (pass.has_name bound.now) used.now) }
{
    for name in used {
        add_unbound(bound, name, live)?;
    }
    Ok(())
}

fn add_unbound(bound: &Table<()>, name: &PyText, live: &mut Vec<PyText>) -> Result<(), NoMemory>
    ensures { OnOk result (live.new.items ≡ live.old.items ++ pass.unless_bound (pass.has_name bound.now name.now) name.now) }
{
    if bound.get(name).is_none() {
        live.push(name.copy()?)?;
    }
    Ok(())
}

// ---- stale versions

// The stale ones among the versions that the names have.
fn stale_versions(
    alloc: Global,
    names: &Names,
    versions: &Versions,
    graph: &Graph,
    live: &[PyText],
) -> Result<Vec<(RunNo, u64)>, NoMemory>
    requires { IsExact versions.now graph.now.stale }
    ensures { IfOk result (λ stale. pass.all_written stale.items ≡ pass.stale_among versions.now (pass.versions_of names.now versions.now live.now)) }
{
    let mut stale = Vec::new(alloc);
    for name in live {
        if let Some(version) = stale_version(names, versions, graph, name) {
            stale.push(version)?;
        }
    }
    Ok(stale)
}

fn stale_version(
    names: &Names,
    versions: &Versions,
    graph: &Graph,
    name: &PyText,
) -> Option<(RunNo, u64)>
    requires { IsExact versions.now graph.now.stale }
    ensures { pass.one_written result ≡ pass.stale_among versions.now (pass.versions_of names.now versions.now (name.now ∷ [])) }
{
    match names.known(name) {
        Some(s) => stale_at(versions, graph, &global(s)),
        None => None,
    }
}

// The version of a location now, if it is stale. Only a version that a run wrote can be.
fn stale_at(versions: &Versions, graph: &Graph, location: &Loc) -> Option<(RunNo, u64)>
    requires { IsExact versions.now graph.now.stale }
    ensures { pass.one_written result ≡ pass.stale_among versions.now (spec.version_now versions.now location.now ∷ []) }
{
    match versions.current(location) {
        Some((run, place)) if graph.is_stale(&Version::Written(run, place)) => Some((run, place)),
        _ => None,
    }
}

fn is_stale_use(versions: &Versions, graph: &Graph, read: &StartRead) -> bool
    requires { IsExact versions.now graph.now.stale }
    ensures { result ≡ spec.is_use read.now.how && is_stale versions.now (length versions.now) (spec.version_now versions.now read.now.location) }
{
    match read.how {
        ReadHow::Use => stale_at(versions, graph, &read.location).is_some(),
        ReadHow::Place => false,
    }
}

// ---- the least version

fn least(mut stale: Vec<(RunNo, u64)>) -> Option<(RunNo, u64)>
    ensures { (names : List (List ℕ)) → option_map pass.written result ≡ least names (pass.all_written stale.items) }
{
    let mut best = None;
    while let Some(version) = stale.pop() {
        best = Some(lesser(version, best));
    }
    best
}

fn lesser(version: (RunNo, u64), best: Option<(RunNo, u64)>) -> (RunNo, u64)
    ensures { (names : List (List ℕ)) → pass.written result ≡ lesser names (pass.written version) (option_map pass.written best) }
{
    match best {
        Some(other) => {
            if is_before(other, version) {
                other
            } else {
                version
            }
        }
        None => version,
    }
}

fn is_before(a: (RunNo, u64), b: (RunNo, u64)) -> bool
    ensures { (names : List (List ℕ)) → result ≡ is_lt (version_cmp names (pass.written a) (pass.written b)) }
{
    a.0.0.cmp(&b.0.0).then(a.1.cmp(&b.1)).is_lt()
}

// ---- the reason

fn stale_mark(
    alloc: Global,
    names: &Names,
    versions: &Versions,
    graph: &Graph,
    version: &Version,
) -> Result<MarkText, NoMemory>
    requires { IsExact versions.now graph.now.stale }
    ensures { IfOk result (λ mark. mark ≡ spec.stale_mark names.now versions.now version.now (why_of names.now versions.now (length versions.now) version.now)) }
{
    let Some(why) = graph.why(alloc, versions, names, version)? else {
        return Ok(MarkText::Clean);
    };
    Ok(MarkText::Stale {
        computed: why.computed.0,
        dep: path_of(alloc, names, Some(&why.dep))?,
        overwritten: why.overwritten.0,
        symbol: path_of(alloc, names, versions.location(version))?,
    })
}

// ---- paths

fn path_of(alloc: Global, names: &Names, location: Option<&Loc>) -> Result<PyText, NoMemory>
    ensures { IfOk result (λ path. path ≡ spec.path_of names.now (option_copied location.entry)) }
{
    match location {
        Some(Loc::Name(_, s)) => text_of(alloc, names, *s),
        _ => PyText::from_points(alloc, Vec::from_array(alloc, ['?'])?),
    }
}

fn text_of(alloc: Global, names: &Names, s: Sym) -> Result<PyText, NoMemory>
    ensures { IfOk result (λ text. text ≡ text_of names.now s) }
{
    if s.0 < names.len() as u64 {
        names.text(s).copy()
    } else {
        PyText::from_points(alloc, Vec::new(alloc))
    }
}

fn compare_paths(p: &PyText, q: &PyText) -> Ordering
    ensures { result ≡ spec.path_cmp p.now q.now }
{
    p.len().cmp(&q.len()).then(p.compare(q))
}

// Into an ordered list, in which each path stands once.
fn add_path(sorted: &mut Vec<PyText>, path: PyText) -> Result<(), NoMemory>
    ensures { OnOk result (sorted.new.items ≡ spec.with_path path sorted.old.items) }
{
    let (at, is_there) = place_of(sorted.as_slice(), &path);
    if !is_there {
        sorted.insert(at, path)?;
    }
    Ok(())
}

// The place of the first path that the path does not come after, and whether that is the path itself.
fn place_of(sorted: &[PyText], path: &PyText) -> (usize, bool)
    ensures within { result.0 ≤ length sorted.now }
    ensures place { pass.put_path result.1 result.0 path.now sorted.now ≡ spec.with_path path.now sorted.now }
{
    let mut at = 0;
    while at < sorted.len() {
        match compare_paths(path, &sorted[at]) {
            Ordering::Less => return (at, false),
            Ordering::Equal => return (at, true),
            Ordering::Greater => at += 1,
        }
    }
    (at, false)
}
