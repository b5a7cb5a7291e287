// The declarations of a body that have a fault.
ghost use Rattle.std.specs.Prelude.{◌≡◌, ◌∷◌, [], List, IfOk, OnOk, min, IfSome};
ghost use Rattle.py_scope.specs.Faults.{belongs_nowhere, faults_from, faults_of, has_fault, is_class, least_with, lesser, name_has_fault};
ghost use Rattle.py_scope.specs.NameLists.{has, once, with_names};
ghost use Rattle.py_scope.specs.declared.mark.Mark.{Mark};

use crate::NameList;
use crate::declarations::add_names;
use crate::mark::{Mark, Way};
use crate::place::NamePlace;
use crate::round::Round;
use crate::scope::Kind;
use flow_base::{NoMemory, PyText};
use std::alloc::Global;

/// The least number among the faults of a body and one more, where that is there.
pub fn least_fault(
    alloc: Global,
    least: Option<u32>,
    kind: Kind,
    params: &[PyText],
    marks: &[Mark],
    round: &Round,
) -> Result<Option<u32>, NoMemory>
    ensures { IfOk result (λ found. found ≡ least_with least (faults_of round.now (record {
      kind = kind;
      params = params.now;
      marks = marks.now;
    }))) }
{
    let mut known = NameList::new(alloc);
    add_names(&mut known, params)?;
    let mut seen = Seen {
        globals: NameList::new(alloc),
        nonlocals: NameList::new(alloc),
        least,
    };
    for mark in marks {
        see(&mut seen, kind, &known, mark, round)?;
    }
    Ok(seen.least)
}

// The names that the declarations so far declare, and the least number so far.
#[derive(Drop)]
struct Seen {
    globals: NameList,
    nonlocals: NameList,
    least: Option<u32>,
}

fn see(
    seen: &mut Seen,
    kind: Kind,
    params: &NameList,
    mark: &Mark,
    round: &Round,
) -> Result<(), NoMemory>
    ensures { OnOk result ((rest : List Mark)
        → least_with seen.new.least (faults_from kind params.now round.now seen.new.globals seen.new.nonlocals rest)
        ≡ least_with seen.old.least (faults_from kind params.now round.now seen.old.globals seen.old.nonlocals (mark.now ∷ rest))) }
{
    match mark {
        Mark::Binds(_) => Ok(()),
        Mark::Declares(node, Way::Global, names) => {
            if has_fault(
                kind,
                params,
                round,
                &seen.nonlocals,
                Way::Global,
                names.as_slice(),
            ) {
                seen.least = Some(lesser(seen.least, *node));
            }
            add_names(&mut seen.globals, names.as_slice())
        }
        Mark::Declares(node, Way::Nonlocal, names) => {
            if has_fault(
                kind,
                params,
                round,
                &seen.globals,
                Way::Nonlocal,
                names.as_slice(),
            ) {
                seen.least = Some(lesser(seen.least, *node));
            }
            add_names(&mut seen.nonlocals, names.as_slice())
        }
    }
}

fn lesser(least: Option<u32>, node: u32) -> u32
    ensures { Some result ≡ lesser least node }
{
    match least {
        Some(known) => known.min(node),
        None => node,
    }
}

fn has_fault(
    kind: Kind,
    params: &NameList,
    round: &Round,
    other: &NameList,
    way: Way,
    names: &[PyText],
) -> bool
    ensures { result ≡ has_fault kind params.now round.now other.now way names.now }
{
    if is_class(kind) {
        return true;
    }
    for name in names {
        if name_has_fault(params, round, other, way, name) {
            return true;
        }
    }
    false
}

fn is_class(kind: Kind) -> bool
    ensures { result ≡ is_class kind }
{
    match kind {
        Kind::Class => true,
        Kind::Cell | Kind::Function => false,
    }
}

fn name_has_fault(
    params: &NameList,
    round: &Round,
    other: &NameList,
    way: Way,
    name: &PyText,
) -> bool
    ensures { result ≡ name_has_fault params.now round.now other.now way name.now }
{
    params.has(name) || other.has(name) || belongs_nowhere(way, round, name)
}

fn belongs_nowhere(way: Way, round: &Round, name: &PyText) -> bool
    ensures { result ≡ belongs_nowhere way round.now name.now }
{
    match way {
        Way::Global => false,
        Way::Nonlocal => match round.outer_place(name) {
            NamePlace::Free(..) => false,
            NamePlace::Local(_) | NamePlace::Global | NamePlace::ClassBody => true,
        },
    }
}
