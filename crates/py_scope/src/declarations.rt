// The names of a body, and the declarations in it that have a fault.
ghost use Rattle.std.specs.Prelude.{◌≡◌, ◌∷◌, ◌++◌, [], filter, IfOk, OnOk};
ghost use Rattle.py_scope.specs.NameLists.{has, once, with_names};
ghost use Rattle.py_scope.specs.Scopes.{bound, bound_in, declared, declared_in, is_in_neither, locals_of, same_way, scope_of};
ghost use Rattle.py_scope.specs.declared.mark.Mark.{Mark};

use crate::NameList;
use crate::mark::{Mark, Way};
use crate::scope::{Kind, Scope};
use flow_base::{NoMemory, PyText};
use std::alloc::Global;

/// The names of a body of this kind, with these parameters and marks.
pub fn scope_of(
    alloc: Global,
    kind: Kind,
    params: &[PyText],
    marks: &[Mark],
) -> Result<Scope, NoMemory>
    ensures { IfOk result (λ scope. scope ≡ scope_of (record { kind = kind; params = params.now; marks = marks.now })) }
{
    let globals = declared(alloc, Way::Global, marks)?;
    let nonlocals = declared(alloc, Way::Nonlocal, marks)?;
    let locals = locals_of(alloc, params, marks, &globals, &nonlocals)?;
    Ok(Scope {
        kind,
        locals,
        globals,
    })
}

// The parameters and the bound names that are in neither list.
#[tactic(auto, using(crate::proofs::Going::with_filtered_append))]
fn locals_of(
    alloc: Global,
    params: &[PyText],
    marks: &[Mark],
    globals: &NameList,
    nonlocals: &NameList,
) -> Result<NameList, NoMemory>
    ensures { IfOk result (λ locals. locals ≡ once (filter (is_in_neither globals.now nonlocals.now) (params.now ++ bound marks.now))) }
{
    let mut locals = NameList::new(alloc);
    add_params(&mut locals, params, globals, nonlocals)?;
    add_bound(&mut locals, marks, globals, nonlocals)?;
    Ok(locals)
}

// The names that the marks declare this way.
fn declared(alloc: Global, way: Way, marks: &[Mark]) -> Result<NameList, NoMemory>
    ensures { IfOk result (λ names. names ≡ declared way marks.now) }
{
    let mut names = NameList::new(alloc);
    for mark in marks {
        add_declared(&mut names, way, mark)?;
    }
    Ok(names)
}

fn add_declared(names: &mut NameList, way: Way, mark: &Mark) -> Result<(), NoMemory>
    ensures { OnOk result (names.new ≡ with_names names.old (declared_in way mark.now)) }
{
    match mark {
        Mark::Declares(_, other, more) => {
            if same_way(way, *other) {
                return add_names(names, more.as_slice());
            }
            Ok(())
        }
        Mark::Binds(_) => Ok(()),
    }
}

fn same_way(way: Way, other: Way) -> bool
    ensures { result ≡ same_way way other }
{
    match (way, other) {
        (Way::Global, Way::Global) | (Way::Nonlocal, Way::Nonlocal) => true,
        (Way::Global, Way::Nonlocal) | (Way::Nonlocal, Way::Global) => false,
    }
}

/// Puts the names last that the list does not have yet.
pub fn add_names(names: &mut NameList, more: &[PyText]) -> Result<(), NoMemory>
    ensures { OnOk result (names.new ≡ with_names names.old more.now) }
{
    for name in more {
        names.add(name)?;
    }
    Ok(())
}

fn add_params(
    locals: &mut NameList,
    params: &[PyText],
    globals: &NameList,
    nonlocals: &NameList,
) -> Result<(), NoMemory>
    ensures { OnOk result (locals.new ≡ with_names locals.old (filter (is_in_neither globals.now nonlocals.now) params.now)) }
{
    for name in params {
        add_undeclared(locals, name, globals, nonlocals)?;
    }
    Ok(())
}

fn add_bound(
    locals: &mut NameList,
    marks: &[Mark],
    globals: &NameList,
    nonlocals: &NameList,
) -> Result<(), NoMemory>
    ensures { OnOk result (locals.new ≡ with_names locals.old (filter (is_in_neither globals.now nonlocals.now) (bound marks.now))) }
{
    for mark in marks {
        add_bound_in(locals, mark, globals, nonlocals)?;
    }
    Ok(())
}

fn add_bound_in(
    locals: &mut NameList,
    mark: &Mark,
    globals: &NameList,
    nonlocals: &NameList,
) -> Result<(), NoMemory>
    ensures { OnOk result (locals.new ≡ with_names locals.old (filter (is_in_neither globals.now nonlocals.now) (bound_in mark.now))) }
{
    match mark {
        Mark::Binds(name) => add_undeclared(locals, name, globals, nonlocals),
        Mark::Declares(..) => Ok(()),
    }
}

fn add_undeclared(
    locals: &mut NameList,
    name: &PyText,
    globals: &NameList,
    nonlocals: &NameList,
) -> Result<(), NoMemory>
    ensures { OnOk result (locals.new ≡ with_names locals.old (filter (is_in_neither globals.now nonlocals.now) (name.now ∷ []))) }
{
    if globals.has(name) || nonlocals.has(name) {
        return Ok(());
    }
    locals.add(name)
}
