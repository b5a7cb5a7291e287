// The bodies round a place of a cell.
ghost use Rattle.std.specs.Prelude.{◌≡◌, ◌∷◌, ◌+◌, ◌<◌, ◌^◌, [], length, IfOk};
ghost use Rattle.py_scope.specs.NameLists.{has, place_in_list};
ghost use Rattle.py_scope.specs.Scopes.{decided, is_function, outer_place, place_of};

use crate::NamePlace;
use crate::scope::{Kind, Scope};
use flow_base::{Held, NoMemory, PyText, Shared};
use std::alloc::Global;
use std::marker::Model;

/// The bodies of functions and classes round a place of a cell, fewer than 2^32. Contracts see the list of their names, that of the
/// innermost first. A copy shares the memory of what it copies.
#[derive(Drop)]
pub struct Round {
    scopes: Shared<Held<Scope>>,
}

impl Model for Round {
    ghost use Rattle.std.specs.Prelude.{◌<◌, ◌^◌, List, length};
    ghost use Rattle.py_scope.specs.declared.scope.Scope.{Scope};

    ghost Value = { List Scope };

    ghost view = { λ r. r.scopes };

    ghost invariant = { λ r. length r.scopes < 2 ^ 32 };
}

impl Round {
    /// No bodies, as round the statements of a cell.
    pub fn none(alloc: Global) -> Result<Round, NoMemory>
        ensures { IfOk result (λ round. round ≡ []) }
    {
        Ok(Round {
            scopes: Shared::from_vec(alloc, Vec::new(alloc))?,
        })
    }

    pub fn copy(&self) -> Result<Round, NoMemory>
        ensures { IfOk result (λ round. round ≡ self.now) }
    {
        Ok(Round {
            scopes: self.scopes.copy()?,
        })
    }

    /// A body more, inside these. `NoMemory` stands for too many bodies, too.
    pub fn within(&self, alloc: Global, scope: Held<Scope>) -> Result<Round, NoMemory>
        ensures { IfOk result (λ round. round ≡ scope ∷ self.now) }
    {
        if self.scopes.len() >= u32::MAX as usize {
            return Err(NoMemory);
        }
        let scopes = with_all(alloc, scope, self.scopes.as_slice())?;
        Ok(Round {
            scopes: Shared::from_vec(alloc, scopes)?,
        })
    }

    /// The place of a name that is used in the innermost of these bodies.
    pub fn place(&self, name: &PyText) -> NamePlace
        ensures { result ≡ place_of self.now name.now }
    {
        place_of(self.scopes.as_slice(), name)
    }

    /// The place of a name that is free in a body of a class inside these.
    pub fn outer_place(&self, name: &PyText) -> NamePlace
        ensures { result ≡ outer_place 0 self.now name.now }
    {
        outer_place(self.scopes.as_slice(), 0, name)
    }
}

fn with_all(
    alloc: Global,
    first: Held<Scope>,
    rest: &[Held<Scope>],
) -> Result<Vec<Held<Scope>>, NoMemory>
    ensures { IfOk result (λ all. all.items ≡ first ∷ rest.now) }
{
    let mut all = Vec::new(alloc);
    all.push(first)?;
    for scope in rest {
        all.push(scope.copy()?)?;
    }
    Ok(all)
}

fn place_of(scopes: &[Held<Scope>], name: &PyText) -> NamePlace
    requires { length scopes.now < 2 ^ 32 }
    ensures { result ≡ place_of scopes.now name.now }
{
    match scopes {
        [] => NamePlace::Global,
        [scope, round @ ..] => {
            let scope = scope.get();
            let own = scope.locals.place(name);
            if is_function(scope.kind) {
                match own {
                    Some(slot) => NamePlace::Local(slot),
                    None => if scope.globals.has(name) {
                        NamePlace::Global
                    } else {
                        outer_place(round, 1, name)
                    }
                }
            } else {
                match own {
                    Some(_) => NamePlace::ClassBody,
                    None => outer_place(round, 0, name),
                }
            }
        }
    }
}

// The place of a name that is free, where the innermost function is `from` frames up.
fn outer_place(scopes: &[Held<Scope>], from: u32, name: &PyText) -> NamePlace
    requires { length scopes.now + from < 2 ^ 32 }
    ensures { result ≡ outer_place from scopes.now name.now }
{
    let mut hops = from;
    for scope in scopes {
        let body = scope.get();
        if is_function(body.kind) {
            if let Some(place) = found(body, hops, name) {
                return place;
            }
            hops += 1;
        }
    }
    NamePlace::Global
}

// What a function makes of a name that is used further inside, if it decides.
fn found(scope: &Scope, hops: u32, name: &PyText) -> Option<NamePlace>
    ensures { result ≡ decided hops (place_in_list scope.now.locals name.now) (has scope.now.globals name.now) }
{
    if let Some(slot) = scope.locals.place(name) {
        return Some(NamePlace::Free(hops, slot));
    }
    if scope.globals.has(name) {
        return Some(NamePlace::Global);
    }
    None
}

fn is_function(kind: Kind) -> bool
    ensures { result ≡ is_function kind }
{
    match kind {
        Kind::Function => true,
        Kind::Cell | Kind::Class => false,
    }
}
