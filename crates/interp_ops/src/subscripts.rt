// Items of values: read, stored and deleted.
ghost use Rattle.std.specs.Prelude.{◌≡◌, ◌+ℤ◌, ◌*ℤ◌, ◌/◌, pos, IfOk, IfSome, ◌<◌, drop, []};
ghost use Rattle.heap_objects.specs.Keyed as keyed;
ghost use Rattle.interp_machine.specs.Meaning.{Runs};
ghost use Rattle.interp_ops.specs.Subscripts as spec;

use crate::joining::joined_values;
use exceptions_core::{ExcClass, FaultKind};
use flow_base::{Key, Loc, NoMemory, ObjRef, PyText, ReadHow, Shared};
use heap_objects::{Value, Values, key_of};
use interp_machine::{
    Kind, Machine, Stop, after, fault, item, point_value, raise_with, range_size,
};
use std::alloc::Global;

/// `a[i]` (Python reference 6.3.2). TypeError where `a` has no items, the index is no number or the value has no key; IndexError; KeyError. Takes
/// no step, and memory; for want of it `Stop::NoMemory`.
#[tactic(auto, unfolding(crate::specs::Subscripts::subscript, interp_machine::specs::Kinds::kind))]
pub fn subscript(m: &mut Machine, a: &Value, i: &Value) -> Result<Value, Stop>
    ensures { Runs (spec.subscript a.now i.now m.old) result m.new }
{
    match m.kind(a)? {
        Kind::Dict(d) => dict_at(m, d, i),
        kind => index_of(m, kind, number_of(i)),
    }
}

/// The number that a value is, a truth value among them. Takes no memory.
pub(crate) fn number_of(v: &Value) -> Option<i128>
    ensures { result ≡ spec.number_of v.now }
{
    match v {
        Value::Truth(true) => Some(1),
        Value::Truth(false) => Some(0),
        Value::Int(n) => Some(*n),
        _ => None,
    }
}

fn index_of(m: &mut Machine, kind: Kind, n: Option<i128>) -> Result<Value, Stop>
    ensures { Runs (spec.index_of kind n m.old) result m.new }
{
    let Some(n) = n else {
        return fault(m, FaultKind::Kind);
    };
    match kind {
        Kind::List(o) => list_at(m, o, n),
        Kind::Tuple(parts) => part_at(m, &parts, place_in(parts.len(), n)),
        Kind::Text(t) => point_at(m, &t, place_in(t.len(), n)),
        Kind::Range(start, stop, step) => {
            let place = place_below(range_size(start, stop, step), n);
            member_at(m, start, step, place)
        }
        _ => fault(m, FaultKind::Kind),
    }
}

// The place below a count that an index names, from the end where it is below 0.
fn place_below(count: u128, n: i128) -> Option<u128>
    ensures value { result ≡ spec.place_in count n }
    ensures within { IfSome result (λ i. i < count) }
{
    let size = n.unsigned_abs();
    if n < 0 {
        return count.checked_sub(size);
    }
    if size < count {
        return Some(size);
    }
    None
}

fn place_in(count: usize, n: i128) -> Option<usize>
    ensures { result ≡ spec.place_in count n }
{
    match place_below(count as u128, n) {
        Some(i) => Some(i as usize),
        None => None,
    }
}

fn list_at(m: &mut Machine, o: ObjRef, n: i128) -> Result<Value, Stop>
    ensures { Runs (spec.list_at o n m.old) result m.new }
{
    if n >= 0 {
        let found = m.load(&Loc::Item(o, Key::Int(n)))?;
        return or_index_error(m, found);
    }
    let count = m.shape(ReadHow::Use, o)?;
    list_item(m, o, place_in(count, n))
}

fn list_item(m: &mut Machine, o: ObjRef, place: Option<usize>) -> Result<Value, Stop>
    ensures { Runs (spec.list_item o place m.old) result m.new }
{
    let Some(i) = place else {
        return fault(m, FaultKind::Index);
    };
    let found = m.load(&item(o, i))?;
    or_index_error(m, found)
}

fn or_index_error(m: &mut Machine, found: Option<Value>) -> Result<Value, Stop>
    ensures { Runs (spec.or_index_error found m.old) result m.new }
{
    match found {
        Some(v) => Ok(v),
        None => fault(m, FaultKind::Index),
    }
}

fn part_at(m: &mut Machine, parts: &Values, place: Option<usize>) -> Result<Value, Stop>
    ensures { Runs (spec.part_at parts.now place m.old) result m.new }
{
    let Some(i) = place else {
        return fault(m, FaultKind::Index);
    };
    match parts.get(i) {
        Some(v) => Ok(v.copy()?),
        None => fault(m, FaultKind::Index),
    }
}

fn point_at(m: &mut Machine, t: &PyText, place: Option<usize>) -> Result<Value, Stop>
    ensures { Runs (spec.point_at t.now place m.old) result m.new }
{
    let Some(i) = place else {
        return fault(m, FaultKind::Index);
    };
    match t.as_slice().get(i) {
        Some(c) => Ok(point_value(m.alloc, *c)?),
        None => fault(m, FaultKind::Index),
    }
}

fn member_at(m: &mut Machine, start: i128, step: i128, place: Option<u128>) -> Result<Value, Stop>
    ensures { Runs (spec.member_at start step place m.old) result m.new }
{
    let Some(i) = place else {
        return fault(m, FaultKind::Index);
    };
    Ok(Value::Int(member(start, step, i)?))
}

// A member of a range, in two leaps that are alike and a step where its place is odd, so that each sum on the way lies between the start and
// the member. Want of memory stands for a member outside the whole numbers of 128 bits, which no range has.
fn member(start: i128, step: i128, i: u128) -> Result<i128, NoMemory>
    ensures { IfOk result (λ n. n ≡ start +ℤ pos i *ℤ step) }
{
    let leap = product(half_of(i), step)?;
    let even = sum(sum(start, leap)?, leap)?;
    if i % 2 == 0 {
        return Ok(even);
    }
    sum(even, step)
}

fn half_of(i: u128) -> i128
    ensures { result ≡ pos (i / 2) }
{
    (i / 2) as i128
}

fn sum(a: i128, b: i128) -> Result<i128, NoMemory>
    ensures { IfOk result (λ n. n ≡ a +ℤ b) }
{
    a.checked_add(b).ok_or(NoMemory)
}

fn product(a: i128, b: i128) -> Result<i128, NoMemory>
    ensures { IfOk result (λ n. n ≡ a *ℤ b) }
{
    a.checked_mul(b).ok_or(NoMemory)
}

fn dict_at(m: &mut Machine, d: ObjRef, key: &Value) -> Result<Value, Stop>
    ensures { Runs (spec.dict_at d key.now (keyed.key_of key.now) m.old) result m.new }
{
    let Some(k) = key_of(m.alloc, key)? else {
        return fault(m, FaultKind::Kind);
    };
    match m.load(&Loc::Item(d, k))? {
        Some(v) => Ok(v),
        None => raise_with(m, ExcClass::KeyError, key.copy()?),
    }
}

/// `a[i] = v`. TypeError where `a` is no list and no dictionary, the index is no number or the value has no key; IndexError. Takes no step, and
/// memory; for want of it `Stop::NoMemory`.
#[tactic(auto, unfolding(crate::specs::Subscripts::store_item, interp_machine::specs::Kinds::kind))]
pub fn store_item(m: &mut Machine, a: &Value, i: &Value, v: Value) -> Result<(), Stop>
    ensures { Runs (spec.store_item a.now i.now v m.old) result m.new }
{
    match m.kind(a)? {
        Kind::List(o) => list_store(m, o, number_of(i), v),
        Kind::Dict(d) => dict_store(m, d, i, v),
        _ => fault(m, FaultKind::Kind),
    }
}

fn list_store(m: &mut Machine, o: ObjRef, n: Option<i128>, v: Value) -> Result<(), Stop>
    ensures { Runs (spec.list_store o v n m.old) result m.new }
{
    let Some(n) = n else {
        return fault(m, FaultKind::Kind);
    };
    let count = m.shape(how_of(n), o)?;
    put_item(m, o, place_in(count, n), v)
}

// How the shape of a list is read where an item of it is stored.
fn how_of(n: i128) -> ReadHow
    ensures { result ≡ spec.how_of n }
{
    if n < 0 { ReadHow::Use } else { ReadHow::Place }
}

fn put_item(m: &mut Machine, o: ObjRef, place: Option<usize>, v: Value) -> Result<(), Stop>
    ensures { Runs (spec.put_item o v place m.old) result m.new }
{
    match place {
        Some(i) => m.list_put(o, i, v),
        None => fault(m, FaultKind::Index),
    }
}

fn dict_store(m: &mut Machine, d: ObjRef, key: &Value, v: Value) -> Result<(), Stop>
    ensures { Runs (spec.dict_store d key.now v (keyed.key_of key.now) m.old) result m.new }
{
    match key_of(m.alloc, key)? {
        Some(_) => m.dict_put(d, key, v),
        None => fault(m, FaultKind::Kind),
    }
}

/// `del a[i]`. Errors as in `store_item`, and KeyError; `Stop::Steps` where too few steps are left for the items that are moved. Takes memory;
/// for want of it `Stop::NoMemory`.
#[tactic(auto, unfolding(crate::specs::Subscripts::delete_item, interp_machine::specs::Kinds::kind))]
pub fn delete_item(m: &mut Machine, a: &Value, i: &Value) -> Result<(), Stop>
    ensures { Runs (spec.delete_item a.now i.now m.old) result m.new }
{
    match m.kind(a)? {
        Kind::List(o) => list_delete(m, o, number_of(i)),
        Kind::Dict(d) => dict_delete(m, d, i),
        _ => fault(m, FaultKind::Kind),
    }
}

fn list_delete(m: &mut Machine, o: ObjRef, n: Option<i128>) -> Result<(), Stop>
    ensures { Runs (spec.list_delete o n m.old) result m.new }
{
    let Some(n) = n else {
        return fault(m, FaultKind::Kind);
    };
    let count = m.shape(ReadHow::Use, o)?;
    remove_at(m, o, count, place_in(count, n))
}

fn remove_at(m: &mut Machine, o: ObjRef, count: usize, place: Option<usize>) -> Result<(), Stop>
    ensures { Runs (spec.remove_at o count place m.old) result m.new }
{
    let Some(i) = place else {
        return fault(m, FaultKind::Index);
    };
    let items = used_from(m, o, i, count.saturating_sub(i))?;
    let tail = behind_first(m.alloc, &items)?;
    splice(m, o, i, tail)
}

// So many items from a place on, each used for a step.
fn used_from(m: &mut Machine, o: ObjRef, from: usize, count: usize) -> Result<Values, Stop>
    ensures { Runs (spec.used_from o from count [] m.old) result m.new }
{
    let mut at = from;
    let mut left = count;
    let mut done = Vec::new(m.alloc);
    while left != 0 {
        left -= 1;
        let found = m.load(&item(o, at))?;
        m.step()?;
        done = with_part(done, found)?;
        at = after(at)?;
    }
    Ok(Shared::from_vec(m.alloc, done)?)
}

fn with_part(done: Vec<Value>, part: Option<Value>) -> Result<Vec<Value>, NoMemory>
    ensures { IfOk result (λ more. more.items ≡ spec.with_part done.items part) }
{
    let mut more = done;
    if let Some(v) = part {
        more.push(v)?;
    }
    Ok(more)
}

fn behind_first(alloc: Global, items: &Values) -> Result<Values, NoMemory>
    ensures { IfOk result (λ rest. rest ≡ drop 1 items.now) }
{
    match items.as_slice() {
        [_, rest @ ..] => joined_values(alloc, &[], rest),
        [] => joined_values(alloc, &[], &[]),
    }
}

/// Puts values in the place of the items of a list from a place on that is at most its length, for a step each; `Stop::Steps` where too few are
/// left. Takes memory; for want of it `Stop::NoMemory`.
#[tactic(auto, unfolding(crate::specs::Subscripts::splice))]
pub fn splice(m: &mut Machine, o: ObjRef, from: usize, tail: Values) -> Result<(), Stop>
    ensures { Runs (spec.splice o from tail m.old) result m.new }
{
    m.steps(tail.len() as u128)?;
    m.list_splice(o, from, tail)
}

fn dict_delete(m: &mut Machine, d: ObjRef, key: &Value) -> Result<(), Stop>
    ensures { Runs (spec.dict_delete d key.now (keyed.key_of key.now) m.old) result m.new }
{
    let Some(k) = key_of(m.alloc, key)? else {
        return fault(m, FaultKind::Kind);
    };
    if !m.present(d, &k)? {
        return raise_with(m, ExcClass::KeyError, key.copy()?);
    }
    m.dict_remove(d, &k)
}
