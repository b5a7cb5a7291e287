// Walks over the parts of values.
ghost use Rattle.std.specs.Prelude.{◌≡◌, ◌<◌, ◌-ℤ◌, IfOk, option_map, pos, slice_get, suc};
ghost use Rattle.heap_objects.specs.State as state;
ghost use Rattle.heap_objects.specs.WellFormed.{steps_in};
ghost use Rattle.interp_machine.specs.Meaning.{Runs};
ghost use Rattle.interp_machine.specs.Walks as spec;

use crate::errors::fault;
use crate::kinds::Kind;
use crate::machine::Machine;
use crate::stop::Stop;
use exceptions_core::FaultKind;
use flow_base::{Key, Loc, NoMemory, ObjRef, PyText, ReadHow, Shared};
use heap_objects::{Value, Values};
use std::alloc::Global;

/// What is left of a walk: the items of a list, the keys of a dictionary, the parts of a tuple or the code points of a text from a place
/// on, or so many members of a range from one on.
#[derive(Drop)]
pub enum Walker {
    Items(ObjRef, usize),
    Keys(ObjRef, usize),
    Parts(Values, usize),
    Points(PyText, usize),
    Range(i128, i128, u128),
}

/// Begins the walk of a value, for no step, and raises TypeError where it has no parts. The shape of a dictionary is used. Takes memory; for
/// want of it `Stop::NoMemory`.
#[tactic(auto, unfolding(crate::specs::Walks::walk, crate::specs::Kinds::kind))]
pub fn walk(m: &mut Machine, v: &Value) -> Result<Walker, Stop>
    ensures { Runs (spec.walk v.now m.old) result m.new }
{
    match m.kind(v)? {
        Kind::List(o) => Ok(Walker::Items(o, 0)),
        Kind::Dict(d) => {
            m.shape(ReadHow::Use, d)?;
            Ok(Walker::Keys(d, 0))
        }
        Kind::Tuple(parts) => Ok(Walker::Parts(parts, 0)),
        Kind::Text(t) => Ok(Walker::Points(t, 0)),
        Kind::Range(start, stop, step) => Ok(Walker::Range(
            start,
            step,
            range_size(start, stop, step),
        )),
        Kind::Nil => fault(m, FaultKind::Kind),
        Kind::Number(_) => fault(m, FaultKind::Kind),
        Kind::Instance(_, _) => fault(m, FaultKind::Kind),
        Kind::Class(_) => fault(m, FaultKind::Kind),
        Kind::Other => fault(m, FaultKind::Kind),
    }
}

/// The part that is next, if there is one, for a step, and the walk behind it. An item of a list is used, whether it is there or not.
/// `Stop::Steps` where no step is left. Takes memory; for want of it `Stop::NoMemory`.
#[tactic(auto, unfolding(crate::specs::Walks::next, crate::specs::Meaning::key_at))]
pub fn next(m: &mut Machine, walker: Walker) -> Result<(Option<Value>, Walker), Stop>
    ensures { Runs (spec.next walker m.old) result m.new }
{
    match walker {
        Walker::Items(o, i) => {
            let found = m.load(&item(o, i))?;
            counted(m, found, Walker::Items(o, after(i)?))
        }
        Walker::Keys(d, i) => {
            let found = m.key_at(d, i)?;
            counted(m, found, Walker::Keys(d, after(i)?))
        }
        Walker::Parts(parts, i) => {
            let found = part_at(&parts, i)?;
            counted(m, found, Walker::Parts(parts, after(i)?))
        }
        Walker::Points(t, i) => {
            let found = point_at(m.alloc, &t, i)?;
            counted(m, found, Walker::Points(t, after(i)?))
        }
        Walker::Range(a, step, left) => member(m, a, step, left),
    }
}

// A member of a range that is followed by all but one of so many, if there is one.
#[tactic(auto, unfolding(crate::specs::Walks::member))]
fn member(m: &mut Machine, a: i128, step: i128, left: u128) -> Result<(Option<Value>, Walker), Stop>
    ensures { Runs (spec.member a step left m.old) result m.new }
{
    if left == 0 {
        return Ok((None, Walker::Range(a, step, 0)));
    }
    some_member(m, a, step, left - 1)
}

// A member of a range that is followed by so many.
#[tactic(auto, unfolding(crate::specs::Walks::some_member))]
fn some_member(
    m: &mut Machine,
    a: i128,
    step: i128,
    rest: u128,
) -> Result<(Option<Value>, Walker), Stop>
    ensures { Runs (spec.some_member a step rest m.old) result m.new }
{
    let next = member_after(a, step, rest)?;
    counted(m, Some(Value::Int(a)), Walker::Range(next, step, rest))
}

// A part, where there is one, costs a step.
#[tactic(auto, unfolding(crate::specs::Walks::counted))]
fn counted(
    m: &mut Machine,
    found: Option<Value>,
    after: Walker,
) -> Result<(Option<Value>, Walker), Stop>
    ensures { Runs (spec.counted found after m.old) result m.new }
{
    match found {
        Some(v) => {
            m.step()?;
            Ok((Some(v), after))
        }
        None => Ok((None, after)),
    }
}

/// The place after one. Want of memory stands for a place that no list has; takes none.
pub fn after(i: usize) -> Result<usize, NoMemory>
    ensures { IfOk result (λ next. next ≡ suc i) }
{
    i.checked_add(1).ok_or(NoMemory)
}

/// An item of a list by its place from 0. Takes no memory.
pub fn item(o: ObjRef, i: usize) -> Loc
    ensures { result ≡ state.item o i }
{
    Loc::Item(o, Key::Int(i as i128))
}

/// The part of a tuple at a place from 0, and `None` exactly where there is none. It stays shared with the tuple.
pub fn part_at(parts: &Values, i: usize) -> Result<Option<Value>, NoMemory>
    ensures { IfOk result (λ x. x ≡ slice_get parts.now i) }
{
    match parts.get(i) {
        Some(v) => Ok(Some(v.copy()?)),
        None => Ok(None),
    }
}

fn point_at(alloc: Global, t: &PyText, i: usize) -> Result<Option<Value>, NoMemory>
    ensures { IfOk result (λ x. x ≡ option_map spec.point_value (slice_get t.now i)) }
{
    match t.as_slice().get(i) {
        Some(c) => Ok(Some(point_value(alloc, *c)?)),
        None => Ok(None),
    }
}

/// The text of one code point.
pub fn point_value(alloc: Global, c: char) -> Result<Value, NoMemory>
    ensures { IfOk result (λ v. v ≡ spec.point_value c) }
{
    let mut points = Vec::new(alloc);
    points.push(c)?;
    Ok(Value::Text(PyText::from_points(alloc, points)?))
}

// The member of a range after one that is followed by so many. Want of memory stands for a member outside the whole numbers of 128
// bits, which no range has.
fn member_after(a: i128, step: i128, left: u128) -> Result<i128, NoMemory>
    ensures { IfOk result (λ next. next ≡ spec.member_after a step left) }
{
    if left == 0 {
        return Ok(a);
    }
    a.checked_add(step).ok_or(NoMemory)
}

/// How many members a range has. Takes no memory.
#[tactic(auto, unfolding(crate::specs::Walks::range_size))]
pub fn range_size(start: i128, stop: i128, step: i128) -> u128
    ensures { result ≡ spec.range_size start stop step }
{
    if step > 0 {
        return steps_in(start, stop, step.unsigned_abs());
    }
    if step < 0 {
        return steps_in(stop, start, step.unsigned_abs());
    }
    0
}

// How many steps of a length begin between two places.
fn steps_in(from: i128, to: i128, step: u128) -> u128
    requires { 0 < step }
    ensures { result ≡ spec.size_of (steps_in (to -ℤ from) (pos step)) }
{
    if to > from {
        (to.abs_diff(from) - 1) / step + 1
    } else {
        0
    }
}

/// The parts that are left of a walk. `Stop::Steps` where too few steps are left. Takes memory; for want of it `Stop::NoMemory`.
#[tactic(auto, unfolding(crate::specs::Walks::collect, crate::specs::Walks::gather))]
pub fn collect(m: &mut Machine, walker: Walker) -> Result<Values, Stop>
    ensures { Runs (spec.collect walker m.old) result m.new }
{
    let mut turns = m.left as u64 + 1;
    let mut rest = walker;
    let mut done = Vec::new(m.alloc);
    while turns != 0 {
        turns -= 1;
        let (part, after) = next(m, rest)?;
        rest = after;
        match part {
            Some(v) => done.push(v)?,
            None => return Ok(Shared::from_vec(m.alloc, done)?),
        }
    }
    Err(Stop::Steps)
}
