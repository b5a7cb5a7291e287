// Equality of values.
ghost use Rattle.std.specs.Prelude.{◌≡◌, IfOk, true};
ghost use Rattle.interp_machine.specs.Meaning.{Runs, key_if, key_in};
ghost use Rattle.interp_ops.specs.Equality as spec;

use crate::truths::{identical, same_text};
use exceptions_core::FaultKind;
use flow_base::{Key, Loc, NoMemory, ObjRef, ReadHow};
use heap_objects::{Value, key_of};
use interp_machine::{Machine, Pair, Stop, fault, item, part_at, range_size};

/// Whether two values are equal (Python reference 6.10.1, "Value comparisons"): numbers by value, texts, None and built-ins by themselves,
/// ranges as sequences, tuples, lists and dictionaries by their parts, for a step each; references to one object always, and bound methods
/// of one function and receiver, and built-in methods of one name and identical receivers. The shapes and the items of lists and dictionaries
/// are used. RecursionError where a part stands deeper than executions and evaluations may be open, `Stop::Steps` where too few steps are
/// left. Takes memory; for want of it `Stop::NoMemory`.
#[tactic(auto, unfolding(crate::specs::Equality::equal))]
pub fn equal(m: &mut Machine, a: &Value, b: &Value) -> Result<bool, Stop>
    ensures { Runs (spec.equal a.now b.now m.old) result m.new }
{
    let levels = m.levels_left();
    equal_with(m, levels, a, b)
}

/// Whether two values are equal, with so many levels left, of which this takes one.
#[tactic(auto, unfolding(crate::specs::Equality::equal_below))]
#[cycle(equal)]
pub(crate) fn equal_below(m: &mut Machine, levels: u32, a: &Value, b: &Value) -> Result<bool, Stop>
    ensures { Runs (spec.equal_below levels a.now b.now m.old) result m.new }
{
    if levels == 0 {
        return fault(m, FaultKind::Depth);
    }
    equal_with(m, levels - 1, a, b)
}

#[tactic(auto, unfolding(crate::specs::Equality::equal_with, interp_machine::specs::Kinds::pair))]
#[cycle(equal)]
fn equal_with(m: &mut Machine, levels: u32, a: &Value, b: &Value) -> Result<bool, Stop>
    ensures { Runs (spec.equal_with (spec.equal_below levels) a.now b.now m.old) result m.new }
{
    let both = m.pair(a, b)?;
    equal_pair(m, levels, a, b, &both)
}

#[cycle(equal)]
fn equal_pair(m: &mut Machine, levels: u32, a: &Value, b: &Value, pair: &Pair) -> Result<bool, Stop>
    ensures { Runs (spec.equal_pair (spec.equal_below levels) a.now b.now pair.now m.old) result m.new }
{
    match pair {
        Pair::Numbers(x, y) => Ok(*x == *y),
        Pair::Texts(s, t) => Ok(same_text(s, t)),
        Pair::Tuples(_, _) => equal_parts(m, levels, pair),
        Pair::Lists(o, p) => {
            if o.0 == p.0 {
                return Ok(true);
            }
            equal_parts(m, levels, pair)
        }
        Pair::Dicts(d, e) => {
            if d.0 == e.0 {
                return Ok(true);
            }
            equal_dicts(m, levels, *d, *e)
        }
        Pair::Others => Ok(alike(a, b)),
    }
}

// ---- what is equal without an event

// Whether two values other than numbers, texts, tuples, lists and dictionaries are equal.
fn alike(a: &Value, b: &Value) -> bool
    ensures { result ≡ spec.alike a.now b.now }
{
    match a {
        Value::Nil => match b {
            Value::Nil => true,
            _ => false,
        },
        Value::Range(start, stop, step) => match b {
            Value::Range(first, end, stride) => same_members(
                range_size(*start, *stop, *step),
                range_size(*first, *end, *stride),
                (*start, *step),
                (*first, *stride),
            ),
            _ => false,
        },
        Value::Builtin(f) => match b {
            Value::Builtin(g) => f.0 == g.0,
            _ => false,
        },
        Value::Obj(o) => match b {
            Value::Obj(p) => o.0 == p.0,
            _ => false,
        },
        Value::Bound(f, o) => match b {
            Value::Bound(g, p) => f.0 == g.0 && o.0 == p.0,
            _ => false,
        },
        Value::Method(f, x) => match b {
            Value::Method(g, y) => f.0 == g.0 && identical(x.get(), y.get()),
            _ => false,
        },
        _ => false,
    }
}

// Whether two ranges have as many members, and the same ones: by their sizes, and the start and the step of each.
fn same_members(m: u128, n: u128, first: (i128, i128), second: (i128, i128)) -> bool
    ensures { result ≡ spec.same_members m n first.0 second.0 first.1 second.1 }
{
    m == n && (m == 0 || (first.0 == second.0 && (m == 1 || first.1 == second.1)))
}

// ---- two sequences beside each other

/// The lengths of both; the shapes of lists are used.
pub(crate) fn lengths(m: &mut Machine, pair: &Pair) -> Result<(usize, usize), Stop>
    ensures { Runs (spec.lengths pair.now m.old) result m.new }
{
    match pair {
        Pair::Tuples(xs, ys) => Ok((xs.len(), ys.len())),
        Pair::Lists(o, p) => {
            let first = m.shape(ReadHow::Use, *o)?;
            let second = m.shape(ReadHow::Use, *p)?;
            Ok((first, second))
        }
        _ => Ok((0, 0)),
    }
}

/// What stands at a place of both, for a step; items of lists are used.
pub(crate) fn sides(
    m: &mut Machine,
    pair: &Pair,
    i: usize,
) -> Result<(Option<Value>, Option<Value>), Stop>
    ensures { Runs (spec.sides pair.now i m.old) result m.new }
{
    match pair {
        Pair::Tuples(xs, ys) => {
            m.step()?;
            let x = part_at(xs, i)?;
            let y = part_at(ys, i)?;
            Ok((x, y))
        }
        Pair::Lists(o, p) => {
            m.step()?;
            let x = m.load(&item(*o, i))?;
            let y = m.load(&item(*p, i))?;
            Ok((x, y))
        }
        _ => {
            m.step()?;
            Ok((None, None))
        }
    }
}

/// Whether two values that are there are equal.
#[cycle(equal)]
pub(crate) fn both_equal(
    m: &mut Machine,
    levels: u32,
    sides: &(Option<Value>, Option<Value>),
) -> Result<bool, Stop>
    ensures { Runs (spec.both (spec.equal_below levels) sides.now m.old) result m.new }
{
    match sides {
        (Some(x), Some(y)) => equal_below(m, levels, x, y),
        _ => Ok(false),
    }
}

#[cycle(equal)]
fn equal_parts(m: &mut Machine, levels: u32, pair: &Pair) -> Result<bool, Stop>
    ensures { Runs (spec.equal_parts (spec.equal_below levels) pair.now m.old) result m.new }
{
    let (first, second) = lengths(m, pair)?;
    if first != second {
        return Ok(false);
    }
    equal_from(m, levels, pair, first)
}

// Whether so many pairs are equal, from the first on.
#[cycle(equal)]
fn equal_from(m: &mut Machine, levels: u32, pair: &Pair, count: usize) -> Result<bool, Stop>
    ensures { Runs (spec.all_from (spec.equal_sides (spec.equal_below levels) pair.now) 0 count m.old) result m.new }
{
    let mut left = count;
    let mut at = 0;
    while left != 0 {
        left -= 1;
        if !equal_sides(m, levels, pair, at)? {
            return Ok(false);
        }
        at += 1;
    }
    Ok(true)
}

// Whether what stands at a place of both is equal.
#[cycle(equal)]
fn equal_sides(m: &mut Machine, levels: u32, pair: &Pair, i: usize) -> Result<bool, Stop>
    ensures { Runs (spec.equal_sides (spec.equal_below levels) pair.now i m.old) result m.new }
{
    let both = sides(m, pair, i)?;
    both_equal(m, levels, &both)
}

// ---- two dictionaries

#[cycle(equal)]
fn equal_dicts(m: &mut Machine, levels: u32, d: ObjRef, e: ObjRef) -> Result<bool, Stop>
    ensures { Runs (spec.equal_dicts (spec.equal_below levels) d e m.old) result m.new }
{
    let first = m.shape(ReadHow::Use, d)?;
    let second = m.shape(ReadHow::Use, e)?;
    if first != second {
        return Ok(false);
    }
    equal_entries(m, levels, d, e, first)
}

// Whether so many keys of the first, from its first on, have equal values in both.
#[cycle(equal)]
fn equal_entries(
    m: &mut Machine,
    levels: u32,
    d: ObjRef,
    e: ObjRef,
    count: usize,
) -> Result<bool, Stop>
    ensures { Runs (spec.all_from (spec.equal_place (spec.equal_below levels) d e) 0 count m.old) result m.new }
{
    let mut left = count;
    let mut at = 0;
    while left != 0 {
        left -= 1;
        if !equal_place(m, levels, d, e, at)? {
            return Ok(false);
        }
        at += 1;
    }
    Ok(true)
}

// Whether the key at a place of the first has an equal value in both, for a step.
#[tactic(auto, unfolding(interp_machine::specs::Meaning::key_at))]
#[cycle(equal)]
fn equal_place(m: &mut Machine, levels: u32, d: ObjRef, e: ObjRef, i: usize) -> Result<bool, Stop>
    ensures { Runs (spec.equal_place (spec.equal_below levels) d e i m.old) result m.new }
{
    m.step()?;
    let key = key_there(m, d, i)?;
    equal_entry(m, levels, d, e, key)
}

// The key of a dictionary at a place from 0, if there is one.
fn key_there(m: &Machine, d: ObjRef, i: usize) -> Result<Option<Key>, NoMemory>
    ensures { IfOk result (λ key. key ≡ key_if (key_in m.now d i)) }
{
    match m.key_at(d, i)? {
        Some(spelled) => key_of(m.alloc, &spelled),
        None => Ok(None),
    }
}

#[cycle(equal)]
fn equal_entry(
    m: &mut Machine,
    levels: u32,
    d: ObjRef,
    e: ObjRef,
    key: Option<Key>,
) -> Result<bool, Stop>
    ensures { Runs (spec.equal_entry (spec.equal_below levels) d e key m.old) result m.new }
{
    match key {
        Some(k) => {
            if !m.present(e, &k)? {
                return Ok(false);
            }
            equal_at(m, levels, d, e, &k)
        }
        None => Ok(false),
    }
}

// Whether both have an equal value at the key.
#[cycle(equal)]
fn equal_at(m: &mut Machine, levels: u32, d: ObjRef, e: ObjRef, k: &Key) -> Result<bool, Stop>
    ensures { Runs (spec.equal_at (spec.equal_below levels) d e k.now true m.old) result m.new }
{
    let x = m.load(&Loc::Item(d, k.copy()?))?;
    let y = m.load(&Loc::Item(e, k.copy()?))?;
    both_equal(m, levels, &(x, y))
}
