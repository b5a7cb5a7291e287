// The order of values.
ghost use Rattle.std.specs.Prelude.{◌≡◌, ◌↔◌, IsTrue, Some};
ghost use Rattle.interp_machine.specs.Meaning.{Runs};
ghost use Rattle.interp_ops.specs.Equality.{both, equal_below};
ghost use Rattle.interp_ops.specs.Orders as spec;

use crate::equality::{both_equal, lengths, sides};
use exceptions_core::FaultKind;
use heap_objects::Value;
use interp_machine::{Machine, Pair, Stop, fault};
use std::cmp::Ordering;

/// Whether a value comes before another: numbers by value, texts by code points, and tuples and lists by the first pair of parts that is not
/// equal, a beginning before the whole. TypeError for other values, RecursionError where a part stands deeper than executions and evaluations
/// may be open, `Stop::Steps` where too few steps are left. Takes memory; for want of it `Stop::NoMemory`.
#[tactic(auto, unfolding(crate::specs::Orders::less))]
pub fn less(m: &mut Machine, a: &Value, b: &Value) -> Result<bool, Stop>
    ensures { Runs (spec.less a.now b.now m.old) result m.new }
{
    let levels = m.levels_left();
    less_with(m, levels, false, a, b)
}

/// Whether a value comes before another by the order of `less`, or neither comes before the other: one number, one text, or as many parts that
/// are equal in pairs. Errors as those of `less`.
#[tactic(auto, unfolding(crate::specs::Orders::less_or_equal))]
pub fn less_or_equal(m: &mut Machine, a: &Value, b: &Value) -> Result<bool, Stop>
    ensures { Runs (spec.less_or_equal a.now b.now m.old) result m.new }
{
    let levels = m.levels_left();
    less_with(m, levels, true, a, b)
}

// Whether a value comes before another, with so many levels left, of which this takes one.
#[tactic(auto, unfolding(crate::specs::Orders::less_below))]
#[cycle(less)]
fn less_below(m: &mut Machine, levels: u32, a: &Value, b: &Value) -> Result<bool, Stop>
    ensures { Runs (spec.less_below levels a.now b.now m.old) result m.new }
{
    if levels == 0 {
        return fault(m, FaultKind::Depth);
    }
    less_with(m, levels - 1, false, a, b)
}

// Whether a value comes before another, or where both may be equal, before it or equal.
#[tactic(auto, unfolding(crate::specs::Orders::less_with, interp_machine::specs::Kinds::pair))]
#[cycle(less)]
fn less_with(m: &mut Machine, levels: u32, same: bool, a: &Value, b: &Value) -> Result<bool, Stop>
    ensures { Runs (spec.less_with (equal_below levels) (spec.less_below levels) same a.now b.now m.old) result m.new }
{
    let both = m.pair(a, b)?;
    less_pair(m, levels, same, &both)
}

#[cycle(less)]
fn less_pair(m: &mut Machine, levels: u32, same: bool, pair: &Pair) -> Result<bool, Stop>
    ensures { Runs (spec.less_pair (equal_below levels) (spec.less_below levels) same pair.now m.old) result m.new }
{
    match pair {
        Pair::Numbers(x, y) => Ok(number_before(same, *x, *y)),
        Pair::Texts(s, t) => Ok(is_before(same, s.compare(t))),
        Pair::Tuples(_, _) => less_parts(m, levels, same, pair),
        Pair::Lists(_, _) => less_parts(m, levels, same, pair),
        Pair::Dicts(_, _) => fault(m, FaultKind::Kind),
        Pair::Others => fault(m, FaultKind::Kind),
    }
}

fn number_before(same: bool, x: i128, y: i128) -> bool
    ensures { result ≡ spec.number_before same x y }
{
    if same { x <= y } else { x < y }
}

fn count_before(same: bool, x: usize, y: usize) -> bool
    ensures { result ≡ spec.count_before same x y }
{
    if same { x <= y } else { x < y }
}

fn is_before(same: bool, order: Ordering) -> bool
    ensures { result ≡ spec.cmp_before same order }
{
    if same { order.is_le() } else { order.is_lt() }
}

#[cycle(less)]
fn less_parts(m: &mut Machine, levels: u32, same: bool, pair: &Pair) -> Result<bool, Stop>
    ensures { Runs (spec.less_parts (equal_below levels) (spec.less_below levels) same pair.now m.old) result m.new }
{
    let (first, second) = lengths(m, pair)?;
    let otherwise = count_before(same, first, second);
    first_from(m, levels, pair, first.min(second), otherwise)
}

// What the first of so many pairs that is not equal decides; where all are equal, this.
#[cycle(less)]
fn first_from(
    m: &mut Machine,
    levels: u32,
    pair: &Pair,
    count: usize,
    otherwise: bool,
) -> Result<bool, Stop>
    ensures { Runs (spec.first_from (spec.decided_at (equal_below levels) (spec.less_below levels) pair.now) 0 count otherwise m.old) result m.new }
{
    let mut left = count;
    let mut at = 0;
    while left != 0 {
        left -= 1;
        match decided_at(m, levels, pair, at)? {
            Some(answer) => return Ok(answer),
            None => at += 1,
        }
    }
    Ok(otherwise)
}

// What the pair at a place decides, if it is not equal.
#[cycle(less)]
fn decided_at(m: &mut Machine, levels: u32, pair: &Pair, i: usize) -> Result<Option<bool>, Stop>
    ensures { Runs (spec.decided_at (equal_below levels) (spec.less_below levels) pair.now i m.old) result m.new }
{
    let both = sides(m, pair, i)?;
    if both_equal(m, levels, &both)? {
        return Ok(None);
    }
    let answer = both_less(m, levels, &both)?;
    Ok(Some(answer))
}

// Whether of two values that are there the first comes before the second.
#[cycle(less)]
fn both_less(
    m: &mut Machine,
    levels: u32,
    sides: &(Option<Value>, Option<Value>),
) -> Result<bool, Stop>
    ensures { Runs (both (spec.less_below levels) sides.now m.old) result m.new }
{
    match sides {
        (Some(x), Some(y)) => less_below(m, levels, x, y),
        _ => Ok(false),
    }
}

// ---- which values are sorted together

/// Whether values can be sorted together: they are all numbers, all texts, or all tuples of as many parts, of which those at one place can be
/// sorted together. Takes no memory and no step.
pub fn sorts_together(values: &[Value]) -> bool
    ensures { IsTrue result ↔ spec.SortTogether values.now }
{
    match values {
        [] => true,
        [first, ..] => all_like(first, values),
    }
}

// Whether all values have the sort kind of one.
fn all_like(one: &Value, values: &[Value]) -> bool
    ensures { result ≡ spec.all_of_kind (spec.kind_of_value one.now) values.now }
{
    for v in values {
        if !one_kind(one, v) {
            return false;
        }
    }
    true
}

// Whether two values have one sort kind.
#[tactic(auto, using(crate::proofs::SortLaws::number_tuple, crate::proofs::SortLaws::text_tuple, crate::proofs::SortLaws::tuple_number, crate::proofs::SortLaws::tuple_text, crate::proofs::SortLaws::tuple_none, crate::proofs::SortLaws::tuples))]
#[cycle(kinds)]
fn one_kind(a: &Value, b: &Value) -> bool
    ensures { result ≡ spec.one_kind (spec.kind_of_value a.now) (spec.kind_of_value b.now) }
{
    match a {
        Value::Truth(_) => is_number(b),
        Value::Int(_) => is_number(b),
        Value::Text(_) => is_text(b),
        Value::Tuple(xs, _) => match b {
            Value::Tuple(ys, _) => one_list(xs.as_slice(), ys.as_slice()),
            _ => false,
        },
        _ => false,
    }
}

#[tactic(auto, using(crate::proofs::SortLaws::number_tuple))]
fn is_number(v: &Value) -> bool
    ensures { result ≡ spec.one_kind (Some spec.number) (spec.kind_of_value v.now) }
{
    match v {
        Value::Truth(_) => true,
        Value::Int(_) => true,
        _ => false,
    }
}

#[tactic(auto, using(crate::proofs::SortLaws::text_tuple))]
fn is_text(v: &Value) -> bool
    ensures { result ≡ spec.one_kind (Some spec.text) (spec.kind_of_value v.now) }
{
    match v {
        Value::Text(_) => true,
        _ => false,
    }
}

// Whether there are as many of both, and those beside each other have one sort kind.
#[tactic(auto, using(crate::proofs::SortLaws::lists_more, crate::proofs::SortLaws::more_done, crate::proofs::SortLaws::done_more))]
#[cycle(kinds)]
fn one_list(xs: &[Value], ys: &[Value]) -> bool
    ensures { result ≡ spec.one_list (spec.kinds_of_values xs.now) (spec.kinds_of_values ys.now) }
{
    let mut rest = ys;
    for x in xs {
        let [y, more @ ..] = rest else {
            return false;
        };
        if !one_kind(x, y) {
            return false;
        }
        rest = more;
    }
    rest.is_empty()
}
