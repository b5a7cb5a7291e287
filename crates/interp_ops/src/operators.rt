// Operators of two operands and of one.
ghost use Rattle.std.specs.Prelude.{◌≡◌, ◌-ℤ◌, length};
ghost use Rattle.interp_machine.specs.Meaning.{Runs, steps};
ghost use Rattle.interp_machine.specs.Walks as walks;
ghost use Rattle.interp_ops.specs.Making as making;
ghost use Rattle.interp_ops.specs.Operators as spec;
ghost use Rattle.interp_ops.specs.declared.operators.BinaryOp.TheVariants.{Add, Sub, Mul, FloorDiv, Mod, Power};
ghost use Rattle.py_scalars.specs.Exact.{divided, exact, floor_quotient, floor_remainder};

use crate::joining::{joined_texts, joined_values, repeated_text, repeated_values};
use crate::making::{make_list, make_text, make_tuple, tuple};
use crate::products::{Product, times};
use exceptions_core::FaultKind;
use flow_base::{ObjRef, PyText};
use heap_objects::{Value, Values};
use interp_machine::{Kind, Machine, Pair, Stop, Walker, collect, fault};
use py_scalars::{NumFault, add, floor_div, modulo, mul, power, sub};

/// An arithmetic operator of two operands (Python reference 6.5 and 6.7).
#[derive(Clone, Copy, Debug, PartialEq, Eq)]
pub enum BinaryOp {
    Add,
    Sub,
    Mul,
    FloorDiv,
    Mod,
    Power,
}

/// The value of an operator of two operands (Python reference 6.5 and 6.7). TypeError for other kinds of operands; ZeroDivisionError;
/// ValueError for an exponent below 0; RecursionError where a tuple would nest over the limit; `Stop::Range` where a number is outside 128
/// bits; `Stop::Steps` where too few steps are left. Takes memory; for want of it `Stop::NoMemory`.
#[tactic(auto, unfolding(crate::specs::Operators::binary, interp_machine::specs::Kinds::pair, crate::specs::Operators::product))]
pub fn binary(m: &mut Machine, op: BinaryOp, a: &Value, b: &Value) -> Result<Value, Stop>
    ensures { Runs (spec.binary op a.now b.now m.old) result m.new }
{
    let (x, y) = (m.kind(a)?, m.kind(b)?);
    match op {
        BinaryOp::Add => sum(m, x.pair(y)),
        BinaryOp::Sub => difference(m, x.pair(y)),
        BinaryOp::Mul => product(m, times(x, y)),
        BinaryOp::FloorDiv => quotient(m, x.pair(y)),
        BinaryOp::Mod => remainder(m, x.pair(y)),
        BinaryOp::Power => raised(m, x.pair(y)),
    }
}

fn sum(m: &mut Machine, two: Pair) -> Result<Value, Stop>
    ensures { Runs (spec.sum_of two m.old) result m.new }
{
    match two {
        Pair::Numbers(x, y) => answered(m, add(x, y)),
        Pair::Texts(s, t) => {
            let text = joined_texts(m.alloc, &s, &t)?;
            make_text(m, text)
        }
        Pair::Tuples(xs, ys) => {
            let parts = joined_values(m.alloc, xs.as_slice(), ys.as_slice())?;
            make_tuple(m, parts)
        }
        Pair::Lists(o, p) => joined_lists(m, o, p),
        Pair::Dicts(_, _) => fault(m, FaultKind::Kind),
        Pair::Others => fault(m, FaultKind::Kind),
    }
}

fn joined_lists(m: &mut Machine, o: ObjRef, p: ObjRef) -> Result<Value, Stop>
    ensures { Runs (spec.joined_lists o p m.old) result m.new }
{
    let xs = collect(m, Walker::Items(o, 0))?;
    let ys = collect(m, Walker::Items(p, 0))?;
    let items = joined_values(m.alloc, xs.as_slice(), ys.as_slice())?;
    make_list(m, items)
}

fn difference(m: &mut Machine, two: Pair) -> Result<Value, Stop>
    ensures { Runs (spec.of_numbers (λ x y. spec.answered (exact (x -ℤ y))) two m.old) result m.new }
{
    match two {
        Pair::Numbers(x, y) => answered(m, sub(x, y)),
        _ => fault(m, FaultKind::Kind),
    }
}

fn quotient(m: &mut Machine, two: Pair) -> Result<Value, Stop>
    ensures { Runs (spec.of_numbers (λ x y. spec.answered (divided y (floor_quotient x y))) two m.old) result m.new }
{
    match two {
        Pair::Numbers(x, y) => answered(m, floor_div(x, y)),
        _ => fault(m, FaultKind::Kind),
    }
}

fn remainder(m: &mut Machine, two: Pair) -> Result<Value, Stop>
    ensures { Runs (spec.of_numbers (λ x y. spec.answered (divided y (floor_remainder x y))) two m.old) result m.new }
{
    match two {
        Pair::Numbers(x, y) => answered(m, modulo(x, y)),
        _ => fault(m, FaultKind::Kind),
    }
}

fn raised(m: &mut Machine, two: Pair) -> Result<Value, Stop>
    ensures { Runs (spec.of_numbers spec.raised_to two m.old) result m.new }
{
    match two {
        Pair::Numbers(x, y) => raised_to(m, x, y),
        _ => fault(m, FaultKind::Kind),
    }
}

fn raised_to(m: &mut Machine, x: i128, y: i128) -> Result<Value, Stop>
    ensures { Runs (spec.raised_to x y m.old) result m.new }
{
    if y < 0 {
        return fault(m, FaultKind::Value);
    }
    answered(m, power(x, y))
}

fn product(m: &mut Machine, two: Product) -> Result<Value, Stop>
    ensures { Runs (spec.product_of two m.old) result m.new }
{
    match two {
        Product::Numbers(x, y) => answered(m, mul(x, y)),
        Product::Text(t, n) => text_times(m, &t, n),
        Product::Tuple(parts, n) => tuple_times(m, &parts, n),
        Product::List(o, n) => {
            let items = collect(m, Walker::Items(o, 0))?;
            list_times(m, &items, n)
        }
        Product::Others => fault(m, FaultKind::Kind),
    }
}

#[tactic(auto, unfolding(crate::specs::Making::make_text))]
fn text_times(m: &mut Machine, t: &PyText, n: i128) -> Result<Value, Stop>
    ensures { Runs (making.make_text (spec.repeated (walks.size_of n) t.now) m.old) result m.new }
{
    let count = size_of(n);
    repeat_steps(m, t.as_slice(), count)?;
    let text = repeated_text(m.alloc, t.as_slice(), count)?;
    Ok(Value::Text(text))
}

#[tactic(auto, unfolding(crate::specs::Making::make_tuple))]
fn tuple_times(m: &mut Machine, parts: &Values, n: i128) -> Result<Value, Stop>
    ensures { Runs (making.make_tuple (spec.repeated (walks.size_of n) parts.now) m.old) result m.new }
{
    let count = size_of(n);
    repeat_steps(m, parts.as_slice(), count)?;
    let all = repeated_values(m.alloc, parts.as_slice(), count)?;
    tuple(m, all)
}

#[tactic(auto, unfolding(crate::specs::Making::make_list))]
fn list_times(m: &mut Machine, items: &Values, n: i128) -> Result<Value, Stop>
    ensures { Runs (making.make_list (spec.repeated (walks.size_of n) items.now) m.old) result m.new }
{
    let count = size_of(n);
    repeat_steps(m, items.as_slice(), count)?;
    let all = repeated_values(m.alloc, items.as_slice(), count)?;
    let o = m.new_list(all)?;
    Ok(Value::Obj(o))
}

// How often a number repeats a list: not at all where it is below 0.
fn size_of(n: i128) -> u128
    ensures { result ≡ walks.size_of n }
{
    if n < 0 {
        return 0;
    }
    n as u128
}

// Takes a step for each part of a list that is repeated so many times, before it is built.
fn repeat_steps<T>(m: &mut Machine, parts: &[T], count: u128) -> Result<(), Stop>
    ensures { Runs (steps (length (spec.repeated count parts.now)) m.old) result m.new }
{
    let left = m.left as u128;
    match (parts.len() as u128).checked_mul(count) {
        Some(total) => m.steps(total),
        None => m.steps(left + 1),
    }
}

// A number, the end of the run where it is outside those of 128 bits, or ZeroDivisionError.
fn answered(m: &mut Machine, n: Result<i128, NumFault>) -> Result<Value, Stop>
    ensures { Runs (spec.answered n m.old) result m.new }
{
    match n {
        Ok(n) => Ok(Value::Int(n)),
        Err(NumFault::Range) => Err(Stop::Range),
        Err(NumFault::ZeroDiv) => fault(m, FaultKind::ZeroDiv),
    }
}

/// `-v`. TypeError where it is no number, `Stop::Range` where the negative is outside 128 bits. Takes memory for an error; for want of it
/// `Stop::NoMemory`.
#[tactic(auto, unfolding(crate::specs::Operators::negate, interp_machine::specs::Kinds::kind))]
pub fn negate(m: &mut Machine, v: &Value) -> Result<Value, Stop>
    ensures { Runs (spec.negate v.now m.old) result m.new }
{
    match m.kind(v)? {
        Kind::Number(n) => answered(m, py_scalars::negate(n)),
        _ => fault(m, FaultKind::Kind),
    }
}

/// `+v`. TypeError where it is no number. Takes memory for an error; for want of it `Stop::NoMemory`.
#[tactic(auto, unfolding(crate::specs::Operators::plus, interp_machine::specs::Kinds::kind))]
pub fn plus(m: &mut Machine, v: &Value) -> Result<Value, Stop>
    ensures { Runs (spec.plus v.now m.old) result m.new }
{
    match m.kind(v)? {
        Kind::Number(n) => Ok(Value::Int(n)),
        _ => fault(m, FaultKind::Kind),
    }
}
