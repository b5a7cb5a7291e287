// The operations by a name.
use crate::direct::primitive;
use flow_base::{NoMemory, ObjRef, PyText, Shared};
use heap_objects::{Value, Values};
use interp_ops::{
    BinaryOp, Machine, Stop, binary, collect, contains, delete_item, equal, identical, less,
    less_or_equal, lookup, make_dict, make_list, make_text, make_tuple, negate, next, plus, show,
    sorts_together, splice, store_item, subscript, to_str, truth, walk,
};

pub(crate) fn texts(m: &mut Machine, op: &str, x: &Value) -> Result<PyText, Stop> {
    if op == "str" {
        to_str(m, x)
    } else {
        show(m, x)
    }
}

fn truth_value(given: Result<bool, Stop>) -> Result<Value, Stop> {
    match given {
        Ok(b) => Ok(Value::Truth(b)),
        Err(e) => Err(e),
    }
}

// What was changed, so that it is shown as it is then.
pub(crate) fn changed(given: Result<(), Stop>, x: &Value) -> Result<Value, Stop> {
    match given {
        Ok(()) => Ok(x.copy()?),
        Err(e) => Err(e),
    }
}

pub(crate) fn object(v: &Value) -> Result<ObjRef, NoMemory> {
    match v {
        Value::Obj(o) => Ok(*o),
        _ => Err(NoMemory),
    }
}

pub(crate) fn parts_of(v: &Value) -> Result<Values, NoMemory> {
    match v {
        Value::Tuple(parts, _) => parts.copy(),
        _ => Err(NoMemory),
    }
}

pub(crate) fn text_in(v: &Value) -> Result<PyText, NoMemory> {
    match v {
        Value::Text(t) => t.copy(),
        _ => Err(NoMemory),
    }
}

pub(crate) fn small(v: &Value) -> Result<usize, NoMemory> {
    match v {
        Value::Int(n) => match usize::try_from(*n) {
            Ok(n) => Ok(n),
            Err(_) => Err(NoMemory),
        },
        _ => Err(NoMemory),
    }
}

fn operator(op: &str) -> Option<BinaryOp> {
    match op {
        "+" => Some(BinaryOp::Add),
        "-" => Some(BinaryOp::Sub),
        "*" => Some(BinaryOp::Mul),
        "//" => Some(BinaryOp::FloorDiv),
        "%" => Some(BinaryOp::Mod),
        "**" => Some(BinaryOp::Power),
        _ => None,
    }
}

pub(crate) fn apply(
    m: &mut Machine,
    op: &str,
    x: &Value,
    y: &Value,
    z: &Value,
) -> Result<Value, Stop> {
    match operator(op) {
        Some(op) => binary(m, op, x, y),
        None => compared(m, op, x, y, z),
    }
}

fn compared(m: &mut Machine, op: &str, x: &Value, y: &Value, z: &Value) -> Result<Value, Stop> {
    match op {
        "==" => truth_value(equal(m, x, y)),
        "<" => truth_value(less(m, x, y)),
        "<=" => truth_value(less_or_equal(m, x, y)),
        "in" => truth_value(contains(m, x, y)),
        "is" => Ok(Value::Truth(identical(x, y))),
        "sorts" => sorts(m, x, y),
        "sorts-all" => Ok(Value::Truth(sorts_together(parts_of(x)?.as_slice()))),
        _ => single(m, op, x, y, z),
    }
}

// Whether two values are sorted together.
fn sorts(m: &mut Machine, x: &Value, y: &Value) -> Result<Value, Stop> {
    let mut pair = Vec::new(m.alloc);
    pair.push(x.copy()?)?;
    pair.push(y.copy()?)?;
    Ok(Value::Truth(sorts_together(pair.as_slice())))
}

fn single(m: &mut Machine, op: &str, x: &Value, y: &Value, z: &Value) -> Result<Value, Stop> {
    match op {
        "truth" => truth_value(truth(m, x)),
        "minus" => negate(m, x),
        "plus" => plus(m, x),
        "parts" => parts(m, x),
        "attribute" => attribute(m, x, y),
        _ => items(m, op, x, y, z),
    }
}

// The tuple of all parts.
fn parts(m: &mut Machine, x: &Value) -> Result<Value, Stop> {
    let walker = walk(m, x)?;
    let parts = collect(m, walker)?;
    match Value::tuple(parts) {
        Some(t) => Ok(t),
        None => Err(Stop::NoMemory),
    }
}

fn attribute(m: &mut Machine, x: &Value, name: &Value) -> Result<Value, Stop> {
    let name = text_in(name)?;
    let name = m.names.intern(&name)?;
    lookup(m, x, name)
}

fn items(m: &mut Machine, op: &str, x: &Value, y: &Value, z: &Value) -> Result<Value, Stop> {
    match op {
        "at" => subscript(m, x, y),
        "store" => stored(m, x, y, z),
        "delete" => changed(delete_item(m, x, y), x),
        "splice" => spliced(m, x, y, z),
        "put-again" => put_again(m, x, y, z),
        "walked-on" => walked_on(m, x, y, z),
        "str-of-division" => str_of_division(m, x, y),
        _ => made(m, op, x, y, z),
    }
}

fn stored(m: &mut Machine, x: &Value, y: &Value, z: &Value) -> Result<Value, Stop> {
    let v = z.copy()?;
    changed(store_item(m, x, y, v), x)
}

fn spliced(m: &mut Machine, x: &Value, y: &Value, z: &Value) -> Result<Value, Stop> {
    let o = object(x)?;
    let from = small(y)?;
    let tail = parts_of(z)?;
    changed(splice(m, o, from, tail), x)
}

// An item is deleted and stored.
fn put_again(m: &mut Machine, x: &Value, y: &Value, z: &Value) -> Result<Value, Stop> {
    delete_item(m, x, y)?;
    stored(m, x, y, z)
}

// The parts behind the first, where the list is changed behind that one.
fn walked_on(m: &mut Machine, x: &Value, y: &Value, z: &Value) -> Result<Value, Stop> {
    let walker = walk(m, x)?;
    let (_first, rest) = next(m, walker)?;
    let o = object(x)?;
    let from = small(y)?;
    let tail = parts_of(z)?;
    m.list_splice(o, from, tail)?;
    let parts = collect(m, rest)?;
    match Value::tuple(parts) {
        Some(t) => Ok(t),
        None => Err(Stop::NoMemory),
    }
}

// The text of the error that a division raises.
fn str_of_division(m: &mut Machine, x: &Value, y: &Value) -> Result<Value, Stop> {
    match binary(m, BinaryOp::FloorDiv, x, y) {
        Err(Stop::Raised(e)) => {
            let t = to_str(m, &e)?;
            Ok(Value::Text(t))
        }
        given => given,
    }
}

fn made(m: &mut Machine, op: &str, x: &Value, y: &Value, z: &Value) -> Result<Value, Stop> {
    match op {
        "list" => new_list(m, x),
        "tuple" => new_tuple(m, x),
        "text" => new_text(m, x),
        "dict" => new_dict(m, x, y),
        "tuple-of" => tuple_of(m, x),
        _ => primitive(m, op, x, y, z),
    }
}

fn new_list(m: &mut Machine, x: &Value) -> Result<Value, Stop> {
    let items = parts_of(x)?;
    make_list(m, items)
}

fn new_tuple(m: &mut Machine, x: &Value) -> Result<Value, Stop> {
    let parts = parts_of(x)?;
    make_tuple(m, parts)
}

fn new_text(m: &mut Machine, x: &Value) -> Result<Value, Stop> {
    let t = text_in(x)?;
    make_text(m, t)
}

fn new_dict(m: &mut Machine, x: &Value, y: &Value) -> Result<Value, Stop> {
    let keys = parts_of(x)?;
    let values = parts_of(y)?;
    make_dict(m, keys, values)
}

// The tuple of one part.
fn tuple_of(m: &mut Machine, x: &Value) -> Result<Value, Stop> {
    let mut parts = Vec::new(m.alloc);
    parts.push(x.copy()?)?;
    let parts = Shared::from_vec(m.alloc, parts)?;
    make_tuple(m, parts)
}
