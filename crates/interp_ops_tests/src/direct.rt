// The primitive operations of the machine, and what raises errors, by a name.
use crate::calls::{changed, object, parts_of, small, text_in};
use exceptions_core::{ExcClass, FaultKind};
use flow_base::{Key, Loc, NoMemory, PyText, ReadHow, Sym};
use heap_objects::{Object, Value, key_of};
use interp_ops::{
    LAMBDA, Machine, Stop, class_of_symbol, class_symbol, fault, fault_named, fresh_names, next,
    raise_with, range_size, text_of, tuple, walk,
};
use std::alloc::Global;

pub(crate) fn primitive(
    m: &mut Machine,
    op: &str,
    x: &Value,
    y: &Value,
    z: &Value,
) -> Result<Value, Stop> {
    match op {
        "read-attribute" => read_attribute(m, x, y),
        "read-item" => read_item(m, x, y),
        "present" => present(m, x, y),
        "shape" => shape(m, x, ReadHow::Use),
        "place-shape" => shape(m, x, ReadHow::Place),
        "key-at" => key_at(m, x, y),
        _ => written(m, op, x, y, z),
    }
}

fn or_nothing(v: Option<Value>) -> Value {
    match v {
        Some(v) => v,
        None => Value::Nil,
    }
}

fn named(m: &mut Machine, name: &Value) -> Result<Sym, NoMemory> {
    let name = text_in(name)?;
    m.names.intern(&name)
}

fn keyed(a: Global, v: &Value) -> Result<Key, NoMemory> {
    match key_of(a, v)? {
        Some(key) => Ok(key),
        None => Err(NoMemory),
    }
}

fn read_attribute(m: &mut Machine, x: &Value, y: &Value) -> Result<Value, Stop> {
    let o = object(x)?;
    let name = named(m, y)?;
    let found = m.load(&Loc::Attr(o, name))?;
    Ok(or_nothing(found))
}

fn read_item(m: &mut Machine, x: &Value, y: &Value) -> Result<Value, Stop> {
    let o = object(x)?;
    let key = keyed(m.alloc, y)?;
    let found = m.load(&Loc::Item(o, key))?;
    Ok(or_nothing(found))
}

fn present(m: &mut Machine, x: &Value, y: &Value) -> Result<Value, Stop> {
    let d = object(x)?;
    let key = keyed(m.alloc, y)?;
    let found = m.present(d, &key)?;
    Ok(Value::Truth(found))
}

fn shape(m: &mut Machine, x: &Value, how: ReadHow) -> Result<Value, Stop> {
    let o = object(x)?;
    let count = m.shape(how, o)?;
    Ok(Value::Int(count as i128))
}

fn key_at(m: &mut Machine, x: &Value, y: &Value) -> Result<Value, Stop> {
    let d = object(x)?;
    let at = small(y)?;
    let found = m.key_at(d, at)?;
    Ok(or_nothing(found))
}

fn written(m: &mut Machine, op: &str, x: &Value, y: &Value, z: &Value) -> Result<Value, Stop> {
    match op {
        "write-attribute" => write_attribute(m, x, y, z),
        "list-put" => list_put(m, x, y, z),
        "list-splice" => list_splice(m, x, y, z),
        "dict-put" => dict_put(m, x, y, z),
        "dict-remove" => dict_remove(m, x, y),
        _ => begun(m, op, x, y),
    }
}

fn write_attribute(m: &mut Machine, x: &Value, y: &Value, z: &Value) -> Result<Value, Stop> {
    let o = object(x)?;
    let name = named(m, y)?;
    let v = z.copy()?;
    changed(m.store(&Loc::Attr(o, name), Some(v)), x)
}

fn list_put(m: &mut Machine, x: &Value, y: &Value, z: &Value) -> Result<Value, Stop> {
    let o = object(x)?;
    let at = small(y)?;
    let v = z.copy()?;
    changed(m.list_put(o, at, v), x)
}

fn list_splice(m: &mut Machine, x: &Value, y: &Value, z: &Value) -> Result<Value, Stop> {
    let o = object(x)?;
    let from = small(y)?;
    let tail = parts_of(z)?;
    changed(m.list_splice(o, from, tail), x)
}

fn dict_put(m: &mut Machine, x: &Value, y: &Value, z: &Value) -> Result<Value, Stop> {
    let d = object(x)?;
    let v = z.copy()?;
    changed(m.dict_put(d, y, v), x)
}

fn dict_remove(m: &mut Machine, x: &Value, y: &Value) -> Result<Value, Stop> {
    let d = object(x)?;
    let key = keyed(m.alloc, y)?;
    changed(m.dict_remove(d, &key), x)
}

fn begun(m: &mut Machine, op: &str, x: &Value, y: &Value) -> Result<Value, Stop> {
    match op {
        "new-list" => new_list(m, x),
        "new-dict" => new_dict(m, x, y),
        "new-instance" => new_instance(m, x),
        "new-tuple" => new_tuple(m, x),
        "kind" => Ok(kind(m, x)?),
        _ => counted(m, op, x),
    }
}

fn new_list(m: &mut Machine, x: &Value) -> Result<Value, Stop> {
    let items = parts_of(x)?;
    let o = m.new_list(items)?;
    Ok(Value::Obj(o))
}

fn new_dict(m: &mut Machine, x: &Value, y: &Value) -> Result<Value, Stop> {
    let keys = parts_of(x)?;
    let values = parts_of(y)?;
    let d = m.new_dict(keys, values)?;
    Ok(Value::Obj(d))
}

fn new_instance(m: &mut Machine, x: &Value) -> Result<Value, Stop> {
    let class = x.copy()?;
    let o = m.new_instance(class)?;
    Ok(Value::Obj(o))
}

fn new_tuple(m: &mut Machine, x: &Value) -> Result<Value, Stop> {
    let parts = parts_of(x)?;
    tuple(m, parts)
}

// The kind of an object, and nothing where there is none.
fn kind(m: &Machine, x: &Value) -> Result<Value, NoMemory> {
    let o = object(x)?;
    let word = match m.fixed(o) {
        Some(Object::Frame(_)) => "frame",
        Some(Object::List) => "list",
        Some(Object::Dict) => "dict",
        Some(Object::Instance(_)) => "instance",
        Some(Object::Class { .. }) => "class",
        Some(Object::Function { .. }) => "function",
        None => "nothing",
    };
    Ok(Value::Text(PyText::from_str(m.alloc, word)?))
}

fn counted(m: &mut Machine, op: &str, x: &Value) -> Result<Value, Stop> {
    match op {
        "step" => changed(m.step(), x),
        "steps" => steps(m, x),
        "size" => Ok(size(x)),
        "first" => first(m, x),
        _ => raised(m, op, x),
    }
}

fn steps(m: &mut Machine, x: &Value) -> Result<Value, Stop> {
    let n = small(x)?;
    changed(m.steps(n as u128), x)
}

// The number of members of a range.
fn size(x: &Value) -> Value {
    match x {
        Value::Range(start, stop, step) => {
            let count = range_size(*start, *stop, *step);
            match i128::try_from(count) {
                Ok(n) => Value::Int(n),
                Err(_) => Value::Nil,
            }
        }
        _ => Value::Nil,
    }
}

// The first part, if there is one.
fn first(m: &mut Machine, x: &Value) -> Result<Value, Stop> {
    let walker = walk(m, x)?;
    let (part, _rest) = next(m, walker)?;
    Ok(or_nothing(part))
}

fn raised(m: &mut Machine, op: &str, x: &Value) -> Result<Value, Stop> {
    match fault_kind(op) {
        Some(kind) => fault(m, kind),
        None => raised_by_name(m, op, x),
    }
}

fn fault_kind(op: &str) -> Option<FaultKind> {
    match op {
        "raise-index" => Some(FaultKind::Index),
        "raise-division" => Some(FaultKind::ZeroDiv),
        "raise-depth" => Some(FaultKind::Depth),
        "raise-changed" => Some(FaultKind::Changed),
        "raise-no-exception" => Some(FaultKind::NoException),
        "raise-kind" => Some(FaultKind::Kind),
        "raise-count" => Some(FaultKind::Count),
        "raise-value" => Some(FaultKind::Value),
        _ => None,
    }
}

fn raised_by_name(m: &mut Machine, op: &str, x: &Value) -> Result<Value, Stop> {
    match op {
        "raise-name" => raise_named(m, FaultKind::Name, x),
        "raise-local" => raise_named(m, FaultKind::Local, x),
        "raise-attribute" => raise_named(m, FaultKind::Attribute, x),
        "raise-key" => raise_key(m, x),
        "exception-class" => exception_class(m, x),
        "last-name" => Ok(last_name(m.alloc)?),
        _ => Err(Stop::NoMemory),
    }
}

fn raise_named(m: &mut Machine, kind: FaultKind, x: &Value) -> Result<Value, Stop> {
    let name = named(m, x)?;
    fault_named(m, kind, name)
}

fn raise_key(m: &mut Machine, x: &Value) -> Result<Value, Stop> {
    let v = x.copy()?;
    raise_with(m, ExcClass::KeyError, v)
}

// Whether a name is that of an exception class.
fn exception_class(m: &mut Machine, x: &Value) -> Result<Value, Stop> {
    let name = named(m, x)?;
    match class_of_symbol(name) {
        Some(class) => Ok(Value::Truth(class_symbol(class) == name)),
        None => Ok(Value::Nil),
    }
}

fn last_name(a: Global) -> Result<Value, NoMemory> {
    let names = fresh_names(a)?;
    match text_of(&names, LAMBDA) {
        Some(t) => Ok(Value::Text(t.copy()?)),
        None => Err(NoMemory),
    }
}
