// Values by a name.
use crate::calls::object;
use crate::words::{list, tuple};
use exceptions_core::ExcClass;
use flow_base::{CodeRef, Held, Loc, NoMemory, ObjRef, PyText, RunNo, Shared, Sym};
use heap_objects::Value;
use interp_ops::{ARGS, LAMBDA, Machine, class_symbol};

pub(crate) fn symbol(m: &mut Machine, name: &str) -> Result<Sym, NoMemory> {
    let name = PyText::from_str(m.alloc, name)?;
    m.names.intern(&name)
}

pub(crate) fn error(m: &mut Machine, class: Value, args: Value) -> Result<Value, NoMemory> {
    let o = m.heap.new_instance(class)?;
    m.heap.store(&Loc::Attr(o, ARGS), Some(args))?;
    Ok(Value::Obj(o))
}

// `class E(KeyError)`, `E(..)`
pub(crate) fn below_key_error(m: &mut Machine, args: Value) -> Result<Value, NoMemory> {
    let class = class_below_error(m)?;
    error(m, Value::Obj(class), args)
}

// `class E(KeyError)`
fn class_below_error(m: &mut Machine) -> Result<ObjRef, NoMemory> {
    let name = symbol(m, "E")?;
    let base = Value::Builtin(class_symbol(ExcClass::KeyError));
    m.heap.new_class(name, Some(base))
}

pub(crate) fn thing(m: &mut Machine, word: &str) -> Result<Value, NoMemory> {
    match word {
        "class" => Ok(Value::Obj(class(m)?)),
        "instance" => Ok(Value::Obj(instance(m)?)),
        "lambda" => Ok(Value::Obj(function(m, LAMBDA)?)),
        "function" => Ok(Value::Obj(named_function(m)?)),
        "bound" => bound(m),
        "method" => method(m),
        "text-method" => text_method(m),
        "doubled" => doubled(m, 50),
        "halved" => doubled(m, 49),
        "chain" => chain(m, 50),
        _ => knot(m, word),
    }
}

fn knot(m: &mut Machine, word: &str) -> Result<Value, NoMemory> {
    match word {
        "list-in-itself" => list_in_itself(m),
        "dict-in-itself" => dict_in_itself(m),
        "error-in-itself" => error_in_itself(m),
        "below" => below(m),
        "class-below" => Ok(Value::Obj(class_below(m)?)),
        "holder" => holder(m),
        "class-below-error" => Ok(Value::Obj(class_below_error(m)?)),
        "list-of-dict" => list_of_dict(m),
        "tuple-in-list" => tuple_in_list(m),
        "error-of-itself" => error_of_itself(m),
        "error-by-number" => error(m, value_error(), Value::Int(1)),
        "error-without-args" => Ok(Value::Obj(m.heap.new_instance(value_error())?)),
        // the global frame, and no object
        "frame" => Ok(Value::Obj(ObjRef(0))),
        "nobody" => Ok(Value::Obj(ObjRef(1000))),
        _ => Err(NoMemory),
    }
}

fn value_error() -> Value {
    Value::Builtin(class_symbol(ExcClass::ValueError))
}

// `class C`
fn class(m: &mut Machine) -> Result<ObjRef, NoMemory> {
    let name = symbol(m, "C")?;
    m.heap.new_class(name, None)
}

// `C()`
fn instance(m: &mut Machine) -> Result<ObjRef, NoMemory> {
    let c = class(m)?;
    m.heap.new_instance(Value::Obj(c))
}

// `def f`
fn named_function(m: &mut Machine) -> Result<ObjRef, NoMemory> {
    let name = symbol(m, "f")?;
    function(m, name)
}

fn function(m: &mut Machine, name: Sym) -> Result<ObjRef, NoMemory> {
    let code = CodeRef {
        run: RunNo(1),
        node: 1,
    };
    let defaults = Shared::from_vec(m.alloc, Vec::new(m.alloc))?;
    m.heap.new_function(name, code, defaults, ObjRef(0))
}

// A method of an instance of C, by a lambda.
fn bound(m: &mut Machine) -> Result<Value, NoMemory> {
    let f = function(m, LAMBDA)?;
    let o = instance(m)?;
    Ok(Value::Bound(f, o))
}

// `[].append`
fn method(m: &mut Machine) -> Result<Value, NoMemory> {
    let items = list(m, Vec::new(m.alloc))?;
    let name = symbol(m, "append")?;
    Ok(Value::Method(name, Held::new(m.alloc, items)?))
}

// `'a'.strip`
fn text_method(m: &mut Machine) -> Result<Value, NoMemory> {
    let text = Value::Text(PyText::from_str(m.alloc, "a")?);
    let name = symbol(m, "strip")?;
    Ok(Value::Method(name, Held::new(m.alloc, text)?))
}

// A tuple of one part, nested so often.
fn chain(m: &mut Machine, times: u32) -> Result<Value, NoMemory> {
    let mut v = Value::Int(1);
    for _ in 0..times {
        let mut parts = Vec::new(m.alloc);
        parts.push(v)?;
        v = tuple(m.alloc, parts)?;
    }
    Ok(v)
}

// A tuple of two equal parts, nested so often.
fn doubled(m: &mut Machine, times: u32) -> Result<Value, NoMemory> {
    let mut v = Value::Int(1);
    for _ in 0..times {
        let mut parts = Vec::new(m.alloc);
        parts.push(v.copy()?)?;
        parts.push(v)?;
        v = tuple(m.alloc, parts)?;
    }
    Ok(v)
}

// ---- objects in themselves

fn list_of(m: &mut Machine, v: Value) -> Result<ObjRef, NoMemory> {
    let mut items = Vec::new(m.alloc);
    items.push(v)?;
    let items = Shared::from_vec(m.alloc, items)?;
    m.heap.new_list(items)
}

// `xs = [xs]`
fn list_in_itself(m: &mut Machine) -> Result<Value, NoMemory> {
    let o = list_of(m, Value::Nil)?;
    m.heap.list_put(o, 0, Value::Obj(o))?;
    Ok(Value::Obj(o))
}

// `d = {1: d}`
fn dict_in_itself(m: &mut Machine) -> Result<Value, NoMemory> {
    let keys = Shared::from_vec(m.alloc, Vec::new(m.alloc))?;
    let values = Shared::from_vec(m.alloc, Vec::new(m.alloc))?;
    let d = m.heap.new_dict(keys, values)?;
    m.heap.dict_put(d, &Value::Int(1), Value::Obj(d))?;
    Ok(Value::Obj(d))
}

// `e = ValueError(xs)`, `xs = [e]`
fn error_in_itself(m: &mut Machine) -> Result<Value, NoMemory> {
    let o = list_of(m, Value::Nil)?;
    let mut args = Vec::new(m.alloc);
    args.push(Value::Obj(o))?;
    let args = tuple(m.alloc, args)?;
    let e = error(m, value_error(), args)?;
    m.heap.list_put(o, 0, e.copy()?)?;
    Ok(e)
}

// `xs = [d]`, `d = {1: xs}`
fn list_of_dict(m: &mut Machine) -> Result<Value, NoMemory> {
    let d = object(&dict_in_itself(m)?)?;
    let o = list_of(m, Value::Obj(d))?;
    m.heap.dict_put(d, &Value::Int(1), Value::Obj(o))?;
    Ok(Value::Obj(o))
}

// `t = (xs,)`, `xs = [t]`
fn tuple_in_list(m: &mut Machine) -> Result<Value, NoMemory> {
    let o = list_of(m, Value::Nil)?;
    let mut parts = Vec::new(m.alloc);
    parts.push(Value::Obj(o))?;
    let t = tuple(m.alloc, parts)?;
    m.heap.list_put(o, 0, t.copy()?)?;
    Ok(t)
}

// `e.args = (e,)`
fn error_of_itself(m: &mut Machine) -> Result<Value, NoMemory> {
    let e = m.heap.new_instance(value_error())?;
    let mut args = Vec::new(m.alloc);
    args.push(Value::Obj(e))?;
    let args = tuple(m.alloc, args)?;
    m.heap.store(&Loc::Attr(e, ARGS), Some(args))?;
    Ok(Value::Obj(e))
}

// ---- `class H: f = ` a method of an instance, `m = [].append`, `g = len`, and `H()`

fn holder(m: &mut Machine) -> Result<Value, NoMemory> {
    let name = symbol(m, "H")?;
    let class = m.heap.new_class(name, None)?;
    let f = bound(m)?;
    give(m, class, "f", f)?;
    let append = method(m)?;
    give(m, class, "m", append)?;
    let len = symbol(m, "len")?;
    give(m, class, "g", Value::Builtin(len))?;
    Ok(Value::Obj(m.heap.new_instance(Value::Obj(class))?))
}

// ---- `class B: g = 1` and `B.k = B`, `class C(B): f = ` a lambda, `o = C()`, `o.x = 2`, `o.h = ` a lambda

fn give(m: &mut Machine, o: ObjRef, name: &str, v: Value) -> Result<(), NoMemory> {
    let name = symbol(m, name)?;
    m.heap.store(&Loc::Attr(o, name), Some(v))
}

fn class_below(m: &mut Machine) -> Result<ObjRef, NoMemory> {
    let name = symbol(m, "B")?;
    let base = m.heap.new_class(name, None)?;
    give(m, base, "g", Value::Int(1))?;
    give(m, base, "k", Value::Obj(base))?;
    let name = symbol(m, "C")?;
    let class = m.heap.new_class(name, Some(Value::Obj(base)))?;
    let f = function(m, LAMBDA)?;
    give(m, class, "f", Value::Obj(f))?;
    Ok(class)
}

fn below(m: &mut Machine) -> Result<Value, NoMemory> {
    let class = class_below(m)?;
    let o = m.heap.new_instance(Value::Obj(class))?;
    give(m, o, "x", Value::Int(2))?;
    let h = function(m, LAMBDA)?;
    give(m, o, "h", Value::Obj(h))?;
    Ok(Value::Obj(o))
}
