// Attributes of values.
ghost use Rattle.std.specs.Prelude.{◌≡◌, IfOk, Ok, Some};
ghost use Rattle.std.specs.Option.{option_copied};
ghost use Rattle.heap_objects.specs.State.{object_at};
ghost use Rattle.heap_objects.specs.declared.value.Value.{out-Value};
ghost use Rattle.interp_machine.specs.Meaning.{Runs, object_value};
ghost use Rattle.interp_ops.specs.Lookups as spec;

use exceptions_core::FaultKind;
use flow_base::{Held, Loc, NoMemory, ObjRef, Sym};
use heap_objects::{NESTING_LIMIT, Object, Value};
use interp_machine::{Kind, Machine, Stop, base_of, fault, fault_named, is_among};

// The symbols of the built-in methods of lists, dictionaries, texts and tuples.
const LIST_METHODS: [u64; 11] = [39, 40, 41, 42, 44, 47, 48, 52, 53, 55, 57];

const DICT_METHODS: [u64; 9] = [40, 41, 46, 49, 51, 52, 56, 61, 62];

const TEXT_METHODS: [u64; 8] = [42, 43, 45, 50, 54, 58, 59, 60];

const TUPLE_METHODS: [u64; 2] = [42, 47];

/// What an attribute of a value is: of an instance what it holds itself, or its class or the first class above that holds it, where a function
/// becomes a bound method; of a class what it or the first class above holds; of a list, a dictionary, a text or a tuple its built-in method.
/// AttributeError where there is none, and RecursionError where a method would nest over the limit.
#[tactic(auto, unfolding(crate::specs::Lookups::lookup, interp_machine::specs::Kinds::kind))]
pub fn lookup(m: &mut Machine, v: &Value, a: Sym) -> Result<Value, Stop>
    ensures { Runs (spec.lookup v.now a m.old) result m.new }
{
    match m.kind(v)? {
        Kind::Instance(o, class) => {
            let own = m.load(&Loc::Attr(o, a))?;
            own_or_bound(m, a, o, class, own)
        }
        Kind::Class(_) => {
            let found = find(m, v.copy()?, a)?;
            or_missing(m, a, found)
        }
        Kind::List(_) => method(m, a, v, is_among(&LIST_METHODS, a)),
        Kind::Dict(_) => method(m, a, v, is_among(&DICT_METHODS, a)),
        Kind::Text(_) => method(m, a, v, is_among(&TEXT_METHODS, a)),
        Kind::Tuple(_) => method(m, a, v, is_among(&TUPLE_METHODS, a)),
        Kind::Nil => fault_named(m, FaultKind::Attribute, a),
        Kind::Number(_) => fault_named(m, FaultKind::Attribute, a),
        Kind::Range(_, _, _) => fault_named(m, FaultKind::Attribute, a),
        Kind::Other => fault_named(m, FaultKind::Attribute, a),
    }
}

// What a class or the first class above it that has the attribute holds there.
#[tactic(auto, unfolding(crate::specs::Lookups::find, interp_machine::specs::Meaning::fixed))]
fn find(m: &mut Machine, class: Value, a: Sym) -> Result<Option<Value>, Stop>
    ensures { Runs (spec.find a class m.old) result m.new }
{
    let mut left = m.heap.object_count();
    let mut above = Some(class);
    while left != 0 {
        left -= 1;
        match class_in(&above) {
            None => return Ok(None),
            Some(c) => {
                let found = m.load(&Loc::Attr(c, a));
                match found {
                    Err(stop) => return Err(stop),
                    Ok(Some(x)) => return Ok(Some(x)),
                    Ok(None) => above = copy_if(base_of(m, c))?,
                }
            }
        }
    }
    Ok(None)
}

// The object that a value refers to, if there is a value and it refers to one.
fn class_in(v: &Option<Value>) -> Option<ObjRef>
    ensures { result ≡ spec.class_in v.now }
{
    match v {
        Some(x) => class_ref(x),
        None => None,
    }
}

fn class_ref(v: &Value) -> Option<ObjRef>
    ensures { result ≡ spec.class_in (Some v.now) }
{
    match v {
        Value::Obj(o) => Some(*o),
        Value::Nil => None,
        Value::Truth(_) => None,
        Value::Int(_) => None,
        Value::Text(_) => None,
        Value::Tuple(_, _) => None,
        Value::Range(_, _, _) => None,
        Value::Builtin(_) => None,
        Value::Bound(_, _) => None,
        Value::Method(_, _) => None,
    }
}

fn copy_if(v: Option<&Value>) -> Result<Option<Value>, NoMemory>
    ensures { IfOk result (λ copy. copy ≡ option_copied v.entry) }
{
    match v {
        Some(x) => Ok(Some(x.copy()?)),
        None => Ok(None),
    }
}

fn or_missing(m: &mut Machine, a: Sym, found: Option<Value>) -> Result<Value, Stop>
    ensures { Runs (spec.or_missing a found m.old) result m.new }
{
    match found {
        Some(x) => Ok(x),
        None => fault_named(m, FaultKind::Attribute, a),
    }
}

fn own_or_bound(
    m: &mut Machine,
    a: Sym,
    o: ObjRef,
    class: Value,
    own: Option<Value>,
) -> Result<Value, Stop>
    ensures { Runs (spec.own_or_bound a o class own m.old) result m.new }
{
    match own {
        Some(x) => Ok(x),
        None => {
            let found = find(m, class, a)?;
            bind(m, a, o, found)
        }
    }
}

// A function found in a class becomes a bound method of the instance.
fn bind(m: &mut Machine, a: Sym, receiver: ObjRef, found: Option<Value>) -> Result<Value, Stop>
    ensures { Runs (spec.bind a receiver found m.old) result m.new }
{
    match found {
        Some(x) => Ok(bound_at(m, receiver, x)),
        None => fault_named(m, FaultKind::Attribute, a),
    }
}

#[tactic(auto, unfolding(interp_machine::specs::Meaning::fixed))]
fn bound_at(m: &Machine, receiver: ObjRef, x: Value) -> Value
    ensures { spec.bound_at receiver x (out-Value x) m.now ≡ (Ok result, m.now) }
{
    match x {
        Value::Obj(f) => bound_if(m, receiver, f),
        Value::Nil => Value::Nil,
        Value::Truth(b) => Value::Truth(b),
        Value::Int(n) => Value::Int(n),
        Value::Text(t) => Value::Text(t),
        Value::Tuple(parts, nesting) => Value::Tuple(parts, nesting),
        Value::Range(start, stop, step) => Value::Range(start, stop, step),
        Value::Builtin(name) => Value::Builtin(name),
        Value::Bound(f, o) => Value::Bound(f, o),
        Value::Method(name, x) => Value::Method(name, x),
    }
}

fn bound_if(m: &Machine, receiver: ObjRef, f: ObjRef) -> Value
    ensures { spec.bound_if receiver (object_value f) f (object_at m.now.heap f) ≡ result }
{
    match m.fixed(f) {
        Some(Object::Function { .. }) => Value::Bound(f, receiver),
        Some(Object::Frame(_)) => Value::Obj(f),
        Some(Object::List) => Value::Obj(f),
        Some(Object::Dict) => Value::Obj(f),
        Some(Object::Instance(_)) => Value::Obj(f),
        Some(Object::Class { .. }) => Value::Obj(f),
        None => Value::Obj(f),
    }
}

// A built-in method, or an error where there is none of this name, or it would nest over the limit.
fn method(m: &mut Machine, a: Sym, receiver: &Value, known: bool) -> Result<Value, Stop>
    ensures { Runs (spec.method a receiver.now known m.old) result m.new }
{
    if !known {
        return fault_named(m, FaultKind::Attribute, a);
    }
    if receiver.nesting() >= NESTING_LIMIT {
        return fault(m, FaultKind::Depth);
    }
    Ok(Value::Method(a, Held::new(m.alloc, receiver.copy()?)?))
}
