// What values are, as the operations tell them apart.
ghost use Rattle.std.specs.Prelude.{◌≡◌, IfOk};
ghost use Rattle.heap_objects.specs.State.{object_at};
ghost use Rattle.interp_machine.specs.Kinds as spec;

use crate::machine::Machine;
use flow_base::{NoMemory, ObjRef, PyText};
use heap_objects::{Object, Value, Values};

/// What a value is: None, a number, a truth value among them, a text, a tuple, a range, a reference to a list, a dictionary, an instance
/// with its class, or a class, or what is left.
#[derive(Drop)]
pub enum Kind {
    Nil,
    Number(i128),
    Text(PyText),
    Tuple(Values),
    Range(i128, i128, i128),
    List(ObjRef),
    Dict(ObjRef),
    Instance(ObjRef, Value),
    Class(ObjRef),
    Other,
}

/// What two values are that an operation takes together: of one kind, or what is left.
#[derive(Drop)]
pub enum Pair {
    Numbers(i128, i128),
    Texts(PyText, PyText),
    Tuples(Values, Values),
    Lists(ObjRef, ObjRef),
    Dicts(ObjRef, ObjRef),
    Others,
}

impl Machine {
    /// What a value is, without an event. What it is made of stays shared, so that it fails only where that has too many owners.
    pub fn kind(&self, v: &Value) -> Result<Kind, NoMemory>
        ensures { IfOk result (λ k. k ≡ spec.kind_of self.now.heap v.now) }
    {
        match v {
            Value::Nil => Ok(Kind::Nil),
            Value::Truth(true) => Ok(Kind::Number(1)),
            Value::Truth(false) => Ok(Kind::Number(0)),
            Value::Int(n) => Ok(Kind::Number(*n)),
            Value::Text(t) => Ok(Kind::Text(t.copy()?)),
            Value::Tuple(parts, _) => Ok(Kind::Tuple(parts.copy()?)),
            Value::Range(start, stop, step) => Ok(Kind::Range(*start, *stop, *step)),
            Value::Builtin(_) => Ok(Kind::Other),
            Value::Obj(o) => object_kind(self, *o),
            Value::Bound(_, _) => Ok(Kind::Other),
            Value::Method(_, _) => Ok(Kind::Other),
        }
    }

    /// What two values are together, without an event. Fails as `kind` does.
    pub fn pair(&self, a: &Value, b: &Value) -> Result<Pair, NoMemory>
        ensures { IfOk result (λ p. p ≡ spec.pair_of (spec.kind_of self.now.heap a.now) (spec.kind_of self.now.heap b.now)) }
    {
        let first = self.kind(a)?;
        let second = self.kind(b)?;
        Ok(first.pair(second))
    }
}

fn object_kind(m: &Machine, o: ObjRef) -> Result<Kind, NoMemory>
    ensures { IfOk result (λ k. k ≡ spec.object_kind o (object_at m.now.heap o)) }
{
    match m.fixed(o) {
        Some(Object::List) => Ok(Kind::List(o)),
        Some(Object::Dict) => Ok(Kind::Dict(o)),
        Some(Object::Instance(class)) => Ok(Kind::Instance(o, class.copy()?)),
        Some(Object::Class { .. }) => Ok(Kind::Class(o)),
        Some(Object::Frame(_)) => Ok(Kind::Other),
        Some(Object::Function { .. }) => Ok(Kind::Other),
        None => Ok(Kind::Other),
    }
}

impl Kind {
    /// What two values are together. Takes no memory.
    pub fn pair(self, other: Kind) -> Pair
        ensures { result ≡ spec.pair_of self other }
    {
        match self {
            Kind::Number(x) => match other {
                Kind::Number(y) => Pair::Numbers(x, y),
                _ => Pair::Others,
            },
            Kind::Text(s) => match other {
                Kind::Text(t) => Pair::Texts(s, t),
                _ => Pair::Others,
            },
            Kind::Tuple(xs) => match other {
                Kind::Tuple(ys) => Pair::Tuples(xs, ys),
                _ => Pair::Others,
            },
            Kind::List(o) => match other {
                Kind::List(p) => Pair::Lists(o, p),
                _ => Pair::Others,
            },
            Kind::Dict(d) => match other {
                Kind::Dict(e) => Pair::Dicts(d, e),
                _ => Pair::Others,
            },
            _ => Pair::Others,
        }
    }
}
