// The values of the language.
ghost use Rattle.std.specs.Prelude.{◌≡◌, ◌≤◌, ◌^◌, ◌-◌, min, map, IfOk, MatchOption};
ghost use Rattle.heap_objects.specs.Nesting as spec;

use flow_base::{Held, NoMemory, ObjRef, PyText, Shared, Sym};

/// The parts of a tuple, the items of a new list, or the defaults of a function. Contracts see the list of them.
pub type Values = Shared<Value>;

/// How deep tuples and methods may stand in one another.
pub const NESTING_LIMIT: u64 = 50;

/// A value: None, a truth value, a whole number, a text, a tuple, a range with its start, stop and step, a built-in, a
/// reference to an object, a bound method with its function and receiver, or a built-in method with its name and receiver.
/// A tuple has its nesting beside its parts, so that `tuple` finds it without a walk. Contracts see a plain tree.
#[derive(Drop)]
pub enum Value {
    Nil,
    Truth(bool),
    Int(i128),
    Text(PyText),
    Tuple(Values, u64),
    Range(i128, i128, i128),
    Builtin(Sym),
    Obj(ObjRef),
    Bound(ObjRef, ObjRef),
    Method(Sym, Held<Value>),
}

impl Value {
    /// The same value, in the same memory: it takes constant time.
    pub fn copy(&self) -> Result<Value, NoMemory>
        ensures { IfOk result (λ v. v ≡ self.now) }
    {
        match self {
            Value::Nil => Ok(Value::Nil),
            Value::Truth(b) => Ok(Value::Truth(*b)),
            Value::Int(n) => Ok(Value::Int(*n)),
            Value::Text(text) => Ok(Value::Text(text.copy()?)),
            Value::Tuple(parts, nesting) => Ok(Value::Tuple(parts.copy()?, *nesting)),
            Value::Range(start, stop, step) => Ok(Value::Range(*start, *stop, *step)),
            Value::Builtin(name) => Ok(Value::Builtin(*name)),
            Value::Obj(object) => Ok(Value::Obj(*object)),
            Value::Bound(function, receiver) => Ok(Value::Bound(*function, *receiver)),
            Value::Method(name, receiver) => Ok(Value::Method(*name, receiver.copy()?)),
        }
    }

    /// How deep tuples and methods stand in one another, as tuples have it beside their parts. It takes constant time for
    /// all but methods of methods.
    pub fn nesting(&self) -> u64
        ensures { result ≡ min (spec.kept_nesting self.now) (2 ^ 64 - 1) }
    {
        match self {
            Value::Tuple(_, nesting) => *nesting,
            Value::Bound(_, _) => 1,
            Value::Method(_, receiver) => receiver.get().nesting().saturating_add(1),
            _ => 0,
        }
    }

    /// The tuple of these parts, and `None` exactly where it would nest over the limit. Takes no memory.
    pub fn tuple(parts: Values) -> Option<Value>
        ensures { MatchOption result (spec.NestsOver NESTING_LIMIT parts)
            (λ v. (v ≡ spec.tuple_of parts) × (spec.kept_nesting v ≤ NESTING_LIMIT)) }
    {
        let most = deepest(parts.as_slice());
        if most >= NESTING_LIMIT {
            return None;
        }
        Some(Value::Tuple(parts, most + 1))
    }
}

// The greatest nesting of the values, or 0.
fn deepest(values: &[Value]) -> u64
    ensures { result ≡ min (spec.largest (map spec.kept_nesting values.now)) (2 ^ 64 - 1) }
{
    let mut most = 0;
    for v in values {
        most = most.max(v.nesting());
    }
    most
}
