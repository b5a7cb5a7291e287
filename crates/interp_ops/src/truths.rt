// Truth and identity of values.
ghost use Rattle.std.specs.Prelude.{◌≡◌, map};
ghost use Rattle.std.specs.Str.{bytes_eq};
ghost use Rattle.interp_machine.specs.Meaning.{Runs};
ghost use Rattle.interp_ops.specs.Truths as spec;

use flow_base::{ObjRef, PyText, ReadHow};
use heap_objects::Value;
use interp_machine::{Kind, Machine, Stop, range_size};

/// Whether a value counts as true: all but None, False, 0, an empty text, tuple or range, and a list or a dictionary without entries,
/// whose shape is used (Python library reference, "Truth Value Testing"). Takes no step, and memory for the event of that use; for want of it
/// `Stop::NoMemory`.
#[tactic(auto, unfolding(crate::specs::Truths::truth, interp_machine::specs::Kinds::kind))]
pub fn truth(m: &mut Machine, v: &Value) -> Result<bool, Stop>
    ensures { Runs (spec.truth v.now m.old) result m.new }
{
    match m.kind(v)? {
        Kind::Nil => Ok(false),
        Kind::Number(n) => Ok(n != 0),
        Kind::Text(t) => Ok(t.len() != 0),
        Kind::Tuple(parts) => Ok(parts.len() != 0),
        Kind::Range(start, stop, step) => Ok(range_size(start, stop, step) != 0),
        Kind::List(o) => has_entries(m, o),
        Kind::Dict(d) => has_entries(m, d),
        Kind::Instance(_, _) => Ok(true),
        Kind::Class(_) => Ok(true),
        Kind::Other => Ok(true),
    }
}

fn has_entries(m: &mut Machine, o: ObjRef) -> Result<bool, Stop>
    ensures { Runs (spec.has_entries o m.old) result m.new }
{
    let count = m.shape(ReadHow::Use, o)?;
    Ok(count != 0)
}

/// Whether two values are identical (Python reference 6.10.3): the same kind and the same parts, or references to one object. Takes no
/// memory.
#[cycle(identical)]
pub fn identical(a: &Value, b: &Value) -> bool
    ensures { result ≡ spec.identical a.now b.now }
{
    match a {
        Value::Nil => match b {
            Value::Nil => true,
            _ => false,
        },
        Value::Truth(x) => match b {
            Value::Truth(y) => *x == *y,
            _ => false,
        },
        Value::Int(x) => match b {
            Value::Int(y) => *x == *y,
            _ => false,
        },
        Value::Text(s) => match b {
            Value::Text(t) => same_text(s, t),
            _ => false,
        },
        Value::Tuple(xs, _) => match b {
            Value::Tuple(ys, _) => all_identical(xs.as_slice(), ys.as_slice()),
            _ => false,
        },
        Value::Range(start, stop, step) => match b {
            Value::Range(first, end, stride) => *start == *first
                && *stop == *end
                && *step == *stride,
            _ => false,
        },
        Value::Builtin(f) => match b {
            Value::Builtin(g) => f.0 == g.0,
            _ => false,
        },
        Value::Obj(o) => match b {
            Value::Obj(p) => o.0 == p.0,
            _ => false,
        },
        Value::Bound(f, o) => match b {
            Value::Bound(g, p) => f.0 == g.0 && o.0 == p.0,
            _ => false,
        },
        Value::Method(f, x) => match b {
            Value::Method(g, y) => f.0 == g.0 && identical(x.get(), y.get()),
            _ => false,
        },
    }
}

#[cycle(identical)]
fn all_identical(xs: &[Value], ys: &[Value]) -> bool
    ensures { result ≡ spec.all_pass (map spec.identical xs.now) ys.now }
{
    let mut rest = ys;
    for x in xs {
        let [y, more @ ..] = rest else {
            return false;
        };
        if !identical(x, y) {
            return false;
        }
        rest = more;
    }
    rest.is_empty()
}

/// Whether two texts are the same.
pub(crate) fn same_text(s: &PyText, t: &PyText) -> bool
    ensures { result ≡ bytes_eq s.now t.now }
{
    s.same(t)
}
