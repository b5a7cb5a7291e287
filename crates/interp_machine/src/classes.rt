// The classes above a class.
ghost use Rattle.std.specs.Prelude.{◌≡◌};
ghost use Rattle.std.specs.Option.{option_copied};
ghost use Rattle.heap_objects.specs.State.{object_at};
ghost use Rattle.interp_machine.specs.Classes as spec;

use crate::machine::Machine;
use crate::symbols::class_of_symbol;
use exceptions_core::ExcClass;
use flow_base::ObjRef;
use heap_objects::{Object, Value};

/// The built-in exception class that a class is or is below, and `None` exactly where it is below none, without an event. Takes no memory.
pub fn exception_of(m: &Machine, class: &Value) -> Option<ExcClass>
    ensures { result ≡ spec.exception_of m.now.heap class.now }
{
    match class {
        Value::Builtin(f) => class_of_symbol(*f),
        Value::Obj(o) => exception_above(m, m.heap.object_count(), *o),
        _ => None,
    }
}

// That of the base of a class object, among at most so many classes.
#[tactic(auto, using(crate::proofs::ClassLaws::above_step))]
fn exception_above(m: &Machine, count: usize, o: ObjRef) -> Option<ExcClass>
    ensures { result ≡ spec.exception_above m.now.heap count (spec.base_in (object_at m.now.heap o)) }
{
    let mut left = count;
    let mut at = o;
    while left != 0 {
        left -= 1;
        match base_of(m, at) {
            Some(Value::Obj(base)) => at = *base,
            Some(Value::Builtin(f)) => return class_of_symbol(*f),
            _ => return None,
        }
    }
    None
}

/// The base of a class object, and `None` where it has none or the object is no class, without an event. Takes no memory.
pub fn base_of(m: &Machine, o: ObjRef) -> Option<&Value>
    ensures { option_copied result ≡ spec.base_in (object_at m.now.heap o) }
{
    match m.fixed(o) {
        Some(Object::Class { name: _, base }) => base.as_ref(),
        _ => None,
    }
}
