// New lists, tuples, texts and dictionaries.
ghost use Rattle.std.specs.Prelude.{◌≡◌, IfOk};
ghost use Rattle.interp_machine.specs.Meaning.{Runs};
ghost use Rattle.interp_ops.specs.Making as spec;

use exceptions_core::FaultKind;
use flow_base::{NoMemory, PyText};
use heap_objects::{Value, Values, key_of};
use interp_machine::{Machine, Stop, fault};
use std::alloc::Global;

/// A new list of these items, for a step each; `Stop::Steps` where too few are left. Takes memory; for want of it `Stop::NoMemory`.
#[tactic(auto, unfolding(crate::specs::Making::make_list))]
pub fn make_list(m: &mut Machine, items: Values) -> Result<Value, Stop>
    ensures { Runs (spec.make_list items m.old) result m.new }
{
    m.steps(items.len() as u128)?;
    let o = m.new_list(items)?;
    Ok(Value::Obj(o))
}

/// A tuple of these parts, for a step each; `Stop::Steps` where too few are left, RecursionError where it would nest over the limit. Takes
/// memory for the error; for want of it `Stop::NoMemory`.
#[tactic(auto, unfolding(crate::specs::Making::make_tuple))]
pub fn make_tuple(m: &mut Machine, parts: Values) -> Result<Value, Stop>
    ensures { Runs (spec.make_tuple parts m.old) result m.new }
{
    m.steps(parts.len() as u128)?;
    tuple(m, parts)
}

/// The tuple of these parts, for no step, or RecursionError where it would nest over the limit. Takes memory for the error; for want of it
/// `Stop::NoMemory`.
pub fn tuple(m: &mut Machine, parts: Values) -> Result<Value, Stop>
    ensures { Runs (spec.tuple parts m.old) result m.new }
{
    match Value::tuple(parts) {
        Some(v) => Ok(v),
        None => fault(m, FaultKind::Depth),
    }
}

/// A text, for a step for each code point; `Stop::Steps` where too few are left.
#[tactic(auto, unfolding(crate::specs::Making::make_text))]
pub fn make_text(m: &mut Machine, t: PyText) -> Result<Value, Stop>
    ensures { Runs (spec.make_text t m.old) result m.new }
{
    m.steps(t.len() as u128)?;
    Ok(Value::Text(t))
}

/// A new dictionary of as many keys as values, for a step for each of them. TypeError where one of the keys has no key, and else `Stop::Steps`
/// where too few are left. Takes memory; for want of it `Stop::NoMemory`.
#[tactic(auto, unfolding(crate::specs::Making::make_dict))]
pub fn make_dict(m: &mut Machine, keys: Values, values: Values) -> Result<Value, Stop>
    ensures { Runs (spec.make_dict keys values m.old) result m.new }
{
    if !all_keyed(m.alloc, keys.as_slice())? {
        return fault(m, FaultKind::Kind);
    }
    m.steps(keys.len() as u128)?;
    let d = m.new_dict(keys, values)?;
    Ok(Value::Obj(d))
}

fn all_keyed(alloc: Global, keys: &[Value]) -> Result<bool, NoMemory>
    ensures { IfOk result (λ all. all ≡ spec.all_keyed keys.now) }
{
    for k in keys {
        if key_of(alloc, k)?.is_none() {
            return Ok(false);
        }
    }
    Ok(true)
}
