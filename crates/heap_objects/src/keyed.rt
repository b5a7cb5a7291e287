// The keys that values have.
ghost use Rattle.std.specs.Prelude.{◌≡◌, IfOk, map};
ghost use Rattle.heap_objects.specs.Keyed as spec;

use crate::value::Value;
use flow_base::{Key, NoMemory, Shared};
use std::alloc::Global;

/// The key of a value, and `None` exactly where it has none. A truth value counts as the number 1 or 0.
#[cycle(keyed)]
pub fn key_of(alloc: Global, v: &Value) -> Result<Option<Key>, NoMemory>
    ensures { IfOk result (λ key. key ≡ spec.key_of v.now) }
{
    match v {
        Value::Nil => Ok(Some(Key::Nil)),
        Value::Truth(true) => Ok(Some(Key::Int(1))),
        Value::Truth(false) => Ok(Some(Key::Int(0))),
        Value::Int(n) => Ok(Some(Key::Int(*n))),
        Value::Text(text) => Ok(Some(Key::Text(text.copy()?))),
        Value::Tuple(parts, _) => tuple_key(alloc, parts.as_slice()),
        _ => Ok(None),
    }
}

#[cycle(keyed)]
fn tuple_key(alloc: Global, parts: &[Value]) -> Result<Option<Key>, NoMemory>
    ensures { IfOk result (λ key. key ≡ spec.tuple_key (map spec.key_of parts.now)) }
{
    let mut keys = Vec::new(alloc);
    for v in parts {
        match key_of(alloc, v)? {
            Some(key) => keys.push(key)?,
            None => return Ok(None),
        }
    }
    Ok(Some(Key::Tuple(Shared::from_vec(alloc, keys)?)))
}
