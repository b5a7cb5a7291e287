// Membership in a text, a dictionary, or what is walked.
ghost use Rattle.std.specs.Prelude.{◌≡◌, suc};
ghost use Rattle.heap_objects.specs.Keyed as keyed;
ghost use Rattle.interp_machine.specs.Meaning.{Runs};
ghost use Rattle.interp_ops.specs.Equality.{equal};
ghost use Rattle.interp_ops.specs.Operators as spec;

use crate::equality::equal;
use exceptions_core::FaultKind;
use flow_base::{ObjRef, PyText};
use heap_objects::{Value, key_of};
use interp_machine::{Kind, Machine, Stop, Walker, fault, next, walk};
use py_scalars::find;

/// `v in c` (Python reference 6.10.2, "Membership test operations"). TypeError where `c` has no parts, where it is a text and `v` is none, and
/// where it is a dictionary and `v` has no key; RecursionError as in `equal`; `Stop::Steps` where too few steps are left. Takes memory; for
/// want of it `Stop::NoMemory`.
#[tactic(auto, unfolding(crate::specs::Operators::contains, interp_machine::specs::Kinds::kind))]
pub fn contains(m: &mut Machine, v: &Value, c: &Value) -> Result<bool, Stop>
    ensures { Runs (spec.contains v.now c.now m.old) result m.new }
{
    match m.kind(c)? {
        Kind::Dict(d) => key_in(m, v, d),
        Kind::Text(t) => {
            let part = m.kind(v)?;
            text_in(m, part, &t)
        }
        _ => {
            let walker = walk(m, c)?;
            find_equal(m, v, walker)
        }
    }
}

fn key_in(m: &mut Machine, v: &Value, d: ObjRef) -> Result<bool, Stop>
    ensures { Runs (spec.key_in (keyed.key_of v.now) d m.old) result m.new }
{
    match key_of(m.alloc, v)? {
        Some(key) => m.present(d, &key),
        None => fault(m, FaultKind::Kind),
    }
}

fn text_in(m: &mut Machine, part: Kind, t: &PyText) -> Result<bool, Stop>
    ensures { Runs (spec.text_in part t.now m.old) result m.new }
{
    match part {
        Kind::Text(s) => {
            m.steps(t.len() as u128)?;
            Ok(find(t, &s).is_some())
        }
        _ => fault(m, FaultKind::Kind),
    }
}

// Whether an equal part is left of a walk; the first ends it.
#[tactic(auto, unfolding(crate::specs::Operators::find_equal))]
fn find_equal(m: &mut Machine, v: &Value, walker: Walker) -> Result<bool, Stop>
    ensures { Runs (spec.find_equal v.now walker m.old) result m.new }
{
    let mut turns = m.left as u64 + 1;
    let mut rest = walker;
    while turns != 0 {
        turns -= 1;
        let (part, after) = next(m, rest)?;
        rest = after;
        match part {
            Some(x) => {
                if part_equal(m, x, v)? {
                    return Ok(true);
                }
            }
            None => return Ok(false),
        }
    }
    Err(Stop::Steps)
}

fn part_equal(m: &mut Machine, x: Value, v: &Value) -> Result<bool, Stop>
    ensures { Runs (equal x v.now m.old) result m.new }
{
    equal(m, &x, v)
}
