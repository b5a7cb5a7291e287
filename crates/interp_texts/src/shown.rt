// The texts of values.
ghost use Rattle.std.specs.Prelude.{◌≡◌, ◌∷◌, ◌++◌, IfOk, false};
ghost use Rattle.heap_objects.specs.Keyed.{key_of};
ghost use Rattle.interp_machine.specs.Meaning.{Runs};
ghost use Rattle.interp_texts.specs.Shown as spec;
ghost use Rattle.interp_texts.specs.declared.forms.Form.TheVariants as form;

use crate::forms::{Form, form_of};
use exceptions_core::FaultKind;
use flow_base::{Loc, NoMemory, ObjRef, PyText, ReadHow, Shared};
use heap_objects::{Value, Values, key_of};
use interp_machine::{ARGS, Draft, Machine, Stop, Walker, after, fault, next};
use std::alloc::Global;

/// The text of a value, as `repr` gives it, for a step for each part and for each code point of what has no parts. RecursionError where a part
/// stands deeper than executions and evaluations may be open, `Stop::Steps` where too few steps are left. Takes memory; for want of it
/// `Stop::NoMemory`.
#[tactic(auto, unfolding(crate::specs::Shown::show))]
pub fn show(m: &mut Machine, v: &Value) -> Result<PyText, Stop>
    ensures { Runs (spec.show v.now m.old) result m.new }
{
    let levels = m.levels_left() + 1;
    let draft = Draft::new(m.alloc);
    let shown = show_to(m, levels, &[], draft, v)?;
    let text = shown.into_text(m.alloc)?;
    Ok(text)
}

// What a value is shown as, behind a text, where so many levels may be open, this one counted.
#[cycle(show)]
pub(crate) fn show_to(
    m: &mut Machine,
    levels: u32,
    inside: &[ObjRef],
    d: Draft,
    v: &Value,
) -> Result<Draft, Stop>
    ensures { Runs (spec.show_to levels inside.now d v.now m.old) result m.new }
{
    if levels == 0 {
        return fault(m, FaultKind::Depth);
    }
    show_with(m, levels - 1, inside, d, v)
}

#[cycle(show)]
pub(crate) fn arguments_to(
    m: &mut Machine,
    levels: u32,
    inside: &[ObjRef],
    d: Draft,
    xs: Values,
) -> Result<Draft, Stop>
    ensures { Runs (spec.arguments_to levels inside.now d xs m.old) result m.new }
{
    if levels == 0 {
        return fault(m, FaultKind::Depth);
    }
    show_walk(m, levels - 1, inside, Walker::Parts(xs, 0), d)
}

#[tactic(auto, unfolding(crate::specs::Shown::show_with, crate::specs::Shown::form))]
#[cycle(show)]
fn show_with(
    m: &mut Machine,
    levels: u32,
    inside: &[ObjRef],
    d: Draft,
    v: &Value,
) -> Result<Draft, Stop>
    ensures { Runs (spec.show_with (spec.show_to levels) (spec.arguments_to levels) inside.now d v.now m.old) result m.new }
{
    match form_of(m, inside, v)? {
        Form::Plain(t) => plain(m, d, &t),
        Form::List(o) => show_list(m, levels, inside, d, o),
        Form::Dict(o) => show_dict(m, levels, inside, d, o),
        Form::Tuple(xs) => show_tuple(m, levels, inside, d, xs),
        Form::Error(o, name) => show_error(m, levels, inside, d, o, &name),
    }
}

// A text that is not visited takes a step for each of its code points.
pub(crate) fn plain(m: &mut Machine, d: Draft, t: &PyText) -> Result<Draft, Stop>
    ensures { Runs (spec.plain d t.now m.old) result m.new }
{
    m.steps(t.len() as u128)?;
    let shown = d.with_points(t.as_slice())?;
    Ok(shown)
}

#[cycle(show)]
fn show_list(
    m: &mut Machine,
    levels: u32,
    inside: &[ObjRef],
    d: Draft,
    o: ObjRef,
) -> Result<Draft, Stop>
    ensures { Runs (spec.show_form (spec.show_to levels) (spec.arguments_to levels) inside.now d (form.List o) m.old) result m.new }
{
    let within = with_object(m.alloc, o, inside)?;
    let begun = d.with_word("[")?;
    let shown = show_walk(m, levels, within.as_slice(), Walker::Items(o, 0), begun)?;
    let ended = shown.with_word("]")?;
    Ok(ended)
}

#[cycle(show)]
fn show_tuple(
    m: &mut Machine,
    levels: u32,
    inside: &[ObjRef],
    d: Draft,
    xs: Values,
) -> Result<Draft, Stop>
    ensures { Runs (spec.show_form (spec.show_to levels) (spec.arguments_to levels) inside.now d (form.Tuple xs) m.old) result m.new }
{
    let end = tuple_end(xs.as_slice());
    let begun = d.with_word("(")?;
    let shown = show_walk(m, levels, inside, Walker::Parts(xs, 0), begun)?;
    let ended = shown.with_word(end)?;
    Ok(ended)
}

#[cycle(show)]
fn show_dict(
    m: &mut Machine,
    levels: u32,
    inside: &[ObjRef],
    d: Draft,
    o: ObjRef,
) -> Result<Draft, Stop>
    ensures { Runs (spec.show_form (spec.show_to levels) (spec.arguments_to levels) inside.now d (form.Dict o) m.old) result m.new }
{
    let within = with_object(m.alloc, o, inside)?;
    let begun = d.with_word("{")?;
    let count = m.shape(ReadHow::Use, o)?;
    let shown = show_entries(m, levels, within.as_slice(), o, count, begun)?;
    let ended = shown.with_word("}")?;
    Ok(ended)
}

#[cycle(show)]
fn show_error(
    m: &mut Machine,
    levels: u32,
    inside: &[ObjRef],
    d: Draft,
    o: ObjRef,
    name: &PyText,
) -> Result<Draft, Stop>
    ensures { Runs (spec.show_form (spec.show_to levels) (spec.arguments_to levels) inside.now d (form.Error o name.now) m.old) result m.new }
{
    let within = with_object(m.alloc, o, inside)?;
    let begun = d.with_points(name.as_slice())?.with_word("(")?;
    let xs = args_of(m, o)?;
    let shown = arguments_to(m, levels, within.as_slice(), begun, xs)?;
    let ended = shown.with_word(")")?;
    Ok(ended)
}

// The parts of a walk, with a comma and a space between them.
#[tactic(auto, unfolding(crate::specs::Shown::show_walk, crate::specs::Shown::show_parts))]
#[cycle(show)]
fn show_walk(
    m: &mut Machine,
    levels: u32,
    inside: &[ObjRef],
    walker: Walker,
    d: Draft,
) -> Result<Draft, Stop>
    ensures { Runs (spec.show_walk (spec.show_to levels) inside.now walker d m.old) result m.new }
{
    let mut turns = m.left as u64 + 1;
    let mut rest = walker;
    let mut draft = d;
    let mut follows = false;
    while turns != 0 {
        turns -= 1;
        let (part, behind) = next(m, rest)?;
        rest = behind;
        let Some(v) = part else {
            return Ok(draft);
        };
        draft = show_next(m, levels, inside, follows, draft, v)?;
        follows = true;
    }
    Err(Stop::Steps)
}

// A part, with a comma and a space before it where it follows another one.
#[cycle(show)]
fn show_next(
    m: &mut Machine,
    levels: u32,
    inside: &[ObjRef],
    follows: bool,
    d: Draft,
    v: Value,
) -> Result<Draft, Stop>
    ensures { Runs (spec.show_next (spec.show_to levels) inside.now follows d v m.old) result m.new }
{
    let begun = with_comma(d, follows)?;
    show_to(m, levels, inside, begun, &v)
}

// So many entries of a dictionary.
#[tactic(auto, unfolding(crate::specs::Shown::show_entries, interp_machine::specs::Meaning::key_at))]
#[cycle(show)]
fn show_entries(
    m: &mut Machine,
    levels: u32,
    inside: &[ObjRef],
    o: ObjRef,
    count: usize,
    d: Draft,
) -> Result<Draft, Stop>
    ensures { Runs (spec.show_entries (spec.show_to levels) inside.now o 0 count false d m.old) result m.new }
{
    let mut left = count;
    let mut i = 0;
    let mut draft = d;
    let mut follows = false;
    while left != 0 {
        left -= 1;
        let key = m.key_at(o, i)?;
        let begun = with_comma(draft, follows)?;
        draft = show_entry(m, levels, inside, o, begun, key)?;
        i = after(i)?;
        follows = true;
    }
    Ok(draft)
}

#[cycle(show)]
fn show_entry(
    m: &mut Machine,
    levels: u32,
    inside: &[ObjRef],
    o: ObjRef,
    d: Draft,
    key: Option<Value>,
) -> Result<Draft, Stop>
    ensures { Runs (spec.show_entry (spec.show_to levels) inside.now o d key m.old) result m.new }
{
    match key {
        Some(key) => show_item(m, levels, inside, o, d, &key),
        None => Ok(d),
    }
}

#[cycle(show)]
fn show_item(
    m: &mut Machine,
    levels: u32,
    inside: &[ObjRef],
    o: ObjRef,
    d: Draft,
    key: &Value,
) -> Result<Draft, Stop>
    ensures { Runs (spec.show_item (spec.show_to levels) inside.now o d key.now (key_of key.now) m.old) result m.new }
{
    match key_of(m.alloc, key)? {
        Some(k) => {
            let found = m.load(&Loc::Item(o, k))?;
            show_pair(m, levels, inside, d, key, found)
        }
        None => Ok(d),
    }
}

#[cycle(show)]
fn show_pair(
    m: &mut Machine,
    levels: u32,
    inside: &[ObjRef],
    d: Draft,
    key: &Value,
    found: Option<Value>,
) -> Result<Draft, Stop>
    ensures { Runs (spec.show_pair (spec.show_to levels) inside.now d key.now found m.old) result m.new }
{
    match found {
        Some(x) => {
            m.step()?;
            let shown = show_to(m, levels, inside, d, key)?;
            let begun = shown.with_word(": ")?;
            show_to(m, levels, inside, begun, &x)
        }
        None => Ok(d),
    }
}

// The parts of what `args` of an instance holds, where that is a tuple.
#[tactic(auto, unfolding(crate::specs::Shown::args_of))]
pub(crate) fn args_of(m: &mut Machine, o: ObjRef) -> Result<Values, Stop>
    ensures { Runs (spec.args_of o m.old) result m.new }
{
    let found = m.load(&Loc::Attr(o, ARGS))?;
    let parts = tuple_parts(m.alloc, found)?;
    Ok(parts)
}

fn tuple_parts(alloc: Global, found: Option<Value>) -> Result<Values, NoMemory>
    ensures { IfOk result (λ parts. parts ≡ spec.tuple_parts found) }
{
    match found {
        Some(Value::Tuple(parts, _)) => Ok(parts),
        _ => Shared::from_vec(alloc, Vec::new(alloc)),
    }
}

pub(crate) fn tuple_end(xs: &[Value]) -> &'static str
    ensures { result.now ≡ spec.tuple_end xs.now }
{
    match xs {
        [_] => ",)",
        _ => ")",
    }
}

fn with_comma(d: Draft, follows: bool) -> Result<Draft, NoMemory>
    ensures { IfOk result (λ draft. draft ≡ d ++ spec.comma follows) }
{
    if follows { d.with_word(", ") } else { Ok(d) }
}

fn with_object(alloc: Global, o: ObjRef, inside: &[ObjRef]) -> Result<Vec<ObjRef>, NoMemory>
    ensures { IfOk result (λ objects. objects.items ≡ o ∷ inside.now) }
{
    let mut objects = Vec::new(alloc);
    objects.push(o)?;
    objects.extend_from_slice(inside)?;
    Ok(objects)
}
