// How values are shown.
ghost use Rattle.std.specs.Prelude.{◌≡◌, ◌++◌, IfOk};
ghost use Rattle.heap_objects.specs.State.{object_at};
ghost use Rattle.heap_objects.specs.declared.value.Value.{out-Value};
ghost use Rattle.interp_machine.specs.Symbols as symbols;
ghost use Rattle.interp_texts.specs.Shown as spec;
ghost use Rattle.interp_texts.specs.declared.forms.Form.TheVariants.{Plain};

use exceptions_core::ExcClass;
use flow_base::{NoMemory, ObjRef, PyText, Sym};
use heap_objects::{Object, Value, Values};
use interp_machine::{Draft, Machine, class_of_symbol, exception_of, is_among, text_of};
use py_scalars::{number_text, repr_text};
use std::alloc::Global;

// The symbols of int, str, bool, list, dict, tuple, range and object.
const VALUE_CLASSES: [u64; 8] = [9, 22, 3, 12, 6, 24, 18, 15];

/// How a value is shown: by a text, without a visit; or as a list, a dictionary, a tuple or an exception with the name of its class, whose
/// parts are shown.
#[derive(Drop)]
pub enum Form {
    Plain(PyText),
    List(ObjRef),
    Dict(ObjRef),
    Tuple(Values),
    Error(ObjRef, PyText),
}

/// How a value is shown inside these objects.
pub(crate) fn form_of(m: &Machine, inside: &[ObjRef], v: &Value) -> Result<Form, NoMemory>
    ensures { IfOk result (λ f. f ≡ spec.form_at m.now.names m.now.heap inside.now (out-Value v.now)) }
{
    match v {
        Value::Nil => word(m.alloc, "None"),
        Value::Truth(true) => word(m.alloc, "True"),
        Value::Truth(false) => word(m.alloc, "False"),
        Value::Int(n) => Ok(Form::Plain(number_text(m.alloc, *n)?)),
        Value::Text(t) => Ok(Form::Plain(repr_text(m.alloc, t)?)),
        Value::Tuple(parts, _) => Ok(Form::Tuple(parts.copy()?)),
        Value::Range(start, stop, step) => {
            Ok(Form::Plain(range_text(m.alloc, *start, *stop, *step)?))
        }
        Value::Builtin(f) => Ok(Form::Plain(builtin_text(m, *f)?)),
        Value::Obj(o) => object_form(m, is_inside(inside, *o), *o),
        Value::Bound(f, _) => {
            let name = name_in(m, *f);
            Ok(Form::Plain(named(m, "<method ", name, ">")?))
        }
        Value::Method(f, _) => Ok(Form::Plain(named(m, "<method ", Some(*f), ">")?)),
    }
}

fn object_form(m: &Machine, inside: bool, o: ObjRef) -> Result<Form, NoMemory>
    ensures { IfOk result (λ f. f ≡ spec.object_form m.now.names m.now.heap inside o (object_at m.now.heap o)) }
{
    match m.fixed(o) {
        Some(Object::List) => {
            if inside {
                word(m.alloc, "[...]")
            } else {
                Ok(Form::List(o))
            }
        }
        Some(Object::Dict) => {
            if inside {
                word(m.alloc, "{...}")
            } else {
                Ok(Form::Dict(o))
            }
        }
        Some(Object::Instance(class)) => {
            let exception = exception_of(m, class);
            instance_form(m, class_name(m, class), inside, o, exception)
        }
        Some(Object::Class { name, base: _ }) => {
            Ok(Form::Plain(named(m, "<class '", Some(*name), "'>")?))
        }
        Some(
            Object::Function {
                name,
                code: _,
                defaults: _,
                parent: _,
            },
        ) => Ok(Form::Plain(named(m, "<function ", Some(*name), ">")?)),
        Some(Object::Frame(_)) => word(m.alloc, ""),
        None => word(m.alloc, ""),
    }
}

// An exception is visited, and another instance is not.
fn instance_form(
    m: &Machine,
    class: Option<Sym>,
    inside: bool,
    o: ObjRef,
    exception: Option<ExcClass>,
) -> Result<Form, NoMemory>
    ensures { IfOk result (λ f. f ≡ spec.instance_form (spec.name_text m.now.names class) inside o exception) }
{
    match exception {
        Some(_) => {
            if inside {
                Ok(Form::Plain(named(m, "<", class, " object>")?))
            } else {
                let name = with_name(m, Draft::new(m.alloc), class)?;
                Ok(Form::Error(o, name.into_text(m.alloc)?))
            }
        }
        None => Ok(Form::Plain(named(m, "<", class, " object>")?)),
    }
}

fn is_inside(inside: &[ObjRef], o: ObjRef) -> bool
    ensures { result ≡ spec.is_inside inside.now o }
{
    for p in inside {
        if p.0 == o.0 {
            return true;
        }
    }
    false
}

// The name of a class or a function.
fn name_in(m: &Machine, o: ObjRef) -> Option<Sym>
    ensures { result ≡ spec.name_in (object_at m.now.heap o) }
{
    match m.fixed(o) {
        Some(Object::Class { name, base: _ }) => Some(*name),
        Some(
            Object::Function {
                name,
                code: _,
                defaults: _,
                parent: _,
            },
        ) => Some(*name),
        _ => None,
    }
}

// The name of a class, an object or built in.
fn class_name(m: &Machine, class: &Value) -> Option<Sym>
    ensures { result ≡ spec.class_name m.now.heap class.now }
{
    match class {
        Value::Builtin(f) => Some(*f),
        Value::Obj(c) => name_in(m, *c),
        _ => None,
    }
}

fn word(alloc: Global, text: &str) -> Result<Form, NoMemory>
    ensures { IfOk result (λ f. f ≡ Plain text.now) }
{
    let draft = Draft::new(alloc).with_word(text)?;
    Ok(Form::Plain(draft.into_text(alloc)?))
}

// The text of a symbol between two words. That of none is empty.
fn named(m: &Machine, before: &str, name: Option<Sym>, behind: &str) -> Result<PyText, NoMemory>
    ensures { IfOk result (λ t. t ≡ before.now ++ spec.name_text m.now.names name ++ behind.now) }
{
    let begun = Draft::new(m.alloc).with_word(before)?;
    let named = with_name(m, begun, name)?;
    named.with_word(behind)?.into_text(m.alloc)
}

fn with_name(m: &Machine, draft: Draft, name: Option<Sym>) -> Result<Draft, NoMemory>
    ensures { IfOk result (λ d. d ≡ draft ++ spec.name_text m.now.names name) }
{
    match name {
        Some(s) => with_symbol(m, draft, s),
        None => Ok(draft),
    }
}

fn with_symbol(m: &Machine, draft: Draft, s: Sym) -> Result<Draft, NoMemory>
    ensures { IfOk result (λ d. d ≡ draft ++ symbols.text_of m.now.names s) }
{
    match text_of(&m.names, s) {
        Some(t) => draft.with_points(t.as_slice()),
        None => Ok(draft),
    }
}

fn builtin_text(m: &Machine, f: Sym) -> Result<PyText, NoMemory>
    ensures { IfOk result (λ t. t ≡ spec.builtin_text m.now.names f) }
{
    if is_builtin_class(f) {
        named(m, "<class '", Some(f), "'>")
    } else {
        named(m, "<built-in ", Some(f), ">")
    }
}

// Whether a built-in is a class of values or of exceptions.
fn is_builtin_class(f: Sym) -> bool
    ensures { result ≡ spec.is_builtin_class f }
{
    is_among(&VALUE_CLASSES, f) || class_of_symbol(f).is_some()
}

fn range_text(alloc: Global, start: i128, stop: i128, step: i128) -> Result<PyText, NoMemory>
    ensures { IfOk result (λ t. t ≡ spec.range_text start stop step) }
{
    let from = Draft::new(alloc)
        .with_word("range(")?
        .with_points(number_text(alloc, start)?.as_slice())?;
    let to = from
        .with_word(", ")?
        .with_points(number_text(alloc, stop)?.as_slice())?;
    with_step(alloc, to, step)?.with_word(")")?.into_text(alloc)
}

// The step stands there where it is not 1.
fn with_step(alloc: Global, draft: Draft, step: i128) -> Result<Draft, NoMemory>
    ensures { IfOk result (λ d. d ≡ draft ++ spec.step_text step) }
{
    if step == 1 {
        return Ok(draft);
    }
    draft
        .with_word(", ")?
        .with_points(number_text(alloc, step)?.as_slice())
}
