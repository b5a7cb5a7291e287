// The texts of values, as `str` gives them.
ghost use Rattle.std.specs.Prelude.{◌≡◌};
ghost use Rattle.interp_machine.specs.Meaning.{Runs};
ghost use Rattle.interp_texts.specs.Shown as spec;

use crate::shown::{args_of, arguments_to, plain, show_to, tuple_end};
use exceptions_core::{ExcClass, FaultKind};
use flow_base::{ObjRef, PyText};
use heap_objects::{Value, Values};
use interp_machine::{Draft, Kind, Machine, Stop, exception_of, fault};

/// The text of a value, as `str` gives it: a text is its own, and that of an exception is the one of its only argument, or of the tuple of
/// several. Errors as those of `show`.
#[tactic(auto, unfolding(crate::specs::Shown::to_str))]
pub fn to_str(m: &mut Machine, v: &Value) -> Result<PyText, Stop>
    ensures { Runs (spec.to_str v.now m.old) result m.new }
{
    let levels = m.levels_left() + 1;
    let draft = Draft::new(m.alloc);
    let told = str_to(m, levels, draft, v)?;
    let text = told.into_text(m.alloc)?;
    Ok(text)
}

// What `str` gives, behind a text, where so many levels may be open, this one counted.
#[tactic(auto, using(crate::proofs::ShownLaws::told_more), unfolding(crate::specs::Shown::str_to))]
#[cycle(told)]
fn str_to(m: &mut Machine, levels: u32, d: Draft, v: &Value) -> Result<Draft, Stop>
    ensures { Runs (spec.str_to levels d v.now m.old) result m.new }
{
    if levels == 0 {
        return fault(m, FaultKind::Depth);
    }
    str_with(m, levels, levels - 1, d, v)
}

#[tactic(auto, unfolding(crate::specs::Shown::str_with, crate::specs::Shown::exception, interp_machine::specs::Kinds::kind))]
#[cycle(told)]
fn str_with(m: &mut Machine, levels: u32, below: u32, d: Draft, v: &Value) -> Result<Draft, Stop>
    ensures { Runs (spec.str_with levels below (spec.str_to below) d v.now m.old) result m.new }
{
    match m.kind(v)? {
        Kind::Text(t) => plain(m, d, &t),
        Kind::Instance(o, class) => {
            let exception = exception_of(m, &class);
            str_instance(m, levels, below, d, v, o, exception)
        }
        Kind::Nil => show_to(m, levels, &[], d, v),
        Kind::Number(_) => show_to(m, levels, &[], d, v),
        Kind::Tuple(_) => show_to(m, levels, &[], d, v),
        Kind::Range(_, _, _) => show_to(m, levels, &[], d, v),
        Kind::List(_) => show_to(m, levels, &[], d, v),
        Kind::Dict(_) => show_to(m, levels, &[], d, v),
        Kind::Class(_) => show_to(m, levels, &[], d, v),
        Kind::Other => show_to(m, levels, &[], d, v),
    }
}

#[cycle(told)]
fn str_instance(
    m: &mut Machine,
    levels: u32,
    below: u32,
    d: Draft,
    v: &Value,
    o: ObjRef,
    exception: Option<ExcClass>,
) -> Result<Draft, Stop>
    ensures { Runs (spec.str_instance levels below (spec.str_to below) d v.now o exception m.old) result m.new }
{
    match exception {
        Some(c) => {
            let xs = args_of(m, o)?;
            str_arguments(m, below, d, is_key_error(c), &xs)
        }
        None => show_to(m, levels, &[], d, v),
    }
}

// No arguments give no text, one gives its own, and several that of their tuple.
#[tactic(auto, using(crate::proofs::ShownLaws::several))]
#[cycle(told)]
fn str_arguments(
    m: &mut Machine,
    below: u32,
    d: Draft,
    keyed: bool,
    xs: &Values,
) -> Result<Draft, Stop>
    ensures { Runs (spec.str_arguments below (spec.str_to below) d keyed xs.now m.old) result m.new }
{
    match xs.as_slice() {
        [] => Ok(d),
        [x] => str_one(m, below, d, keyed, x),
        [_, _, ..] => tuple_to(m, below, d, xs.copy()?),
    }
}

#[cycle(told)]
fn str_one(m: &mut Machine, below: u32, d: Draft, keyed: bool, x: &Value) -> Result<Draft, Stop>
    ensures { Runs (spec.str_one below (spec.str_to below) d keyed x.now m.old) result m.new }
{
    if keyed {
        show_to(m, below, &[], d, x)
    } else {
        str_to(m, below, d, x)
    }
}

fn tuple_to(m: &mut Machine, levels: u32, d: Draft, xs: Values) -> Result<Draft, Stop>
    ensures { Runs (spec.tuple_to levels d xs m.old) result m.new }
{
    let end = tuple_end(xs.as_slice());
    let begun = d.with_word("(")?;
    let shown = arguments_to(m, levels, &[], begun, xs)?;
    let ended = shown.with_word(end)?;
    Ok(ended)
}

fn is_key_error(c: ExcClass) -> bool
    ensures { result ≡ spec.is_key_error c }
{
    match c {
        ExcClass::KeyError => true,
        _ => false,
    }
}
