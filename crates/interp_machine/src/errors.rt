// Errors that the language raises by itself.
ghost use Rattle.std.specs.Prelude.{◌≡◌, ◌∷◌, [], IfOk};
ghost use Rattle.interp_machine.specs.Meaning as spec;
ghost use Rattle.interp_machine.specs.Meaning.{Runs};
ghost use Rattle.interp_machine.specs.Symbols.{text_of};

use crate::draft::Draft;
use crate::machine::Machine;
use crate::stop::Stop;
use crate::symbols::{ARGS, class_symbol, text_of};
use exceptions_core::{ExcClass, FaultKind, class_of, rest_of, text_of as text_before};
use flow_base::{Loc, NoMemory, ObjRef, PyText, Shared, Sym};
use heap_objects::{Value, Values};
use std::alloc::Global;

/// Raises an error that the language raises by itself, in whose text no name stands: a new instance of its class with the tuple of its text.
/// Takes memory; for want of it `Stop::NoMemory`.
pub fn fault<T>(m: &mut Machine, kind: FaultKind) -> Result<T, Stop>
    ensures { Runs (spec.fault kind m.old) result m.new }
{
    let o = error_of(m, kind, &[])?;
    Err(Stop::Raised(Value::Obj(o)))
}

/// Raises one with the text of a symbol in its text, which is empty where the table of names does not have it. Takes memory; for want of it
/// `Stop::NoMemory`.
pub fn fault_named<T>(m: &mut Machine, kind: FaultKind, s: Sym) -> Result<T, Stop>
    ensures { Runs (spec.fault_named kind s m.old) result m.new }
{
    let name = name_of(m, s)?;
    let o = error_of(m, kind, name.as_slice())?;
    Err(Stop::Raised(Value::Obj(o)))
}

/// Raises an error of a class with this argument, or, behind an instance of that class, the error of the nesting where the tuple of it would
/// nest over the limit. Takes memory; for want of it `Stop::NoMemory`.
pub fn raise_with<T>(m: &mut Machine, class: ExcClass, v: Value) -> Result<T, Stop>
    ensures { Runs (spec.raise (spec.error_with class v) m.old) result m.new }
{
    let o = error_with(m, class, v)?;
    Err(Stop::Raised(Value::Obj(o)))
}

#[tactic(auto, unfolding(crate::specs::Meaning::error_of))]
fn error_of(m: &mut Machine, kind: FaultKind, name: &[char]) -> Result<ObjRef, Stop>
    ensures { Runs (spec.error_of kind name.now m.old) result m.new }
{
    let text = fault_text(m.alloc, kind, name)?;
    let o = new_error(m, class_of(kind))?;
    give_text(m, o, text)
}

#[tactic(auto, unfolding(crate::specs::Meaning::error_with))]
fn error_with(m: &mut Machine, class: ExcClass, v: Value) -> Result<ObjRef, Stop>
    ensures { Runs (spec.error_with class v m.old) result m.new }
{
    let parts = one(m.alloc, v)?;
    let o = new_error(m, class)?;
    match Value::tuple(parts) {
        Some(args) => {
            m.store(&Loc::Attr(o, ARGS), Some(args))?;
            Ok(o)
        }
        None => error_of(m, FaultKind::Depth, &[]),
    }
}

fn new_error(m: &mut Machine, class: ExcClass) -> Result<ObjRef, Stop>
    ensures { Runs (spec.new_error class m.old) result m.new }
{
    m.new_instance(Value::Builtin(class_symbol(class)))
}

fn give_text(m: &mut Machine, o: ObjRef, text: PyText) -> Result<ObjRef, Stop>
    ensures { Runs (spec.give_args o (spec.text_value text) m.old) result m.new }
{
    let args = Value::Tuple(one(m.alloc, Value::Text(text))?, 1);
    m.store(&Loc::Attr(o, ARGS), Some(args))?;
    Ok(o)
}

fn one(alloc: Global, v: Value) -> Result<Values, NoMemory>
    ensures { IfOk result (λ parts. parts ≡ v ∷ []) }
{
    let mut parts = Vec::new(alloc);
    parts.push(v)?;
    Shared::from_vec(alloc, parts)
}

fn fault_text(alloc: Global, kind: FaultKind, name: &[char]) -> Result<PyText, NoMemory>
    ensures { IfOk result (λ text. spec.text_value text ≡ spec.fault_text kind name.now) }
{
    let begun = Draft::new(alloc).with_word(text_before(kind))?;
    let named = begun.with_points(name)?;
    named.with_word(rest_of(kind))?.into_text(alloc)
}

// The text of a symbol, which is empty where the table does not have it.
fn name_of(m: &Machine, s: Sym) -> Result<PyText, NoMemory>
    ensures { IfOk result (λ text. text ≡ text_of m.now.names s) }
{
    match text_of(&m.names, s) {
        Some(text) => text.copy(),
        None => PyText::from_points(m.alloc, Vec::new(m.alloc)),
    }
}
