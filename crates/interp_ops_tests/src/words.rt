// Values by words: `None`, `True`, `False`, `5`, `'abc` for a text, `range:0:4:2`, `@len` for a built-in, `[ 1 2 ]`, `( 1 2 )`,
// `{ 1 10 2 20 }`, `ValueError( 1 )` for an exception with its arguments, `count-of( 'a )` for the method `count` of a value, `bound:1:3`
// for the method of object 3 by function 1, `dup` for the value before it once more, and the names of `things`.
use crate::things::{below_key_error, error, symbol, thing};
use exceptions_core::ExcClass;
use flow_base::{Held, NoMemory, ObjRef, PyText, Shared};
use heap_objects::{Value, Values};
use interp_ops::{Machine, class_symbol};
use std::alloc::Global;

#[derive(Clone, Copy)]
enum Bracket {
    List,
    Tuple,
    Dict,
    // an exception of this class
    Error(ExcClass),
    // one of a class below KeyError
    BelowKeyError,
    // the method `count` of a value
    Count,
}

// A bracket that is open, and how many values stand before it.
#[derive(Clone, Copy)]
struct Open {
    bracket: Bracket,
    at: usize,
}

#[derive(Drop)]
struct Stack {
    values: Vec<Value>,
    open: Vec<Open>,
}

pub(crate) fn values_of(m: &mut Machine, words: &str) -> Result<Vec<Value>, NoMemory> {
    let mut stack = Stack {
        values: Vec::new(m.alloc),
        open: Vec::new(m.alloc),
    };
    for word in words.split(' ') {
        put(m, &mut stack, word)?;
    }
    Ok(stack.values)
}

fn put(m: &mut Machine, stack: &mut Stack, word: &str) -> Result<(), NoMemory> {
    match opened(word) {
        Some(bracket) => {
            let at = stack.values.len();
            stack.open.push(Open { bracket, at })?;
            Ok(())
        }
        None => put_value(m, stack, word),
    }
}

fn opened(word: &str) -> Option<Bracket> {
    match word {
        "[" => Some(Bracket::List),
        "(" => Some(Bracket::Tuple),
        "{" => Some(Bracket::Dict),
        "Exception(" => Some(Bracket::Error(ExcClass::Exception)),
        "ValueError(" => Some(Bracket::Error(ExcClass::ValueError)),
        "KeyError(" => Some(Bracket::Error(ExcClass::KeyError)),
        "E(" => Some(Bracket::BelowKeyError),
        "count-of(" => Some(Bracket::Count),
        _ => None,
    }
}

fn put_value(m: &mut Machine, stack: &mut Stack, word: &str) -> Result<(), NoMemory> {
    let v = match word {
        "]" | ")" | "}" => closed(m, stack)?,
        "dup" => last(stack.values.as_slice())?,
        _ => value_of(m, word)?,
    };
    stack.values.push(v)?;
    Ok(())
}

fn last(values: &[Value]) -> Result<Value, NoMemory> {
    match values.last() {
        Some(v) => v.copy(),
        None => Err(NoMemory),
    }
}

fn closed(m: &mut Machine, stack: &mut Stack) -> Result<Value, NoMemory> {
    let open = match stack.open.pop() {
        Some(open) => open,
        None => return Err(NoMemory),
    };
    if open.at > stack.values.len() {
        return Err(NoMemory);
    }
    let parts = stack.values.split_off(open.at)?;
    bracketed(m, open.bracket, parts)
}

fn bracketed(m: &mut Machine, bracket: Bracket, parts: Vec<Value>) -> Result<Value, NoMemory> {
    match bracket {
        Bracket::List => list(m, parts),
        Bracket::Tuple => tuple(m.alloc, parts),
        Bracket::Dict => dict(m, parts),
        Bracket::Error(class) => {
            let args = tuple(m.alloc, parts)?;
            error(m, Value::Builtin(class_symbol(class)), args)
        }
        Bracket::BelowKeyError => {
            let args = tuple(m.alloc, parts)?;
            below_key_error(m, args)
        }
        Bracket::Count => count_of(m, parts.as_slice()),
    }
}

fn count_of(m: &mut Machine, parts: &[Value]) -> Result<Value, NoMemory> {
    let receiver = last(parts)?;
    let name = symbol(m, "count")?;
    Ok(Value::Method(name, Held::new(m.alloc, receiver)?))
}

pub(crate) fn list(m: &mut Machine, parts: Vec<Value>) -> Result<Value, NoMemory> {
    let items = Shared::from_vec(m.alloc, parts)?;
    Ok(Value::Obj(m.heap.new_list(items)?))
}

pub(crate) fn tuple(a: Global, parts: Vec<Value>) -> Result<Value, NoMemory> {
    match Value::tuple(Shared::from_vec(a, parts)?) {
        Some(v) => Ok(v),
        None => Err(NoMemory),
    }
}

// A dictionary of keys, each with its value behind it.
fn dict(m: &mut Machine, parts: Vec<Value>) -> Result<Value, NoMemory> {
    let keys = every_other(m.alloc, parts.as_slice(), 0)?;
    let values = every_other(m.alloc, parts.as_slice(), 1)?;
    Ok(Value::Obj(m.heap.new_dict(keys, values)?))
}

fn every_other(a: Global, parts: &[Value], rest: usize) -> Result<Values, NoMemory> {
    let mut all = Vec::new(a);
    for (i, v) in parts.iter().enumerate() {
        if i % 2 == rest {
            all.push(v.copy()?)?;
        }
    }
    Shared::from_vec(a, all)
}

fn value_of(m: &mut Machine, word: &str) -> Result<Value, NoMemory> {
    if let Some(text) = word.strip_prefix('\'') {
        return Ok(Value::Text(PyText::from_str(m.alloc, text)?));
    }
    if let Some(name) = word.strip_prefix('@') {
        return Ok(Value::Builtin(symbol(m, name)?));
    }
    if let Some(numbers) = word.strip_prefix("range:") {
        return range(m.alloc, numbers);
    }
    if let Some(numbers) = word.strip_prefix("bound:") {
        return bound(numbers);
    }
    match word.parse::<i128>() {
        Ok(n) => Ok(Value::Int(n)),
        Err(_) => constant(m, word),
    }
}

fn range(a: Global, words: &str) -> Result<Value, NoMemory> {
    let mut all = Vec::new(a);
    for word in words.split(':') {
        match word.parse::<i128>() {
            Ok(n) => all.push(n)?,
            Err(_) => return Err(NoMemory),
        }
    }
    match all.as_slice() {
        [start, stop, step] => Ok(Value::Range(*start, *stop, *step)),
        _ => Err(NoMemory),
    }
}

fn bound(words: &str) -> Result<Value, NoMemory> {
    match words.split_once(':') {
        Some((f, o)) => Ok(Value::Bound(numbered(f)?, numbered(o)?)),
        None => Err(NoMemory),
    }
}

fn numbered(word: &str) -> Result<ObjRef, NoMemory> {
    match word.parse::<u64>() {
        Ok(n) => Ok(ObjRef(n)),
        Err(_) => Err(NoMemory),
    }
}

fn constant(m: &mut Machine, word: &str) -> Result<Value, NoMemory> {
    match word {
        "None" => Ok(Value::Nil),
        "True" => Ok(Value::Truth(true)),
        "False" => Ok(Value::Truth(false)),
        _ => thing(m, word),
    }
}
