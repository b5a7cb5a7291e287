// What an operation gave and did, in words: its value or its error as `repr` shows it (or `large`), the letters of its events, and its
// steps.
use flow_base::{Event, Key, Loc, NoMemory, ObjRef, PyText, Sym};
use heap_objects::Value;
use interp_ops::{Machine, Stop, show};
use std::alloc::Global;

// What an operation gave: a value, or a text that stands as it is.
#[derive(Drop)]
pub(crate) enum Given {
    Value(Result<Value, Stop>),
    Text(Result<PyText, Stop>),
}

pub(crate) fn told(
    m: Machine,
    steps: u32,
    in_full: bool,
    given: Given,
) -> Result<String, NoMemory> {
    let a = m.alloc;
    let taken = steps.saturating_sub(m.left);
    let events = if in_full {
        events_in_full(a, m.heap.events())?
    } else {
        letters(a, m.heap.events())?
    };
    let value = told_given(m, given)?;
    Ok(format!(in a; "{value} {events} {taken}")?)
}

fn told_given(m: Machine, given: Given) -> Result<String, NoMemory> {
    match given {
        Given::Value(Ok(v)) => shown(m, &v),
        Given::Value(Err(stop)) => stopped(m, stop),
        Given::Text(Ok(t)) => t.to_text(m.alloc),
        Given::Text(Err(stop)) => stopped(m, stop),
    }
}

fn stopped(m: Machine, stop: Stop) -> Result<String, NoMemory> {
    match stop {
        Stop::Raised(e) => shown(m, &e),
        Stop::Steps => owned(m.alloc, "steps"),
        Stop::Range => owned(m.alloc, "range"),
        Stop::NoMemory => Err(NoMemory),
    }
}

fn shown(mut m: Machine, v: &Value) -> Result<String, NoMemory> {
    m.left = 2_000;
    m.depth = 0;
    match show(&mut m, v) {
        Ok(t) => t.to_text(m.alloc),
        Err(Stop::Steps) => owned(m.alloc, "large"),
        Err(_) => Err(NoMemory),
    }
}

fn owned(a: Global, t: &str) -> Result<String, NoMemory> {
    Ok(String::from_str(a, t)?)
}

// An event by a letter: a use (a to e), a place read (f to j) or a write (N, A, I, P, S) of a name, an attribute, an item, a presence or a
// shape. Of more than 60 events only their number is told.
fn letters(a: Global, events: &[Event]) -> Result<String, NoMemory> {
    if events.is_empty() {
        return owned(a, "-");
    }
    let count = events.len();
    if count > 60 {
        return Ok(format!(in a; "{count}")?);
    }
    let mut all = Vec::new(a);
    for event in events {
        all.push(letter(event))?;
    }
    PyText::from_points(a, all)?.to_text(a)
}

fn letter(event: &Event) -> char {
    match event {
        Event::Use(loc) => used(loc),
        Event::Place(loc) => placed(loc),
        Event::Write(loc) => written(loc),
        _ => '.',
    }
}

fn used(loc: &Loc) -> char {
    match loc {
        Loc::Name(_, _) => 'a',
        Loc::Attr(_, _) => 'b',
        Loc::Item(_, _) => 'c',
        Loc::Present(_, _) => 'd',
        Loc::Shape(_) => 'e',
    }
}

fn placed(loc: &Loc) -> char {
    match loc {
        Loc::Name(_, _) => 'f',
        Loc::Attr(_, _) => 'g',
        Loc::Item(_, _) => 'h',
        Loc::Present(_, _) => 'i',
        Loc::Shape(_) => 'j',
    }
}

fn written(loc: &Loc) -> char {
    match loc {
        Loc::Name(_, _) => 'N',
        Loc::Attr(_, _) => 'A',
        Loc::Item(_, _) => 'I',
        Loc::Present(_, _) => 'P',
        Loc::Shape(_) => 'S',
    }
}

// The events one by one: the letter, the number of the object, and behind a point the number of the attribute or the key.
fn events_in_full(a: Global, events: &[Event]) -> Result<String, NoMemory> {
    let mut all = String::new(a);
    for event in events {
        if !all.is_empty() {
            all.push(',')?;
        }
        all.push(letter(event))?;
        all.push_str(place(a, event)?.as_str())?;
    }
    Ok(all)
}

fn place(a: Global, event: &Event) -> Result<String, NoMemory> {
    match event {
        Event::Use(loc) => location(a, loc),
        Event::Place(loc) => location(a, loc),
        Event::Write(loc) => location(a, loc),
        _ => owned(a, ""),
    }
}

fn location(a: Global, loc: &Loc) -> Result<String, NoMemory> {
    match loc {
        Loc::Name(f, name) => named(a, *f, *name),
        Loc::Attr(o, name) => named(a, *o, *name),
        Loc::Item(o, key) => keyed(a, *o, key),
        Loc::Present(d, key) => keyed(a, *d, key),
        Loc::Shape(o) => numbered(a, *o),
    }
}

fn numbered(a: Global, o: ObjRef) -> Result<String, NoMemory> {
    let o = o.0;
    Ok(format!(in a; "{o}")?)
}

fn named(a: Global, o: ObjRef, name: Sym) -> Result<String, NoMemory> {
    let o = o.0;
    let name = name.0;
    Ok(format!(in a; "{o}.{name}")?)
}

fn keyed(a: Global, o: ObjRef, key: &Key) -> Result<String, NoMemory> {
    let o = o.0;
    match key {
        Key::Int(n) => Ok(format!(in a; "{o}.{n}")?),
        Key::Text(_) => Ok(format!(in a; "{o}.text")?),
        Key::Nil => Ok(format!(in a; "{o}.None")?),
        Key::Tuple(_) => Ok(format!(in a; "{o}.tuple")?),
    }
}
