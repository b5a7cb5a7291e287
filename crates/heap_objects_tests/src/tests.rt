// Each public call with ample memory. The helpers are short, since each is proved too.
use flow_base::{
    CodeRef, Event, How, Key, Loc, NoMemory, ObjRef, ReadHow, RunNo, Shared, Sym, same_key,
};
use heap_objects::{Heap, Object, Value, Values, key_of};
use std::alloc::Global;
use std::test::Fail;

fn numbers(a: Global, items: &[i128]) -> Result<Values, NoMemory> {
    let mut list = Vec::new(a);
    for n in items {
        list.push(Value::Int(*n))?;
    }
    Shared::from_vec(a, list)
}

fn is_int(value: Option<Value>, wanted: i128) -> bool {
    match value {
        Some(Value::Int(n)) => n == wanted,
        _ => false,
    }
}

fn item(o: ObjRef, place: i128) -> Loc {
    Loc::Item(o, Key::Int(place))
}

fn holds(heap: &Heap, loc: &Loc, wanted: i128) -> Result<bool, NoMemory> {
    Ok(is_int(heap.peek(loc)?, wanted))
}

// An event by a letter: a use, a place read or a write of a name, an attribute, an item, a presence or a shape.
fn letter(event: &Event) -> char {
    match event {
        Event::Use(loc) => of(loc, ['a', 'b', 'c', 'd', 'e']),
        Event::Place(loc) => of(loc, ['f', 'g', 'h', 'i', 'j']),
        Event::Write(loc) => of(loc, ['N', 'A', 'I', 'P', 'S']),
        _ => '.',
    }
}

fn of(loc: &Loc, letters: [char; 5]) -> char {
    match loc {
        Loc::Name(_, _) => letters[0],
        Loc::Attr(_, _) => letters[1],
        Loc::Item(_, _) => letters[2],
        Loc::Present(_, _) => letters[3],
        Loc::Shape(_) => letters[4],
    }
}

// Whether the events of the run are these.
fn did(heap: &Heap, wanted: &str) -> bool {
    let mut letters = wanted.chars();
    for event in heap.events() {
        if letters.next() != Some(letter(event)) {
            return false;
        }
    }
    letters.next().is_none()
}

fn has_key(a: Global, value: &Value, wanted: &Key) -> Result<bool, NoMemory> {
    match key_of(a, value)? {
        Some(key) => Ok(same_key(&key, wanted)),
        None => Ok(false),
    }
}

#[test]
fn keys_of_values(rt: HostRuntime) -> Result<(), Fail> {
    assert!(rt; has_key(rt.alloc(), &Value::Truth(true), &Key::Int(1))?);
    assert!(rt; has_key(rt.alloc(), &Value::Truth(false), &Key::Int(0))?);
    assert!(rt; has_key(rt.alloc(), &Value::Nil, &Key::Nil)?);
    assert!(rt; !has_key(rt.alloc(), &Value::Obj(ObjRef(1)), &Key::Nil)?);
    Ok(())
}

// How often a tuple of twice the value before can be made.
fn tuples_in_tuples(a: Global) -> Result<u64, NoMemory> {
    let mut nested = Value::Int(0);
    for depth in 0..60u64 {
        match twice(a, &nested)? {
            Some(tuple) => nested = tuple,
            None => return Ok(depth),
        }
    }
    Ok(0)
}

fn twice(a: Global, value: &Value) -> Result<Option<Value>, NoMemory> {
    let mut parts = Vec::new(a);
    parts.push(value.copy()?)?;
    parts.push(value.copy()?)?;
    Ok(Value::tuple(Shared::from_vec(a, parts)?))
}

#[test]
fn nesting_of_tuples(rt: HostRuntime) -> Result<(), Fail> {
    assert_eq!(rt; tuples_in_tuples(rt.alloc())?, 50);
    Ok(())
}

fn names(heap: &mut Heap) -> Result<bool, NoMemory> {
    let name = Loc::Name(ObjRef(0), Sym(4));
    heap.store(&name, Some(Value::Int(5)))?;
    let value = heap.load(&name, ReadHow::Use)?;
    Ok(is_int(value, 5) && did(heap, "Na"))
}

fn slots(heap: &mut Heap) -> Result<bool, NoMemory> {
    let frame = heap.new_frame(ObjRef(0), &[Sym(9)])?;
    slots_of(heap, frame)
}

fn slots_of(heap: &mut Heap, frame: ObjRef) -> Result<bool, NoMemory> {
    heap.store(&Loc::Name(frame, Sym(9)), Some(Value::Int(6)))?;
    holds(heap, &Loc::Name(frame, Sym(9)), 6)
}

fn attributes(heap: &mut Heap) -> Result<bool, NoMemory> {
    let class = heap.new_class(Sym(2), None)?;
    let instance = heap.new_instance(Value::Obj(class))?;
    heap.store(&Loc::Attr(instance, Sym(7)), Some(Value::Int(8)))?;
    heap.store(&Loc::Attr(instance, Sym(3)), Some(Value::Nil))?;
    let names = heap.syms(instance)?;
    Ok(names.as_slice() == [Sym(3), Sym(7)].as_slice())
}

// The second slot by its place, and by its name.
fn slots_by_place(heap: &mut Heap) -> Result<bool, NoMemory> {
    let frame = heap.new_frame(ObjRef(0), &[Sym(9), Sym(5)])?;
    heap.begin_run(RunNo(1));
    write_slot(heap, frame, 1, Value::Int(6))?;
    let value = read_slot(heap, frame, 1)?;
    Ok(is_int(value, 6) && did(heap, "Na") && holds(heap, &Loc::Name(frame, Sym(5)), 6)?)
}

fn write_slot(heap: &mut Heap, frame: ObjRef, i: usize, value: Value) -> Result<(), NoMemory> {
    if i < heap.slot_count(frame) {
        heap.store_slot(frame, i, Some(value))?;
    }
    Ok(())
}

fn read_slot(heap: &mut Heap, frame: ObjRef, i: usize) -> Result<Option<Value>, NoMemory> {
    if i < heap.slot_count(frame) {
        return heap.load_slot(frame, i, ReadHow::Use);
    }
    Ok(None)
}

// The same without a test of the number of slots, since the frame was made with one.
fn only_slot(heap: &mut Heap) -> Result<bool, NoMemory> {
    let frame = heap.new_frame(ObjRef(0), &[Sym(3)])?;
    heap.store_slot(frame, 0, Some(Value::Int(7)))?;
    let value = heap.load_slot(frame, 0, ReadHow::Place)?;
    Ok(is_int(value, 7))
}

fn is_list(heap: &Heap, o: ObjRef) -> bool {
    o.0 < heap.object_count() as u64 && matches!(heap.object(o), Object::List)
}

fn kinds(a: Global, heap: &mut Heap) -> Result<bool, NoMemory> {
    let o = heap.new_list(numbers(a, &[1])?)?;
    let made = matches!(heap.object(o), Object::List);
    Ok(made && is_list(heap, o) && !is_list(heap, ObjRef(0)))
}

#[test]
fn places_of_slots(rt: HostRuntime) -> Result<(), Fail> {
    let mut heap = Heap::new(rt.alloc())?;
    assert!(rt; slots_by_place(&mut heap)?);
    assert!(rt; only_slot(&mut heap)?);
    assert!(rt; kinds(rt.alloc(), &mut heap)?);
    Ok(())
}

#[test]
fn names_and_attributes(rt: HostRuntime) -> Result<(), Fail> {
    let mut heap = Heap::new(rt.alloc())?;
    assert!(rt; names(&mut heap)?);
    assert!(rt; slots(&mut heap)?);
    assert!(rt; attributes(&mut heap)?);
    Ok(())
}

fn list(a: Global, heap: &mut Heap) -> Result<bool, NoMemory> {
    let o = heap.new_list(numbers(a, &[7, 8, 9])?)?;
    let made = did(heap, "IIIS");
    heap.begin_run(RunNo(1));
    heap.list_put(o, 2, Value::Int(10))?;
    heap.list_splice(o, 1, numbers(a, &[4])?)?;
    Ok(made && did(heap, "IIIS") && heap.count(o) == 2 && holds(heap, &item(o, 1), 4)?)
}

fn shape_of_list(a: Global, heap: &mut Heap) -> Result<bool, NoMemory> {
    let o = heap.new_list(numbers(a, &[1, 2])?)?;
    heap.begin_run(RunNo(9));
    heap.list_splice(o, 0, numbers(a, &[3, 4])?)?;
    let shape = heap.shape(o, ReadHow::Place)?;
    Ok(shape == 2 && did(heap, "IIj"))
}

#[test]
fn lists(rt: HostRuntime) -> Result<(), Fail> {
    let mut heap = Heap::new(rt.alloc())?;
    assert!(rt; list(rt.alloc(), &mut heap)?);
    assert!(rt; shape_of_list(rt.alloc(), &mut heap)?);
    Ok(())
}

fn puts(heap: &mut Heap, d: ObjRef) -> Result<bool, NoMemory> {
    heap.begin_run(RunNo(1));
    heap.dict_put(d, &Value::Truth(true), Value::Int(5))?;
    Ok(did(heap, "iI") && holds(heap, &item(d, 1), 5)?)
}

fn removes(heap: &mut Heap, d: ObjRef) -> Result<bool, NoMemory> {
    heap.begin_run(RunNo(2));
    heap.dict_remove(d, &Key::Int(1))?;
    let present = heap.present(d, &Key::Int(1), ReadHow::Use)?;
    Ok(!present && did(heap, "jIPSd"))
}

fn clears(heap: &mut Heap, d: ObjRef) -> Result<bool, NoMemory> {
    heap.begin_run(RunNo(3));
    heap.dict_put(d, &Value::Int(1), Value::Nil)?;
    let put = did(heap, "ijIPS");
    heap.begin_run(RunNo(4));
    heap.dict_clear(d)?;
    Ok(put && did(heap, "IPIPS") && heap.count(d) == 0)
}

// The keys at the first two places.
fn keys_by_place(heap: &Heap, d: ObjRef) -> Result<bool, NoMemory> {
    Ok(
        is_int(key_if(heap, d, 0)?, 1)
            && is_int(key_if(heap, d, 1)?, 2)
            && key_if(heap, d, 2)?.is_none(),
    )
}

fn key_if(heap: &Heap, d: ObjRef, i: usize) -> Result<Option<Value>, NoMemory> {
    if i < heap.key_count(d) {
        return Ok(Some(heap.key_at(d, i)?));
    }
    Ok(None)
}

#[test]
fn dictionaries(rt: HostRuntime) -> Result<(), Fail> {
    let a = rt.alloc();
    let mut heap = Heap::new(a)?;
    let d = heap.new_dict(numbers(a, &[1, 2, 1])?, numbers(a, &[10, 20, 30])?)?;
    assert!(rt; keys_by_place(&heap, d)?);
    assert!(rt; puts(&mut heap, d)?);
    assert!(rt; removes(&mut heap, d)?);
    assert!(rt; clears(&mut heap, d)?);
    Ok(())
}

// Many keys come, and all but each third go.
fn keys_come(heap: &mut Heap, d: ObjRef) -> Result<(), NoMemory> {
    for n in 0..100u64 {
        heap.dict_put(d, &Value::Int(n as i128), Value::Nil)?;
    }
    Ok(())
}

fn keys_go(heap: &mut Heap, d: ObjRef) -> Result<(), NoMemory> {
    for n in 0..100u64 {
        if n % 3 != 0 {
            heap.dict_remove(d, &Key::Int(n as i128))?;
        }
    }
    Ok(())
}

// Whether the items written are those left, in order.
fn in_order(heap: &Heap) -> bool {
    let mut wanted = 0i128;
    for event in heap.events() {
        if let Event::Write(Loc::Item(_, Key::Int(n))) = event {
            if *n != wanted {
                return false;
            }
            wanted = wanted.saturating_add(3);
        }
    }
    wanted == 102
}

fn keys_left(heap: &mut Heap, d: ObjRef) -> Result<bool, NoMemory> {
    heap.begin_run(RunNo(1));
    let count = heap.count(d);
    heap.dict_clear(d)?;
    Ok(count == 34 && in_order(heap))
}

#[test]
fn keys_in_order(rt: HostRuntime) -> Result<(), Fail> {
    let a = rt.alloc();
    let mut heap = Heap::new(a)?;
    let d = heap.new_dict(numbers(a, &[])?, numbers(a, &[])?)?;
    keys_come(&mut heap, d)?;
    keys_go(&mut heap, d)?;
    assert!(rt; keys_left(&mut heap, d)?);
    Ok(())
}

fn named(heap: &Heap, o: ObjRef, run: u64, place: u64) -> bool {
    let (found, k) = heap.origin(o);
    found.0 == run && k == place
}

fn origins(a: Global, heap: &mut Heap) -> Result<bool, NoMemory> {
    heap.begin_run(RunNo(3));
    let first = heap.new_list(numbers(a, &[])?)?;
    let second = heap.new_list(numbers(a, &[])?)?;
    heap.begin_run(RunNo(5));
    let code = CodeRef {
        run: RunNo(5),
        node: 2,
    };
    let third = heap.new_function(Sym(1), code, numbers(a, &[1])?, ObjRef(0))?;
    Ok(
        named(heap, ObjRef(0), 0, 0)
            && named(heap, first, 3, 0)
            && named(heap, second, 3, 1)
            && named(heap, third, 5, 0),
    )
}

#[test]
fn names_of_objects(rt: HostRuntime) -> Result<(), Fail> {
    let mut heap = Heap::new(rt.alloc())?;
    assert!(rt; origins(rt.alloc(), &mut heap)?);
    heap.log(Event::Close(How::Normal))?;
    assert_eq!(rt; heap.events().len(), 1);
    Ok(())
}
