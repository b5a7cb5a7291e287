// Each public call once, with ample memory.
use crate::{
    Bytes, Event, Held, How, Key, Keys, Loc, Names, NoMemory, ObjRef, PyText, Shared, Sym,
    same_key, same_loc,
};
use std::alloc::Global;
use std::cmp::Ordering;
use std::test::Fail;

// Whether the part of the text from one place to another is `part`.
fn has_part(a: Global, text: &str, from: usize, to: usize, part: &str) -> Result<bool, NoMemory> {
    let t = PyText::from_str(a, text)?;
    if from > to || to > t.len() {
        return Ok(false);
    }
    Ok(t.part(a, from, to)?.to_text(a)?.as_str() == part)
}

fn order(a: Global, left: &str, right: &str) -> Result<(Ordering, bool), NoMemory> {
    let s = PyText::from_str(a, left)?;
    let t = PyText::from_str(a, right)?.copy()?;
    Ok((s.compare(&t), s.same(&t)))
}

#[test]
fn parts_of_texts(rt: HostRuntime) -> Result<(), Fail> {
    for (text, from, to, part) in [
        ("", 0, 0, ""),
        ("rate", 1, 3, "at"),
        ("é€\u{1F600}x", 1, 3, "€\u{1F600}"),
    ] {
        assert!(rt; has_part(rt.alloc(), text, from, to, part)?, "{text}");
    }
    Ok(())
}

#[test]
fn order_of_texts(rt: HostRuntime) -> Result<(), Fail> {
    for (left, right, want) in [
        ("ab", "b", Ordering::Less),
        ("ab", "ab", Ordering::Equal),
        ("ab", "a", Ordering::Greater),
        ("Z", "a", Ordering::Less),
    ] {
        let (order, same) = order(rt.alloc(), left, right)?;
        assert_eq!(rt; order, want, "{left} {right}");
        assert_eq!(rt; same, left == right, "{left} {right}");
    }
    Ok(())
}

#[test]
fn points_of_a_text(rt: HostRuntime) -> Result<(), Fail> {
    let t = PyText::from_points(rt.alloc(), vec![in rt.alloc(); 'h', 'i', '!']?)?;
    assert_eq!(rt; t.len(), 3);
    assert_eq!(rt; t.at(2), '!');
    Ok(())
}

#[test]
fn symbols_of_names(rt: HostRuntime) -> Result<(), Fail> {
    let mut names = Names::new(rt.alloc());
    for (text, symbol) in [("x", 0), ("print", 1), ("x", 0), ("y", 2), ("print", 1)] {
        let t = PyText::from_str(rt.alloc(), text)?;
        assert_eq!(rt; names.intern(&t)?, Sym(symbol), "{text}");
        assert_eq!(rt; names.known(&t), Some(Sym(symbol)), "{text}");
    }
    let absent = PyText::from_str(rt.alloc(), "z")?;
    assert_eq!(rt; names.known(&absent), None);
    assert_eq!(rt; names.len(), 3);
    assert_eq!(rt; names.text(Sym(1)).len(), 5);
    Ok(())
}

fn keys(a: Global) -> Result<Vec<Key>, NoMemory> {
    let none: Keys = Shared::from_vec(a, Vec::new(a))?;
    let one: Keys = Shared::from_vec(a, vec![in a; Key::Int(1)]?)?;
    let text = PyText::from_str(a, "k")?;
    Ok(vec![in a;
        Key::Nil,
        Key::Int(-1),
        Key::Int(1),
        Key::Text(text),
        Key::Tuple(none),
        Key::Tuple(one),
    ]?)
}

#[test]
fn same_keys_and_locations(rt: HostRuntime) -> Result<(), Fail> {
    let keys = keys(rt.alloc())?;
    for (i, j) in keys.iter().enumerate() {
        for (n, k) in keys.iter().enumerate() {
            let (item, other) = (
                Loc::Item(ObjRef(1), j.copy()?),
                Loc::Item(ObjRef(1), k.copy()?),
            );
            assert_eq!(rt; same_key(j, k), i == n, "{i} {n}");
            assert_eq!(rt; same_loc(&item, &other), i == n, "{i} {n}");
        }
    }
    assert!(rt; !same_loc(&Loc::Shape(ObjRef(1)), &Loc::Shape(ObjRef(2))));
    Ok(())
}

#[test]
fn copies(rt: HostRuntime) -> Result<(), Fail> {
    let write = Event::Write(Loc::Name(ObjRef(0), Sym(3))).copy()?;
    assert!(rt; matches!(write, Event::Write(Loc::Name(ObjRef(0), Sym(3)))));
    let close = Event::Close(How::Raise).copy()?;
    assert!(rt; matches!(close, Event::Close(How::Raise)));
    let held = Held::new(rt.alloc(), 9u8)?.copy()?;
    assert_eq!(rt; *held.get(), 9);
    Ok(())
}

#[test]
fn shared_lists_and_bytes(rt: HostRuntime) -> Result<(), Fail> {
    let shared = Shared::from_vec(rt.alloc(), vec![in rt.alloc(); 5u8, 7]?)?.copy()?;
    assert_eq!(rt; shared.len(), 2);
    assert_eq!(rt; shared.get(1).copied(), Some(7));
    let mut bytes = Bytes::from_vec(Vec::new(rt.alloc()));
    bytes.push(2)?;
    assert_eq!(rt; bytes.as_slice(), [2].as_slice());
    assert_eq!(rt; bytes.into_vec().len(), 1);
    Ok(())
}
