// The order of versions.
ghost use Rattle.std.specs.Prelude.{◌≡◌};
ghost use Rattle.std.specs.Cmp.Lexicographic.{slice_cmp};
ghost use Rattle.trace_events.specs.Order.{inner_cmp, key_cmp, key_place, kind_of, loc_cmp, name_cmp, object_of, text_of, version_cmp};
ghost use Rattle.flow_base.specs.declared.key.Key.{out-Key};

use flow_base::{Key, Loc, Names, Sym};
use std::cmp::Ordering;
use trace_events::Version;

/// The order of versions: what stood before any run first, by location; then the others, by run and by place.
pub fn compare_versions(names: &Names, a: &Version, b: &Version) -> Ordering
    ensures { result ≡ version_cmp names.now a.now b.now }
{
    match (a, b) {
        (Version::Empty(x), Version::Empty(y)) => compare_locations(names, x, y),
        (Version::Empty(_), Version::Written(_, _)) => Ordering::Less,
        (Version::Written(_, _), Version::Empty(_)) => Ordering::Greater,
        (Version::Written(n, i), Version::Written(m, j)) => n.0.cmp(&m.0).then(i.cmp(j)),
    }
}

fn compare_locations(names: &Names, a: &Loc, b: &Loc) -> Ordering
    ensures { result ≡ loc_cmp names.now a.now b.now }
{
    object_of(a)
        .cmp(&object_of(b))
        .then(kind_of(a).cmp(&kind_of(b)))
        .then(compare_inner(names, a, b))
}

fn object_of(a: &Loc) -> u64
    ensures { result ≡ object_of a.now }
{
    match a {
        Loc::Name(object, _) => object.0,
        Loc::Attr(object, _) => object.0,
        Loc::Item(object, _) => object.0,
        Loc::Present(object, _) => object.0,
        Loc::Shape(object) => object.0,
    }
}

fn kind_of(a: &Loc) -> u8
    ensures { result ≡ kind_of a.now }
{
    match a {
        Loc::Name(_, _) => 0,
        Loc::Attr(_, _) => 1,
        Loc::Item(_, _) => 2,
        Loc::Present(_, _) => 3,
        Loc::Shape(_) => 4,
    }
}

fn compare_inner(names: &Names, a: &Loc, b: &Loc) -> Ordering
    ensures { result ≡ inner_cmp names.now a.now b.now }
{
    match (a, b) {
        (Loc::Name(_, s), Loc::Name(_, t)) => compare_names(names, *s, *t),
        (Loc::Attr(_, s), Loc::Attr(_, t)) => compare_names(names, *s, *t),
        (Loc::Item(_, j), Loc::Item(_, k)) => compare_keys(j, k),
        (Loc::Present(_, j), Loc::Present(_, k)) => compare_keys(j, k),
        _ => kind_of(a).cmp(&kind_of(b)),
    }
}

fn compare_names(names: &Names, s: Sym, t: Sym) -> Ordering
    ensures { result ≡ name_cmp names.now s t }
{
    text_of(names, s)
        .cmp(&text_of(names, t))
        .then(s.0.cmp(&t.0))
}

// A symbol that the table lacks has no text.
fn text_of(names: &Names, s: Sym) -> &[char]
    ensures { result.now ≡ text_of names.now s }
{
    if s.0 < names.len() as u64 {
        names.text(s).as_slice()
    } else {
        &[]
    }
}

#[cycle(order)]
fn compare_keys(a: &Key, b: &Key) -> Ordering
    ensures { result ≡ key_cmp a.now b.now }
{
    match (a, b) {
        (Key::Int(m), Key::Int(n)) => m.cmp(n),
        (Key::Text(s), Key::Text(t)) => s.compare(t),
        (Key::Tuple(s), Key::Tuple(t)) => compare_parts(s.as_slice(), t.as_slice()),
        _ => key_place(a).cmp(&key_place(b)),
    }
}

#[cycle(order)]
fn compare_parts(s: &[Key], t: &[Key]) -> Ordering
    ensures { result ≡ slice_cmp key_cmp s.now t.now }
{
    for (i, a) in s.iter().enumerate() {
        if i >= t.len() {
            return Ordering::Greater;
        }
        let first = compare_keys(a, &t[i]);
        if first != Ordering::Equal {
            return first;
        }
    }
    if s.len() < t.len() {
        Ordering::Less
    } else {
        Ordering::Equal
    }
}

fn key_place(a: &Key) -> u8
    ensures { result ≡ key_place (out-Key a.now) }
{
    match a {
        Key::Nil => 0,
        Key::Int(_) => 1,
        Key::Text(_) => 2,
        Key::Tuple(_) => 3,
    }
}
