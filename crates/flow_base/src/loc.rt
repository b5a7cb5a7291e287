// The places that hold what a run can read.
ghost use Rattle.std.specs.Prelude.{◌≡◌, ◌↔◌, IsTrue, IfOk};
ghost use Rattle.flow_base.specs.Same.{key_eq, loc_eq};
ghost use Rattle.flow_base.specs.declared.key.Key.{Key};
ghost use Rattle.flow_base.specs.declared.loc.Loc.{Loc};

use crate::{Key, NoMemory, ObjRef, Sym, same_key};

/// A location: a name of a frame, an attribute, an item at a key, whether a key is present, and the length of a list or
/// the keys of a dictionary in their order.
#[derive(Drop)]
pub enum Loc {
    Name(ObjRef, Sym),
    Attr(ObjRef, Sym),
    Item(ObjRef, Key),
    Present(ObjRef, Key),
    Shape(ObjRef),
}

impl Loc {
    /// The same location, in the same memory.
    pub fn copy(&self) -> Result<Loc, NoMemory>
        ensures { IfOk result (λ loc. loc ≡ self.now) }
    {
        match self {
            Loc::Name(object, name) => Ok(Loc::Name(*object, *name)),
            Loc::Attr(object, name) => Ok(Loc::Attr(*object, *name)),
            Loc::Item(object, key) => Ok(Loc::Item(*object, key.copy()?)),
            Loc::Present(object, key) => Ok(Loc::Present(*object, key.copy()?)),
            Loc::Shape(object) => Ok(Loc::Shape(*object)),
        }
    }
}

/// Whether two locations are the same. Takes no memory.
pub fn same_loc(a: &Loc, b: &Loc) -> bool
    ensures { IsTrue result ↔ (a.now ≡ b.now) }
{
    match (a, b) {
        (Loc::Name(o, s), Loc::Name(p, t)) => o.0 == p.0 && s.0 == t.0,
        (Loc::Attr(o, s), Loc::Attr(p, t)) => o.0 == p.0 && s.0 == t.0,
        (Loc::Item(o, j), Loc::Item(p, k)) => o.0 == p.0 && same_key(j, k),
        (Loc::Present(o, j), Loc::Present(p, k)) => o.0 == p.0 && same_key(j, k),
        (Loc::Shape(o), Loc::Shape(p)) => o.0 == p.0,
        _ => false,
    }
}

/// The tests that definitions use for keys and locations hold exactly where the two are the same.
pub fn same_law()
    ensures keys { (a b : Key) → (IsTrue (key_eq a b) ↔ (a ≡ b)) }
    ensures locations { (a b : Loc) → (IsTrue (loc_eq a b) ↔ (a ≡ b)) }
{}
