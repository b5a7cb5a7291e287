// Objects: their kinds and fixed parts, and what their locations hold.
use crate::dict::Dict;
use crate::items::Items;
use crate::named::Named;
use crate::slots::Slots;
use crate::value::{Value, Values};
use flow_base::{CodeRef, ObjRef, Sym};

/// The kind of an object and its fixed part: the parent of a frame, which the global frame alone lacks; the class of an
/// instance, a class object or a built-in exception class; the name and the base of a class, if it has one; the name, the
/// code, the defaults and the parent frame of a function.
#[derive(Drop)]
pub enum Object {
    Frame(Option<ObjRef>),
    List,
    Dict,
    Instance(Value),
    Class {
        name: Sym,
        base: Option<Value>,
    },
    Function {
        name: Sym,
        code: CodeRef,
        defaults: Values,
        parent: ObjRef,
    },
}

/// What a location holds: a name, an attribute or an item a value or nothing; the presence of a key, that it is present or
/// nothing; the shape of a list its length, and that of a dictionary its keys as they were first written, in order. A
/// location that was never written holds nothing.
#[derive(Drop)]
pub enum Content {
    Absent,
    Held(Value),
    Present,
    Length(usize),
    Keys(Values),
}

/// What the locations of one object hold, together.
#[derive(Drop)]
pub enum Cell {
    Global(Named),
    Frame(Slots),
    List(Items),
    Dict(Dict),
    Attrs(Named),
    Nothing,
}

/// An object with what its locations hold.
#[derive(Drop)]
pub struct Node {
    pub object: Object,
    pub cell: Cell,
}
