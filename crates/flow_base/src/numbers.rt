// Numbers that stand for names, runs, objects and nodes.

/// A symbol: the place of a text, from 0, in the table of names that gave it.
#[derive(Clone, Copy, Debug, PartialEq, Eq, PartialOrd, Ord, Hash)]
pub struct Sym(pub u64);

/// The number of a run, from 1. The empty state before every run counts as run 0.
#[derive(Clone, Copy, Debug, PartialEq, Eq, PartialOrd, Ord, Hash)]
pub struct RunNo(pub u64);

/// An object: its place, from 0, in the order of making. The global frame is 0.
#[derive(Clone, Copy, Debug, PartialEq, Eq, PartialOrd, Ord, Hash)]
pub struct ObjRef(pub u64);

/// A node, numbered from 1, of the text that a run had.
#[derive(Clone, Copy, Debug, PartialEq, Eq, PartialOrd, Ord, Hash)]
pub struct CodeRef {
    pub run: RunNo,
    pub node: u32,
}
