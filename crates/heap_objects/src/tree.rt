// Rows in the order of their stamps, in a tree with counts.
ghost use Rattle.std.specs.Prelude.{◌≡◌, ◌+◌, ◌<◌, ◌^◌, ◌++◌, ◌∷◌, [], IsTrue, OnOk, OnErr, length, slice_get};
ghost use Rattle.std.specs.Option.{option_copied};
ghost use Rattle.heap_objects.specs.Rows.{AllBelow, AllFrom, IsTree, row_of, rows, with_stamp, without_stamp};

use crate::value::Value;
use flow_base::{Key, NoMemory};
use std::alloc::Global;
use std::mem;

/// An entry of a dictionary: its key, the value by which the key was first written, and the value that it holds.
#[derive(Drop)]
pub struct Entry {
    pub key: Key,
    pub spelled: Value,
    pub value: Value,
}

/// An entry with its stamp. Later entries have greater stamps.
#[derive(Drop)]
pub struct Row {
    pub stamp: u64,
    pub entry: Entry,
}

/// What a branch knows of its two sides: how many rows there are, a stamp above all of the left side and up to all of the
/// right, and how many rows were ever put into each. The right side grows until as many were put into it as into the left,
/// so that the depth grows with the logarithm of the number of rows that were put into the tree.
#[derive(Clone, Copy)]
pub struct Mark {
    pub count: usize,
    pub split: u64,
    pub left_puts: u64,
    pub right_puts: u64,
}

/// Rows in the order of their stamps.
#[derive(Drop)]
pub enum Tree {
    Empty,
    Leaf(Row),
    Branch(Box<Tree>, Mark, Box<Tree>),
}

impl Tree {
    pub fn len(&self) -> usize
        requires { IsTree self.now }
        ensures { result ≡ length (rows self.now) }
    {
        match self {
            Tree::Empty => 0,
            Tree::Leaf(_) => 1,
            Tree::Branch(_, mark, _) => mark.count,
        }
    }

    /// The row at a place from 0.
    pub fn at(&self, place: usize) -> Option<&Row>
        requires { IsTree self.now }
        ensures { option_copied result ≡ slice_get (rows self.now) place }
    {
        match self {
            Tree::Empty => None,
            Tree::Leaf(row) => { if place == 0 { Some(row) } else { None } }
            Tree::Branch(left, _, right) => {
                let before = left.len();
                if place < before {
                    left.at(place)
                } else {
                    right.at(place - before)
                }
            }
        }
    }

    /// The row with a stamp.
    pub fn find(&self, stamp: u64) -> Option<&Row>
        requires { IsTree self.now }
        ensures { option_copied result ≡ row_of (rows self.now) stamp }
    {
        match self {
            Tree::Empty => None,
            Tree::Leaf(row) => { if row.stamp == stamp { Some(row) } else { None } }
            Tree::Branch(left, mark, right) => {
                if stamp < mark.split {
                    left.find(stamp)
                } else {
                    right.find(stamp)
                }
            }
        }
    }
}

impl Tree {
    /// Puts a value in the place of that of the row with a stamp. Takes no memory.
    pub fn set(&mut self, stamp: u64, value: Value)
        requires { IsTree self.old }
        ensures tree { IsTree self.new }
        ensures rows { rows self.new ≡ with_stamp (rows self.old) stamp value }
    {
        match self {
            Tree::Empty => {}
            Tree::Leaf(row) => set_row(row, stamp, value),
            Tree::Branch(left, mark, right) => {
                if stamp < mark.split {
                    left.set(stamp, value);
                } else {
                    right.set(stamp, value);
                }
            }
        }
    }

    /// Puts a row last, with a stamp above all others.
    pub fn push(&mut self, alloc: Global, row: Row) -> Result<(), NoMemory>
        requires tree { IsTree self.old }
        requires last { AllBelow row.stamp (rows self.old) }
        requires fits { length (rows self.old) + 1 < 2 ^ 64 }
        ensures tree { IsTree self.new }
        ensures ok { OnOk result (rows self.new ≡ rows self.old ++ row ∷ []) }
        ensures err { OnErr result (rows self.new ≡ rows self.old) }
    {
        match self {
            Tree::Empty => {
                *self = Tree::Leaf(row);
                Ok(())
            }
            Tree::Leaf(_) => wrap(self, alloc, row, 1),
            Tree::Branch(_, mark, right) => {
                if mark.right_puts < mark.left_puts && row.stamp >= mark.split {
                    right.push(alloc, row)?;
                    mark.count += 1;
                    mark.right_puts += 1;
                    Ok(())
                } else {
                    let puts = mark.left_puts.saturating_add(mark.right_puts);
                    wrap(self, alloc, row, puts)
                }
            }
        }
    }

    /// Takes the row with a stamp out. Takes no memory.
    #[cycle(remove)]
    pub fn remove(&mut self, stamp: u64)
        requires tree { IsTree self.old }
        requires fits { length (rows self.old) < 2 ^ 64 }
        ensures tree { IsTree self.new }
        ensures rows { rows self.new ≡ without_stamp (rows self.old) stamp }
    {
        match self {
            Tree::Empty => {}
            Tree::Leaf(row) => {
                if row.stamp == stamp {
                    let_go(mem::replace(self, Tree::Empty));
                }
            }
            Tree::Branch(left, mark, right) => {
                remove_side(left, mark.split, right, stamp);
                mark.count = left.len() + right.len();
                lift(self);
            }
        }
    }

    fn is_empty(&self) -> bool
        ensures { IsTrue result → rows self.now ≡ [] }
    {
        matches!(self, Tree::Empty)
    }
}

fn set_row(row: &mut Row, stamp: u64, value: Value)
    ensures { row.new ∷ [] ≡ with_stamp (row.old ∷ []) stamp value }
{
    if row.stamp == stamp {
        row.entry.value = value;
    }
}

// Takes the row with a stamp out of the side that may have it.
#[cycle(remove)]
fn remove_side(left: &mut Tree, split: u64, right: &mut Tree, stamp: u64)
    requires left { IsTree left.old }
    requires right { IsTree right.old }
    requires below { AllBelow split (rows left.old) }
    requires from { AllFrom split (rows right.old) }
    requires fits { length (rows left.old) + length (rows right.old) < 2 ^ 64 }
    ensures left { IsTree left.new }
    ensures right { IsTree right.new }
    ensures below { AllBelow split (rows left.new) }
    ensures from { AllFrom split (rows right.new) }
    ensures rows { rows left.new ++ rows right.new ≡ without_stamp (rows left.old ++ rows right.old) stamp }
{
    if stamp < split {
        left.remove(stamp);
    } else {
        right.remove(stamp);
    }
}

// A branch with an empty side becomes the other side.
fn lift(tree: &mut Tree)
    requires { IsTree tree.old }
    ensures tree { IsTree tree.new }
    ensures rows { rows tree.new ≡ rows tree.old }
{
    match tree {
        Tree::Branch(left, _, right) => {
            if left.is_empty() {
                let rest = mem::replace(&mut **right, Tree::Empty);
                let_go(mem::replace(tree, rest));
            } else if right.is_empty() {
                let rest = mem::replace(&mut **left, Tree::Empty);
                let_go(mem::replace(tree, rest));
            }
        }
        Tree::Leaf(_) | Tree::Empty => {}
    }
}

fn let_go(_tree: Tree) {}

// The tree becomes the left side of a branch with the row to its right.
fn wrap(tree: &mut Tree, alloc: Global, row: Row, puts: u64) -> Result<(), NoMemory>
    requires tree { IsTree tree.old }
    requires last { AllBelow row.stamp (rows tree.old) }
    requires fits { length (rows tree.old) + 1 < 2 ^ 64 }
    ensures tree { IsTree tree.new }
    ensures ok { OnOk result (rows tree.new ≡ rows tree.old ++ row ∷ []) }
    ensures err { OnErr result (rows tree.new ≡ rows tree.old) }
{
    let mark = Mark {
        count: tree.len() + 1,
        split: row.stamp,
        left_puts: puts,
        right_puts: 1,
    };
    let mut left = Box::new(alloc, Tree::Empty)?;
    let right = Box::new(alloc, Tree::Leaf(row))?;
    mem::swap(tree, &mut *left);
    *tree = Tree::Branch(left, mark, right);
    Ok(())
}
