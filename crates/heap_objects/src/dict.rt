// The entries of a dictionary.
ghost use Rattle.std.specs.Prelude.{◌≡◌, ◌<◌, ◌++◌, ◌∷◌, [], IfSome, OnOk, length, map, slice_get, Some, None};
ghost use Rattle.std.specs.Option.{option_copied, option_map};
ghost use Rattle.flow_base.specs.Same.{key_eq};
ghost use Rattle.heap_objects.specs.DictRows.{row_among};
ghost use Rattle.heap_objects.specs.Entries.{entry_of, with_entry, without};
ghost use Rattle.heap_objects.specs.Rows.{IsTree, row_of, rows, with_stamp};

use crate::hash::hash_key;
use crate::stamps::Index;
use crate::tree::{Entry, Row, Tree};
use crate::value::Value;
use flow_base::{Key, NoMemory, same_key};
use std::alloc::Global;
use std::marker::Model;

/// The entries of a dictionary in the order in which their keys came. Contracts see the list of them. Each entry has a
/// stamp, greater than those before it. A tree in the order of stamps gives the entry at a place or with a stamp, and an
/// index by the numbers of keys gives the stamp. So each call but `clear` takes logarithmic time.
#[derive(Drop)]
pub struct Dict {
    alloc: Global,
    tree: Tree,
    next: u64,
    index: Index,
}

impl Model for Dict {
    ghost use Rattle.std.specs.Prelude.{List};
    ghost use Rattle.std.specs.Coded.{codes};
    ghost use Rattle.flow_base.specs.contracts.key.Key as key;
    ghost use Rattle.heap_objects.specs.DictRows.{IsDict, entries_of};
    ghost use Rattle.heap_objects.specs.Rows.{rows};
    ghost use Rattle.heap_objects.specs.contracts.value.Value as value;
    ghost use Rattle.heap_objects.specs.declared.tree.Entry.{Entry};

    ghost Value = { List Entry };

    ghost coded = { Prim.hlevel (codes, key.the_row.coded, value.the_row.coded) };

    ghost view = { λ d. entries_of (rows d.tree) };

    ghost invariant = { λ d. IsDict d.index.listed d.next d.tree };
}

impl Dict {
    pub fn new(alloc: Global) -> Dict
        ensures { result ≡ [] }
    {
        Dict {
            alloc,
            tree: Tree::Empty,
            next: 0,
            index: Index::new(alloc),
        }
    }

    pub fn len(&self) -> usize
        ensures { result ≡ length self.now }
    {
        let _ = &self.index;
        self.tree.len()
    }

    pub fn get(&self, key: &Key) -> Option<&Entry>
        ensures { option_copied result ≡ entry_of self.now key.now }
    {
        match find_row(&self.tree, key, self.index.at(hash_key(key))) {
            Some(row) => Some(&row.entry),
            None => None,
        }
    }

    /// The entry at a place from 0.
    pub fn at(&self, place: usize) -> Option<&Entry>
        ensures { option_copied result ≡ slice_get self.now place }
    {
        match self.tree.at(place) {
            Some(row) => Some(&row.entry),
            None => None,
        }
    }

    /// Puts a value at a key. A key that is present stays where it is and as it was written, and a new one comes last.
    pub fn put(&mut self, key: Key, spelled: Value, value: Value) -> Result<(), NoMemory>
        ensures { OnOk result (self.new ≡ with_entry self.old key spelled value) }
    {
        match find_stamp(&self.tree, &key, self.index.at(hash_key(&key))) {
            Some(stamp) => set_value(&mut self.tree, stamp, key, spelled, value),
            None => self.add(Entry {
                key,
                spelled,
                value,
            }),
        }
    }

    // Puts an entry with a new key last.
    fn add(&mut self, entry: Entry) -> Result<(), NoMemory>
        requires { entry_of self.old entry.key ≡ None }
        ensures { OnOk result (self.new ≡ self.old ++ entry ∷ []) }
    {
        let stamp = self.next;
        if stamp == u64::MAX || self.tree.len() >= usize::MAX - 1 {
            return Err(NoMemory);
        }
        self.index.list(hash_key(&entry.key), stamp)?;
        self.next = stamp + 1;
        self.tree.push(self.alloc, Row { stamp, entry })?;
        Ok(())
    }

    /// Takes no memory.
    pub fn remove(&mut self, key: &Key)
        ensures { self.new ≡ without self.old key.now }
    {
        let number = hash_key(key);
        let _count = self.tree.len();
        match find_stamp(&self.tree, key, self.index.at(number)) {
            Some(stamp) => {
                self.tree.remove(stamp);
                self.index.unlist(number, stamp);
            }
            None => {}
        }
    }

    /// Takes no memory.
    pub fn clear(&mut self)
        ensures { self.new ≡ [] }
    {
        self.tree = Tree::Empty;
        self.index = Index::new(self.alloc);
    }
}

fn set_value(
    tree: &mut Tree,
    stamp: u64,
    _key: Key,
    _spelled: Value,
    value: Value,
) -> Result<(), NoMemory>
    requires { IsTree tree.old }
    ensures tree { IsTree tree.new }
    ensures rows { rows tree.new ≡ with_stamp (rows tree.old) stamp value }
{
    tree.set(stamp, value);
    Ok(())
}

// The first of the rows with these stamps that has the key.
fn find_row<'a>(tree: &'a Tree, key: &Key, stamps: &[u64]) -> Option<&'a Row>
    requires { IsTree tree.now }
    ensures { option_copied result ≡ row_among (rows tree.now) key.now stamps.now }
{
    for stamp in stamps {
        if let Some(row) = tree.find(*stamp) {
            if same(&row.entry.key, key) {
                return Some(row);
            }
        }
    }
    None
}

// Its stamp.
fn find_stamp(tree: &Tree, key: &Key, stamps: &[u64]) -> Option<u64>
    requires { IsTree tree.now }
    ensures { result ≡ option_map (λ r. r.stamp) (row_among (rows tree.now) key.now stamps.now) }
{
    match find_row(tree, key, stamps) {
        Some(row) => Some(row.stamp),
        None => None,
    }
}

// Whether two keys are the same.
fn same(a: &Key, b: &Key) -> bool
    ensures { result ≡ key_eq a.now b.now }
{
    same_key(a, b)
}
