// The stamps of rows, found by the numbers of their keys.
ghost use Rattle.std.specs.Prelude.{◌≡◌, ◌≢◌, ◌<◌, ◌++◌, ◌∷◌, [], ℕ, true, OnOk, OnErr, length, ◌==◌, if◌then◌else◌};
ghost use Rattle.heap_objects.specs.Stamps.{has_stamp, stamps_at, without_first};

use flow_base::NoMemory;
use indexmap::IndexMap;
use std::alloc::Global;
use std::marker::Model;

/// The stamps that are listed under one number. Contracts see the list of them.
#[derive(Drop)]
pub struct Stamps {
    list: Vec<u64>,
}

impl Model for Stamps {
    ghost use Rattle.std.specs.Prelude.{List, ℕ};

    ghost Value = { List ℕ };

    ghost view = { λ s. s.list.items };
}

impl Stamps {
    fn new(alloc: Global) -> Stamps
        ensures { result ≡ [] }
    {
        Stamps {
            list: Vec::new(alloc),
        }
    }

    fn as_slice(&self) -> &[u64]
        ensures { result.now ≡ self.now }
    {
        self.list.as_slice()
    }

    fn is_empty(&self) -> bool
        ensures { result ≡ (length self.now == 0) }
    {
        self.list.is_empty()
    }

    fn push(&mut self, stamp: u64) -> Result<(), NoMemory>
        ensures ok { OnOk result (self.new ≡ self.old ++ stamp ∷ []) }
        ensures err { OnErr result (self.new ≡ self.old) }
    {
        self.list.push(stamp)?;
        Ok(())
    }

    fn remove(&mut self, stamp: u64)
        ensures { self.new ≡ without_first self.old stamp }
    {
        for i in 0..self.list.len() {
            if self.list[i] == stamp {
                self.list.remove(i);
                return;
            }
        }
    }
}

/// Stamps that are listed under numbers.
#[derive(Drop)]
pub struct Index {
    alloc: Global,
    listed: IndexMap<u64, Stamps>,
}

impl Index {
    pub fn new(alloc: Global) -> Index
        ensures { (n : ℕ) → stamps_at result.listed n ≡ [] }
    {
        Index {
            alloc,
            listed: IndexMap::new(alloc),
        }
    }

    /// The stamps that are listed under a number.
    pub fn at(&self, number: u64) -> &[u64]
        ensures { result.now ≡ stamps_at self.now.listed number }
    {
        match self.listed.get(&number) {
            Some(stamps) => stamps.as_slice(),
            None => &[],
        }
    }

    /// Lists one stamp more under a number.
    pub fn list(&mut self, number: u64, stamp: u64) -> Result<(), NoMemory>
        ensures listed { OnOk result (has_stamp (stamps_at self.new.listed number) stamp ≡ true) }
        ensures kept { (n t : ℕ) → has_stamp (stamps_at self.old.listed n) t ≡ true → has_stamp (stamps_at self.new.listed n) t ≡ true }
    {
        list_at(self.alloc, &mut self.listed, number, stamp)
    }

    /// Takes the first of this stamp out of those under a number. Takes no memory.
    pub fn unlist(&mut self, number: u64, stamp: u64)
        ensures kept { (n t : ℕ) → t ≢ stamp → has_stamp (stamps_at self.old.listed n) t ≡ true
            → has_stamp (stamps_at self.new.listed n) t ≡ true }
        ensures exact { (n : ℕ) → stamps_at self.new.listed n
            ≡ (if n == number then without_first (stamps_at self.old.listed n) stamp else stamps_at self.old.listed n) }
    {
        unlist_at(&mut self.listed, number, stamp);
    }
}

fn list_at(
    alloc: Global,
    listed: &mut IndexMap<u64, Stamps>,
    number: u64,
    stamp: u64,
) -> Result<(), NoMemory>
    ensures ok { OnOk result ((n : ℕ) → stamps_at listed.new n
        ≡ (if n == number then stamps_at listed.old n ++ stamp ∷ [] else stamps_at listed.old n)) }
    ensures err { OnErr result ((n : ℕ) → stamps_at listed.new n ≡ stamps_at listed.old n) }
{
    if let Some(stamps) = listed.get_mut(&number) {
        return stamps.push(stamp);
    }
    let mut stamps = Stamps::new(alloc);
    stamps.push(stamp)?;
    listed.insert(number, stamps)?;
    Ok(())
}

fn unlist_at(listed: &mut IndexMap<u64, Stamps>, number: u64, stamp: u64)
    ensures { (n : ℕ) → stamps_at listed.new n
        ≡ (if n == number then without_first (stamps_at listed.old n) stamp else stamps_at listed.old n) }
{
    if let Some(stamps) = listed.get_mut(&number) {
        stamps.remove(stamp);
        if stamps.is_empty() {
            listed.swap_remove(&number);
        }
    }
}
