// Locations with numbers, found by a hash.
ghost use Rattle.std.specs.Prelude.{◌≡◌, ℕ, [], ◌∷◌, ◌++◌, OnErr, OnOk, length};
ghost use Rattle.flow_base.specs.Same.{loc_eq};
ghost use Rattle.version_store.specs.Table.{Adds, number_in, number_of, pairs_at, with_location};

use crate::hash::hash_loc;
use crate::within::push_within;
use flow_base::{Loc, NoMemory, same_loc};
use std::alloc::Global;
use std::collections::BTreeMap;
use std::marker::Model;

/// Locations of one hash, each with its number.
#[derive(Drop)]
struct Bucket {
    pairs: Vec<(Loc, usize)>,
}

impl Model for Bucket {
    ghost use Rattle.std.specs.Prelude.{List, ℕ};
    ghost use Rattle.std.specs.Coded.{codes};
    ghost use Rattle.flow_base.specs.contracts.key.Key as key;
    ghost use Rattle.flow_base.specs.declared.loc.Loc.{Loc};

    ghost Value = { List (Loc × ℕ) };

    ghost coded = { Prim.hlevel (codes, key.the_row.coded) };

    ghost view = { λ b. b.pairs.items };
}

impl Bucket {
    fn new(alloc: Global) -> Bucket
        ensures { result ≡ [] }
    {
        Bucket {
            pairs: Vec::new(alloc),
        }
    }

    fn push(&mut self, location: Loc, number: usize) -> Result<(), NoMemory>
        ensures ok { OnOk result (self.new ≡ self.old ++ (location, number) ∷ []) }
        ensures err { OnErr result (self.new ≡ self.old) }
    {
        self.pairs.push((location, number))?;
        Ok(())
    }

    fn number(&self, location: &Loc) -> Option<usize>
        ensures { result ≡ number_in location.now self.now }
    {
        for pair in &self.pairs {
            if same(&pair.0, location) {
                return Some(pair.1);
            }
        }
        None
    }
}

/// Whether two locations are the same.
pub fn same(a: &Loc, b: &Loc) -> bool
    ensures { result ≡ loc_eq a.now b.now }
{
    same_loc(a, b)
}

/// Puts one pair more at a hash.
fn add(
    alloc: Global,
    buckets: &mut BTreeMap<u64, Bucket>,
    hash: u64,
    location: Loc,
    number: usize,
) -> Result<(), NoMemory>
    ensures ok { OnOk result (Adds buckets.old buckets.new hash (location, number)) }
    ensures err { OnErr result ((h : ℕ) → pairs_at buckets.new h ≡ pairs_at buckets.old h) }
{
    if let Some(bucket) = buckets.get_mut(&hash) {
        return bucket.push(location, number);
    }
    let mut bucket = Bucket::new(alloc);
    bucket.push(location, number)?;
    buckets.insert(hash, bucket)?;
    Ok(())
}

/// Locations, numbered from 0 in the order in which they were added. Contracts see the list of them.
#[derive(Drop)]
pub struct Locations {
    alloc: Global,
    list: Vec<Loc>,
    buckets: BTreeMap<u64, Bucket>,
}

impl Model for Locations {
    ghost use Rattle.std.specs.Prelude.{List};
    ghost use Rattle.std.specs.Coded.{codes};
    ghost use Rattle.flow_base.specs.contracts.key.Key as key;
    ghost use Rattle.flow_base.specs.declared.loc.Loc.{Loc};
    ghost use Rattle.version_store.specs.Table.{IsIndex};

    ghost Value = { List Loc };

    ghost coded = { Prim.hlevel (codes, key.the_row.coded) };

    ghost view = { λ t. t.list.items };

    ghost invariant = { λ t. IsIndex t.buckets t.list.items };
}

impl Locations {
    pub fn new(alloc: Global) -> Locations
        ensures { result ≡ [] }
    {
        Locations {
            alloc,
            list: Vec::new(alloc),
            buckets: BTreeMap::new(alloc),
        }
    }

    pub fn len(&self) -> usize
        ensures { result ≡ length self.now }
    {
        self.list.len()
    }

    /// The number of a location.
    pub fn find(&self, location: &Loc) -> Option<usize>
        ensures { result ≡ number_of location.now self.now }
    {
        match self.buckets.get(&hash_loc(location)) {
            Some(bucket) => bucket.number(location),
            None => None,
        }
    }

    /// Gives a location a number, if it has none.
    pub fn add(&mut self, location: &Loc) -> Result<(), NoMemory>
        ensures ok { OnOk result (self.new ≡ with_location self.old location.now) }
        ensures err { OnErr result (self.new ≡ self.old) }
    {
        if self.find(location).is_some() {
            return Ok(());
        }
        let listed = location.copy()?;
        let found = location.copy()?;
        let number = self.list.len();
        self.list.reserve(1)?;
        add(
            self.alloc,
            &mut self.buckets,
            hash_loc(location),
            found,
            number,
        )?;
        push_within(&mut self.list, listed);
        Ok(())
    }
}
