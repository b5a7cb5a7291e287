// The table of names.
ghost use Rattle.std.specs.Prelude.{◌≡◌, ◌≢◌, ◌<◌, ◌↔◌, List, ℕ, [], ◌∷◌, ◌++◌, length, slice_get, Some, None, AllPairs, IfOk, IsSome, OnErr, OnOk};
ghost use Rattle.flow_base.specs.Names.{symbol_of, with_name};
ghost use Rattle.flow_base.specs.declared.numbers.Sym.{Sym};

use crate::{NoMemory, PyText, Sym};
use std::alloc::Global;
use std::collections::BTreeMap;
use std::marker::Model;

/// The table of names. Contracts see the list of its texts, each of which stands there once, in the order in which they
/// came. It only grows.
#[derive(Drop)]
pub struct Names {
    alloc: Global,
    texts: Vec<PyText>,
    symbols: BTreeMap<Vec<char>, Sym>,
}

impl Model for Names {
    ghost use Rattle.std.specs.Prelude.{List, ℕ};

    ghost Value = { List (List ℕ) };

    ghost use Rattle.flow_base.specs.NamesIndex.{IsIndex};

    ghost view = { λ n. n.texts.items };

    ghost invariant = { λ n. IsIndex n.symbols n.texts.items };
}

impl Names {
    /// A table without names. Takes no memory.
    pub fn new(alloc: Global) -> Names
        ensures { result ≡ [] }
    {
        Names {
            alloc,
            texts: Vec::new(alloc),
            symbols: BTreeMap::new(alloc),
        }
    }

    /// The number of names. No text stands in the table twice.
    pub fn len(&self) -> usize
        ensures value { result ≡ length self.now }
        ensures distinct { AllPairs (λ s t. s ≢ t) self.now }
    {
        let _ = &self.symbols;
        self.texts.len()
    }

    /// The symbol of a text, which is put into the table if it is new. Where memory is wanting, the table stays as it was.
    pub fn intern(&mut self, t: &PyText) -> Result<Sym, NoMemory>
        ensures symbol { IfOk result (λ s. symbol_of self.new t.now ≡ Some s) }
        ensures ok { OnOk result (self.new ≡ with_name self.old t.now) }
        ensures err { OnErr result (self.new ≡ self.old) }
    {
        if let Some(known) = self.known(t) {
            return Ok(known);
        }
        self.add(t)
    }

    /// The symbol that `intern` would give, and `None` exactly where the table does not have the text. Takes no memory.
    pub fn known(&self, t: &PyText) -> Option<Sym>
        ensures { result ≡ symbol_of self.now t.now }
    {
        self.symbols.get(t.as_slice()).copied()
    }

    /// The text of a symbol that this table gave. Takes no memory.
    pub fn text(&self, s: Sym) -> &PyText
        requires { s.0 < length self.now }
        ensures { Some result.now ≡ slice_get self.now s.0 }
    {
        &self.texts[s.0 as usize]
    }

    // A new text comes last, and its symbol is its place.
    fn add(&mut self, t: &PyText) -> Result<Sym, NoMemory>
        requires { symbol_of self.old t.now ≡ None }
        ensures symbol { IfOk result (λ s. symbol_of self.new t.now ≡ Some s) }
        ensures ok { OnOk result (self.new ≡ self.old ++ t.now ∷ []) }
        ensures err { OnErr result (self.new ≡ self.old) }
    {
        let key = Vec::from_slice(self.alloc, t.as_slice())?;
        let symbol = Sym(self.texts.len() as u64);
        self.texts.push(t.copy()?)?;
        match self.symbols.insert(key, symbol) {
            Ok(_) => Ok(symbol),
            Err(_) => {
                self.texts.pop();
                Err(NoMemory)
            }
        }
    }
}

/// The laws of symbols: a symbol that some text has is that of no other text, it stays as the table grows, the text at
/// its place is its text, and in a table without repeats each place is the symbol of its text.
pub fn names_law()
    ensures one_text { (names : List (List ℕ)) (s t : List ℕ)
        → IsSome (symbol_of names s) → (symbol_of names s ≡ symbol_of names t) ↔ (s ≡ t) }
    ensures stays { (names : List (List ℕ)) (s t : List ℕ) (symbol : Sym)
        → symbol_of names s ≡ Some symbol → symbol_of (with_name names t) s ≡ Some symbol }
    ensures text_at { (names : List (List ℕ)) (s : List ℕ) (symbol : Sym)
        → symbol_of names s ≡ Some symbol → slice_get names symbol.0 ≡ Some s }
    ensures place_of { (names : List (List ℕ)) (s : List ℕ) (symbol : Sym)
        → AllPairs (λ s t. s ≢ t) names → slice_get names symbol.0 ≡ Some s
        → symbol_of names s ≡ Some symbol }
    ensures known { (names : List (List ℕ)) (t : List ℕ) → IsSome (symbol_of (with_name names t) t) }
{}
