// A text of a notebook: a list of code points.
ghost use Rattle.std.specs.Prelude.{◌≡◌, ◌<◌, ◌≤◌, ◌++◌, ◌↔◌, IsTrue, IfOk, length, slice_index, slice_range, string_bytes};
ghost use Rattle.std.specs.Ordering.{nat_cmp};
ghost use Rattle.std.specs.Cmp.Lexicographic.{slice_cmp};
ghost use Rattle.std.specs.Str.{chars, encode_utf8_all};

use crate::{NoMemory, Shared};
use std::alloc::Global;
use std::cmp::Ordering;
use std::marker::Model;

/// A text, as the text of a cell or a name. Contracts see the list of its code points. A copy shares the memory of
/// what it copies.
#[derive(Drop)]
pub struct PyText {
    points: Shared<char>,
}

impl Model for PyText {
    ghost use Rattle.std.specs.Prelude.{ℕ, List};

    ghost Value = { List ℕ };

    ghost view = { λ t. t.points };
}

impl PyText {
    pub fn from_str(alloc: Global, t: &str) -> Result<PyText, NoMemory>
        ensures { IfOk result (λ text. text ≡ chars t.now) }
    {
        PyText::from_points(alloc, t.chars().collect(alloc)?)
    }

    pub fn from_points(alloc: Global, points: Vec<char>) -> Result<PyText, NoMemory>
        ensures { IfOk result (λ text. text ≡ points.items) }
    {
        Ok(PyText {
            points: Shared::from_vec(alloc, points)?,
        })
    }

    /// The number of code points.
    pub fn len(&self) -> usize
        ensures { result ≡ length self.now }
    {
        self.points.len()
    }

    /// The code point at a place from 0.
    pub fn at(&self, i: usize) -> char
        requires { i < length self.now }
        ensures { result ≡ slice_index self.now i }
    {
        self.as_slice()[i]
    }

    pub fn as_slice(&self) -> &[char]
        ensures { result.now ≡ self.now }
    {
        self.points.as_slice()
    }

    /// The same text, in the same memory.
    pub fn copy(&self) -> Result<PyText, NoMemory>
        ensures { IfOk result (λ text. text ≡ self.now) }
    {
        Ok(PyText {
            points: self.points.copy()?,
        })
    }

    pub fn same(&self, other: &PyText) -> bool
        ensures { IsTrue result ↔ (self.now ≡ other.now) }
    {
        self.as_slice() == other.as_slice()
    }

    /// The order of two texts by their code points, a beginning of a text before the text.
    pub fn compare(&self, other: &PyText) -> Ordering
        ensures { result ≡ slice_cmp nat_cmp self.now other.now }
    {
        self.as_slice().cmp(&other.as_slice())
    }

    /// The part between two places, the second left out.
    pub fn part(&self, alloc: Global, from: usize, to: usize) -> Result<PyText, NoMemory>
        requires in_order { from ≤ to }
        requires in_bounds { to ≤ length self.now }
        ensures { IfOk result (λ text. text ≡ slice_range self.now from to) }
    {
        PyText::from_points(alloc, Vec::from_slice(alloc, &self.as_slice()[from..to])?)
    }

    /// The text in UTF-8 (RFC 3629).
    pub fn to_text(&self, alloc: Global) -> Result<String, NoMemory>
        ensures { IfOk result (λ text. string_bytes text ≡ encode_utf8_all self.now) }
    {
        let text: String = self.as_slice().iter().copied().collect(alloc)?;
        Ok(text)
    }
}
