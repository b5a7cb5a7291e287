// A list that copies share in memory.
ghost use Rattle.std.specs.Prelude.{◌≡◌, ◌<◌, length, slice_get, IfOk, OnSome};
ghost use Rattle.std.specs.Option.{option_copied};

use crate::NoMemory;
use std::alloc::Global;
use std::marker::Model;
use std::rc::Rc;

/// A list that copies share in memory: a copy takes constant time. Contracts see the list of its items, so that a
/// copy equals what it copies.
#[derive(Drop)]
pub struct Shared<T> {
    inner: Rc<Vec<T>>,
}

impl<T> Model for Shared<T> {
    ghost use Rattle.std.specs.Prelude.{List};
    ghost use Rattle.std.specs.Coded.{coded_list};

    ghost Value = { List T };

    ghost coded = { coded_list T.code };

    ghost view = { λ s. s.inner.value.items };
}

impl<T> Shared<T> {
    pub fn as_slice(&self) -> &[T]
        ensures { result.now ≡ self.now }
    {
        self.inner.as_ref().as_slice()
    }

    pub fn len(&self) -> usize
        ensures { result ≡ length self.now }
    {
        self.as_slice().len()
    }

    /// The item at a place from 0, and `None` where there is none.
    pub fn get(&self, at: usize) -> Option<&T>
        ensures value { option_copied result ≡ slice_get self.now at }
        ensures within { OnSome result (at < length self.now) }
    {
        self.as_slice().get(at)
    }
}

impl<T: Drop> Shared<T> {
    pub fn from_vec(alloc: Global, items: Vec<T>) -> Result<Shared<T>, NoMemory>
        ensures { IfOk result (λ s. s ≡ items.items) }
    {
        Ok(Shared {
            inner: Rc::new(alloc, items)?,
        })
    }

    /// The same list, in the same memory. `NoMemory` stands for a count of owners that is full, at 2^64 - 1.
    pub fn copy(&self) -> Result<Shared<T>, NoMemory>
        ensures { IfOk result (λ s. s ≡ self.now) }
    {
        Ok(Shared {
            inner: self.inner.clone()?,
        })
    }
}
