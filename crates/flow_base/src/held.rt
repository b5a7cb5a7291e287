// A value that copies share in memory.
ghost use Rattle.std.specs.Prelude.{◌≡◌, IfOk};

use crate::NoMemory;
use std::alloc::Global;
use std::marker::Model;
use std::rc::Rc;

/// A value that copies share in memory: a copy takes constant time. Contracts see the value.
#[derive(Drop)]
pub struct Held<T> {
    inner: Rc<T>,
}

impl<T> Model for Held<T> {
    ghost Value = { T };

    ghost coded = { T.code };

    ghost view = { λ h. h.inner.value };
}

impl<T> Held<T> {
    pub fn get(&self) -> &T
        ensures { result.now ≡ self.now }
    {
        self.inner.as_ref()
    }
}

impl<T: Drop> Held<T> {
    pub fn new(alloc: Global, value: T) -> Result<Held<T>, NoMemory>
        ensures { IfOk result (λ h. h ≡ value) }
    {
        Ok(Held {
            inner: Rc::new(alloc, value)?,
        })
    }

    /// The same value, in the same memory. `NoMemory` stands for a count of owners that is full, at 2^64 - 1.
    pub fn copy(&self) -> Result<Held<T>, NoMemory>
        ensures { IfOk result (λ h. h ≡ self.now) }
    {
        Ok(Held {
            inner: self.inner.clone()?,
        })
    }
}
