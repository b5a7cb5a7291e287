// The keys of items.
ghost use Rattle.std.specs.Prelude.{◌≡◌, ◌↔◌, IsTrue, IfOk};

use crate::{NoMemory, PyText, Shared};

/// The parts of a key that is a tuple. Contracts see the list of them.
pub type Keys = Shared<Key>;

/// The key of an item of a list or a dictionary. Contracts see a plain tree: a text is a list of code points, and the
/// parts of a tuple are a list of keys.
#[derive(Drop)]
pub enum Key {
    Nil,
    Int(i128),
    Text(PyText),
    Tuple(Keys),
}

impl Key {
    /// The same key, in the same memory.
    pub fn copy(&self) -> Result<Key, NoMemory>
        ensures { IfOk result (λ key. key ≡ self.now) }
    {
        match self {
            Key::Nil => Ok(Key::Nil),
            Key::Int(n) => Ok(Key::Int(*n)),
            Key::Text(text) => Ok(Key::Text(text.copy()?)),
            Key::Tuple(parts) => Ok(Key::Tuple(parts.copy()?)),
        }
    }
}

/// Whether two keys are the same tree. Takes no memory.
#[cycle(same)]
pub fn same_key(a: &Key, b: &Key) -> bool
    ensures { IsTrue result ↔ (a.now ≡ b.now) }
{
    match (a, b) {
        (Key::Nil, Key::Nil) => true,
        (Key::Int(m), Key::Int(n)) => *m == *n,
        (Key::Text(s), Key::Text(t)) => s.same(t),
        (Key::Tuple(s), Key::Tuple(t)) => same_keys(s.as_slice(), t.as_slice()),
        _ => false,
    }
}

#[cycle(same)]
fn same_keys(s: &[Key], t: &[Key]) -> bool
    ensures { IsTrue result ↔ (s.now ≡ t.now) }
{
    if s.len() != t.len() {
        return false;
    }
    for (i, a) in s.iter().enumerate() {
        if !same_key(a, &t[i]) {
            return false;
        }
    }
    true
}
