// Texts that are written from the left.
ghost use Rattle.std.specs.Prelude.{◌≡◌, ◌++◌, [], IfOk};

use flow_base::{NoMemory, PyText};
use std::alloc::Global;
use std::marker::Model;

/// A text that is written from the left. Contracts see the list of its code points.
#[derive(Drop)]
pub struct Draft {
    points: Vec<char>,
}

impl Model for Draft {
    ghost use Rattle.std.specs.Prelude.{ℕ, List};

    ghost Value = { List ℕ };

    ghost view = { λ d. d.points.items };
}

impl Draft {
    /// An empty text. Takes no memory.
    pub fn new(alloc: Global) -> Draft
        ensures { result ≡ [] }
    {
        Draft {
            points: Vec::new(alloc),
        }
    }

    /// The text with the characters of a word behind it, which is ASCII; of another, each of its bytes is a code point. Takes memory.
    pub fn with_word(self, word: &str) -> Result<Draft, NoMemory>
        ensures { IfOk result (λ draft. draft ≡ self ++ word.now) }
    {
        let mut points = self.points;
        for byte in word.as_bytes() {
            points.push(char::from(*byte))?;
        }
        Ok(Draft { points })
    }

    /// The text with code points behind it. Takes memory.
    pub fn with_points(self, more: &[char]) -> Result<Draft, NoMemory>
        ensures { IfOk result (λ draft. draft ≡ self ++ more.now) }
    {
        let mut points = self.points;
        points.extend_from_slice(more)?;
        Ok(Draft { points })
    }

    /// The text that was written. Takes memory.
    pub fn into_text(self, alloc: Global) -> Result<PyText, NoMemory>
        ensures { IfOk result (λ text. text ≡ self) }
    {
        PyText::from_points(alloc, self.points)
    }
}
