// What a text is cut into.
ghost use Rattle.std.specs.Prelude.{◌≡◌, ◌<◌, ◌++◌, ◌∷◌, [], OnOk, length, get_or};

use flow_base::NoMemory;
use std::alloc::Global;
use std::marker::Model;

/// What a token is: a name (Unicode Standard Annex 31) or a keyword, a whole number, a text literal, an operator or
/// delimiter, the end of a line outside brackets, or what this language has not of the tokens of Python.
#[derive(Clone, Copy, Debug, PartialEq, Eq)]
pub enum TokenKind {
    Word,
    Number,
    Text,
    Op,
    LineEnd,
    Unsupported,
}

/// A token: where it stands in the text, from the first code point to the one behind the last, and the line of the first,
/// from 1.
#[derive(Clone, Copy, Debug, PartialEq, Eq)]
pub struct Token {
    pub kind: TokenKind,
    pub start: usize,
    pub end: usize,
    pub line: u32,
}

/// The tokens of a text. Contracts see the list of them.
#[derive(Drop)]
pub struct Tokens {
    items: Vec<Token>,
}

impl Model for Tokens {
    ghost use Rattle.std.specs.Prelude.{List};
    ghost use Rattle.py_lexer.specs.declared.token.Token.{Token};

    ghost Value = { List Token };

    ghost view = { λ t. t.items.items };
}

impl Tokens {
    pub(crate) fn new(alloc: Global) -> Tokens
        ensures { result ≡ [] }
    {
        Tokens {
            items: Vec::new(alloc),
        }
    }

    pub(crate) fn push(&mut self, token: Token) -> Result<(), NoMemory>
        ensures { OnOk result (self.new ≡ self.old ++ token ∷ []) }
    {
        self.items.push(token)?;
        Ok(())
    }

    pub fn len(&self) -> usize
        ensures { result ≡ length self.now }
    {
        self.items.len()
    }

    /// The token at a place from 0.
    pub fn at(&self, i: usize) -> Token
        requires { i < length self.now }
        ensures { result ≡ get_or self.now i result }
    {
        self.items[i]
    }

    pub fn as_slice(&self) -> &[Token]
        ensures { result.now ≡ self.now }
    {
        self.items.as_slice()
    }
}
