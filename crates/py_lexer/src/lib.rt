//! The texts of cells cut into tokens, after "Lexical analysis" of the Python language reference. Identifiers follow
//! Unicode Standard Annex 31. Which texts are tokens, and how a text is cut, is defined in `specs/`.
#![tactic(auto)]

mod fault;
mod lexer;
mod number;
mod quoted;
mod sign;
mod token;
mod word;

pub use fault::LexFault;
pub use lexer::{cut_law, lex, span_law};
pub use token::{Token, TokenKind, Tokens};

#[cfg(test)]
mod tests;
