// What a line may hold.
ghost use Rattle.std.specs.Prelude.{◌≡◌, ◌≤◌, ◌^◌, ◌<◌, ◌+◌, length};
ghost use Rattle.py_lexer.specs.Cut.{open_after};
ghost use Rattle.py_lexer.specs.Span.{IsSpan, AreSpans};
ghost use Rattle.py_signs.specs.Signs.{text_of_token};
ghost use Rattle.py_signs.specs.Limits.{has_unsupported, is_unsupported, is_crowded};

use flow_base::PyText;
use py_lexer::{Token, TokenKind};

/// Whether a token is there that this language has not.
pub fn has_unsupported(tokens: &[Token]) -> bool
    ensures { result ≡ has_unsupported tokens.now }
{
    tokens.iter().any(|t| is_unsupported(t.kind))
}

fn is_unsupported(kind: TokenKind) -> bool
    ensures { result ≡ is_unsupported kind }
{
    matches!(kind, TokenKind::Unsupported)
}

/// Whether more than 200 brackets are open at some place.
pub fn is_crowded(text: &PyText, tokens: &[Token]) -> bool
    requires { AreSpans text.now 0 tokens.now }
    ensures { result ≡ is_crowded text.now 0 tokens.now }
{
    let mut nested = 0;
    for t in tokens {
        nested = open_after(nested, t.kind, text_of_token(text, *t));
        if 200 < nested {
            return true;
        }
    }
    false
}

fn text_of_token<'a>(text: &'a PyText, t: Token) -> &'a [char]
    requires { IsSpan text.now t }
    ensures { result.now ≡ text_of_token text.now t }
{
    &text.as_slice()[t.start..t.end]
}

// How many brackets are open behind a token.
fn open_after(nested: usize, kind: TokenKind, text: &[char]) -> usize
    requires { nested ≤ 200 }
    ensures { result ≡ open_after nested kind text.now }
{
    if kind != TokenKind::Op {
        return nested;
    }
    let [c] = text else {
        return nested;
    };
    match *c {
        '(' | '[' | '{' => nested + 1,
        ')' | ']' | '}' => nested.saturating_sub(1),
        _ => nested,
    }
}
